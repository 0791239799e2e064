//! Replicas of which it is put down what they do: those that do it again are as they are.
use crate::lives::Lives;
use crate::replica::MEMBERS;
use bfs_node::{Executor, Node};
use bfs_steps::{ReplayError, replay};
use bfs_testing::changes::Changes;
use bfs_testing::holds;
use bfs_types::Memory;
use std::alloc::Global;
use std::sync::Wait;
use std::test::Fail;
use std::thread::Threads;

// Whether the bytes spell steps, which it does then.
fn does<R: Threads + Wait + Sync>(
    rt: &R,
    alloc: Global,
    node: &mut Node,
    body: &[u8],
) -> Result<bool, Memory> {
    match replay(node, rt, Executor::serial(), alloc, body) {
        Ok(()) => Ok(true),
        Err(ReplayError::Malformed) => Ok(false),
        Err(ReplayError::Memory) => Err(Memory),
    }
}

// Whether both have one text.
fn are_same(one: &Node, other: &Node) -> Result<bool, Memory> {
    Ok(one.save()?.as_slice() == other.save()?.as_slice())
}

// What replica 1 does in steps of all kinds, and whether another one that does it again, behind each step, is as it is.
fn done<R: Threads + Wait + Sync>(
    rt: &R,
    alloc: Global,
    steps: u32,
) -> Result<(Vec<u8>, bool), Memory> {
    let mut lives = Lives::new(alloc, 7)?;
    let mut again = MEMBERS.replica(alloc, 1)?;
    let (mut all, mut is_same) = (Vec::new(alloc), true);
    for step in 0..steps {
        if step % 4 == 0 {
            lives.other_step(rt)?;
        } else {
            lives.step(rt)?;
        }
        let body = lives.take_done(1);
        all.extend_from_slice(&body)?;
        is_same &= does(rt, alloc, &mut again, &body)?;
        if let Some(node) = lives.node(1) {
            is_same &= body.is_empty() || are_same(node, &again)?;
        }
    }
    Ok((all, is_same))
}

#[test]
fn what_was_done_is_done_again(rt: HostRuntime) -> Result<(), Fail> {
    let alloc = rt.alloc();
    let (_, is_same) = done(&rt, alloc, 400)?;
    holds!(rt; is_same);
    Ok(())
}

#[test]
fn changed_steps_are_refused_or_are_others(rt: HostRuntime) -> Result<(), Fail> {
    let alloc = rt.alloc();
    let (all, _) = done(&rt, alloc, 80)?;
    let (other, _) = done(&rt, alloc, 60)?;
    let mut changes = Changes { state: 3 };
    let (mut is_any_refused, mut is_any_done) = (false, false);
    for _ in 0..100 {
        let (_, changed) = changes.changed(alloc, &all, &other)?;
        let mut node = MEMBERS.replica(alloc, 1)?;
        if does(&rt, alloc, &mut node, &changed)? {
            is_any_done = true;
        } else {
            is_any_refused = true;
        }
    }
    holds!(rt; is_any_refused && is_any_done);
    Ok(())
}
