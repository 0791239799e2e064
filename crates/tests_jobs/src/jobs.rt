//! Jobs that touch no inode, so that they can be run on any tree.
ghost use Rattle.std.specs.Prelude.{◌≡◌, [], All, IfOk, IsTrue};
ghost use Rattle.bfs_model.specs.Server.Footprints.{known};
ghost use Rattle.bfs_footprint.specs.Seen.{footprint_seen};
ghost use Rattle.bfs_tree.specs.Tree.{reach_of};
ghost use Rattle.bfs_handover.specs.Jobs.{CanRun};

use bfs_footprint::{Footprint, touch_of};
use bfs_handover::{Done, Job, Loans};
use bfs_testing::numbers::NULL;
use bfs_testing::words::{call, same_bytes, spelled};
use bfs_tree::Tree;
use bfs_types::{Memory, Ordinal, Time};
use bfs_workers::{Gate, Workers, run_queue, run_split};
use std::alloc::Global;
use std::sync::Wait;
use std::test::Fail;
use std::thread::Threads;

/// Calls of NULL, with the xids from 0 on.
pub(crate) fn calls(alloc: Global, count: u32) -> Result<Vec<Vec<u8>>, Memory> {
    let mut calls = Vec::new(alloc);
    for xid in 0..count {
        calls.push(call(alloc, xid, NULL)?)?;
    }
    Ok(calls)
}

/// A job for each of these requests, with the numbers from 0 on. It fails where a request touches an inode.
pub(crate) fn jobs_of<'a>(
    alloc: Global,
    tree: &Tree,
    requests: &'a [Vec<u8>],
) -> Result<Vec<Job<'a>>, Fail>
    requires { IsTrue ((reach_of tree.now).whole) }
    ensures { IfOk result (λ jobs. All (CanRun tree.now) jobs.items) }
{
    let mut jobs = Vec::new(alloc);
    let mut number = 0;
    for request in requests {
        jobs.push(job_of(alloc, tree, number, request.as_slice())?)?;
        number = number.checked_add(1).ok_or("a number")?;
    }
    Ok(jobs)
}

#[tactic(auto, using(crate::proofs::Nothing::can_run))]
fn job_of<'a>(alloc: Global, tree: &Tree, number: u32, request: &'a [u8]) -> Result<Job<'a>, Fail>
    requires { IsTrue ((reach_of tree.now).whole) }
    ensures { IfOk result (λ job. CanRun tree.now job) }
{
    let ordinal = Ordinal::first();
    let time = Time::new(1, 0).ok_or("a time")?;
    let touch = touch_of(tree, ordinal, time, request);
    if !is_none(&touch.footprint) {
        return Err("a request that touches an inode".into());
    }
    Ok(Job {
        number,
        request,
        ordinal,
        time,
        inodes: Loans::new(alloc),
    })
}

/// How workers come by their jobs: each is dealt its share before it starts, or they take them from one queue.
#[derive(Clone, Copy)]
pub(crate) enum Way {
    Dealt,
    Queued,
}

pub(crate) static WAYS: &[Way] = &[Way::Dealt, Way::Queued];

/// The results of a job for each of these requests, run that way by so many workers.
pub(crate) fn results_of<R: Threads + Wait + Sync, G: Gate + Sync>(
    rt: &R,
    alloc: Global,
    way: Way,
    count: u32,
    requests: &[Vec<u8>],
    gate: &G,
) -> Result<Vec<Done>, Fail> {
    let tree = Tree::new(alloc)?;
    let jobs = jobs_of(alloc, &tree, requests)?;
    let workers = Workers::new(count).ok_or("workers")?;
    let dones = match way {
        Way::Dealt => run_split(rt, alloc, workers, &tree, jobs, gate)?,
        Way::Queued => run_queue(rt, alloc, workers, &tree, jobs, gate)?,
    };
    Ok(dones)
}

fn is_none(footprint: &Footprint) -> bool
    ensures { IsTrue result → footprint_seen footprint.now ≡ known [] [] }
{
    match footprint {
        Footprint::Known { reads, writes } => {
            reads.as_slice().is_empty() && writes.as_slice().is_empty()
        }
        Footprint::Whole => false,
    }
}

/// Fails unless the results are those of calls of NULL with the numbers from 0 on as their xids, each once.
pub(crate) fn each_once(alloc: Global, dones: &[Done], count: u32) -> Result<(), Fail> {
    let mut seen = Vec::from_elem(alloc, false, count as usize)?;
    for done in dones {
        let place = seen.get_mut(done.number as usize).ok_or("a number")?;
        if *place {
            return Err("a number twice".into());
        }
        *place = true;
        let reply = spelled(alloc, &[&[done.number, 1, 0, 0, 0, 0]])?;
        same_bytes(alloc, done.reply.as_slice(), reply.as_slice())?;
    }
    if dones.len() != count as usize {
        return Err("results missing".into());
    }
    Ok(())
}
