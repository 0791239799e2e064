//! What happens to one replica, step after step, as tables. The proof of a test that tells it by calls takes many times as long.
use crate::parts::{Asked, reply};
use crate::replica::{
    Kind, advance_without_room, are_of, execute_without_room, is_ready, members, stable_numbers,
};
use bfs_messages::{Message, Signed};
use bfs_node::Node;
use bfs_testing::asserts::compared;
use bfs_testing_nodes::calls::{
    Said, Standing, advance, checkpoint, deliver, digest_of, execute, propose, standing_of, take,
};
use bfs_testing_nodes::snapshots::{snapshot_of, stable_of};
use bfs_types::Memory;
use std::alloc::Global;
use std::sync::Wait;
use std::test::Fail;
use std::thread::Threads;

/// What happens to the replica and what comes of it, or what is to hold then.
#[derive(Clone, Copy)]
pub enum Step {
    /// A request comes.
    Take(Asked, Said),
    /// The bytes of a request come.
    TakeBytesOf(Asked, Said),
    /// Bytes come.
    Deliver(&'static [u8], Said),
    /// A REPLY comes.
    TakeReply(Said),
    /// Requests of client 3 come, with the timestamps below that one, and wait.
    Fill(u32),
    /// It proposes what waits.
    Propose(Said),
    /// It executes the next batch.
    Execute(Said),
    /// It executes the next batch, and finds no memory for the requests in it.
    ExecuteWithoutRoom(Said),
    /// It executes all that is committed, and sends these.
    Advance(&'static [Kind]),
    /// It may execute nothing, by that number.
    AdvanceRefused(u32),
    /// It executes all that is committed, but finds no memory for any request.
    AdvanceWithoutRoom(Said),
    /// It proposes what waits so many times.
    Proposals(u32),
    /// It makes a checkpoint.
    Checkpoint(Said),
    /// It proposes and executes so many batches without requests, and before each it may make no checkpoint.
    Batches(u32),
    /// It stands so.
    Stands(Standing),
    /// Whether a batch may be executed.
    IsReady(bool),
    /// Whether it has a digest.
    HasDigest(bool),
    /// The number of its last stable checkpoint, and that of its stable snapshot.
    StableAt(u64, Option<u64>),
    /// None of its snapshots is stable.
    HasNoneStable,
    /// So many CHECKPOINTs tell its stable snapshot, and it has more bytes than that.
    HasStable(usize, usize),
}

fn took<R: Threads + Sync>(rt: &R, node: &mut Node, signed: Signed<Message>) -> Said {
    Said::of_all(&take(rt, node, signed))
}

fn heard<R: Threads + Sync>(rt: &R, node: &mut Node, bytes: &[u8]) -> Said {
    Said::of_all(&deliver(rt, node, bytes))
}

fn proposed(node: &mut Node) -> Said {
    Said::of_one(&propose(node, 1))
}

fn executed<R: Threads + Wait + Sync>(rt: &R, node: &mut Node) -> Said {
    Said::of_some(&execute(rt, node))
}

fn told<R: Threads + Sync>(rt: &R, node: &mut Node) -> Said {
    Said::of_one(&checkpoint(rt, node))
}

fn fill<R: Threads + Sync>(
    rt: &R,
    alloc: Global,
    node: &mut Node,
    count: u32,
) -> Result<bool, Memory> {
    for timestamp in 0..count {
        let asked = Asked {
            signer: 3,
            client: 3,
            timestamp,
        };
        if took(rt, node, asked.message(alloc)?) != Said::Sent(0) {
            return Ok(false);
        }
    }
    Ok(true)
}

fn batch<R: Threads + Wait + Sync>(rt: &R, node: &mut Node) -> bool {
    told(rt, node) == Said::Refused(26)
        && proposed(node) == Said::Sent(1)
        && executed(rt, node) == Said::Sent(0)
}

fn batches<R: Threads + Wait + Sync>(rt: &R, node: &mut Node, count: u32) -> bool {
    for _ in 0..count {
        if !batch(rt, node) {
            return false;
        }
    }
    true
}

fn proposals(node: &mut Node, count: u32) -> bool {
    for _ in 0..count {
        if proposed(node) != Said::Sent(1) {
            return false;
        }
    }
    true
}

fn advances<R: Threads + Wait + Sync>(rt: &R, node: &mut Node, wanted: &[Kind]) -> bool {
    match advance(rt, node) {
        Ok(sent) => are_of(&sent, wanted),
        Err(_) => false,
    }
}

fn has_stable(
    alloc: Global,
    node: &Node,
    checkpoints: usize,
    bytes: usize,
) -> Result<bool, Memory> {
    Ok(match snapshot_of(alloc, node)? {
        Some(stable) => {
            stable.checkpoint.checkpoints().len() == checkpoints && stable.text.len() > bytes
        }
        None => false,
    })
}

// whether it comes as it is told
fn happens<R: Threads + Wait + Sync>(
    rt: &R,
    alloc: Global,
    node: &mut Node,
    step: Step,
) -> Result<bool, Memory> {
    Ok(match step {
        Step::Take(asked, wanted) => took(rt, node, asked.message(alloc)?) == wanted,
        Step::TakeBytesOf(asked, wanted) => heard(rt, node, &asked.bytes(alloc)?) == wanted,
        Step::Deliver(bytes, wanted) => heard(rt, node, bytes) == wanted,
        Step::TakeReply(wanted) => took(rt, node, reply(alloc)?) == wanted,
        Step::Fill(count) => fill(rt, alloc, node, count)?,
        Step::Propose(wanted) => proposed(node) == wanted,
        Step::Execute(wanted) => executed(rt, node) == wanted,
        Step::ExecuteWithoutRoom(wanted) => execute_without_room(rt, node) == wanted,
        Step::Advance(wanted) => advances(rt, node, wanted),
        Step::AdvanceRefused(code) => { Said::of_all(&advance(rt, node)) == Said::Refused(code) }
        Step::AdvanceWithoutRoom(wanted) => advance_without_room(rt, node) == wanted,
        Step::Proposals(count) => proposals(node, count),
        Step::Checkpoint(wanted) => told(rt, node) == wanted,
        Step::Batches(count) => batches(rt, node, count),
        Step::Stands(wanted) => standing_of(node) == wanted,
        Step::IsReady(wanted) => is_ready(node) == wanted,
        Step::HasDigest(wanted) => digest_of(rt, node).is_ok() == wanted,
        Step::StableAt(low, snapshot) => stable_numbers(node) == (low, snapshot),
        Step::HasNoneStable => stable_of(node).is_none(),
        Step::HasStable(checkpoints, bytes) => has_stable(alloc, node, checkpoints, bytes)?,
    })
}

// the place of the first step that does not come as it is told
fn first_wrong<R: Threads + Wait + Sync>(
    rt: &R,
    alloc: Global,
    node: &mut Node,
    steps: &[Step],
) -> Result<Option<usize>, Memory> {
    for (place, step) in steps.iter().enumerate() {
        if !happens(rt, alloc, node, *step)? {
            return Ok(Some(place));
        }
    }
    Ok(None)
}

/// It all comes as it is told, at the replica of that number among 3f + 1, which has done nothing.
pub fn plays<R: Threads + Wait + Sync>(
    rt: &R,
    alloc: Global,
    f: u32,
    me: u32,
    steps: &[Step],
) -> Result<(), Fail> {
    let mut node = members(f).replica(alloc, me)?;
    compared(first_wrong(rt, alloc, &mut node, steps)?, None)?;
    Ok(())
}
