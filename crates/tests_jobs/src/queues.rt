//! WRITEs to many files, run by workers from one queue, and merged.
use crate::splits::{all_split, made_by};
use bfs_handover::{Done, NumberedReply, merge};
use bfs_testing::asserts::compared;
use bfs_testing::words::{same_bytes, spelled};
use bfs_testing_batches::batches::{creates, writes};
use bfs_tree::Store;
use bfs_workers::{NoGate, Workers, run_queue};
use std::alloc::Global;
use std::sync::Wait;
use std::test::Fail;
use std::thread::Threads;

const FILES: u32 = 1024;

#[test]
fn each_of_many_writes_has_its_result_once(rt: HostRuntime) -> Result<(), Fail> {
    for workers in [1, 2, 3, 64] {
        run_and_merge(&rt, rt.alloc(), workers)?;
    }
    Ok(())
}

// WRITEs to so many files by so many workers: each number has one result, and the replies come in the order of the numbers
fn run_and_merge<R: Threads + Wait + Sync>(
    rt: &R,
    alloc: Global,
    workers: u32,
) -> Result<(), Fail> {
    let workers = Workers::new(workers).ok_or("workers")?;
    let batch = writes(alloc, FILES)?;
    let (mut tree, ordinal, time) = made_by(alloc, &creates(alloc, FILES)?)?;
    let (numbers, jobs) = all_split(alloc, &mut tree, &batch, ordinal, time)?;
    compared(tree.is_whole(), false)?;
    let dones = run_queue(rt, alloc, workers, &tree, jobs, &NoGate)?;
    are_numbered(alloc, dones.as_slice(), numbers.as_slice())?;
    let replies = merge(alloc, &mut tree, numbers.as_slice(), dones)?;
    are_written(alloc, replies)?;
    compared(tree.is_whole(), true)?;
    // nine for the root, of 32 bytes for each entry, `.` and `..`, and one for each file
    Ok(compared(tree.used_blocks(), 1033)?)
}

// each of these numbers stands once among the results
fn are_numbered(alloc: Global, dones: &[Done], numbers: &[u32]) -> Result<(), Fail> {
    let mut given: Vec<u32> = dones.iter().map(|done| done.number).collect(alloc)?;
    given.sort_unstable();
    compared(given.len(), FILES as usize)?;
    Ok(compared(given.as_slice() == numbers, true)?)
}

// each reply begins with its number as the xid, and goes on as that of a call that went well
fn are_written(alloc: Global, replies: Vec<NumberedReply>) -> Result<(), Fail> {
    compared(replies.len(), FILES as usize)?;
    let mut number = 0;
    for reply in replies {
        compared(reply.number, number)?;
        let head = spelled(alloc, &[&[number, 1, 0, 0, 0, 0, 0]])?;
        let first = reply.bytes.as_slice().get(..28).ok_or("a reply")?;
        same_bytes(alloc, first, head.as_slice())?;
        number = number.saturating_add(1);
    }
    Ok(())
}
