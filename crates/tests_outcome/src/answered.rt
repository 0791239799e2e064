//! Batches with requests that are new, that come again, that are old, and that are of no client; and the null request.
use crate::batches::{Asked, NEW, ROUNDS, at, call_of};
use crate::executed::{By, EACH, Replica};
use bfs_digest::digest_serial;
use bfs_messages::OrderedBatch;
use bfs_serial::{Batch, FileSystem, execute_serial};
use bfs_testing::{holds, same};
use bfs_testing_batches::gates::{AsksForThreads, Counts};
use bfs_types::Time;
use std::alloc::Global;
use std::sync::Wait;
use std::test::Fail;
use std::thread::Threads;

fn batch_of(alloc: Global, second: u32, requests: &[Asked]) -> Result<Batch, Fail> {
    let mut batch = Batch::new(alloc);
    batch.set_time(at(second)?);
    for asked in requests {
        batch.push(call_of(alloc, asked)?.as_slice())?;
    }
    Ok(batch)
}

// a file system on which the new requests are executed alone
fn files_of_new(alloc: Global) -> Result<FileSystem, Fail> {
    let mut files = FileSystem::new(alloc)?;
    for (second, requests) in NEW {
        let batch = batch_of(alloc, *second, *requests)?;
        execute_serial(alloc, &mut files, &batch)?;
    }
    Ok(files)
}

// the file system behind the three batches, where each answer is as it is to be
fn files_after<R: Threads + Wait + Sync>(
    rt: &R,
    alloc: Global,
    by: By,
) -> Result<FileSystem, Fail> {
    let mut replica = Replica::new(alloc)?;
    for round in ROUNDS {
        replica.execute_round(rt, round, by, &AsksForThreads)?;
    }
    Ok(replica.files)
}

#[test]
fn each_request_gets_the_reply_of_its_place(rt: HostRuntime) -> Result<(), Fail> {
    let alloc = rt.alloc();
    let wanted = digest_serial(&files_of_new(alloc)?)?;
    for by in EACH {
        let files = files_after(&rt, alloc, *by)?;
        // none of the others was executed
        same!(rt; files.next_ordinal(), Some(7));
        same!(rt; digest_serial(&files)?, wanted);
    }
    Ok(())
}

// how many requests of each of the three batches are new
const COUNTS: [usize; 3] = [3, 0, 1];

// an engine has each new request run by the gate, once, and no other; else no request is
fn are_run<R: Threads + Wait + Sync>(rt: &R, alloc: Global, by: By) -> Result<bool, Fail> {
    let mut replica = Replica::new(alloc)?;
    for (round, count) in ROUNDS.iter().zip(COUNTS) {
        let gate = Counts::of(alloc, 8)?;
        replica.execute_round(rt, round, by, &gate)?;
        let run = if by.is_some() { count } else { 0 };
        if !gate.are_one_each_below(run) {
            return Ok(false);
        }
    }
    Ok(true)
}

#[test]
fn each_new_request_is_run_by_the_gate(rt: HostRuntime) -> Result<(), Fail> {
    for by in EACH {
        holds!(rt; are_run(&rt, rt.alloc(), *by)?);
    }
    Ok(())
}

#[test]
fn the_null_request_changes_nothing(rt: HostRuntime) -> Result<(), Fail> {
    let alloc = rt.alloc();
    let null = OrderedBatch::null();
    for by in EACH {
        let mut replica = Replica::new(alloc)?;
        let left = replica.execute(&rt, &null, *by, &AsksForThreads)?;
        holds!(rt; left.to_record.is_empty());
        holds!(rt; left.to_answer.is_empty());
        same!(rt; replica.files.next_ordinal(), Some(3));
        same!(rt; replica.files.last_time(), Some(Time::epoch()));
    }
    Ok(())
}
