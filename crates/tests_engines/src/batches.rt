//! Batches of all lengths, and with much to write or to read.
use crate::alike::by_each_engine;
use bfs_parallel::execute_parallel;
use bfs_serial::{Batch, ExecError, FileSystem};
use bfs_testing::asked::Asked;
use bfs_testing::holds;
use bfs_testing_batches::batches::{creates, large_reads, large_writes, writes};
use bfs_testing_batches::engines::ON_THREADS;
use bfs_types::Time;
use bfs_workers::{NoGate, Workers};
use std::alloc::Global;
use std::process::Abort;
use std::test::Fail;

const FILES: u32 = 9;

fn push(alloc: Global, batch: &mut Batch, xid: u32, asked: Asked) -> Result<(), Fail> {
    batch.push(asked.request(alloc, xid)?.as_slice())?;
    Ok(())
}

// runs of all lengths: writes to all files, a call alone, pairs, calls that conflict, and bytes that are no call
fn mixed(alloc: Global) -> Result<Batch, Fail> {
    let mut batch = Batch::new(alloc);
    batch.set_time(Time::new(2, 0).ok_or("a time")?);
    for value in 0..FILES {
        let file = value + 3;
        push(alloc, &mut batch, value, Asked::Write { file, value })?;
    }
    push(alloc, &mut batch, 100, Asked::Status)?;
    for value in 0..FILES {
        let file = value / 2 + 3;
        push(alloc, &mut batch, 200 + value, Asked::Write { file, value })?;
    }
    batch.push(&[])?;
    for index in 0..FILES {
        let name = index * 2;
        push(
            alloc,
            &mut batch,
            300 + index,
            Asked::Remove { dir: 2, name },
        )?;
        let file = index + 3;
        push(alloc, &mut batch, 400 + index, Asked::Attributes { file })?;
    }
    Ok(batch)
}

#[test]
fn executes_batches_as_one_after_another(rt: HostRuntime) -> Result<(), Fail> {
    let batches = [creates(rt.alloc(), FILES)?, mixed(rt.alloc())?];
    by_each_engine(&rt, &[1, 2, 7, 64], &batches)
}

// none, fewer than workers, as many, more, and as many as a batch can have
#[test]
fn executes_as_many_requests_as_there_are(rt: HostRuntime) -> Result<(), Fail> {
    for count in [0, 2, 63, 64, 65, 1024] {
        let batches = [creates(rt.alloc(), count)?, writes(rt.alloc(), count)?];
        by_each_engine(&rt, &[64], &batches)?;
    }
    Ok(())
}

// so many bytes that each engine plans the whole batch, and starts threads for it where there are workers enough, whatever the gate asks for
#[test]
fn executes_much_to_write_and_to_read_as_one_after_another(rt: HostRuntime) -> Result<(), Fail> {
    let alloc = rt.alloc();
    let batches = [
        creates(alloc, 520)?,
        large_writes(alloc, 520)?,
        large_reads(alloc, 520)?,
    ];
    by_each_engine(&rt, &[2, 3, 8], &batches)
}

#[test]
fn answers_that_a_file_system_has_failed(rt: HostRuntime) -> Result<(), Fail> {
    let alloc = rt.alloc();
    let mut files = FileSystem::new(alloc)?;
    let workers = Workers::new(2).ok_or("workers")?;
    let batch = creates(alloc, 2)?;
    holds!(rt; files.take_parts().is_some());
    for engine in ON_THREADS {
        let refused = execute_parallel(&rt, alloc, &mut files, &batch, workers, *engine, &NoGate);
        holds!(rt; refused.err() == Some(ExecError::Failed));
    }
    Ok(())
}
