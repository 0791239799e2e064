//! Batches of calls, each with the results that it is to get, executed by each engine.
use bfs_parallel::{Engine, Executor};
use bfs_serial::{Batch, FileSystem, Replies};
use bfs_testing::asserts::compared;
use bfs_testing::steps::Step;
use bfs_testing::words::same_bytes;
use bfs_testing_batches::engines::ALL;
use bfs_testing_batches::gates::AsksForThreads;
use bfs_types::Time;
use bfs_workers::Workers;
use std::alloc::{AllocGlobal, Global};
use std::sync::Wait;
use std::test::Fail;
use std::thread::Threads;

static WORKERS: &[u32] = &[1, 2, 3, 8, 64];

/// An engine with a number of workers, if there may be so many.
pub(crate) fn executor(engine: Option<Engine>, workers: u32) -> Option<Executor> {
    let workers = Workers::new(workers)?;
    Some(Executor { workers, engine })
}

/// Each engine with each number of workers.
pub(crate) fn executors(alloc: Global) -> Result<Vec<Executor>, Fail> {
    let mut executors = Vec::new(alloc);
    for engine in ALL {
        for count in WORKERS {
            executors.push(executor(*engine, *count).ok_or("workers")?)?;
        }
    }
    Ok(executors)
}

/// The file systems on which each executor has executed batches of calls, the first at one second, the next at two and so on. The
/// xids of a batch are 1, 2 and so on. It fails where a reply is not as it is to be.
pub(crate) fn files_by_each_engine<R: Threads + Wait + AllocGlobal + Sync>(
    rt: &R,
    batches: &[&[Step]],
) -> Result<Vec<FileSystem>, Fail> {
    let alloc = rt.alloc();
    let mut all = Vec::new(alloc);
    for executor in executors(alloc)? {
        let mut files = FileSystem::new(alloc)?;
        let mut second = 1;
        for steps in batches {
            let batch = batch_of(alloc, second, steps)?;
            let replies = executor.execute(rt, alloc, &mut files, &batch, &AsksForThreads)?;
            compare(alloc, &replies, steps)?;
            second = second.saturating_add(1);
        }
        all.push(files)?;
    }
    Ok(all)
}

/// As `files_by_each_engine`, where nothing is asked of the file systems afterwards.
pub(crate) fn by_each_engine<R: Threads + Wait + AllocGlobal + Sync>(
    rt: &R,
    batches: &[&[Step]],
) -> Result<(), Fail> {
    files_by_each_engine(rt, batches)?;
    Ok(())
}

/// The batch of these calls at that second.
pub(crate) fn batch_of(alloc: Global, second: u32, steps: &[Step]) -> Result<Batch, Fail> {
    let mut batch = Batch::new(alloc);
    batch.set_time(Time::new(second, 0).ok_or("a time")?);
    let mut xid = 1;
    for step in steps {
        batch.push(step.request(alloc, xid)?.as_slice())?;
        xid = xid.saturating_add(1);
    }
    Ok(batch)
}

/// Fails unless the replies are those that the calls are to get.
pub(crate) fn compare(alloc: Global, replies: &Replies, steps: &[Step]) -> Result<(), Fail> {
    compared(replies.len(), steps.len())?;
    let mut xid = 1;
    for index in 0..replies.len() {
        let step = steps.get(index).ok_or("a step for each reply")?;
        let wanted = step.reply(alloc, xid)?;
        same_bytes(alloc, replies.get(index), wanted.as_slice())?;
        xid = xid.saturating_add(1);
    }
    Ok(())
}
