//! The replies and the file system are those of the serial executor.
use bfs_parallel::{Engine, execute_parallel};
use bfs_serial::{Batch, FileSystem, execute_serial};
use bfs_testing::asserts::compared;
use bfs_testing_batches::batches::same_replies;
use bfs_testing_batches::engines::ON_THREADS;
use bfs_testing_batches::gates::AsksForThreads;
use bfs_workers::{Gate, NoGate, Workers};
use std::alloc::AllocGlobal;
use std::sync::Wait;
use std::test::Fail;
use std::thread::Threads;

/// Fails unless the batches, executed on a new file system by each engine with each of these numbers of workers, get the replies and
/// leave the file system that they do one request after another. One gate asks for threads, and one doesn't.
pub(crate) fn by_each_engine<R: Threads + Wait + AllocGlobal + Sync>(
    rt: &R,
    counts: &[u32],
    batches: &[Batch],
) -> Result<(), Fail> {
    for engine in ON_THREADS {
        for count in counts {
            let workers = Workers::new(*count).ok_or("workers")?;
            by_workers(rt, *engine, workers, batches, &NoGate)?;
            by_workers(rt, *engine, workers, batches, &AsksForThreads)?;
        }
    }
    Ok(())
}

fn by_workers<R: Threads + Wait + AllocGlobal + Sync, G: Gate + Sync>(
    rt: &R,
    engine: Engine,
    workers: Workers,
    batches: &[Batch],
    gate: &G,
) -> Result<(), Fail> {
    let alloc = rt.alloc();
    let mut files = FileSystem::new(alloc)?;
    let mut others = FileSystem::new(alloc)?;
    for batch in batches {
        let wanted = execute_serial(alloc, &mut others, batch)?;
        let replies = execute_parallel(rt, alloc, &mut files, batch, workers, engine, gate)?;
        same_replies(&replies, &wanted)?;
        compared(files.next_ordinal(), others.next_ordinal())?;
        compared(files.last_time(), others.last_time())?;
    }
    let tree = files.tree().ok_or("a live file system")?;
    let other = others.tree().ok_or("a live file system")?;
    compared(
        tree.ids(alloc)?.as_slice() == other.ids(alloc)?.as_slice(),
        true,
    )?;
    Ok(())
}
