//! What is done to file systems. None of it has a contract, so that the proofs of tests carry none.
use bfs_digest::{
    FrozenFiles, RestoreError, digest_parallel, digest_serial, freeze, restore, snapshot,
};
use bfs_parallel::{Engine, Executor};
use bfs_serial::{Batch, ExecError, FileSystem, Replies, execute_serial};
use bfs_testing::asserts::compared;
use bfs_testing::steps::Step;
use bfs_testing::words::request;
use bfs_testing_batches::gates::AsksForThreads;
use bfs_types::Time;
use bfs_workers::Workers;
use std::alloc::Global;
use std::sync::Wait;
use std::test::Fail;
use std::thread::Threads;

/// The file system of a text.
pub(crate) fn restored(alloc: Global, text: &[u8]) -> Result<FileSystem, RestoreError> {
    restore(alloc, text)
}

/// The text of a file system.
pub(crate) fn text_of(alloc: Global, files: &FileSystem) -> Result<Vec<u8>, ExecError> {
    snapshot(alloc, files)
}

/// The file system of the same text, in whose inodes nothing is kept.
pub(crate) fn copied(alloc: Global, files: &FileSystem) -> Result<FileSystem, Fail> {
    Ok(restored(alloc, text_of(alloc, files)?.as_slice())?)
}

/// The digest of a file system, made without threads.
pub(crate) fn digest_of(files: &FileSystem) -> Result<[u8; 32], ExecError> {
    digest_serial(files)
}

/// The digest of a file system, made on threads.
pub(crate) fn digest_on_threads(
    rt: &(impl Threads + Sync),
    alloc: Global,
    files: &FileSystem,
) -> Result<[u8; 32], ExecError> {
    digest_parallel(rt, alloc, files)
}

/// What the file system is, frozen. The inodes keep their digests from then on.
pub(crate) fn frozen(
    rt: &(impl Threads + Sync),
    alloc: Global,
    files: &mut FileSystem,
) -> Result<FrozenFiles, ExecError> {
    freeze(rt, alloc, files)
}

/// Has inodes keep their digests.
pub(crate) fn refreshed(
    rt: &(impl Threads + Sync),
    alloc: Global,
    files: &mut FileSystem,
) -> Result<(), ExecError> {
    freeze(rt, alloc, files)?;
    Ok(())
}

/// A batch without requests, at a time in seconds.
pub(crate) fn batch_at(alloc: Global, second: u32) -> Result<Batch, Fail> {
    let mut batch = Batch::new(alloc);
    batch.set_time(Time::new(second, 0).ok_or("a time")?);
    Ok(batch)
}

/// Puts bytes behind the batch's requests.
pub(crate) fn push(batch: &mut Batch, bytes: &[u8]) -> Result<(), Fail> {
    Ok(batch.push(bytes)?)
}

fn push_step(alloc: Global, batch: &mut Batch, step: &Step, xid: u32) -> Result<(), Fail> {
    push(batch, request(alloc, xid, step.0, step.1)?.as_slice())
}

fn push_steps(alloc: Global, batch: &mut Batch, steps: &[Step]) -> Result<(), Fail> {
    let mut xid = 1;
    for step in steps {
        push_step(alloc, batch, step, xid)?;
        xid = u32::saturating_add(xid, 1);
    }
    Ok(())
}

/// A batch of these calls, whose xids are 1, 2 and so on.
pub(crate) fn batch_of(alloc: Global, second: u32, steps: &[Step]) -> Result<Batch, Fail> {
    let mut batch = batch_at(alloc, second)?;
    push_steps(alloc, &mut batch, steps)?;
    Ok(batch)
}

/// The replies to a batch that is executed one request after another.
pub(crate) fn execute(
    alloc: Global,
    files: &mut FileSystem,
    batch: &Batch,
) -> Result<Replies, ExecError> {
    execute_serial(alloc, files, batch)
}

/// Executes these calls at a time in seconds.
pub(crate) fn execute_steps(
    alloc: Global,
    files: &mut FileSystem,
    second: u32,
    steps: &[Step],
) -> Result<(), Fail> {
    let batch = batch_of(alloc, second, steps)?;
    execute(alloc, files, &batch)?;
    Ok(())
}

/// A new file system on which these calls were executed, at 1.000000.
pub(crate) fn made(alloc: Global, steps: &[Step]) -> Result<FileSystem, Fail> {
    let mut files = FileSystem::new(alloc)?;
    execute_steps(alloc, &mut files, 1, steps)?;
    Ok(files)
}

fn executed_by<R: Threads + Wait + Sync>(
    rt: &R,
    alloc: Global,
    files: &mut FileSystem,
    batch: &Batch,
    executor: &Executor,
) -> Result<Replies, ExecError> {
    executor.execute(rt, alloc, files, batch, &AsksForThreads)
}

/// The replies to a batch that so many workers execute by an engine. It fails where the digest that is made on threads then is not that of
/// the file system.
pub(crate) fn execute_by<R: Threads + Wait + Sync>(
    rt: &R,
    alloc: Global,
    files: &mut FileSystem,
    batch: &Batch,
    engine: Engine,
    count: u32,
) -> Result<Replies, Fail> {
    let workers = Workers::new(count).ok_or("workers")?;
    let executor = Executor {
        workers,
        engine: Some(engine),
    };
    let replies = executed_by(rt, alloc, files, batch, &executor)?;
    compared(digest_on_threads(rt, alloc, files)?, digest_of(files)?)?;
    Ok(replies)
}
