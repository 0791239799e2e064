//! What an empty batch does: it moves the time alone.
use crate::engines::executors;
use bfs_parallel::Executor;
use bfs_serial::{Batch, FileSystem};
use bfs_testing::{holds, same};
use bfs_testing_batches::gates::AsksForThreads;
use bfs_types::{FileId, Time};
use std::alloc::AllocGlobal;
use std::process::Abort;
use std::sync::Wait;
use std::test::Fail;
use std::thread::Threads;

#[test]
fn moves_time_alone_for_an_empty_batch(rt: HostRuntime) -> Result<(), Fail> {
    for executor in executors(rt.alloc())? {
        let mut files = FileSystem::new(rt.alloc())?;
        moves_time(&rt, &executor, &mut files, Time::new(5, 0), Time::new(5, 0))?;
        moves_time(&rt, &executor, &mut files, Time::new(3, 0), Time::new(5, 1))?;
    }
    Ok(())
}

fn moves_time<R: Threads + Wait + AllocGlobal + Abort + Sync>(
    rt: &R,
    executor: &Executor,
    files: &mut FileSystem,
    proposed: Option<Time>,
    last: Option<Time>,
) -> Result<(), Fail> {
    let mut batch = Batch::new(rt.alloc());
    holds!(rt; batch.is_empty());
    same!(rt; batch.time(), Time::epoch());
    batch.set_time(proposed.ok_or("a time")?);
    let replies = executor.execute(rt, rt.alloc(), files, &batch, &AsksForThreads)?;
    same!(rt; replies.len(), 0);
    same!(rt; files.last_time(), last);
    same!(rt; files.next_ordinal(), Some(3));
    let tree = files.tree().ok_or("a live file system")?;
    holds!(rt; tree.ids(rt.alloc())?.as_slice() == [FileId::root()].as_slice());
    Ok(())
}
