//! Generated batches of requests on few inodes and few names, so that most conflict.
use crate::alike::by_each_engine;
use bfs_serial::Batch;
use bfs_testing::generated::Generator;
use bfs_testing::numbers::{
    CREATE, GETATTR, LINK, LOOKUP, MKDIR, READ, READDIR, REMOVE, RENAME, RMDIR, SETATTR, WRITE,
};
use bfs_types::Time;
use std::alloc::{AllocGlobal, Global};
use std::sync::Wait;
use std::test::Fail;
use std::thread::Threads;

// WRITE so often that files are written again and again
static PROCEDURES: &[u32] = &[
    GETATTR, SETATTR, LOOKUP, READ, CREATE, REMOVE, RENAME, LINK, MKDIR, RMDIR, READDIR, WRITE,
    WRITE, WRITE,
];

fn batches_from(alloc: Global, state: u64, callers: u32) -> Result<Vec<Batch>, Fail> {
    let mut generator = Generator {
        state,
        procedures: PROCEDURES,
        files: (3, 10),
        dirs: (2, 4),
        names: 5,
        callers,
    };
    let mut batches = Vec::new(alloc);
    for second in 1..9 {
        let mut batch = Batch::new(alloc);
        batch.set_time(Time::new(second, 0).ok_or("a time")?);
        for _ in 0..40 {
            batch.push(generator.request(alloc)?.as_slice())?;
        }
        batches.push(batch)?;
    }
    Ok(batches)
}

fn are_alike<R: Threads + Wait + AllocGlobal + Sync>(
    rt: &R,
    states: u64,
    callers: u32,
) -> Result<(), Fail> {
    for state in 0..states {
        let batches = batches_from(rt.alloc(), state, callers)?;
        by_each_engine(rt, &[1, 2, 64], batches.as_slice())?;
    }
    Ok(())
}

#[test]
fn generated_batches(rt: HostRuntime) -> Result<(), Fail> {
    are_alike(&rt, 6, 0)
}

// modes and owners of directories change in front of calls that resolve names there
#[test]
fn generated_batches_of_callers(rt: HostRuntime) -> Result<(), Fail> {
    are_alike(&rt, 6, 4)
}
