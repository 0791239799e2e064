//! A batch of many kinds of calls by each engine, whose replies are right, or memory has run out and the file system has failed: then what
//! its text spelled before is restored, and the replies to the batch are right. Nothing is refused in the gate's run of the tests:
//! `.ci/refusals` runs this one with each growth of memory, and each start of a thread, refused in turn.
use crate::engines::{batch_of, compare, executor};
use bfs_digest::{digest_parallel, digest_serial, freeze, restore, snapshot};
use bfs_parallel::Executor;
use bfs_serial::{Batch, ExecError, FileSystem, execute_serial};
use bfs_testing::numbers::{
    CREATE, GETATTR, LINK, MKDIR, OK, READDIR, REMOVE, RENAME, STATFS, SYMLINK, WRITE,
};
use bfs_testing::steps::Step;
use bfs_testing::words::{A, B, C, D, E, F, FIFTH, FOURTH, G, H, L, ROOT, SIXTH, THIRD, UNSET};
use bfs_testing::{attributes, holds};
use bfs_testing_batches::engines::ALL;
use bfs_testing_batches::gates::AsksForThreads;
use std::alloc::AllocGlobal;
use std::process::Abort;
use std::sync::Wait;
use std::test::Fail;
use std::thread::Threads;

// the directories `d` and `f`, and the files `a` and `b`
static MADE: &[Step] = &[
    Step(MKDIR, &[ROOT, D, UNSET], &[OK, THIRD, D_MADE]),
    Step(CREATE, &[ROOT, A, UNSET], &[OK, FOURTH, A_MADE]),
    Step(MKDIR, &[ROOT, F, UNSET], &[OK, FIFTH, F_MADE]),
    Step(CREATE, &[ROOT, B, UNSET], &[OK, SIXTH, B_MADE]),
];

const D_MADE: &[u32] = attributes!(directory 3, links 2, size 64, times 1 1 1);

const A_MADE: &[u32] = attributes!(file 4, links 1, size 0, blocks 0, times 1 1 1);

const F_MADE: &[u32] = attributes!(directory 5, links 2, size 64, times 1 1 1);

const B_MADE: &[u32] = attributes!(file 6, links 1, size 0, blocks 0, times 1 1 1);

// runs of four calls, of two, of three, and STATFS alone
static ASKED: &[Step] = &[
    Step(CREATE, &[ROOT, C, UNSET], &[OK, SEVENTH, C_MADE]),
    Step(WRITE, &[FOURTH, BYTE], &[OK, A_WRITTEN]),
    Step(MKDIR, &[THIRD, E, UNSET], &[OK, NINTH, E_MADE]),
    Step(SYMLINK, &[FIFTH, L, PATH, UNSET], &[OK]),
    Step(LINK, &[SIXTH, THIRD, H], &[OK]),
    Step(RENAME, &[ROOT, A, ROOT, G], &[OK]),
    Step(READDIR, &[ROOT, &[3, 512]], &[OK, LISTED]),
    Step(REMOVE, &[FIFTH, L], &[OK]),
    Step(WRITE, &[SIXTH, BYTE], &[OK, B_WRITTEN]),
    Step(STATFS, &[ROOT], &[OK, ROOM]),
    Step(GETATTR, &[FOURTH], &[OK, A_RENAMED]),
];

// an `a` at offset 0
const BYTE: &[u32] = &[0, 0, 0, 1, 0x61000000];

// the path `b`
const PATH: &[u32] = &[1, 0x62000000];

const SEVENTH: &[u32] = &[0x42465332, 1, 7, 0, 0, 0, 0, 0];

const NINTH: &[u32] = &[0x42465332, 1, 9, 0, 0, 0, 0, 0];

const C_MADE: &[u32] = attributes!(file 7, links 1, size 0, blocks 0, times 2 2 2);

const A_WRITTEN: &[u32] = attributes!(file 4, links 1, size 1, blocks 1, times 1 2 2);

const E_MADE: &[u32] = attributes!(directory 9, links 2, size 64, times 2 2 2);

// `f`, `b`, `c`, and `g`, whose cookie is the ordinal of its call
const LISTED: &[u32] = &[
    1, 5, 1, 0x66000000, 5, 1, 6, 1, 0x62000000, 6, 1, 7, 1, 0x63000000, 7, 1, 4, 1, 0x67000000,
    12, 0, 1,
];

const B_WRITTEN: &[u32] = attributes!(file 6, links 2, size 1, blocks 1, times 1 2 2);

// a block for each of the root, `d`, `d/e`, `f`, `g` and `b`
const ROOM: &[u32] = &[8192, 4096, 262144, 262138, 262138];

const A_RENAMED: &[u32] = attributes!(file 4, links 1, size 1, blocks 1, times 1 2 2);

#[test]
fn replies_rightly_or_has_failed(rt: HostRuntime) -> Result<(), Fail> {
    for engine in ALL {
        for count in [1, 2, 7] {
            let executor = executor(*engine, count).ok_or("workers")?;
            replies_or_fails(&rt, executor)?;
        }
    }
    Ok(())
}

fn replies_or_fails<R: Threads + Wait + AllocGlobal + Abort + Sync>(
    rt: &R,
    executor: Executor,
) -> Result<(), Fail> {
    let alloc = rt.alloc();
    let mut files = FileSystem::new(alloc)?;
    execute_serial(alloc, &mut files, &batch_of(alloc, 1, MADE)?)?;
    let text = snapshot(alloc, &files)?;
    let batch = batch_of(alloc, 2, ASKED)?;
    match executor.execute(rt, alloc, &mut files, &batch, &AsksForThreads) {
        Ok(replies) => compare(alloc, &replies, ASKED),
        Err(error) => {
            has_failed(rt, executor, &mut files, &batch);
            tells_nothing(rt, &mut files);
            is_executed(rt, executor, restore(alloc, text.as_slice())?, &batch)?;
            Err(error.into())
        }
    }
}

// whether it answers nothing any more, by either executor
fn has_failed<R: Threads + Wait + AllocGlobal + Abort + Sync>(
    rt: &R,
    executor: Executor,
    files: &mut FileSystem,
    batch: &Batch,
) {
    let alloc = rt.alloc();
    holds!(rt; !files.is_live());
    holds!(rt; files.tree().is_none());
    holds!(rt; files.next_ordinal().is_none());
    holds!(rt; execute_serial(alloc, files, batch).err() == Some(ExecError::Failed));
    holds!(rt; executor.execute(rt, alloc, files, batch, &AsksForThreads).err() == Some(ExecError::Failed));
    holds!(rt; !files.is_live());
}

// whether it has no text and no digest any more
fn tells_nothing<R: Threads + AllocGlobal + Abort + Sync>(rt: &R, files: &mut FileSystem) {
    let alloc = rt.alloc();
    holds!(rt; snapshot(alloc, files).err() == Some(ExecError::Failed));
    holds!(rt; digest_serial(files).err() == Some(ExecError::Failed));
    holds!(rt; digest_parallel(rt, alloc, files).err() == Some(ExecError::Failed));
    holds!(rt; freeze(rt, alloc, files).err() == Some(ExecError::Failed));
    holds!(rt; !files.is_live());
}

// executes the batch, and compares its replies
fn is_executed<R: Threads + Wait + AllocGlobal + Sync>(
    rt: &R,
    executor: Executor,
    mut files: FileSystem,
    batch: &Batch,
) -> Result<(), Fail> {
    let alloc = rt.alloc();
    let replies = executor.execute(rt, alloc, &mut files, batch, &AsksForThreads)?;
    compare(alloc, &replies, ASKED)
}
