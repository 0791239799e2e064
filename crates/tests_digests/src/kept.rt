//! Digests that inodes keep: which there are, that a change of an inode drops its own alone, and what the digest of the file system is then.
use crate::files::{
    batch_at, batch_of, copied, digest_of, digest_on_threads, execute, execute_by, execute_steps,
    frozen, made, push, refreshed, text_of,
};
use bfs_digest::FrozenFiles;
use bfs_inode::{Body, FileBlocks, Inode};
use bfs_parallel::Engine;
use bfs_serial::{ExecError, FileSystem};
use bfs_testing::asserts::compared;
use bfs_testing::holds;
use bfs_testing::numbers::{
    CREATE, GETATTR, LINK, LOOKUP, MKDIR, READ, READDIR, READLINK, REMOVE, RENAME, RMDIR, SETATTR,
    STATFS, SYMLINK, WRITE,
};
use bfs_testing::steps::Step;
use bfs_testing::words::{
    A, B, C, D, E, EIGHTH, F, FIFTH, FOURTH, G, L, ROOT, SEVENTH, SIXTH, THIRD, UNSET, request,
};
use bfs_tree::BoxedInode;
use bfs_types::{FileId, Memory};
use std::alloc::Global;
use std::process::Abort;
use std::sync::Wait;
use std::test::Fail;
use std::thread::Threads;

// directories 3 and 4 in the root, files 5 and 6 in the first, of which 6 has a name in the second too, a directory 7 in the first, and a
// symbolic link 8 in the root
static MADE: &[Step] = &[
    Step(MKDIR, &[ROOT, D, UNSET], &[]),
    Step(MKDIR, &[ROOT, E, UNSET], &[]),
    Step(CREATE, &[THIRD, A, UNSET], &[]),
    Step(CREATE, &[THIRD, B, UNSET], &[]),
    Step(MKDIR, &[THIRD, C, UNSET], &[]),
    Step(SYMLINK, &[ROOT, L, A, UNSET], &[]),
    Step(LINK, &[SIXTH, FOURTH, B], &[]),
];

const LAST: u32 = 8;

const READ_ONLY: &[u32] = &[
    0o600, 0xffffffff, 0xffffffff, 0xffffffff, 0xffffffff, 0xffffffff, 0xffffffff, 0xffffffff,
];

// a call each, and the fileids of the inodes that it changes or makes
static CHANGES: &[(Step, &[u32])] = &[
    (Step(SETATTR, &[FIFTH, READ_ONLY], &[]), &[5]),
    (Step(SETATTR, &[THIRD, READ_ONLY], &[]), &[3]),
    (Step(WRITE, &[FIFTH, &[0, 0, 0, 1, 0x61000000]], &[]), &[5]),
    (Step(CREATE, &[FOURTH, F, UNSET], &[]), &[4, 10]),
    (Step(CREATE, &[THIRD, A, UNSET], &[]), &[]),
    (Step(SYMLINK, &[FOURTH, F, A, UNSET], &[]), &[4, 10]),
    (Step(MKDIR, &[SEVENTH, F, UNSET], &[]), &[7, 10]),
    (Step(REMOVE, &[THIRD, A], &[]), &[3]),
    (Step(REMOVE, &[THIRD, B], &[]), &[3, 6]),
    (Step(RMDIR, &[THIRD, C], &[]), &[3]),
    (Step(LINK, &[FIFTH, FOURTH, G], &[]), &[4, 5]),
    (Step(RENAME, &[THIRD, A, THIRD, G], &[]), &[3, 5]),
    (Step(RENAME, &[THIRD, A, FOURTH, B], &[]), &[3, 4, 5, 6]),
    (Step(RENAME, &[THIRD, C, FOURTH, C], &[]), &[3, 4, 7]),
    (Step(RENAME, &[THIRD, F, FOURTH, C], &[]), &[]),
    (Step(READ, &[FIFTH, &[0, 8, 0]], &[]), &[]),
    (Step(READLINK, &[EIGHTH], &[]), &[]),
    (Step(READDIR, &[THIRD, &[0, 512]], &[]), &[]),
    (Step(LOOKUP, &[THIRD, A], &[]), &[]),
    (Step(GETATTR, &[FIFTH], &[]), &[]),
    (Step(STATFS, &[ROOT], &[]), &[]),
];

// whether the digest of that inode is kept
fn keeps(inode: &BoxedInode, number: u32) -> bool {
    inode.kept_digest(FileId::new(number)).is_some()
}

// the fileids of the inodes that don't keep their digest
fn without(alloc: Global, files: &FileSystem) -> Result<Vec<u32>, Fail> {
    let mut ids = Vec::new(alloc);
    let tree = files.tree().ok_or("a tree")?;
    for (number, inode) in tree.boxes() {
        if !keeps(inode, *number) {
            ids.push(*number)?;
        }
    }
    Ok(ids)
}

// both digests of the file system are that of what its text spells, in whose inodes nothing is kept
fn is_digested(rt: &(impl Threads + Sync), alloc: Global, files: &FileSystem) -> Result<(), Fail> {
    let wanted = digest_of(&copied(alloc, files)?)?;
    compared(digest_of(files)?, wanted)?;
    Ok(compared(digest_on_threads(rt, alloc, files)?, wanted)?)
}

// just these inodes don't keep their digest, and both digests of the file system are right
fn is_kept_but(
    rt: &(impl Threads + Sync),
    alloc: Global,
    files: &FileSystem,
    ids: &[u32],
) -> Result<(), Fail> {
    compared(without(alloc, files)?.as_slice(), ids)?;
    is_digested(rt, alloc, files)
}

// the inodes keep their digests from then on
fn keeps_all(
    rt: &(impl Threads + Sync),
    alloc: Global,
    files: &mut FileSystem,
) -> Result<(), Fail> {
    refreshed(rt, alloc, files)?;
    is_kept_but(rt, alloc, files, &[])
}

// under how many of the fileids up to one more than the last an inode keeps a digest
fn count_of(inode: &BoxedInode) -> u32 {
    let mut count: u32 = 0;
    for number in 0..=LAST + 1 {
        if keeps(inode, number) {
            count = count.wrapping_add(1);
        }
    }
    count
}

// the same of all inodes
fn kept_under(files: &FileSystem) -> Option<u32> {
    let mut count: u32 = 0;
    for (_, inode) in files.tree()?.boxes() {
        count = count.wrapping_add(count_of(inode));
    }
    Some(count)
}

#[test]
fn keeps_the_digest_of_each_inode(rt: HostRuntime) -> Result<(), Fail> {
    let alloc = rt.alloc();
    let mut files = made(alloc, MADE)?;
    is_kept_but(&rt, alloc, &files, &[2, 3, 4, 5, 6, 7, 8])?;
    let text = text_of(alloc, &files)?;
    keeps_all(&rt, alloc, &mut files)?;
    // under its own fileid alone
    compared(kept_under(&files), Some(7))?;
    compared(text_of(alloc, &files)?.as_slice(), text.as_slice())?;
    // again, with nothing to hash
    keeps_all(&rt, alloc, &mut files)
}

// the call drops the digests of just these, and the next refresh makes them again
fn drops_in(
    rt: &(impl Threads + Sync),
    alloc: Global,
    files: &mut FileSystem,
    change: &(Step, &[u32]),
) -> Result<(), Fail> {
    refreshed(rt, alloc, files)?;
    let before = digest_of(files)?;
    let mut batch = batch_at(alloc, 2)?;
    push(
        &mut batch,
        request(alloc, 1, change.0.0, change.0.1)?.as_slice(),
    )?;
    execute(alloc, files, &batch)?;
    is_kept_but(rt, alloc, files, change.1)?;
    compared(digest_of(files)? == before, false)?;
    keeps_all(rt, alloc, files)
}

fn drops(rt: &(impl Threads + Sync), alloc: Global, change: &(Step, &[u32])) -> Result<(), Fail> {
    let mut files = made(alloc, MADE)?;
    drops_in(rt, alloc, &mut files, change)
}

#[test]
fn drops_the_digest_of_what_changes(rt: HostRuntime) -> Result<(), Fail> {
    for change in CHANGES {
        drops(&rt, rt.alloc(), change)?;
    }
    Ok(())
}

static CREATED: &[Step] = &[Step(CREATE, &[ROOT, A, UNSET], &[])];

// of a file of up to 25 blocks
#[derive(Drop)]
enum Change {
    // 8,192 bytes at an offset, all spelled by one word
    Write(u32, u32),
    Size(u32),
}

fn write(alloc: Global, offset: u32, word: u32) -> Result<Vec<u8>, Memory> {
    let bytes = [word; 2_048];
    request(alloc, 1, WRITE, &[THIRD, &[0, offset, 0, 8_192], &bytes])
}

fn resize(alloc: Global, size: u32) -> Result<Vec<u8>, Memory> {
    let same = u32::MAX;
    let settings = [same, same, same, size, same, same, same, same];
    request(alloc, 1, SETATTR, &[THIRD, &settings])
}

fn request_of(alloc: Global, change: &Change) -> Result<Vec<u8>, Memory> {
    match change {
        Change::Write(offset, word) => write(alloc, *offset, *word),
        Change::Size(size) => resize(alloc, *size),
    }
}

// of how many blocks the file keeps the digests behind each, and behind the next refresh
static CHANGES_OF_A_LARGE_FILE: &[(Change, u32, u32)] = &[
    (Change::Size(81_920), 0, 20),
    (Change::Write(0, 0x61626364), 18, 20),
    (Change::Write(73_728, 0x65666768), 18, 20),
    // within three blocks
    (Change::Write(6_000, 0x696a6b6c), 17, 20),
    // over the end, up to a short last block
    (Change::Write(77_000, 0x6d6e6f70), 18, 21),
    // a block is cut, and then grows by zeros
    (Change::Size(79_000), 19, 20),
    (Change::Size(81_000), 19, 20),
    // behind the end, with zeros between
    (Change::Write(90_000, 0x71727374), 19, 24),
    // at the end of a block, and before it
    (Change::Size(65_536), 16, 16),
    (Change::Size(65_535), 15, 16),
    (Change::Size(40_000), 9, 10),
    (Change::Write(39_000, 0x75767778), 9, 12),
    (Change::Size(0), 0, 0),
    (Change::Size(100_000), 0, 25),
    (Change::Write(50_000, 0x797a3031), 22, 25),
];

fn count_blocks(data: &FileBlocks) -> u32 {
    let mut count: u32 = 0;
    for number in 0..25 {
        if data.kept_block(number).is_some() {
            count = count.wrapping_add(1);
        }
    }
    count
}

fn blocks_of(inode: &Inode) -> Option<u32> {
    match inode.body() {
        Body::File(data) => Some(count_blocks(data)),
        _ => None,
    }
}

fn kept_blocks(files: &FileSystem) -> Option<u32> {
    blocks_of(files.tree()?.home(FileId::new(3))?)
}

fn execute_change(alloc: Global, files: &mut FileSystem, change: &Change) -> Result<(), Fail> {
    let mut batch = batch_at(alloc, 2)?;
    push(&mut batch, request_of(alloc, change)?.as_slice())?;
    execute(alloc, files, &batch)?;
    Ok(())
}

fn keeps_what_stays(
    rt: &(impl Threads + Sync),
    alloc: Global,
    files: &mut FileSystem,
    row: &(Change, u32, u32),
) -> Result<(), Fail> {
    execute_change(alloc, files, &row.0)?;
    compared(kept_blocks(files), Some(row.1))?;
    is_kept_but(rt, alloc, files, &[3])?;
    refreshed(rt, alloc, files)?;
    compared(kept_blocks(files), Some(row.2))?;
    is_kept_but(rt, alloc, files, &[])
}

fn keeps_what_stays_each(
    rt: &(impl Threads + Sync),
    alloc: Global,
    files: &mut FileSystem,
) -> Result<(), Fail> {
    for row in CHANGES_OF_A_LARGE_FILE {
        keeps_what_stays(rt, alloc, files, row)?;
    }
    Ok(())
}

#[test]
fn keeps_the_digests_of_the_blocks_that_stay(rt: HostRuntime) -> Result<(), Fail> {
    let mut files = made(rt.alloc(), CREATED)?;
    refreshed(&rt, rt.alloc(), &mut files)?;
    keeps_what_stays_each(&rt, rt.alloc(), &mut files)
}

// 5 is changed, and 6 read
static TOUCHED: &[Step] = &[
    Step(SETATTR, &[FIFTH, READ_ONLY], &[]),
    Step(READ, &[SIXTH, &[0, 8, 0]], &[]),
    Step(READDIR, &[THIRD, &[0, 512]], &[]),
];

fn goes<R: Threads + Wait + Sync>(rt: &R, alloc: Global, engine: Engine) -> Result<(), Fail> {
    let mut files = made(alloc, MADE)?;
    refreshed(rt, alloc, &mut files)?;
    let batch = batch_of(alloc, 2, TOUCHED)?;
    execute_by(rt, alloc, &mut files, &batch, engine, 3)?;
    is_kept_but(rt, alloc, &files, &[5])
}

#[test]
fn goes_with_an_inode_to_a_worker(rt: HostRuntime) -> Result<(), Fail> {
    goes(&rt, rt.alloc(), Engine::Runs)?;
    goes(&rt, rt.alloc(), Engine::Levels)
}

// whether it was live
fn fail(files: &mut FileSystem) -> bool {
    files.take_parts().is_some()
}

#[test]
fn refreshes_none_that_has_failed(rt: HostRuntime) -> Result<(), Fail> {
    let alloc = rt.alloc();
    let mut files = FileSystem::new(alloc)?;
    holds!(rt; fail(&mut files));
    holds!(rt; refreshed(&rt, alloc, &mut files) == Err(ExecError::Failed));
    holds!(rt; !files.is_live());
    Ok(())
}

// the text and the digest of what is frozen are these
fn is_of(alloc: Global, frozen: &FrozenFiles, text: &[u8], digest: &[u8; 32]) -> Result<(), Fail> {
    let mut put = Vec::new(alloc);
    frozen.put_text(&mut put)?;
    compared(put.as_slice(), text)?;
    Ok(compared(frozen.digest(), digest)?)
}

// what is frozen before and behind a call is what the file system was then, also once one of both is gone
fn stays_behind(
    rt: &(impl Threads + Sync),
    alloc: Global,
    files: &mut FileSystem,
    step: &[Step],
) -> Result<(), Fail> {
    let (text, digest) = (text_of(alloc, files)?, digest_of(files)?);
    let before = frozen(rt, alloc, files)?;
    execute_steps(alloc, files, 2, step)?;
    let behind = frozen(rt, alloc, files)?;
    is_of(alloc, &before, text.as_slice(), &digest)?;
    drop(before);
    let text = text_of(alloc, files)?;
    is_of(alloc, &behind, text.as_slice(), &digest_of(files)?)
}

static MORE_CHANGES: &[&[Step]] = &[
    &[Step(WRITE, &[FIFTH, &[0, 0, 0, 1, 0x61000000]], &[])],
    &[Step(SETATTR, &[FIFTH, READ_ONLY], &[])],
    &[Step(CREATE, &[FOURTH, F, UNSET], &[])],
    &[Step(REMOVE, &[THIRD, A], &[])],
    &[Step(RENAME, &[THIRD, A, FOURTH, B], &[])],
    &[Step(MKDIR, &[SEVENTH, F, UNSET], &[])],
    &[Step(GETATTR, &[FIFTH], &[])],
];

#[test]
fn what_is_frozen_stays(rt: HostRuntime) -> Result<(), Fail> {
    let mut files = made(rt.alloc(), MADE)?;
    for steps in MORE_CHANGES {
        stays_behind(&rt, rt.alloc(), &mut files, steps)?;
    }
    Ok(())
}

// of 80 blocks, of which no two are equal, and which threads hash
fn written(alloc: Global) -> Result<FileSystem, Fail> {
    let mut files = made(alloc, CREATED)?;
    for number in 0u32..40 {
        let write = Change::Write(number.wrapping_mul(8_192), number.wrapping_add(1));
        execute_change(alloc, &mut files, &write)?;
    }
    Ok(files)
}

// what was frozen, if that was not refused, is still what the file system was
fn was_frozen(
    alloc: Global,
    frozen: &Result<FrozenFiles, ExecError>,
    files: &FileSystem,
) -> Result<(), Fail> {
    match frozen {
        Ok(frozen) => is_of(
            alloc,
            frozen,
            text_of(alloc, files)?.as_slice(),
            &digest_of(files)?,
        ),
        Err(_) => Ok(()),
    }
}

/// Nothing is refused in the gate's run of the tests: `.ci/refusals` runs this one with each growth of memory, and each start of a thread,
/// refused in turn.
#[test]
fn freezes_or_stays_as_it_was(rt: HostRuntime) -> Result<(), Fail> {
    let alloc = rt.alloc();
    let mut files = written(alloc)?;
    let text = text_of(alloc, &files)?;
    let frozen = frozen(&rt, alloc, &mut files);
    compared(text_of(alloc, &files)?.as_slice(), text.as_slice())?;
    is_digested(&rt, alloc, &files)?;
    was_frozen(alloc, &frozen, &files)?;
    // once there is memory
    keeps_all(&rt, alloc, &mut files)
}
