//! File systems that are restored, and then executed on.
use crate::files::{
    batch_of, copied, digest_of, execute, execute_by, refreshed, restored, text_of,
};
use bfs_parallel::Engine;
use bfs_serial::{Batch, FileSystem, Replies};
use bfs_testing::asserts::compared;
use bfs_testing::numbers::{CREATE, GETATTR};
use bfs_testing::steps::Step;
use bfs_testing::texts::{NEARLY_SPENT, NEW, SOME};
use bfs_testing::words::{A, B, ROOT, UNSET, spelled, spells};
use bfs_types::Memory;
use std::alloc::Global;
use std::sync::Wait;
use std::test::Fail;
use std::thread::Threads;

fn restored_from(alloc: Global, text: &str) -> Result<FileSystem, Fail> {
    Ok(restored(alloc, hex::decode(alloc, text)?.as_slice())?)
}

fn is_spelled(alloc: Global, bytes: &[u8], text: &str) -> Result<(), Fail> {
    spells(alloc, bytes, text)
}

// the file system has the text of `AFTER`, and its inodes that digest
fn is_after(alloc: Global, files: &FileSystem) -> Result<(), Fail> {
    is_spelled(alloc, text_of(alloc, files)?.as_slice(), AFTER)?;
    is_spelled(alloc, digest_of(files)?.as_slice(), AFTER_DIGEST)
}

// two files made in the root, and its attributes
static MADE: &[Step] = &[
    Step(CREATE, &[ROOT, A, UNSET], &[]),
    Step(CREATE, &[ROOT, B, UNSET], &[]),
    Step(GETATTR, &[ROOT], &[]),
];

// by an engine with so many workers, or one request after another
fn executed<R: Threads + Wait + Sync>(
    rt: &R,
    alloc: Global,
    files: &mut FileSystem,
    batch: &Batch,
    by: Option<(Engine, u32)>,
) -> Result<Replies, Fail> {
    match by {
        None => Ok(execute(alloc, files, batch)?),
        Some((engine, count)) => execute_by(rt, alloc, files, batch, engine, count),
    }
}

static BY: &[Option<(Engine, u32)>] = &[
    None,
    Some((Engine::Runs, 1)),
    Some((Engine::Runs, 2)),
    Some((Engine::Runs, 7)),
    Some((Engine::Levels, 1)),
    Some((Engine::Levels, 2)),
    Some((Engine::Levels, 7)),
];

const LAST: u32 = 4_294_967_295;

// the words of the replies to the batch at the last ordinal: that of the second CREATE is spent
static AT_THE_LAST: &[&[&[u32]]] = &[
    &[
        &[1, 1, 0, 0, 0, 0, 0],
        &[0x42465332, 1, LAST, 0, 0, 0, 0, 0],
        &[
            1, 0x81a4, 1, 65534, 65534, 0, 4096, 0, 0, 1, LAST, 7, 0, 7, 0, 7, 0,
        ],
    ],
    &[&[2, 1, 0, 0, 0, 0, 28]],
    &[
        &[3, 1, 0, 0, 0, 0, 0],
        &[2, 0x41ff, 2, 0, 0, 96, 4096, 0, 1, 1, 2, 0, 0, 7, 0, 7, 0],
    ],
];

fn is_reply(replies: &Replies, place: usize, wanted: &[u8]) -> bool {
    place < replies.len() && replies.get(place) == wanted
}

fn is_reply_of(
    alloc: Global,
    replies: &Replies,
    place: usize,
    words: &[&[u32]],
) -> Result<bool, Memory> {
    Ok(is_reply(replies, place, spelled(alloc, words)?.as_slice()))
}

// the place of the first that is another one
fn first_wrong(
    alloc: Global,
    replies: &Replies,
    wanted: &[&[&[u32]]],
) -> Result<Option<usize>, Memory> {
    let mut place = 0;
    for words in wanted {
        if !is_reply_of(alloc, replies, place, words)? {
            return Ok(Some(place));
        }
        place = usize::saturating_add(place, 1);
    }
    Ok(None)
}

fn is_the_last(alloc: Global, files: &FileSystem, replies: &Replies) -> Result<(), Fail> {
    compared(replies.len(), 3)?;
    compared(first_wrong(alloc, replies, AT_THE_LAST)?, None)?;
    Ok(compared(files.next_ordinal(), Some(4_294_967_296))?)
}

// one that was stored and restored has the same digest
fn is_stored(alloc: Global, files: &FileSystem) -> Result<(), Fail> {
    let again = copied(alloc, files)?;
    Ok(compared(digest_of(&again)?, digest_of(files)?)?)
}

fn goes_on<R: Threads + Wait + Sync>(
    rt: &R,
    alloc: Global,
    batch: &Batch,
    by: Option<(Engine, u32)>,
) -> Result<(), Fail> {
    let mut files = restored_from(alloc, NEARLY_SPENT)?;
    let replies = executed(rt, alloc, &mut files, batch, by)?;
    is_the_last(alloc, &files, &replies)?;
    // a spent ordinal is stored too
    is_stored(alloc, &files)
}

#[test]
fn goes_on_where_ordinals_end(rt: HostRuntime) -> Result<(), Fail> {
    let batch = batch_of(rt.alloc(), 7, MADE)?;
    for by in BY {
        goes_on(&rt, rt.alloc(), &batch, *by)?;
    }
    Ok(())
}

// a new file system after the batch, by another implementation
static AFTER: &str =
    "424653530000000200000000000000060000000100000000000000030000000200000002000001ff000000020000000000000000000000000000000000000001000000000000000100000000000000020000000200000003000000016100000000000003000000040000000162000000000000040000000300000001000001a4000000010000fffe0000fffe000000010000000000000001000000000000000100000000000000000000000400000001000001a4000000010000fffe0000fffe00000001000000000000000100000000000000010000000000000000";

static AFTER_DIGEST: &str = "640e0cd60502c9ae9f0df4c914bac131102d497bc239571f60ba09264efb6b6c";

static TEXTS: &[&str] = &[NEW, NEARLY_SPENT, SOME];

// the place of the first of three that differ
fn first_other(given: &Replies, wanted: &Replies) -> Option<usize> {
    for place in 0..3 {
        if place >= wanted.len() || !is_reply(given, place, wanted.get(place)) {
            return Some(place);
        }
    }
    None
}

fn executes_the_same(alloc: Global, text: &str, batch: &Batch) -> Result<(), Fail> {
    let mut files = restored_from(alloc, text)?;
    let mut others = copied(alloc, &files)?;
    let replies = execute(alloc, &mut files, batch)?;
    let wanted = execute(alloc, &mut others, batch)?;
    compared(first_other(&replies, &wanted), None)?;
    Ok(compared(digest_of(&files)?, digest_of(&others)?)?)
}

#[test]
fn executes_the_same_where_it_was_restored(rt: HostRuntime) -> Result<(), Fail> {
    let batch = batch_of(rt.alloc(), 9, MADE)?;
    for text in TEXTS {
        executes_the_same(rt.alloc(), text, &batch)?;
    }
    Ok(())
}

fn leaves<R: Threads + Wait + Sync>(
    rt: &R,
    alloc: Global,
    batch: &Batch,
    by: Option<(Engine, u32)>,
) -> Result<(), Fail> {
    let mut files = FileSystem::new(alloc)?;
    executed(rt, alloc, &mut files, batch, by)?;
    is_after(alloc, &files)
}

#[test]
fn digests_what_its_workers_leave(rt: HostRuntime) -> Result<(), Fail> {
    let batch = batch_of(rt.alloc(), 1, MADE)?;
    for by in BY {
        leaves(&rt, rt.alloc(), &batch, *by)?;
    }
    Ok(())
}

#[test]
fn tells_what_another_implementation_does_from_what_is_kept(rt: HostRuntime) -> Result<(), Fail> {
    let alloc = rt.alloc();
    let mut files = restored_from(alloc, NEW)?;
    refreshed(&rt, alloc, &mut files)?;
    execute(alloc, &mut files, &batch_of(alloc, 1, MADE)?)?;
    is_after(alloc, &files)?;
    refreshed(&rt, alloc, &mut files)?;
    is_after(alloc, &files)
}
