//! Why procedures are not done: each call has a fault and those that are looked for after it, so the order shows too.
use crate::steps::serves;
use bfs_testing::attributes;
use bfs_testing::numbers::{
    CREATE, EXIST, GETATTR, ISDIR, LINK, MKDIR, NOENT, NOTDIR, NOTEMPTY, OK, PERM, READDIR,
    READLINK, REMOVE, RENAME, RMDIR, STALE, STATFS, SYMLINK,
};
use bfs_testing::steps::Step;
use bfs_testing::words::{
    A, B, C, D, DOT, DOT_DOT, E, EIGHTH, F, FIFTH, FOURTH, L, NINTH, NO_NAME, ROOT, SEVENTH, SIXTH,
    THIRD, UNSET,
};
use std::alloc::Global;
use std::test::Fail;

// the directories `d`, `d/e` and `f`, the files `a` and `d/b`, and the symbolic link `l`
static MADE: &[Step] = &[
    Step(MKDIR, &[ROOT, D, UNSET], &[OK, THIRD, D_MADE]),
    Step(CREATE, &[ROOT, A, UNSET], &[OK, FOURTH, A_MADE]),
    Step(MKDIR, &[THIRD, E, UNSET], &[OK, FIFTH, E_MADE]),
    Step(CREATE, &[THIRD, B, UNSET], &[OK, SIXTH, B_MADE]),
    Step(SYMLINK, &[ROOT, L, PATH, UNSET], &[OK]),
    Step(MKDIR, &[ROOT, F, UNSET], &[OK, EIGHTH, F_MADE]),
    Step(GETATTR, &[ROOT], &[OK, ROOT_FILLED]),
];

const D_MADE: &[u32] = attributes!(directory 3, links 2, size 64, times 1 1 1);

const A_MADE: &[u32] = attributes!(file 4, links 1, size 0, blocks 0, times 1 1 1);

const E_MADE: &[u32] = attributes!(directory 5, links 2, size 64, times 1 1 1);

const B_MADE: &[u32] = attributes!(file 6, links 1, size 0, blocks 0, times 1 1 1);

const F_MADE: &[u32] = attributes!(directory 8, links 2, size 64, times 1 1 1);

const ROOT_FILLED: &[u32] = &[2, 0x41ff, 4, 0, 0, 192, 4096, 0, 1, 1, 2, 0, 0, 1, 0, 1, 0];

// the path `b`
const PATH: &[u32] = &[1, 0x62000000];

// the names `a/b` and `a` with a byte 0 behind it
const SLASH: &[u32] = &[3, 0x612f6200];

const ZERO: &[u32] = &[2, 0x61000000];

// a handle that begins with `BFS1`
const NO_HANDLE: &[u32] = &[0x42465331, 1, 2, 0, 0, 0, 0, 0];

// what is made, and then each call in turn
fn refuses(alloc: Global, steps: &[Step]) -> Result<(), Fail> {
    serves(alloc, &[MADE, steps])
}

static TELLING: &[Step] = &[
    Step(READLINK, &[NO_HANDLE], &[STALE]),
    Step(READLINK, &[NINTH], &[STALE]),
    Step(READLINK, &[THIRD], &[PERM]),
    Step(READLINK, &[FOURTH], &[PERM]),
    Step(GETATTR, &[ROOT], &[OK, ROOT_FILLED]),
];

#[test]
fn refuses_to_tell_a_path(rt: HostRuntime) -> Result<(), Fail> {
    refuses(rt.alloc(), TELLING)
}

static REMOVING: &[Step] = &[
    Step(REMOVE, &[NO_HANDLE, NO_NAME], &[STALE]),
    Step(REMOVE, &[NINTH, NO_NAME], &[STALE]),
    Step(REMOVE, &[FOURTH, NO_NAME], &[NOTDIR]),
    Step(REMOVE, &[ROOT, NO_NAME], &[PERM]),
    Step(REMOVE, &[ROOT, DOT], &[PERM]),
    Step(REMOVE, &[ROOT, DOT_DOT], &[PERM]),
    Step(REMOVE, &[ROOT, SLASH], &[PERM]),
    Step(REMOVE, &[ROOT, ZERO], &[PERM]),
    Step(REMOVE, &[ROOT, C], &[NOENT]),
    Step(REMOVE, &[ROOT, D], &[ISDIR]),
    Step(GETATTR, &[ROOT], &[OK, ROOT_FILLED]),
];

#[test]
fn refuses_to_remove(rt: HostRuntime) -> Result<(), Fail> {
    refuses(rt.alloc(), REMOVING)
}

static RENAMING: &[Step] = &[
    Step(RENAME, &[NO_HANDLE, NO_NAME, FOURTH, NO_NAME], &[STALE]),
    Step(RENAME, &[NINTH, NO_NAME, FOURTH, NO_NAME], &[STALE]),
    Step(RENAME, &[FOURTH, NO_NAME, NINTH, NO_NAME], &[NOTDIR]),
    Step(RENAME, &[ROOT, NO_NAME, NINTH, NO_NAME], &[STALE]),
    Step(RENAME, &[ROOT, NO_NAME, FOURTH, NO_NAME], &[NOTDIR]),
    Step(RENAME, &[ROOT, DOT, ROOT, C], &[PERM]),
    Step(RENAME, &[ROOT, C, ROOT, DOT_DOT], &[PERM]),
    Step(RENAME, &[ROOT, C, ROOT, D], &[NOENT]),
    Step(RENAME, &[ROOT, D, THIRD, B], &[PERM]),
    Step(RENAME, &[ROOT, D, FIFTH, C], &[PERM]),
    Step(RENAME, &[ROOT, A, ROOT, D], &[ISDIR]),
    Step(RENAME, &[ROOT, F, ROOT, A], &[NOTDIR]),
    Step(RENAME, &[ROOT, F, ROOT, D], &[NOTEMPTY]),
    Step(GETATTR, &[ROOT], &[OK, ROOT_FILLED]),
];

#[test]
fn refuses_to_rename(rt: HostRuntime) -> Result<(), Fail> {
    refuses(rt.alloc(), RENAMING)
}

static LINKING: &[Step] = &[
    Step(LINK, &[NO_HANDLE, NINTH, NO_NAME], &[STALE]),
    Step(LINK, &[NINTH, FOURTH, NO_NAME], &[STALE]),
    Step(LINK, &[THIRD, NINTH, NO_NAME], &[ISDIR]),
    Step(LINK, &[FOURTH, NINTH, NO_NAME], &[STALE]),
    Step(LINK, &[FOURTH, SEVENTH, NO_NAME], &[NOTDIR]),
    Step(LINK, &[FOURTH, ROOT, DOT], &[PERM]),
    Step(LINK, &[FOURTH, ROOT, L], &[EXIST]),
    Step(GETATTR, &[ROOT], &[OK, ROOT_FILLED]),
];

#[test]
fn refuses_to_link(rt: HostRuntime) -> Result<(), Fail> {
    refuses(rt.alloc(), LINKING)
}

static MAKING_LINKS: &[Step] = &[
    Step(SYMLINK, &[NO_HANDLE, NO_NAME, PATH, UNSET], &[STALE]),
    Step(SYMLINK, &[NINTH, NO_NAME, PATH, UNSET], &[STALE]),
    Step(SYMLINK, &[FOURTH, NO_NAME, PATH, UNSET], &[NOTDIR]),
    Step(SYMLINK, &[ROOT, DOT_DOT, PATH, UNSET], &[PERM]),
    Step(SYMLINK, &[ROOT, L, PATH, UNSET], &[EXIST]),
    Step(GETATTR, &[ROOT], &[OK, ROOT_FILLED]),
];

#[test]
fn refuses_to_make_symbolic_links(rt: HostRuntime) -> Result<(), Fail> {
    refuses(rt.alloc(), MAKING_LINKS)
}

static MAKING_DIRECTORIES: &[Step] = &[
    Step(MKDIR, &[NO_HANDLE, NO_NAME, UNSET], &[STALE]),
    Step(MKDIR, &[NINTH, NO_NAME, UNSET], &[STALE]),
    Step(MKDIR, &[SEVENTH, NO_NAME, UNSET], &[NOTDIR]),
    Step(MKDIR, &[ROOT, DOT, UNSET], &[PERM]),
    Step(MKDIR, &[ROOT, D, UNSET], &[EXIST]),
    Step(GETATTR, &[ROOT], &[OK, ROOT_FILLED]),
];

#[test]
fn refuses_to_make_directories(rt: HostRuntime) -> Result<(), Fail> {
    refuses(rt.alloc(), MAKING_DIRECTORIES)
}

static REMOVING_DIRECTORIES: &[Step] = &[
    Step(RMDIR, &[NO_HANDLE, NO_NAME], &[STALE]),
    Step(RMDIR, &[NINTH, NO_NAME], &[STALE]),
    Step(RMDIR, &[FOURTH, NO_NAME], &[NOTDIR]),
    Step(RMDIR, &[ROOT, DOT], &[PERM]),
    Step(RMDIR, &[ROOT, C], &[NOENT]),
    Step(RMDIR, &[ROOT, A], &[NOTDIR]),
    Step(RMDIR, &[ROOT, D], &[NOTEMPTY]),
    Step(GETATTR, &[ROOT], &[OK, ROOT_FILLED]),
];

#[test]
fn refuses_to_remove_directories(rt: HostRuntime) -> Result<(), Fail> {
    refuses(rt.alloc(), REMOVING_DIRECTORIES)
}

static LISTING: &[Step] = &[
    Step(READDIR, &[NO_HANDLE, &[0, 512]], &[STALE]),
    Step(READDIR, &[NINTH, &[0, 512]], &[STALE]),
    Step(READDIR, &[FOURTH, &[0, 512]], &[NOTDIR]),
    Step(READDIR, &[SEVENTH, &[0, 512]], &[NOTDIR]),
    Step(STATFS, &[NO_HANDLE], &[STALE]),
    Step(STATFS, &[NINTH], &[STALE]),
    Step(GETATTR, &[ROOT], &[OK, ROOT_FILLED]),
];

#[test]
fn refuses_to_list_and_to_tell_the_room(rt: HostRuntime) -> Result<(), Fail> {
    refuses(rt.alloc(), LISTING)
}
