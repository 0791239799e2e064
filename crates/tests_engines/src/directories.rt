//! Directories: made, moved, replaced, and removed.
use crate::engines::by_each_engine;
use bfs_testing::attributes;
use bfs_testing::numbers::{
    CREATE, GETATTR, ISDIR, LINK, LOOKUP, MKDIR, NOTDIR, OK, PERM, REMOVE, RENAME, RMDIR, STALE,
    STATFS, WRITE,
};
use bfs_testing::steps::Step;
use bfs_testing::words::{A, B, C, D, DOT, DOT_DOT, E, FIFTH, FOURTH, ROOT, SIXTH, THIRD, UNSET};
use std::test::Fail;

const THIRD_MADE: &[u32] = attributes!(directory 3, links 2, size 64, times 1 1 1);

const FOURTH_MADE: &[u32] = attributes!(directory 4, links 2, size 64, times 1 1 1);

const FIFTH_MADE: &[u32] = attributes!(file 5, links 1, size 0, blocks 0, times 1 1 1);

const SIXTH_MADE: &[u32] = attributes!(file 6, links 1, size 0, blocks 0, times 1 1 1);

const FIFTH_WRITTEN: &[u32] = attributes!(file 5, links 1, size 1, blocks 1, times 1 2 2);

const SIXTH_WRITTEN: &[u32] = attributes!(file 6, links 1, size 1, blocks 1, times 1 2 2);

// an `a` at offset 0
const BYTE: &[u32] = &[0, 0, 0, 1, 0x61000000];

static BELOW_ITSELF: &[&[Step]] = &[
    &[
        Step(MKDIR, &[ROOT, D, UNSET], &[OK, THIRD, THIRD_MADE]),
        Step(MKDIR, &[THIRD, E, UNSET], &[OK, FOURTH, FOURTH_MADE]),
        Step(CREATE, &[ROOT, A, UNSET], &[OK, FIFTH, FIFTH_MADE]),
        Step(CREATE, &[ROOT, B, UNSET], &[OK, SIXTH, SIXTH_MADE]),
    ],
    &[
        Step(WRITE, &[FIFTH, BYTE], &[OK, FIFTH_WRITTEN]),
        Step(RENAME, &[ROOT, D, FOURTH, C], &[PERM]),
        Step(WRITE, &[SIXTH, BYTE], &[OK, SIXTH_WRITTEN]),
    ],
];

#[test]
fn puts_no_directory_below_itself(rt: HostRuntime) -> Result<(), Fail> {
    by_each_engine(&rt, BELOW_ITSELF)
}

const ROOM: &[u32] = &[8192, 4096, 262144, 262143, 262143];

const DIRECTORY: &[u32] = attributes!(directory 4, links 2, size 64, times 2 2 2);

const FILE: &[u32] = attributes!(file 5, links 1, size 0, blocks 0, times 2 2 2);

// the root with a directory and two names of a file
const ROOT_FILLED: &[u32] = &[2, 0x41ff, 3, 0, 0, 160, 4096, 0, 1, 1, 2, 0, 0, 2, 0, 2, 0];

static OF_ANOTHER_KIND: &[&[Step]] = &[
    &[Step(STATFS, &[ROOT], &[OK, ROOM])],
    &[
        Step(MKDIR, &[ROOT, D, UNSET], &[OK, FOURTH, DIRECTORY]),
        Step(CREATE, &[ROOT, A, UNSET], &[OK, FIFTH, FILE]),
        Step(LINK, &[FIFTH, ROOT, B], &[OK]),
        Step(RENAME, &[ROOT, A, ROOT, B], &[OK]),
        Step(RENAME, &[ROOT, A, ROOT, D], &[ISDIR]),
        Step(RENAME, &[ROOT, D, ROOT, A], &[NOTDIR]),
        Step(REMOVE, &[ROOT, DOT_DOT], &[PERM]),
        Step(LOOKUP, &[ROOT, DOT_DOT], &[OK, ROOT, ROOT_FILLED]),
    ],
    // both names are still there
    &[
        Step(RENAME, &[ROOT, B, ROOT, A], &[OK]),
        Step(LOOKUP, &[ROOT, DOT], &[OK, ROOT, ROOT_FILLED]),
    ],
];

#[test]
fn replaces_nothing_of_another_kind(rt: HostRuntime) -> Result<(), Fail> {
    by_each_engine(&rt, OF_ANOTHER_KIND)
}

const THIRD_RENAMED: &[u32] = attributes!(directory 3, links 2, size 64, times 1 1 2);

const ROOT_OF_TWO: &[u32] = &[2, 0x41ff, 4, 0, 0, 128, 4096, 0, 1, 1, 2, 0, 0, 1, 0, 1, 0];

const ROOT_OF_ONE: &[u32] = &[2, 0x41ff, 3, 0, 0, 96, 4096, 0, 1, 1, 2, 0, 0, 2, 0, 2, 0];

static REPLACED: &[&[Step]] = &[
    &[
        Step(MKDIR, &[ROOT, D, UNSET], &[OK, THIRD, THIRD_MADE]),
        Step(MKDIR, &[ROOT, E, UNSET], &[OK, FOURTH, FOURTH_MADE]),
        Step(GETATTR, &[ROOT], &[OK, ROOT_OF_TWO]),
    ],
    &[
        Step(RENAME, &[ROOT, D, ROOT, E], &[OK]),
        Step(GETATTR, &[FOURTH], &[STALE]),
        Step(LOOKUP, &[ROOT, E], &[OK, THIRD, THIRD_RENAMED]),
        Step(GETATTR, &[ROOT], &[OK, ROOT_OF_ONE]),
    ],
];

#[test]
fn replaces_an_empty_directory(rt: HostRuntime) -> Result<(), Fail> {
    by_each_engine(&rt, REPLACED)
}

const FIFTH_BELOW: &[u32] = attributes!(directory 5, links 2, size 64, times 1 1 1);

const FOURTH_FILLED: &[u32] = attributes!(directory 4, links 3, size 96, times 1 2 2);

static REPLACED_ELSEWHERE: &[&[Step]] = &[
    &[
        Step(MKDIR, &[ROOT, D, UNSET], &[OK, THIRD, THIRD_MADE]),
        Step(MKDIR, &[ROOT, E, UNSET], &[OK, FOURTH, FOURTH_MADE]),
        Step(MKDIR, &[FOURTH, C, UNSET], &[OK, FIFTH, FIFTH_BELOW]),
    ],
    &[
        Step(RENAME, &[ROOT, D, FOURTH, C], &[OK]),
        Step(GETATTR, &[FIFTH], &[STALE]),
        Step(LOOKUP, &[FOURTH, C], &[OK, THIRD, THIRD_RENAMED]),
        Step(LOOKUP, &[THIRD, DOT_DOT], &[OK, FOURTH, FOURTH_FILLED]),
        Step(GETATTR, &[ROOT], &[OK, ROOT_OF_ONE]),
    ],
];

#[test]
fn replaces_an_empty_directory_elsewhere(rt: HostRuntime) -> Result<(), Fail> {
    by_each_engine(&rt, REPLACED_ELSEWHERE)
}

// mode 0700, the caller's own uid and gid, 5 bytes, 9.000002 as the time of the last access and the batch's as that of the last change
const SETTINGS: &[u32] = &[0o700, 65534, 65534, 5, 9, 2, 3, 1000000];

const SET: &[u32] = &[
    2, 0o040700, 2, 65534, 65534, 64, 4096, 0, 1, 1, 3, 9, 2, 1, 0, 1, 0,
];

static MADE_WITH_SETTINGS: &[&[Step]] = &[&[
    Step(MKDIR, &[ROOT, D, SETTINGS], &[OK, THIRD, SET]),
    Step(LOOKUP, &[THIRD, DOT], &[OK, THIRD, SET]),
    Step(RMDIR, &[ROOT, D], &[OK]),
    Step(GETATTR, &[THIRD], &[STALE]),
]];

#[test]
fn makes_directories_with_settings(rt: HostRuntime) -> Result<(), Fail> {
    by_each_engine(&rt, MADE_WITH_SETTINGS)
}
