//! Files: made, told of, written and read.
use crate::engines::by_each_engine;
use bfs_testing::attributes;
use bfs_testing::numbers::{CREATE, FBIG, GETATTR, LOOKUP, NOENT, OK, READ, SETATTR, STALE, WRITE};
use bfs_testing::steps::Step;
use bfs_testing::words::{A, B, FOURTH, ROOT, THIRD, UNSET};
use bfs_types::{BLOCK_SIZE, MOST_FILE_BYTES};
use std::test::Fail;

const MADE: &[u32] = attributes!(file 3, links 1, size 0, blocks 0, times 1 1 1);

static TOLD_OF: &[&[Step]] = &[&[
    Step(CREATE, &[ROOT, A, UNSET], &[OK, THIRD, MADE]),
    Step(GETATTR, &[THIRD], &[OK, MADE]),
]];

#[test]
fn makes_a_file_and_tells_of_it(rt: HostRuntime) -> Result<(), Fail> {
    by_each_engine(&rt, TOLD_OF)
}

const MADE_FOURTH: &[u32] = attributes!(file 4, links 1, size 0, blocks 0, times 1 1 1);

static ASKED_FOR_BEFORE: &[&[Step]] = &[&[
    Step(GETATTR, &[FOURTH], &[STALE]),
    Step(CREATE, &[ROOT, A, UNSET], &[OK, FOURTH, MADE_FOURTH]),
]];

#[test]
fn makes_a_file_whose_handle_was_asked_for_before(rt: HostRuntime) -> Result<(), Fail> {
    by_each_engine(&rt, ASKED_FOR_BEFORE)
}

const OLD: &[u32] = attributes!(file 3, links 1, size 3, blocks 1, times 1 1 1);

const NEW: &[u32] = attributes!(file 3, links 1, size 3, blocks 1, times 1 2 2);

// the bytes `old` and `new`
const OLD_BYTES: &[u32] = &[3, 0x6f6c6400];

const NEW_BYTES: &[u32] = &[3, 0x6e657700];

// from offset 0 on
const WRITE_FROM_FIRST: &[u32] = &[0, 0, 0];

const READ_FROM_FIRST: &[u32] = &[0, 8, 0];

static WRITTEN_AND_READ: &[&[Step]] = &[
    &[
        Step(CREATE, &[ROOT, A, UNSET], &[OK, THIRD, MADE]),
        Step(WRITE, &[THIRD, WRITE_FROM_FIRST, OLD_BYTES], &[OK, OLD]),
    ],
    &[
        Step(READ, &[THIRD, READ_FROM_FIRST], &[OK, OLD, OLD_BYTES]),
        Step(WRITE, &[THIRD, WRITE_FROM_FIRST, NEW_BYTES], &[OK, NEW]),
        Step(READ, &[THIRD, READ_FROM_FIRST], &[OK, NEW, NEW_BYTES]),
    ],
];

#[test]
fn reads_what_was_written(rt: HostRuntime) -> Result<(), Fail> {
    by_each_engine(&rt, WRITTEN_AND_READ)
}

const MOST: u32 = MOST_FILE_BYTES as u32;

const LONGEST: &[u32] =
    attributes!(file 3, links 1, size MOST, blocks MOST / BLOCK_SIZE, times 1 2 2);

static FILLED: &[&[Step]] = &[
    &[Step(CREATE, &[ROOT, A, UNSET], &[OK, THIRD, MADE])],
    &[
        Step(WRITE, &[THIRD, &[0, MOST - 1, 0, 2, 0x61610000]], &[FBIG]),
        Step(
            WRITE,
            &[THIRD, &[0, MOST - 1, 0, 1, 0x61000000]],
            &[OK, LONGEST],
        ),
        Step(
            READ,
            &[THIRD, &[MOST - 2, 8, 0]],
            &[OK, LONGEST, &[2, 0x00610000]],
        ),
    ],
];

#[test]
fn fills_a_file_up_to_its_limit(rt: HostRuntime) -> Result<(), Fail> {
    by_each_engine(&rt, FILLED)
}

const SETTINGS: &[u32] = &[0x41ff, 65534, 0xffffffff, 3, 5, 1000000, 0xffffffff, 0];

const SET: &[u32] = &[
    1, 0x81ff, 1, 65534, 65534, 3, 4096, 0, 1, 1, 3, 2, 0, 2, 0, 2, 0,
];

static LOOKED_UP_AND_SET: &[&[Step]] = &[
    &[
        Step(CREATE, &[ROOT, A, UNSET], &[OK, THIRD, MADE]),
        Step(LOOKUP, &[ROOT, A], &[OK, THIRD, MADE]),
        Step(LOOKUP, &[ROOT, B], &[NOENT]),
    ],
    &[Step(SETATTR, &[THIRD, SETTINGS], &[OK, SET])],
];

#[test]
fn looks_up_and_sets_attributes(rt: HostRuntime) -> Result<(), Fail> {
    by_each_engine(&rt, LOOKED_UP_AND_SET)
}
