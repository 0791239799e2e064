//! What is listed of directories, page by page.
use crate::engines::by_each_engine;
use bfs_testing::attributes;
use bfs_testing::numbers::{CREATE, MKDIR, OK, READDIR, REMOVE};
use bfs_testing::steps::Step;
use bfs_testing::words::{A, B, C, D, FIFTH, FOURTH, ROOT, THIRD, UNSET};
use std::test::Fail;

const THIRD_MADE: &[u32] = attributes!(file 3, links 1, size 0, blocks 0, times 1 1 1);

const FOURTH_MADE: &[u32] = attributes!(file 4, links 1, size 0, blocks 0, times 1 1 1);

const FIFTH_MADE: &[u32] = attributes!(file 5, links 1, size 0, blocks 0, times 1 1 1);

// an entry, behind the word that says that there is one: its fileid, its name and its cookie
const ROOT_ITSELF: &[u32] = &[1, 2, 1, 0x2e000000, 1];

const ABOVE_ROOT: &[u32] = &[1, 2, 2, 0x2e2e0000, 2];

const ENTRY_A: &[u32] = &[1, 3, 1, 0x61000000, 3];

const ENTRY_B: &[u32] = &[1, 4, 1, 0x62000000, 4];

const ENTRY_C: &[u32] = &[1, 5, 1, 0x63000000, 5];

// the end of a page with no further entry, and of one that is not the last
const LAST: &[u32] = &[0, 1];

const NOT_LAST: &[u32] = &[0, 0];

static PAGES: &[&[Step]] = &[&[
    Step(CREATE, &[ROOT, A, UNSET], &[OK, THIRD, THIRD_MADE]),
    Step(CREATE, &[ROOT, B, UNSET], &[OK, FOURTH, FOURTH_MADE]),
    Step(CREATE, &[ROOT, C, UNSET], &[OK, FIFTH, FIFTH_MADE]),
    Step(READDIR, &[ROOT, &[0, 12]], &[OK, NOT_LAST]),
    Step(
        READDIR,
        &[ROOT, &[0, 72]],
        &[OK, ROOT_ITSELF, ABOVE_ROOT, ENTRY_A, NOT_LAST],
    ),
    Step(REMOVE, &[ROOT, A], &[OK]),
    Step(READDIR, &[ROOT, &[3, 8192]], &[OK, ENTRY_B, ENTRY_C, LAST]),
]];

#[test]
fn lists_what_a_page_holds(rt: HostRuntime) -> Result<(), Fail> {
    by_each_engine(&rt, PAGES)
}

const DIRECTORY: &[u32] = attributes!(directory 3, links 2, size 64, times 1 1 1);

// the name `abcde`
const LONG: &[u32] = &[5, 0x61626364, 0x65000000];

const ITSELF: &[u32] = &[1, 3, 1, 0x2e000000, 1];

const ENTRY_LONG: &[u32] = &[1, 4, 5, 0x61626364, 0x65000000, 4];

static FULL_PAGES: &[&[Step]] = &[&[
    Step(MKDIR, &[ROOT, D, UNSET], &[OK, THIRD, DIRECTORY]),
    Step(CREATE, &[THIRD, LONG, UNSET], &[OK, FOURTH, FOURTH_MADE]),
    Step(READDIR, &[THIRD, &[0, 51]], &[OK, ITSELF, NOT_LAST]),
    Step(READDIR, &[THIRD, &[1, 52]], &[OK, ABOVE_ROOT, NOT_LAST]),
    Step(
        READDIR,
        &[THIRD, &[1, 56]],
        &[OK, ABOVE_ROOT, ENTRY_LONG, LAST],
    ),
    Step(READDIR, &[THIRD, &[2, 0xffffffff]], &[OK, ENTRY_LONG, LAST]),
    Step(READDIR, &[THIRD, &[3, 36]], &[OK, ENTRY_LONG, LAST]),
    Step(READDIR, &[THIRD, &[3, 35]], &[OK, NOT_LAST]),
    Step(READDIR, &[THIRD, &[4, 0]], &[OK, LAST]),
    Step(READDIR, &[THIRD, &[0xffffffff, 8192]], &[OK, LAST]),
]];

#[test]
fn ends_pages_where_they_are_full(rt: HostRuntime) -> Result<(), Fail> {
    by_each_engine(&rt, FULL_PAGES)
}
