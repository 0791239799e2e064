//! Batches in which most requests conflict: on the same files, names and directories.
use crate::alike::by_each_engine;
use bfs_testing::asked::Asked;
use bfs_testing_batches::batches::batch_of;
use std::alloc::AllocGlobal;
use std::sync::Wait;
use std::test::Fail;
use std::thread::Threads;

// in the root a directory, in which there is one more, and three files: fileids 3 to 7
static TREE: &[Asked] = &[
    Asked::MakeDirectory { dir: 2, name: 0 },
    Asked::MakeDirectory { dir: 3, name: 1 },
    Asked::Create { dir: 2, name: 2 },
    Asked::Create { dir: 2, name: 3 },
    Asked::Create { dir: 3, name: 4 },
];

// what shows the whole tree
static ALL: &[Asked] = &[
    Asked::List { dir: 2 },
    Asked::List { dir: 3 },
    Asked::List { dir: 4 },
    Asked::Attributes { file: 2 },
    Asked::Attributes { file: 3 },
    Asked::Attributes { file: 4 },
    Asked::Read { file: 5 },
    Asked::Read { file: 6 },
    Asked::Read { file: 7 },
];

fn executes<R: Threads + Wait + AllocGlobal + Sync>(
    rt: &R,
    requests: &[Asked],
) -> Result<(), Fail> {
    let alloc = rt.alloc();
    let batches = [
        batch_of(alloc, 1, TREE)?,
        batch_of(alloc, 2, requests)?,
        batch_of(alloc, 3, ALL)?,
    ];
    by_each_engine(rt, &[1, 2, 64], &batches)
}

// two files, each written and read in turn: a group of as many levels as requests on one file
static CHAINS: &[Asked] = &[
    Asked::Write { file: 5, value: 1 },
    Asked::Read { file: 5 },
    Asked::Write { file: 6, value: 2 },
    Asked::Read { file: 5 },
    Asked::Write { file: 5, value: 3 },
    Asked::Truncate { file: 6 },
    Asked::Read { file: 6 },
    Asked::Write { file: 5, value: 4 },
    Asked::Read { file: 5 },
];

#[test]
fn chains_of_writes_and_reads(rt: HostRuntime) -> Result<(), Fail> {
    executes(&rt, CHAINS)
}

// a name that is made and taken in turn, and looked up: groups end where names are resolved
static NAMES: &[Asked] = &[
    Asked::Create { dir: 2, name: 9 },
    Asked::LookUp { dir: 2, name: 9 },
    Asked::Remove { dir: 2, name: 9 },
    Asked::LookUp { dir: 2, name: 9 },
    Asked::Create { dir: 2, name: 9 },
    Asked::Create { dir: 3, name: 9 },
    Asked::Create { dir: 2, name: 9 },
    Asked::Write { file: 12, value: 5 },
    Asked::Remove { dir: 2, name: 9 },
    Asked::Write { file: 12, value: 6 },
    Asked::Create { dir: 2, name: 9 },
    Asked::Remove { dir: 3, name: 9 },
    Asked::Remove { dir: 3, name: 9 },
];

#[test]
fn names_made_and_taken_in_turn(rt: HostRuntime) -> Result<(), Fail> {
    executes(&rt, NAMES)
}

// directories that are renamed, within one directory and into others, between writes
static RENAMES: &[Asked] = &[
    Asked::Write { file: 5, value: 1 },
    Asked::Rename {
        from: 2,
        name: 0,
        to: 2,
        other: 8,
    },
    Asked::Write { file: 6, value: 2 },
    Asked::Rename {
        from: 3,
        name: 1,
        to: 2,
        other: 1,
    },
    Asked::Write { file: 7, value: 3 },
    Asked::Write { file: 5, value: 4 },
    Asked::Rename {
        from: 2,
        name: 8,
        to: 4,
        other: 8,
    },
    Asked::Write { file: 7, value: 5 },
    Asked::Rename {
        from: 2,
        name: 1,
        to: 3,
        other: 1,
    },
    Asked::Read { file: 7 },
    Asked::Rename {
        from: 4,
        name: 8,
        to: 3,
        other: 8,
    },
    Asked::Status,
    Asked::Write { file: 5, value: 6 },
];

#[test]
fn directories_renamed_between_writes(rt: HostRuntime) -> Result<(), Fail> {
    executes(&rt, RENAMES)
}

// links of one file, and what their names lead to
static LINKS: &[Asked] = &[
    Asked::Link {
        file: 5,
        dir: 3,
        name: 5,
    },
    Asked::Write { file: 5, value: 1 },
    Asked::Link {
        file: 5,
        dir: 4,
        name: 5,
    },
    Asked::Attributes { file: 5 },
    Asked::Remove { dir: 2, name: 2 },
    Asked::Attributes { file: 5 },
    Asked::Remove { dir: 3, name: 5 },
    Asked::Write { file: 5, value: 2 },
    Asked::Remove { dir: 4, name: 5 },
    Asked::Write { file: 5, value: 3 },
    Asked::RemoveDirectory { dir: 3, name: 1 },
    Asked::RemoveDirectory { dir: 2, name: 0 },
];

#[test]
fn links_made_and_taken(rt: HostRuntime) -> Result<(), Fail> {
    executes(&rt, LINKS)
}
