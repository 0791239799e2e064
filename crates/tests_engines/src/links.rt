//! Names of a file, one or more, and symbolic links.
use crate::engines::{by_each_engine, files_by_each_engine};
use bfs_testing::numbers::{
    CREATE, GETATTR, LINK, LOOKUP, MKDIR, NOTDIR, OK, PERM, READLINK, REMOVE, RMDIR, SETATTR,
    STALE, SYMLINK,
};
use bfs_testing::steps::Step;
use bfs_testing::words::{A, B, D, FIFTH, FOURTH, L, ROOT, THIRD, UNSET};
use bfs_testing::{attributes, holds, same};
use bfs_tree::Tree;
use bfs_types::{FileId, Memory, Time};
use std::alloc::Global;
use std::test::Fail;

// whether a tree's inodes have these fileids
fn has_ids(alloc: Global, tree: &Tree, wanted: &[FileId]) -> Result<bool, Memory> {
    Ok(tree.ids(alloc)?.as_slice() == wanted)
}

const THIRD_MADE: &[u32] = attributes!(file 3, links 1, size 0, blocks 0, times 1 1 1);

const FIFTH_MADE: &[u32] = attributes!(file 5, links 1, size 0, blocks 0, times 2 2 2);

static NAMED_AGAIN: &[&[Step]] = &[
    &[Step(CREATE, &[ROOT, A, UNSET], &[OK, THIRD, THIRD_MADE])],
    &[
        Step(REMOVE, &[ROOT, A], &[OK]),
        Step(CREATE, &[ROOT, A, UNSET], &[OK, FIFTH, FIFTH_MADE]),
        Step(LOOKUP, &[ROOT, A], &[OK, FIFTH, FIFTH_MADE]),
    ],
];

#[test]
fn gives_a_removed_name_to_another_file(rt: HostRuntime) -> Result<(), Fail> {
    by_each_engine(&rt, NAMED_AGAIN)
}

const DIRECTORY: &[u32] = attributes!(directory 3, links 2, size 64, times 1 1 1);

const FILE: &[u32] = attributes!(file 4, links 1, size 0, blocks 0, times 1 1 1);

static UNNAMED: &[&[Step]] = &[
    &[
        Step(MKDIR, &[ROOT, D, UNSET], &[OK, THIRD, DIRECTORY]),
        Step(CREATE, &[ROOT, A, UNSET], &[OK, FOURTH, FILE]),
        Step(LINK, &[FOURTH, THIRD, B], &[OK]),
    ],
    &[
        Step(REMOVE, &[ROOT, A], &[OK]),
        Step(REMOVE, &[THIRD, B], &[OK]),
        Step(GETATTR, &[FOURTH], &[STALE]),
    ],
];

#[test]
fn keeps_a_file_while_it_has_a_name(rt: HostRuntime) -> Result<(), Fail> {
    by_each_engine(&rt, UNNAMED)
}

// the path `a/b`
const PATH: &[u32] = &[3, 0x612f6200];

const NO_BYTES: &[u32] = &[
    0xffffffff, 0xffffffff, 0xffffffff, 0, 0xffffffff, 0xffffffff, 0xffffffff, 0xffffffff,
];

static PATH_HELD: &[&[Step]] = &[&[
    Step(SYMLINK, &[ROOT, L, PATH, UNSET], &[OK]),
    Step(READLINK, &[THIRD], &[OK, PATH]),
    Step(SETATTR, &[THIRD, NO_BYTES], &[PERM]),
    Step(RMDIR, &[ROOT, L], &[NOTDIR]),
]];

#[test]
fn holds_a_path_in_a_symbolic_link(rt: HostRuntime) -> Result<(), Fail> {
    for files in files_by_each_engine(&rt, PATH_HELD)? {
        let tree = files.tree().ok_or("a live file system")?;
        holds!(rt; has_ids(rt.alloc(), tree, &[FileId::root(), FileId::new(3)])?);
        same!(rt; files.last_time(), Time::new(1, 0));
    }
    Ok(())
}

// mode 0600, the caller's own uid and gid, 5 bytes, and 9.000002 as the time of the last access
const SETTINGS: &[u32] = &[0o600, 65534, 65534, 5, 9, 2, 0xffffffff, 0xffffffff];

const SET: &[u32] = &[
    5, 0o120777, 1, 65534, 65534, 0, 4096, 0, 0, 1, 3, 9, 2, 1, 0, 1, 0,
];

// the mode that is set is 02600
const MODE_SET: &[u32] = &[
    5, 0o122600, 1, 65534, 65534, 0, 4096, 0, 0, 1, 3, 9, 2, 1, 0, 2, 0,
];

const MODE: &[u32] = &[
    0o2600, 0xffffffff, 0xffffffff, 0xffffffff, 0xffffffff, 0xffffffff, 0xffffffff, 0xffffffff,
];

static FOLLOWED: &[&[Step]] = &[
    &[
        Step(SYMLINK, &[ROOT, L, &[0], SETTINGS], &[OK]),
        Step(READLINK, &[THIRD], &[OK, &[0]]),
        Step(LOOKUP, &[ROOT, L], &[OK, THIRD, SET]),
    ],
    &[Step(SETATTR, &[THIRD, MODE], &[OK, MODE_SET])],
];

#[test]
fn makes_symbolic_links_for_all_to_follow(rt: HostRuntime) -> Result<(), Fail> {
    by_each_engine(&rt, FOLLOWED)
}
