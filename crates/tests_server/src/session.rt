//! A whole session: all procedures on one file system.
use crate::steps::{executes, has_ids, runs};
use bfs_inode::FileId;
use bfs_testing::numbers::{
    CREATE, GETATTR, LINK, LOOKUP, MKDIR, NOTEMPTY, NULL, OK, PERM, READ, READDIR, READLINK,
    REMOVE, RENAME, RMDIR, SETATTR, STALE, STATFS, SYMLINK, WRITE, WRITECACHE,
};
use bfs_testing::steps::Step;
use bfs_testing::words::{
    A, B, C, D, DOT_DOT, E, EIGHTH, F, FIFTH, FOURTH, G, H, L, ROOT, SEVENTH, SIXTH, UNSET,
};
use bfs_testing::{attributes, holds, numbers, same};
use bfs_tree::Tree;
use bfs_types::Ordinal;
use std::test::Fail;

// what is made: the directories `d` and `d/e`, the files `a` and `d/b`, the symbolic link `l`, and `d/e/c`, a name more of `a`
static MAKING: &[Step] = &[
    Step(NULL, &[], &[]),
    Step(MKDIR, &[ROOT, D, UNSET], &[OK, FOURTH, D_MADE]),
    Step(MKDIR, &[FOURTH, E, UNSET], &[OK, FIFTH, E_MADE]),
    Step(CREATE, &[ROOT, A, UNSET], &[OK, SIXTH, A_MADE]),
    Step(CREATE, &[FOURTH, B, UNSET], &[OK, SEVENTH, B_MADE]),
    Step(SYMLINK, &[ROOT, L, PATH, UNSET], &[OK]),
    Step(LINK, &[SIXTH, FIFTH, C], &[OK]),
    Step(STATFS, &[ROOT], &[OK, ROOM_LESS_FOUR]),
    Step(GETATTR, &[FOURTH], &[OK, D_FILLED]),
    Step(numbers::ROOT, &[], &[]),
];

const D_MADE: &[u32] = attributes!(directory 4, links 2, size 64, times 1 1 1);

const E_MADE: &[u32] = attributes!(directory 5, links 2, size 64, times 1 1 1);

const A_MADE: &[u32] = attributes!(file 6, links 1, size 0, blocks 0, times 1 1 1);

const B_MADE: &[u32] = attributes!(file 7, links 1, size 0, blocks 0, times 1 1 1);

// with `e` and `b`
const D_FILLED: &[u32] = attributes!(directory 4, links 3, size 128, times 1 1 1);

// the path `d/b`
const PATH: &[u32] = &[3, 0x642f6200];

// a block for each of the root, `d`, `e` and `l`
const ROOM_LESS_FOUR: &[u32] = &[8192, 4096, 262144, 262140, 262140];

// what is written, read and moved: `a` becomes `g`, `d/b` becomes `d/e/b` and then takes the place of `g`, `d/e` becomes `f/h`
static MOVING: &[Step] = &[
    Step(
        WRITE,
        &[SIXTH, &[0, 4095, 0, 2, 0x78790000]],
        &[OK, A_WRITTEN],
    ),
    Step(STATFS, &[FIFTH], &[OK, ROOM_LESS_SIX]),
    Step(
        READ,
        &[SIXTH, &[4094, 8, 0]],
        &[OK, A_WRITTEN, &[3, 0x00787900]],
    ),
    Step(LOOKUP, &[FIFTH, C], &[OK, SIXTH, A_WRITTEN]),
    Step(RENAME, &[ROOT, A, ROOT, G], &[OK]),
    Step(RENAME, &[FOURTH, B, FIFTH, B], &[OK]),
    Step(RENAME, &[FIFTH, B, ROOT, G], &[OK]),
    Step(GETATTR, &[SIXTH], &[OK, A_AT_C_ALONE]),
    Step(LOOKUP, &[ROOT, G], &[OK, SEVENTH, B_MOVED]),
    Step(RENAME, &[ROOT, D, FIFTH, D], &[PERM]),
    Step(MKDIR, &[ROOT, F, UNSET], &[OK, TWENTY_THIRD, F_MADE]),
    Step(RENAME, &[FOURTH, E, TWENTY_THIRD, H], &[OK]),
    Step(GETATTR, &[FOURTH], &[OK, D_EMPTIED]),
    Step(LOOKUP, &[FIFTH, DOT_DOT], &[OK, TWENTY_THIRD, F_FILLED]),
    Step(READLINK, &[EIGHTH], &[OK, PATH]),
    Step(WRITECACHE, &[], &[]),
    Step(SETATTR, &[EIGHTH, MODE], &[OK, L_SET]),
];

const TWENTY_THIRD: &[u32] = &[0x42465332, 1, 23, 0, 0, 0, 0, 0];

const A_WRITTEN: &[u32] = attributes!(file 6, links 2, size 4097, blocks 2, times 1 2 2);

const A_AT_C_ALONE: &[u32] = attributes!(file 6, links 1, size 4097, blocks 2, times 1 2 2);

const B_MOVED: &[u32] = attributes!(file 7, links 1, size 0, blocks 0, times 1 1 2);

const D_EMPTIED: &[u32] = attributes!(directory 4, links 2, size 64, times 1 2 2);

const F_MADE: &[u32] = attributes!(directory 23, links 2, size 64, times 2 2 2);

const F_FILLED: &[u32] = attributes!(directory 23, links 3, size 96, times 2 2 2);

// two more for `a`
const ROOM_LESS_SIX: &[u32] = &[8192, 4096, 262144, 262138, 262138];

// the mode 0600 alone
const MODE: &[u32] = &[
    0o600, 0xffffffff, 0xffffffff, 0xffffffff, 0xffffffff, 0xffffffff, 0xffffffff, 0xffffffff,
];

const L_SET: &[u32] = &[
    5, 0o120600, 1, 65534, 65534, 3, 4096, 0, 1, 1, 8, 1, 0, 1, 0, 2, 0,
];

// what is listed, two entries a page, and then removed until the root is empty
static REMOVING: &[Step] = &[
    Step(READDIR, &[ROOT, &[0, 52]], &[OK, DOTS, &[0, 0]]),
    Step(READDIR, &[ROOT, &[2, 71]], &[OK, D_AND_L, &[0, 0]]),
    Step(READDIR, &[ROOT, &[8, 52]], &[OK, G_AND_F, &[0, 1]]),
    Step(READDIR, &[ROOT, &[23, 52]], &[OK, &[0, 1]]),
    Step(RMDIR, &[ROOT, F], &[NOTEMPTY]),
    Step(REMOVE, &[FIFTH, C], &[OK]),
    Step(GETATTR, &[SIXTH], &[STALE]),
    Step(LINK, &[SEVENTH, FOURTH, A], &[OK]),
    Step(REMOVE, &[ROOT, G], &[OK]),
    Step(GETATTR, &[SEVENTH], &[OK, B_AT_A_ALONE]),
    Step(REMOVE, &[FOURTH, A], &[OK]),
    Step(GETATTR, &[SEVENTH], &[STALE]),
    Step(RMDIR, &[TWENTY_THIRD, H], &[OK]),
    Step(GETATTR, &[FIFTH], &[STALE]),
    Step(RMDIR, &[ROOT, F], &[OK]),
    Step(RMDIR, &[ROOT, D], &[OK]),
    Step(REMOVE, &[ROOT, L], &[OK]),
    Step(GETATTR, &[ROOT], &[OK, ROOT_EMPTIED]),
    Step(STATFS, &[ROOT], &[OK, ROOM_LESS_ONE]),
];

const DOTS: &[u32] = &[1, 2, 1, 0x2e000000, 1, 1, 2, 2, 0x2e2e0000, 2];

const D_AND_L: &[u32] = &[1, 4, 1, 0x64000000, 4, 1, 8, 1, 0x6c000000, 8];

// under `g` is what was made as `d/b`, by the renaming of ordinal 19
const G_AND_F: &[u32] = &[1, 7, 1, 0x67000000, 19, 1, 23, 1, 0x66000000, 23];

const B_AT_A_ALONE: &[u32] = attributes!(file 7, links 1, size 0, blocks 0, times 1 1 3);

const ROOT_EMPTIED: &[u32] = &[2, 0x41ff, 2, 0, 0, 64, 4096, 0, 1, 1, 2, 0, 0, 3, 0, 3, 0];

const ROOM_LESS_ONE: &[u32] = &[8192, 4096, 262144, 262143, 262143];

#[test]
fn serves_a_session(rt: HostRuntime) -> Result<(), Fail> {
    let files = executes(rt.alloc(), &[MAKING, MOVING, REMOVING])?;
    same!(rt; files.next_ordinal(), Some(49));
    let tree = files.tree().ok_or("a live file system")?;
    holds!(rt; has_ids(rt.alloc(), tree, &[FileId::root()])?);
    Ok(())
}

// each procedure with what it is for
static EACH: &[Step] = &[
    Step(NULL, &[], &[]),
    Step(MKDIR, &[ROOT, D, UNSET], &[OK, FOURTH, D_MADE]),
    Step(CREATE, &[ROOT, A, UNSET], &[OK, FIFTH, FIFTH_MADE]),
    Step(WRITE, &[FIFTH, &[0, 0, 0], BYTE], &[OK, FIFTH_WRITTEN]),
    Step(READ, &[FIFTH, &[0, 8, 0]], &[OK, FIFTH_WRITTEN, BYTE]),
    Step(LINK, &[FIFTH, FOURTH, B], &[OK]),
    Step(RENAME, &[ROOT, A, FOURTH, A], &[OK]),
    Step(LOOKUP, &[FOURTH, B], &[OK, FIFTH, FIFTH_OF_TWO]),
    Step(REMOVE, &[FOURTH, B], &[OK]),
    Step(SETATTR, &[FIFTH, MODE], &[OK, FIFTH_SET]),
    Step(GETATTR, &[FIFTH], &[OK, FIFTH_SET]),
    Step(SYMLINK, &[ROOT, L, PATH, UNSET], &[OK]),
    Step(READLINK, &[FOURTEENTH], &[OK, PATH]),
    Step(READDIR, &[FOURTH, &[0, 512]], &[OK, D_LISTED, &[0, 1]]),
    Step(STATFS, &[ROOT], &[OK, ROOM_LESS_FOUR]),
    Step(REMOVE, &[FOURTH, A], &[OK]),
    Step(RMDIR, &[ROOT, D], &[OK]),
    Step(WRITECACHE, &[], &[]),
    Step(numbers::ROOT, &[], &[]),
];

const BYTE: &[u32] = &[1, 0x61000000];

const FIFTH_MADE: &[u32] = attributes!(file 5, links 1, size 0, blocks 0, times 1 1 1);

const FIFTH_WRITTEN: &[u32] = attributes!(file 5, links 1, size 1, blocks 1, times 1 1 1);

const FIFTH_OF_TWO: &[u32] = attributes!(file 5, links 2, size 1, blocks 1, times 1 1 1);

const FIFTH_SET: &[u32] = &[
    1, 0o100600, 1, 65534, 65534, 1, 4096, 0, 1, 1, 5, 1, 0, 1, 0, 1, 0,
];

const FOURTEENTH: &[u32] = &[0x42465332, 1, 14, 0, 0, 0, 0, 0];

const D_LISTED: &[u32] = &[
    1, 4, 1, 0x2e000000, 1, 1, 2, 2, 0x2e2e0000, 2, 1, 5, 1, 0x61000000, 9,
];

#[test]
fn runs_each_procedure(rt: HostRuntime) -> Result<(), Fail> {
    let alloc = rt.alloc();
    executes(alloc, &[EACH])?;
    let mut tree = Tree::new(alloc)?;
    runs(alloc, &mut tree, Ordinal::first(), EACH)
}
