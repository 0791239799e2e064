//! What is refused where ordinals, links or entries are at their end.
ghost use Rattle.std.specs.Prelude.{◌≡◌, ◌+◌, ◌<◌, [], IfOk, IsTrue, OnOk};
ghost use Rattle.bfs_model.specs.Server.Limits.{most_entries};
ghost use Rattle.bfs_model.specs.Server.Tree.{entries_in};
ghost use Rattle.bfs_tree.specs.Tree.{reach_of};
ghost use Rattle.tests_server.specs.Entries.{AreNumbered};

use crate::steps::runs;
use bfs_inode::{FileId, Inode};
use bfs_testing::numbers::{
    CREATE, FBIG, GETATTR, LINK, LOOKUP, MKDIR, NOENT, NOSPC, OK, READDIR, REMOVE, RENAME, RMDIR,
    SYMLINK,
};
use bfs_testing::steps::Step;
use bfs_testing::words::{A, B, C, D, E, FIFTH, FOURTH, NINTH, ROOT, THIRD, UNSET, letters};
use bfs_testing::{attributes, same};
use bfs_tree::{Store, Tree};
use bfs_types::{MOST_FILE_BYTES, Memory, Ordinal, Time};
use std::alloc::Global;
use std::test::Fail;

// the file `a` and the directories `d` and `d/e`
static MADE: &[Step] = &[
    Step(CREATE, &[ROOT, A, UNSET], &[OK, THIRD, A_MADE]),
    Step(MKDIR, &[ROOT, D, UNSET], &[OK, FOURTH, D_MADE]),
    Step(MKDIR, &[FOURTH, E, UNSET], &[OK, FIFTH, E_MADE]),
];

const A_MADE: &[u32] = attributes!(file 3, links 1, size 0, blocks 0, times 1 1 1);

const D_MADE: &[u32] = attributes!(directory 4, links 2, size 64, times 1 1 1);

const E_MADE: &[u32] = attributes!(directory 5, links 2, size 64, times 1 1 1);

// the path `b`
const PATH: &[u32] = &[1, 0x62000000];

fn made(alloc: Global) -> Result<Tree, Fail>
    ensures { IfOk result (λ tree. IsTrue ((reach_of tree).whole)) }
{
    let mut tree = Tree::new(alloc)?;
    runs(alloc, &mut tree, Ordinal::first(), MADE)?;
    Ok(tree)
}

// under that ordinal and those behind it
fn runs_on(alloc: Global, tree: &mut Tree, ordinal: u64, steps: &[Step]) -> Result<(), Fail>
    requires whole { IsTrue ((reach_of tree.old).whole) }
{
    let first = Ordinal::new(ordinal).ok_or("an ordinal")?;
    runs(alloc, tree, first, steps)
}

static AT_THE_END: &[Step] = &[
    Step(CREATE, &[ROOT, B, UNSET], &[NOSPC]),
    Step(MKDIR, &[ROOT, B, UNSET], &[NOSPC]),
    Step(SYMLINK, &[ROOT, B, PATH, UNSET], &[NOSPC]),
    Step(LINK, &[THIRD, ROOT, B], &[NOSPC]),
    Step(RENAME, &[ROOT, A, ROOT, B], &[NOSPC]),
    Step(RENAME, &[ROOT, A, ROOT, A], &[OK]),
    Step(REMOVE, &[ROOT, A], &[OK]),
    Step(RMDIR, &[FOURTH, E], &[OK]),
    Step(RMDIR, &[ROOT, D], &[OK]),
];

#[test]
fn makes_nothing_at_a_spent_ordinal(rt: HostRuntime) -> Result<(), Fail> {
    let mut tree = made(rt.alloc())?;
    runs_on(rt.alloc(), &mut tree, 4_294_967_296, AT_THE_END)
}

const MORE: u32 = MOST_FILE_BYTES as u32 + 1;

const TOO_LARGE: &[u32] = &[
    0xffffffff, 0xffffffff, 0xffffffff, MORE, 0xffffffff, 0xffffffff, 0xffffffff, 0xffffffff,
];

static ABOVE_THE_LIMIT: &[Step] = &[Step(CREATE, &[ROOT, A, TOO_LARGE], &[FBIG])];

#[test]
fn makes_no_file_above_the_limit(rt: HostRuntime) -> Result<(), Fail> {
    let alloc = rt.alloc();
    let mut tree = Tree::new(alloc)?;
    runs(alloc, &mut tree, Ordinal::first(), ABOVE_THE_LIMIT)
}

// gives an inode as many links as it may have, and counts them
#[tactic(auto, using(bfs_tree::specs::Laws::Knowing::knows_all))]
fn add_all_links(tree: &mut Tree, id: FileId) -> Result<u32, Fail>
    requires whole { IsTrue ((reach_of tree.old).whole) }
    ensures reach { reach_of tree.new ≡ reach_of tree.old }
{
    let inode = tree.get_mut(id).ok_or("an inode")?;
    for _link in 0..32_767 {
        if inode.links() < 32_767 {
            inode.add_link(Time::epoch());
        }
    }
    Ok(inode.links())
}

const NINTH_MADE: &[u32] = attributes!(directory 9, links 2, size 64, times 1 1 1);

static BEYOND_THE_LAST: &[Step] = &[
    Step(MKDIR, &[ROOT, B, UNSET], &[NOSPC]),
    Step(LINK, &[THIRD, FOURTH, B], &[NOSPC]),
    Step(RENAME, &[FOURTH, E, ROOT, B], &[NOSPC]),
    Step(MKDIR, &[FOURTH, B, UNSET], &[OK, NINTH, NINTH_MADE]),
    Step(RENAME, &[ROOT, D, ROOT, B], &[OK]),
    Step(SYMLINK, &[ROOT, D, PATH, UNSET], &[OK]),
];

#[test]
fn makes_no_link_beyond_the_last(rt: HostRuntime) -> Result<(), Fail> {
    let mut tree = made(rt.alloc())?;
    same!(rt; add_all_links(&mut tree, FileId::root())?, 32_767);
    same!(rt; add_all_links(&mut tree, FileId::new(3))?, 32_767);
    runs_on(rt.alloc(), &mut tree, 6, BEYOND_THE_LAST)
}

// gives a directory without entries as many as it may have, all of them names of a file
#[tactic(auto, using(bfs_tree::specs::Laws::Knowing::knows_all))]
fn add_all_entries(tree: &mut Tree, directory: FileId, file: FileId) -> Result<(), Fail>
    requires whole { IsTrue ((reach_of tree.old).whole) }
    ensures reach { reach_of tree.new ≡ reach_of tree.old }
{
    let inode = tree.get_mut(directory).ok_or("a directory")?;
    match inode.directory() {
        Some(directory) if directory.is_empty() => {}
        _ => return Err(Fail::new("a directory without entries")),
    }
    fill(inode, file)?;
    Ok(())
}

// so many entries that it is full
#[tactic(auto, using(crate::proofs::NumberedEntries::none_numbered))]
fn fill(inode: &mut Inode, file: FileId) -> Result<(), Memory>
    requires { entries_in inode.old.body ≡ [] }
{
    for number in 0..65_536 {
        add_numbered(inode, number, file)?;
    }
    Ok(())
}

// puts the entry of a number behind those of the lower numbers
#[tactic(auto, using(crate::proofs::NumberedEntries::above_numbered, crate::proofs::NumberedEntries::free_numbered, crate::proofs::NumberedEntries::numbered_further))]
fn add_numbered(inode: &mut Inode, number: u32, file: FileId) -> Result<(), Memory>
    requires few { number < most_entries }
    requires lower { AreNumbered number (entries_in inode.old.body) }
    ensures { OnOk result (AreNumbered (number + 1) (entries_in inode.new.body)) }
{
    inode.add_entry(Time::epoch(), 4 + number, &letters(number), file)
}

const FULL: &[u32] = &[
    2, 0x41ed, 2, 65534, 65534, 2097216, 4096, 0, 513, 1, 5, 1, 0, 0, 0, 0, 0,
];

// `aaaa`, the first of the names, and `pppp`, the last
const FIRST_NAME: &[u32] = &[4, 0x61616161];

const LAST_NAME: &[u32] = &[4, 0x70707070];

// the name `b`, at the end of a page that is the last
const ENTRY_B: &[u32] = &[1, 3, 1, 0x62000000, 70006, 0, 1];

const LATE: &[u32] = &[0x42465332, 1, 70010, 0, 0, 0, 0, 0];

const LATE_MADE: &[u32] = attributes!(file 70010, links 1, size 0, blocks 0, times 1 1 1);

static IN_A_FULL_DIRECTORY: &[Step] = &[
    Step(GETATTR, &[FIFTH], &[OK, FULL]),
    Step(CREATE, &[FIFTH, B, UNSET], &[NOSPC]),
    Step(MKDIR, &[FIFTH, B, UNSET], &[NOSPC]),
    Step(SYMLINK, &[FIFTH, B, PATH, UNSET], &[NOSPC]),
    Step(LINK, &[THIRD, FIFTH, B], &[NOSPC]),
    Step(RENAME, &[ROOT, A, FIFTH, B], &[NOSPC]),
    // but an entry that goes leaves its place to another one
    Step(RENAME, &[FIFTH, LAST_NAME, FIFTH, B], &[OK]),
    Step(LOOKUP, &[FIFTH, B], &[OK, THIRD, A_MADE]),
    Step(LOOKUP, &[FIFTH, LAST_NAME], &[NOENT]),
    Step(READDIR, &[FIFTH, &[65538, 8192]], &[OK, ENTRY_B]),
    Step(CREATE, &[ROOT, C, UNSET], &[OK, LATE, LATE_MADE]),
    Step(RENAME, &[ROOT, C, FIFTH, FIRST_NAME], &[OK]),
    Step(LOOKUP, &[FIFTH, FIRST_NAME], &[OK, LATE, LATE_MADE]),
];

#[test]
fn makes_no_entry_in_a_full_directory(rt: HostRuntime) -> Result<(), Fail> {
    let mut tree = made(rt.alloc())?;
    add_all_entries(&mut tree, FileId::new(5), FileId::new(3))?;
    runs_on(rt.alloc(), &mut tree, 70_000, IN_A_FULL_DIRECTORY)
}
