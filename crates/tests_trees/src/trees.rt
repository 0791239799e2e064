//! Which trees are well formed.
ghost use Rattle.std.specs.Prelude.{◌≡◌, IfOk, IsTrue};
ghost use Rattle.bfs_tree.specs.Tree.{reach_of};

use crate::growing::{add_entry, add_link, context};
use crate::inodes::UNSET;
use bfs_inode::{FileId, Inode};
use bfs_testing::same;
use bfs_tree::{Store, Tree};
use bfs_types::{Cred, Gids, Memory, Time};
use std::alloc::Global;
use std::process::Abort;
use std::test::Fail;

/// A directory's entry: its cookie, its name, and the fileid of what it names.
#[derive(Drop)]
pub(crate) struct Entry<'a>(u32, &'a [u8], u32);

/// What is put into a tree: the root, the directory of a fileid below that of another, or the file of a fileid. The links
/// are those beyond the ones that it is made with.
#[derive(Drop)]
pub(crate) enum Planted<'a> {
    Root {
        links: u32,
        entries: &'a [Entry<'a>],
    },
    Directory {
        id: u32,
        parent: u32,
        links: u32,
        entries: &'a [Entry<'a>],
    },
    File {
        id: u32,
        links: u32,
    },
}

fn nobody() -> Cred {
    Cred {
        uid: 65534,
        gid: 65534,
        gids: Gids::none(),
    }
}

/// A new tree, with what is planted into it. It is whole.
pub(crate) fn grown(alloc: Global, planted: &[Planted]) -> Result<Tree, Fail>
    ensures { IfOk result (λ tree. IsTrue ((reach_of tree).whole)) }
{
    let mut tree = Tree::new(alloc)?;
    plant_all(alloc, &mut tree, planted)?;
    Ok(tree)
}

fn plant_all(alloc: Global, tree: &mut Tree, planted: &[Planted]) -> Result<(), Fail>
    requires whole { IsTrue ((reach_of tree.old).whole) }
    ensures reach { reach_of tree.new ≡ reach_of tree.old }
{
    for inode in planted {
        plant(alloc, tree, inode)?;
    }
    Ok(())
}

fn plant(alloc: Global, tree: &mut Tree, planted: &Planted) -> Result<(), Fail>
    requires whole { IsTrue ((reach_of tree.old).whole) }
    ensures reach { reach_of tree.new ≡ reach_of tree.old }
{
    match planted {
        Planted::Root { links, entries } => put(tree, 2, Inode::root(alloc), *links, entries),
        Planted::Directory {
            id,
            parent,
            links,
            entries,
        } => put(tree, *id, directory(alloc, *parent), *links, entries),
        Planted::File { id, links } => put(tree, *id, file(alloc)?, *links, &[]),
    }
}

fn directory(alloc: Global, parent: u32) -> Inode {
    Inode::new_directory(
        alloc,
        &context(Time::epoch(), nobody()),
        &UNSET,
        FileId::new(parent),
    )
}

fn file(alloc: Global) -> Result<Inode, Memory> {
    Inode::new_file(alloc, &context(Time::epoch(), nobody()), &UNSET)
}

// with that many links more, and those entries
#[tactic(auto, using(bfs_tree::specs::Laws::Knowing::knows_all))]
fn put(tree: &mut Tree, id: u32, inode: Inode, links: u32, entries: &[Entry]) -> Result<(), Fail>
    requires whole { IsTrue ((reach_of tree.old).whole) }
    ensures reach { reach_of tree.new ≡ reach_of tree.old }
{
    tree.insert(FileId::new(id), filled(inode, links, entries)?)?;
    Ok(())
}

fn filled(mut inode: Inode, links: u32, entries: &[Entry]) -> Result<Inode, Fail> {
    for _link in 0..links {
        add_link(&mut inode, Time::epoch());
    }
    for Entry(cookie, name, child) in entries {
        add_entry(&mut inode, *cookie, name, FileId::new(*child))?;
    }
    Ok(inode)
}

/// Inodes that are put into a tree, and whether it is well formed then.
#[derive(Drop)]
struct Stage<'a>(&'a [Planted<'a>], bool);

// of a new tree, one stage after another
fn judges(rt: &impl Abort, alloc: Global, stages: &[Stage]) -> Result<(), Fail> {
    let mut tree = Tree::new(alloc)?;
    for Stage(planted, well_formed) in stages {
        plant_all(alloc, &mut tree, planted)?;
        same!(rt; tree.well_formed(), *well_formed);
    }
    Ok(())
}

// a file with two names, and a directory
const NAMED: &[Planted] = &[
    Planted::Root {
        links: 1,
        entries: &[Entry(3, b"a", 3), Entry(4, b"b", 3), Entry(5, b"d", 5)],
    },
    Planted::File { id: 3, links: 1 },
    Planted::Directory {
        id: 5,
        parent: 2,
        links: 0,
        entries: &[],
    },
];

#[test]
fn accepts_trees(rt: HostRuntime) -> Result<(), Fail> {
    judges(&rt, rt.alloc(), &[Stage(&[], true), Stage(NAMED, true)])
}

const A_ALONE: &[Planted] = &[Planted::Root {
    links: 0,
    entries: &[Entry(3, b"a", 3)],
}];

const THIRD: &[Planted] = &[Planted::File { id: 3, links: 0 }];

#[test]
fn refuses_a_name_of_nothing(rt: HostRuntime) -> Result<(), Fail> {
    judges(
        &rt,
        rt.alloc(),
        &[Stage(A_ALONE, false), Stage(THIRD, true)],
    )
}

const NAMED_TWICE: &[Planted] = &[
    Planted::Root {
        links: 0,
        entries: &[Entry(3, b"a", 3), Entry(4, b"b", 3)],
    },
    Planted::File { id: 3, links: 0 },
];

const LINK_OF_NOTHING: &[Planted] = &[Planted::Root {
    links: 1,
    entries: &[],
}];

#[test]
fn refuses_links_that_are_not_the_names(rt: HostRuntime) -> Result<(), Fail> {
    judges(&rt, rt.alloc(), &[Stage(NAMED_TWICE, false)])?;
    judges(&rt, rt.alloc(), &[Stage(LINK_OF_NOTHING, false)])
}

const IN_TWO_OTHERS: &[Planted] = &[
    Planted::Root {
        links: 2,
        entries: &[Entry(3, b"a", 3), Entry(4, b"b", 4)],
    },
    Planted::Directory {
        id: 3,
        parent: 2,
        links: 0,
        entries: &[],
    },
    Planted::Directory {
        id: 4,
        parent: 2,
        links: 1,
        entries: &[Entry(5, b"c", 3)],
    },
];

#[test]
fn refuses_a_directory_in_two_others(rt: HostRuntime) -> Result<(), Fail> {
    judges(&rt, rt.alloc(), &[Stage(IN_TWO_OTHERS, false)])
}

const NAMING_EACH_OTHER: &[Planted] = &[
    Planted::Directory {
        id: 3,
        parent: 4,
        links: 1,
        entries: &[Entry(5, b"a", 4)],
    },
    Planted::Directory {
        id: 4,
        parent: 3,
        links: 1,
        entries: &[Entry(6, b"b", 3)],
    },
];

#[test]
fn refuses_directories_that_name_each_other(rt: HostRuntime) -> Result<(), Fail> {
    judges(&rt, rt.alloc(), &[Stage(NAMING_EACH_OTHER, false)])
}

// of two files in the root
fn refuses_names(rt: &impl Abort, alloc: Global, entries: &[Entry]) -> Result<(), Fail> {
    let planted = [
        Planted::Root { links: 0, entries },
        Planted::File { id: 3, links: 0 },
        Planted::File { id: 4, links: 0 },
    ];
    judges(rt, alloc, &[Stage(&planted, false)])
}

#[test]
fn refuses_bad_names(rt: HostRuntime) -> Result<(), Fail> {
    for second in [b"..".as_slice(), b"a/b", b""] {
        refuses_names(&rt, rt.alloc(), &[Entry(3, b"a", 3), Entry(4, second, 4)])?;
    }
    Ok(())
}
