// Whether going up from each directory leads to the root, with each directory passed once.
ghost use Rattle.std.specs.Prelude.{◌≡◌, ◌↔◌, IsTrue, IfOk, OnOk};
ghost use Rattle.std.specs.BTreeSet.{contains};
ghost use Rattle.std.specs.FinMap.{entries};
ghost use Rattle.std.specs.List.{AllByRecursion};
ghost use Rattle.std.specs.Ordering.{nat_cmp};
ghost use Rattle.bfs_model.specs.Server.Tree as model;
ghost use Rattle.bfs_model.specs.Server.WellFormed.{ReachesRoot};
ghost use Rattle.bfs_tree.specs.Tree.{at_home, reach_of};
ghost use Rattle.bfs_digest.specs.Inside.Formation.{AreReached, LeadsToRoot};

use bfs_tree::{Store, Tree};
use bfs_types::{FileId, Memory};
use std::alloc::Global;
use std::collections::BTreeSet;

pub(crate) fn all_reach_root(alloc: Global, tree: &Tree) -> Result<bool, Memory>
    requires { IsTrue ((reach_of tree.now).whole) }
    ensures { IfOk result (λ all. IsTrue all ↔ AllByRecursion (LeadsToRoot (at_home tree.now)) (entries (at_home tree.now))) }
{
    let mut reached = BTreeSet::new(alloc);
    reached.insert(FileId::root().number())?;
    for (id, inode) in tree.iter() {
        if inode.is_directory() {
            if !reaches_root(tree, &reached, FileId::new(*id)) {
                return Ok(false);
            }
            note_way(&mut reached, tree, FileId::new(*id))?;
        }
    }
    Ok(true)
}

// whether the way up from there leads to the root; it is followed as far as to a fileid from which it does
fn reaches_root(tree: &Tree, reached: &BTreeSet<u32>, id: FileId) -> bool
    requires whole { IsTrue ((reach_of tree.now).whole) }
    requires reached { AreReached (at_home tree.now) (contains nat_cmp reached.now) }
    ensures { IsTrue result ↔ ReachesRoot (model.parent_of (at_home tree.now)) id }
{
    let mut at = id;
    for _step in 0..tree.count() {
        if reached.contains(&at.number()) {
            return true;
        }
        match parent_of(tree, at) {
            None => return false,
            Some(parent) => at = parent,
        }
    }
    reached.contains(&at.number())
}

// notes all fileids on the way up from there
fn note_way(reached: &mut BTreeSet<u32>, tree: &Tree, id: FileId) -> Result<(), Memory>
    requires reached { AreReached (at_home tree.now) (contains nat_cmp reached.old) }
    requires way { ReachesRoot (model.parent_of (at_home tree.now)) id }
    ensures { OnOk result (AreReached (at_home tree.now) (contains nat_cmp reached.new)) }
{
    let mut at = id;
    for _step in 0..tree.count() {
        if !reached.insert(at.number())? {
            return Ok(());
        }
        match parent_of(tree, at) {
            None => return Ok(()),
            Some(parent) => at = parent,
        }
    }
    Ok(())
}

// the directory above a directory, if it is not the root
fn parent_of(tree: &Tree, id: FileId) -> Option<FileId>
    ensures { result ≡ model.parent_of (at_home tree.now) id }
{
    if id == FileId::root() {
        return None;
    }
    Some(tree.home(id)?.directory()?.parent())
}
