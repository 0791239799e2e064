//! Which ordinals are fresh, on a new tree and on trees that were made by hand.
ghost use Rattle.std.specs.Prelude.{◌<◌, ℕ, ◌↔◌, IsTrue, IfOk};
ghost use Rattle.std.specs.List.{All};
ghost use Rattle.std.specs.FinMap.{keys};
ghost use Rattle.bfs_model.specs.Server.Footprints.{Footprint, IsFreshFor, IsNewAt};
ghost use Rattle.bfs_model.specs.Server.Tree.{entries_in, first_ordinal};
ghost use Rattle.bfs_tree.specs.Tree.{at_home, reach_of};

use bfs_inode::{FileId, Inode};
use bfs_tree::{Store, Tree};
use bfs_types::{Memory, Ordinal};
use std::alloc::Global;

/// A tree with the root alone, which is whole, and on which the first ordinal is fresh, whatever is touched.
#[tactic(auto, using(crate::proofs::NewOrdinals::first_is_fresh))]
pub(crate) fn new_tree(alloc: Global) -> Result<Tree, Memory>
    ensures fresh { IfOk result (λ tree. (footprint : Footprint) → IsFreshFor (at_home tree) first_ordinal footprint) }
    ensures whole { IfOk result (λ tree. IsTrue ((reach_of tree).whole)) }
{
    Tree::new(alloc)
}

/// Whether an ordinal is fresh on a whole tree, whatever is touched: it is spent, or no inode has it as its fileid, and the cookies
/// of all directories are below it.
#[tactic(auto, using(crate::proofs::NewOrdinals::fresh_where_new))]
pub(crate) fn is_fresh(alloc: Global, tree: &Tree, ordinal: Ordinal) -> Result<bool, Memory>
    requires whole { IsTrue ((reach_of tree.now).whole) }
    ensures { IfOk result (λ fresh. IsTrue fresh → (footprint : Footprint) → IsFreshFor (at_home tree.now) ordinal footprint) }
{
    Ok(ordinal.is_spent() || is_new(alloc, tree, ordinal)?)
}

// whether it is new at each inode
fn is_new(alloc: Global, tree: &Tree, ordinal: Ordinal) -> Result<bool, Memory>
    requires whole { IsTrue ((reach_of tree.now).whole) }
    ensures { IfOk result (λ new. IsTrue new ↔ All (IsNewAt (at_home tree.now) ordinal) (keys (at_home tree.now))) }
{
    let ids = tree.ids(alloc)?;
    Ok(ids.iter().all(|id| is_new_at(tree, ordinal, *id)))
}

#[tactic(auto, using(bfs_tree::specs::Laws::Knowing::knows_all))]
fn is_new_at(tree: &Tree, ordinal: Ordinal, id: FileId) -> bool
    requires whole { IsTrue ((reach_of tree.now).whole) }
    ensures { IsTrue result ↔ IsNewAt (at_home tree.now) ordinal id }
{
    match tree.get(id) {
        Some(inode) => id.number() as u64 != ordinal.number() && is_above(inode, ordinal),
        None => true,
    }
}

// whether the cookies of a directory are below an ordinal; what is no directory has none
fn is_above(inode: &Inode, ordinal: Ordinal) -> bool
    ensures { IsTrue result ↔ All (λ entry. entry.cookie < ordinal) (entries_in inode.now.body) }
{
    match inode.directory() {
        Some(directory) => directory
            .iter()
            .all(|entry| (entry.cookie as u64) < ordinal.number()),
        None => true,
    }
}
