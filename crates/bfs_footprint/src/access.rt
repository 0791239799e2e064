// Whether directories let a caller do what a call asks of them. What is no directory refuses a call for another reason.
ghost use Rattle.std.specs.Prelude.{◌≡◌, ◌++◌, Some, None, IsTrue, if◌then◌else◌};
ghost use Rattle.bfs_model.specs.Server.Footprints as model;
ghost use Rattle.bfs_model.specs.Server.Footprints.{ids_in};
ghost use Rattle.bfs_tree.specs.Tree.{at_home, reach_of};

use crate::file_ids::FileIds;
use bfs_tree::{Store, Tree};
use bfs_types::{Cred, FileId};

/// Whether names may be looked for in a directory.
#[tactic(auto, using(bfs_tree::specs::Laws::Knowing::knows_all))]
pub(crate) fn lets_search(tree: &Tree, caller: &Cred, dir: FileId) -> bool
    requires whole { IsTrue ((reach_of tree.now).whole) }
    ensures { result ≡ model.lets_search (at_home tree.now) caller.now (Some dir) }
{
    match tree.get(dir) {
        Some(inode) => !inode.is_directory() || inode.may_search(caller),
        None => true,
    }
}

/// Whether the entries of a directory may be changed.
#[tactic(auto, using(bfs_tree::specs::Laws::Knowing::knows_all))]
pub(crate) fn lets_change(tree: &Tree, caller: &Cred, dir: FileId) -> bool
    requires whole { IsTrue ((reach_of tree.now).whole) }
    ensures { result ≡ model.lets_change (at_home tree.now) caller.now (Some dir) }
{
    match tree.get(dir) {
        Some(inode) => !inode.is_directory() || inode.may_change_entries(caller),
        None => true,
    }
}

/// The directories of a RENAME whose caller may not change the entries of both, or `None` if nothing speaks against it.
pub(crate) fn kept_out(
    tree: &Tree,
    caller: &Cred,
    from: Option<FileId>,
    to: Option<FileId>,
) -> Option<FileIds>
    requires whole { IsTrue ((reach_of tree.now).whole) }
    ensures { result ≡ (if model.lets_rename (at_home tree.now) caller.now from to then None else Some (ids_in from ++ ids_in to)) }
{
    let from = from?;
    let to = to?;
    if lets_rename(tree, caller, from, to) {
        return None;
    }
    Some(FileIds::none().and(from).and(to))
}

#[tactic(auto, using(bfs_tree::specs::Laws::Knowing::knows_all))]
fn lets_rename(tree: &Tree, caller: &Cred, from: FileId, to: FileId) -> bool
    requires whole { IsTrue ((reach_of tree.now).whole) }
    ensures { result ≡ model.lets_rename (at_home tree.now) caller.now (Some from) (Some to) }
{
    let Some(from) = tree.get(from) else {
        return true;
    };
    let Some(to) = tree.get(to) else {
        return true;
    };
    if !from.is_directory() || !to.is_directory() {
        return true;
    }
    from.may_change_entries(caller) && to.may_change_entries(caller)
}
