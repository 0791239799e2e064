// Whether a tree is that of a well-formed file system.
ghost use Rattle.std.specs.Prelude.{◌≡◌, ◌≤◌, ◌↔◌, IsTrue, IfOk};
ghost use Rattle.std.specs.List.{list_all};
ghost use Rattle.std.specs.FinMap.{entries};
ghost use Rattle.bfs_model.specs.Server.Tree.{Time, first_ordinal, spent_ordinal};
ghost use Rattle.bfs_model.specs.Server.WellFormed.{IsWellFormed};
ghost use Rattle.bfs_serial.specs.Parts.{file_system_of};
ghost use Rattle.bfs_tree.specs.Tree.{at_home, reach_of};
ghost use Rattle.bfs_digest.specs.Inside.Formation.{TellsPlaced, is_named};

use crate::names::Names;
use crate::placing::is_placed;
use crate::reach::all_reach_root;
use bfs_inode::Inode;
use bfs_tree::{Tree, is_directory};
use bfs_types::{FileId, Memory};
use std::alloc::Global;

/// Whether the tree and an ordinal for the next request are those of a well-formed file system. It takes some memory for each inode that
/// is named and for each directory, and n log n steps for n inodes and entries. `Memory` if memory runs out.
pub(crate) fn is_well_formed(alloc: Global, tree: &Tree, ordinal: u64) -> Result<bool, Memory>
    requires whole { IsTrue ((reach_of tree.now).whole) }
    requires ordinal { (first_ordinal ≤ ordinal) × (ordinal ≤ spent_ordinal) }
    ensures { IfOk result (λ formed. (last_time : Time) → IsTrue formed ↔ IsWellFormed (file_system_of tree.now ordinal last_time)) }
{
    if !is_directory(tree, FileId::root()) {
        return Ok(false);
    }
    let Some(names) = names_of(alloc, tree, ordinal)? else {
        return Ok(false);
    };
    if !are_named(tree, &names) {
        return Ok(false);
    }
    all_reach_root(alloc, tree)
}

// how often the entries of all directories name each inode, or `None` if one of the inodes may not stand where it does
fn names_of(alloc: Global, tree: &Tree, ordinal: u64) -> Result<Option<Names>, Memory>
    ensures { IfOk result (λ names. TellsPlaced names (at_home tree.now) ordinal) }
{
    let mut names = Names::new(alloc);
    for (id, inode) in tree.iter() {
        if !is_placed(tree, FileId::new(*id), inode, ordinal) {
            return Ok(None);
        }
        names.count_all(inode)?;
    }
    Ok(Some(names))
}

fn are_named(tree: &Tree, names: &Names) -> bool
    ensures { result ≡ list_all (is_named names.now) (entries (at_home tree.now)) }
{
    tree.iter()
        .all(|(id, inode)| is_named(names, FileId::new(*id), inode))
}

// whether an inode is named as often as it should be
fn is_named(names: &Names, id: FileId, inode: &Inode) -> bool
    ensures { result ≡ is_named names.now (id, inode.now) }
{
    let count = names.count(id);
    if inode.is_directory() {
        id == FileId::root() || count == 1
    } else {
        count == inode.links()
    }
}
