// Whether an inode of a tree may stand where it does, as far as that can be told before all entries are counted.
ghost use Rattle.std.specs.Prelude.{◌≡◌, ◌≤◌, ◌<◌, ◌↔◌, IsTrue};
ghost use Rattle.std.specs.List.{list_all};
ghost use Rattle.bfs_model.specs.Server.Tree.{root_id};
ghost use Rattle.bfs_model.specs.Server.WellFormed.{IsNumbered};
ghost use Rattle.bfs_tree.specs.Tree.{at_home};
ghost use Rattle.bfs_digest.specs.Inside.Formation as formation;
ghost use Rattle.bfs_digest.specs.Inside.Formation.{IsPlaced};

use bfs_inode::{Directory, Entry, Inode};
use bfs_tree::{Tree, are_children, directories_among, is_limited};
use bfs_types::FileId;

/// Whether the inode may stand at that fileid before the request of that ordinal.
pub(crate) fn is_placed(tree: &Tree, id: FileId, inode: &Inode, ordinal: u64) -> bool
    ensures { IsTrue result ↔ IsPlaced (at_home tree.now) ordinal (id, inode.now) }
{
    is_limited(inode) && is_numbered(id, inode, ordinal) && holds_children(tree, id, inode)
}

// whether its fileid and its cookies are those of earlier requests, and the root is its own parent
#[tactic(auto, using(crate::proofs::Placed::cookies_from, crate::proofs::Placed::cookies_of))]
fn is_numbered(id: FileId, inode: &Inode, ordinal: u64) -> bool
    ensures { IsTrue result ↔ IsNumbered ordinal id inode.now }
{
    if !is_fileid(id, ordinal) {
        return false;
    }
    match inode.directory() {
        Some(directory) => { may_lie_in(id, directory.parent()) && has_cookies(directory, ordinal) }
        None => id != FileId::root(),
    }
}

// the root's or that of an earlier request
fn is_fileid(id: FileId, ordinal: u64) -> bool
    ensures { IsTrue result ↔ ((root_id ≤ id) × (id < ordinal)) }
{
    id >= FileId::root() && (id.number() as u64) < ordinal
}

// the root is its own parent
fn may_lie_in(dir: FileId, parent: FileId) -> bool
    ensures { IsTrue result ↔ (dir ≡ root_id → parent ≡ root_id) }
{
    dir != FileId::root() || parent == FileId::root()
}

fn has_cookies(directory: &Directory, ordinal: u64) -> bool
    ensures { result ≡ list_all (formation.is_cookie ordinal) directory.now.entries }
{
    directory.iter().all(|entry| is_cookie(entry, ordinal))
}

fn is_cookie(entry: &Entry, ordinal: u64) -> bool
    ensures { result ≡ formation.is_cookie ordinal entry.now }
{
    entry.cookie >= 3 && (entry.cookie as u64) < ordinal
}

// whether what a directory names may lie in it, and it has the links that come of it
fn holds_children(tree: &Tree, id: FileId, inode: &Inode) -> bool
    ensures { result ≡ formation.holds_children (at_home tree.now) (id, inode.now) }
{
    match inode.directory() {
        Some(directory) => {
            are_children(tree, id, directory)
                && inode.links() as usize == 2 + directories_among(tree, directory)
        }
        None => true,
    }
}
