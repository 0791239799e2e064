ghost use Rattle.std.specs.Prelude.{◌≡◌, ◌==◌, ◌≤◌, ◌↔◌, IsTrue};
ghost use Rattle.std.specs.List.{list_all, AllByRecursion};
ghost use Rattle.std.specs.FinMap.{get, entries};
ghost use Rattle.bfs_model.specs.Server.Limits.{most_entries};
ghost use Rattle.bfs_model.specs.Server.Tree.{entries_at, entries_in, is_directory};
ghost use Rattle.bfs_model.specs.Server.WellFormed as model;
ghost use Rattle.bfs_tree.specs.Tree.{at_home, reach_of};
ghost use Rattle.bfs_tree.specs.Inside.WellFormed as place;

mod limits;

use crate::ancestry::is_below;
use crate::store::Store;
use crate::trees::Tree;
use bfs_inode::{Directory, Inode};
use bfs_types::FileId;
pub use limits::is_limited;

impl Tree {
    /// Whether the tree is whole and well formed:
    ///
    /// - The root is a directory, and no entry names it.
    /// - Each entry names an inode of the tree.
    /// - Each directory but the root has one name, in the directory that is its parent, and going up from parent to parent leads
    ///   to the root.
    /// - A file or a symbolic link has as many links as names, and at least one. A directory has two links, and one more for each
    ///   directory in it.
    /// - Links, entries, names, bytes and paths are within their limits.
    /// - In each directory the names are good ones, no two are the same, and the cookies rise.
    ///
    /// It takes no memory. In a tree of n inodes with e entries in all, each file and symbolic link costs n + e steps. Each
    /// directory costs a step for each byte of its names, two look-ups for each of its entries, a step for each entry of its
    /// parent, and a look-up for each directory above it. That the names of a directory differ and its cookies rise costs
    /// nothing, since every `Directory` keeps it so.
    pub fn well_formed(&self) -> bool
        ensures { IsTrue result ↔ (IsTrue ((reach_of self.now).whole) × model.IsWellFormedTree (at_home self.now)) }
    {
        if !self.is_whole() {
            return false;
        }
        is_directory(self, FileId::root()) && are_in_order(self)
    }
}

// whether a directory has that fileid
fn is_directory(tree: &Tree, id: FileId) -> bool
    ensures { result ≡ is_directory (get (at_home tree.now) id) }
{
    match tree.home(id) {
        Some(inode) => inode.is_directory(),
        None => false,
    }
}

fn are_in_order(tree: &Tree) -> bool
    requires { IsTrue ((reach_of tree.now).whole) }
    ensures { IsTrue result ↔ AllByRecursion (place.IsInOrder (at_home tree.now)) (entries (at_home tree.now)) }
{
    for (id, inode) in tree.iter() {
        if !is_limited(inode) || !is_in_place(tree, FileId::new(*id), inode) {
            return false;
        }
    }
    true
}

// whether an inode has its links, and a directory its place
fn is_in_place(tree: &Tree, id: FileId, inode: &Inode) -> bool
    requires { IsTrue ((reach_of tree.now).whole) }
    ensures { result ≡ place.is_in_place (at_home tree.now) id inode.now.links inode.now.body }
{
    match inode.directory() {
        Some(directory) => is_directory_in_place(tree, id, inode.links(), directory),
        None => has_names(tree, id, inode.links()),
    }
}

fn is_directory_in_place(tree: &Tree, id: FileId, links: u32, directory: &Directory) -> bool
    requires { IsTrue ((reach_of tree.now).whole) }
    ensures { result ≡ place.is_directory_in_place (at_home tree.now) id links directory.now }
{
    are_children(tree, id, directory)
        && links as usize == 2 + directories_among(tree, directory)
        && (id == FileId::root() || has_one_name_in(tree, directory.parent(), id))
        && is_below(tree, id, FileId::root())
}

/// Whether everything that a directory names is in the tree, and at home, and may lie in a directory of that fileid: it isn't the root, and
/// isn't a directory whose parent is another one. Each entry costs a look-up.
pub fn are_children(tree: &Tree, dir: FileId, directory: &Directory) -> bool
    ensures { result ≡ list_all (λ entry. place.is_child (at_home tree.now) dir entry.child) directory.now.entries }
{
    directory
        .iter()
        .all(|entry| is_child(tree, dir, entry.child))
}

// whether what a directory names is there, and isn't the root or a directory that lies in another one
fn is_child(tree: &Tree, dir: FileId, child: FileId) -> bool
    ensures { result ≡ place.is_child (at_home tree.now) dir child }
{
    let Some(inode) = tree.home(child) else {
        return false;
    };
    match inode.directory() {
        Some(directory) => child != FileId::root() && directory.parent() == dir,
        None => true,
    }
}

/// How many entries of a directory name directories that are at home in the tree. Each entry costs a look-up.
#[tactic(auto, using(crate::proofs::WellFormed::Lists::directories_counted))]
pub fn directories_among(tree: &Tree, directory: &Directory) -> usize
    ensures value { result ≡ model.directories_among (at_home tree.now) directory.now.entries }
    ensures within { result ≤ most_entries }
{
    directory
        .iter()
        .filter(|entry| is_directory(tree, entry.child))
        .count()
}

// whether the entries of all directories name it so often
fn has_names(tree: &Tree, id: FileId, count: u32) -> bool
    ensures { result ≡ (count == model.named (at_home tree.now) id) }
{
    let mut left = count as usize;
    for (_, inode) in tree.iter() {
        let names = names_in(inode, id);
        if names > left {
            return false;
        }
        left -= names;
    }
    left == 0
}

fn has_one_name_in(tree: &Tree, dir: FileId, id: FileId) -> bool
    ensures { result ≡ (model.times id (entries_at (get (at_home tree.now) dir)) == 1) }
{
    match tree.home(dir) {
        Some(inode) => names_in(inode, id) == 1,
        None => false,
    }
}

// how many entries of an inode name another one; what is no directory has none
fn names_in(inode: &Inode, id: FileId) -> usize
    ensures { result ≡ model.times id (entries_in inode.now.body) }
{
    match inode.directory() {
        Some(directory) => times(directory, id),
        None => 0,
    }
}

#[tactic(auto, using(crate::proofs::WellFormed::Lists::times_counted))]
fn times(directory: &Directory, id: FileId) -> usize
    ensures { result ≡ model.times id directory.now.entries }
{
    directory.iter().filter(|entry| entry.child == id).count()
}
