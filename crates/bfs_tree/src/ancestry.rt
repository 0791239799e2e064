ghost use Rattle.std.specs.Prelude.{◌≡◌, IsTrue};
ghost use Rattle.std.specs.FinMap.{get};
ghost use Rattle.bfs_model.specs.Server.Tree as tree;
ghost use Rattle.bfs_model.specs.Server.Procedures.Renaming as model;

use crate::store::Store;
use bfs_types::FileId;

/// Whether the inode of that fileid is a directory. The store knows the fileid. It costs one look-up; a caller that has the
/// inode calls `Inode::is_directory`.
pub fn is_directory<S: Store>(store: &S, id: FileId) -> bool
    requires { IsTrue ((S.reach store.now).known id) }
    ensures { result ≡ tree.is_directory (get (S.inodes store.now) id) }
{
    match store.get(id) {
        Some(inode) => inode.is_directory(),
        None => false,
    }
}

/// Whether `id` is `other`, or is a directory that lies below `other`. The store is whole.
///
/// It costs a look-up for each directory on the way up, and at most as many look-ups as there are inodes.
pub fn is_below<S: Store>(store: &S, id: FileId, other: FileId) -> bool
    requires { IsTrue ((S.reach store.now).whole) }
    ensures { result ≡ model.is_below (S.inodes store.now) id other }
{
    let mut at = id;
    for _step in 0..store.count() {
        if at == other {
            return true;
        }
        match parent_of(store, at) {
            None => return false,
            Some(parent) => at = parent,
        }
    }
    at == other
}

// the directory above a directory, if it is not the root
pub(crate) fn parent_of<S: Store>(store: &S, id: FileId) -> Option<FileId>
    requires { IsTrue ((S.reach store.now).known id) }
    ensures { result ≡ tree.parent_of (S.inodes store.now) id }
{
    if id == FileId::root() {
        return None;
    }
    Some(store.get(id)?.directory()?.parent())
}
