ghost use Rattle.std.specs.Prelude.{◌≡◌, IfOk, IsTrue, Some};
ghost use Rattle.std.specs.FinMap.{get};
ghost use Rattle.std.specs.Option.{ForSome};
ghost use Rattle.std.specs.Result.{result_map_both};
ghost use Rattle.bfs_model.specs.Server.Refusals.{directory_found};
ghost use Rattle.bfs_model.specs.Server.Tree.{listing_in};
ghost use Rattle.bfs_model.specs.Server.WellFormed.{NamesDiffer};
ghost use Rattle.bfs_procs.specs.Borrowed.{found_seen};
ghost use Rattle.bfs_wire.specs.Replies.{status_seen};

use bfs_inode::{Directory, FileId, Inode};
use bfs_tree::Store;
use bfs_wire::Status;

/// A directory that a handle leads to (RFC 1094 section 2.3.3).
#[derive(Clone, Copy)]
pub(crate) struct FoundDirectory<'a> {
    pub(crate) id: FileId,
    pub(crate) inode: &'a Inode,
    pub(crate) directory: &'a Directory,
}

/// The directory that a handle leads to, or why it leads to none.
pub(crate) fn found_directory<'a, S: Store>(
    store: &'a S,
    handle: Option<FileId>,
) -> Result<FoundDirectory<'a>, Status>
    requires { ForSome handle (λ id. IsTrue ((S.reach store.now).known id)) }
    ensures found { result_map_both found_seen status_seen result ≡ directory_found (S.inodes store.now) handle }
    ensures led { IfOk result (λ found. handle ≡ Some found.id) }
    ensures there { IfOk result (λ found. get (S.inodes store.now) found.id ≡ Some found.inode.now) }
    ensures holds { IfOk result (λ found. listing_in found.inode.now.body ≡ Some found.directory.now) }
    ensures differ { IfOk result (λ found. NamesDiffer found.directory.now.entries) }
{
    let id = handle.ok_or(Status::Stale)?;
    let inode = store.get(id).ok_or(Status::Stale)?;
    let directory = inode.directory().ok_or(Status::NotDir)?;
    Ok(FoundDirectory {
        id,
        inode,
        directory,
    })
}
