// STATFS.
ghost use Rattle.std.specs.Prelude.{◌≡◌, ◌-◌, IsTrue};
ghost use Rattle.bfs_model.specs.Bytes.Attributes.{total_blocks};
ghost use Rattle.bfs_model.specs.Bytes.Arguments as call;
ghost use Rattle.bfs_model.specs.Server.Footprints.{footprint};
ghost use Rattle.bfs_model.specs.Server.Procedures.Status.{status_got, used_blocks};
ghost use Rattle.bfs_procs.specs.Answers.{Answers};
ghost use Rattle.bfs_tree.specs.Reach.{Knows};

use crate::not_done::NotDone;
use bfs_inode::FileId;
use bfs_tree::Store;
use bfs_types::{Context, TOTAL_BLOCKS};
use bfs_wire::{NfsReply, Status};

/// STATFS (RFC 1094 section 2.2.18).
pub(crate) fn file_system_status<S: Store>(
    store: &S,
    context: &Context,
    file: Option<FileId>,
) -> Result<NfsReply, NotDone>
    requires { Knows (S.reach store.now) (footprint (S.inodes store.now) context.now (call.file_system_status file)) }
    ensures { Answers (S.inodes store.now) (S.inodes store.now) result (status_got (S.inodes store.now) context.now file) }
{
    let id = file.ok_or(Status::Stale)?;
    store.get(id).ok_or(Status::Stale)?;
    Ok(NfsReply::FreeBlocks(free_blocks(store)))
}

// none if files take more blocks than there are: their sizes are limited, and not the sum of these
fn free_blocks<S: Store>(store: &S) -> u32
    requires { IsTrue ((S.reach store.now).whole) }
    ensures { result ≡ total_blocks - used_blocks (S.inodes store.now) }
{
    u64::from(TOTAL_BLOCKS).saturating_sub(store.used_blocks()) as u32
}
