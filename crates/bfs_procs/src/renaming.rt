// RENAME: what is to be done is planned on the inodes as they are, and then carried out.
ghost use Rattle.std.specs.Prelude.{◌≡◌, ◌≤◌, length};
ghost use Rattle.bfs_model.specs.Bytes.Arguments as call;
ghost use Rattle.bfs_model.specs.Server.Footprints.{footprint, IsFresh};
ghost use Rattle.bfs_model.specs.Server.Limits.{most_name_bytes};
ghost use Rattle.bfs_model.specs.Server.Procedures.Renaming.{entry_renamed};
ghost use Rattle.bfs_procs.specs.Answers.{Answers};
ghost use Rattle.bfs_tree.specs.Reach.{Knows};

mod plans;
mod refusals;
mod steps;

use crate::not_done::NotDone;
use bfs_inode::FileId;
use bfs_tree::Store;
use bfs_types::Context;
use bfs_wire::NfsReply;
use plans::planned;
use steps::carry_out;

/// RENAME (RFC 1094 section 2.2.12).
pub(crate) fn rename<S: Store>(
    store: &mut S,
    context: &Context,
    from: Option<FileId>,
    from_name: &[u8],
    to: Option<FileId>,
    to_name: &[u8],
) -> Result<NfsReply, NotDone>
    requires known { Knows (S.reach store.old) (footprint (S.inodes store.old) context.now (call.rename from from_name.now to to_name.now)) }
    requires fresh { IsFresh (S.inodes store.old) context.now (call.rename from from_name.now to to_name.now) }
    requires short { length to_name.now ≤ most_name_bytes }
    ensures done { Answers (S.inodes store.old) (S.inodes store.new) result (entry_renamed (S.inodes store.old) context.now from from_name.now to to_name.now) }
    ensures reach { S.reach store.new ≡ S.reach store.old }
{
    if let Some(renaming) = planned(store, context, from, from_name, to, to_name)? {
        carry_out(store, context, from_name, to_name, &renaming)?;
    }
    Ok(NfsReply::Done)
}
