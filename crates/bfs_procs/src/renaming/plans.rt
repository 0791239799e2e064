// What RENAME is to do, found on the inodes as they are.
ghost use Rattle.std.specs.Prelude.{◌≡◌, ◌∷◌, [], not, IfOk, IsTrue};
ghost use Rattle.std.specs.Option.{ForSome, option_map};
ghost use Rattle.std.specs.Result.{result_map_both};
ghost use Rattle.bfs_model.specs.Bytes.Arguments as call;
ghost use Rattle.bfs_model.specs.Server.Access.{may_change_entries};
ghost use Rattle.bfs_model.specs.Server.Directories.{is_bad_name};
ghost use Rattle.bfs_model.specs.Server.Footprints.{footprint};
ghost use Rattle.bfs_model.specs.Server.Refusals.{checked};
ghost use Rattle.bfs_model.specs.Bytes.Replies.{perm, acces};
ghost use Rattle.bfs_model.specs.Server.Procedures.Renaming.{moves_directory, renaming_found, renaming_planned};
ghost use Rattle.bfs_procs.specs.Renaming.{KeepsLimits, replaced_at};
ghost use Rattle.bfs_tree.specs.Reach.{Knows};
ghost use Rattle.bfs_wire.specs.Replies.{status_seen};

use crate::found::found_directory;
use crate::renaming::refusals::{Renaming, Replaced};
use bfs_inode::{FileId, Inode, is_bad_name};
use bfs_tree::Store;
use bfs_types::Context;
use bfs_wire::Status;

/// What is to be done, or nothing if both names lead to the same inode, or why it may not be.
pub(super) fn planned<S: Store>(
    store: &S,
    context: &Context,
    from: Option<FileId>,
    from_name: &[u8],
    to: Option<FileId>,
    to_name: &[u8],
) -> Result<Option<Renaming>, Status>
    requires { Knows (S.reach store.now) (footprint (S.inodes store.now) context.now (call.rename from from_name.now to to_name.now)) }
    ensures plan { result_map_both (λ plan. plan) status_seen result ≡ renaming_planned (S.inodes store.now) context.now from from_name.now to to_name.now }
    ensures within { KeepsLimits (S.inodes store.now) result to }
{
    let plan = found(store, context, from, from_name, to, to_name)?;
    if let Some(renaming) = plan {
        renaming.is_allowed(store, context)?;
    }
    Ok(plan)
}

// what is renamed, before it is known whether that may be
fn found<S: Store>(
    store: &S,
    context: &Context,
    from: Option<FileId>,
    from_name: &[u8],
    to: Option<FileId>,
    to_name: &[u8],
) -> Result<Option<Renaming>, Status>
    requires { Knows (S.reach store.now) (footprint (S.inodes store.now) context.now (call.rename from from_name.now to to_name.now)) }
    ensures plan { result_map_both (λ plan. plan) status_seen result ≡ renaming_found (S.inodes store.now) context.now from from_name.now to to_name.now }
    ensures within { KeepsLimits (S.inodes store.now) result to }
    ensures whole { IfOk result (λ plan. ForSome plan (λ renaming. IsTrue (moves_directory renaming) → IsTrue ((S.reach store.now).whole))) }
{
    let from = match found_directory(store, from) {
        Ok(found) => found,
        Err(status) => return Err(status),
    };
    let to = match found_directory(store, to) {
        Ok(found) => found,
        Err(status) => return Err(status),
    };
    may_change_both(context, from.inode, to.inode)?;
    are_good(from_name, to_name)?;
    let moved = from.directory.entry(from_name).ok_or(Status::NoEnt)?.child;
    let moved_inode = store.get(moved).ok_or(Status::Stale)?;
    let existing = to.directory.entry(to_name).map(|entry| entry.child);
    if existing == Some(moved) {
        return Ok(None);
    }
    Ok(Some(Renaming {
        from: from.id,
        to: to.id,
        entries: to.directory.len(),
        links: to.inode.links(),
        moved,
        is_directory: moved_inode.is_directory(),
        replaced: replaced_at(store, existing)?,
    }))
}

// whether the caller may change the entries of both directories, or why not
fn may_change_both(context: &Context, from: &Inode, to: &Inode) -> Result<(), Status>
    ensures { result_map_both (λ _. tt) status_seen result ≡ checked ((not (may_change_entries context.now.caller from.now), acces) ∷ (not (may_change_entries context.now.caller to.now), acces) ∷ []) }
{
    let caller = &context.caller;
    if from.may_change_entries(caller) && to.may_change_entries(caller) {
        Ok(())
    } else {
        Err(Status::Acces)
    }
}

// whether both names are ones that a call may take and make
fn are_good(from_name: &[u8], to_name: &[u8]) -> Result<(), Status>
    ensures { result_map_both (λ _. tt) status_seen result ≡ checked ((is_bad_name from_name.now, perm) ∷ (is_bad_name to_name.now, perm) ∷ []) }
{
    if is_bad_name(from_name) || is_bad_name(to_name) {
        Err(Status::Perm)
    } else {
        Ok(())
    }
}

// what has the new name already
fn replaced_at<S: Store>(store: &S, id: Option<FileId>) -> Result<Option<Replaced>, Status>
    requires { ForSome id (λ id. IsTrue ((S.reach store.now).known id)) }
    ensures { result_map_both (option_map (λ replaced. replaced)) status_seen result ≡ replaced_at (S.inodes store.now) id }
{
    let Some(id) = id else {
        return Ok(None);
    };
    let inode = store.get(id).ok_or(Status::Stale)?;
    let has_entries = inode
        .directory()
        .is_some_and(|directory| !directory.is_empty());
    Ok(Some(Replaced {
        id,
        is_directory: inode.is_directory(),
        has_entries,
    }))
}
