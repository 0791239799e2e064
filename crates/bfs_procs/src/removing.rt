// REMOVE and RMDIR.
ghost use Rattle.std.specs.Prelude.{◌≡◌, ◌∷◌, [], not, Option, Ok};
ghost use Rattle.std.specs.Option.{ok_or};
ghost use Rattle.std.specs.Result.{result_map_both};
ghost use Rattle.bfs_model.specs.Bytes.Arguments as call;
ghost use Rattle.bfs_model.specs.Server.Footprints.{footprint};
ghost use Rattle.bfs_model.specs.Server.Refusals.{checked};
ghost use Rattle.bfs_model.specs.Bytes.Replies.{notdir, notempty};
ghost use Rattle.bfs_model.specs.Server.Tree.{is_directory_body};
ghost use Rattle.bfs_model.specs.Server.Procedures.Removing.{file_removed, directory_removed, has_entries};
ghost use Rattle.bfs_procs.specs.Answers.{Answers, name_leads};
ghost use Rattle.bfs_procs.specs.Borrowed.{found_seen};
ghost use Rattle.bfs_tree.specs.Reach.{Knows};
ghost use Rattle.bfs_wire.specs.Replies.{status_seen};

use crate::found::{FoundDirectory, found_directory};
use crate::not_done::NotDone;
use crate::steps::{drop_entry, lose_link, lose_name};
use bfs_inode::{FileId, Inode, is_bad_name};
use bfs_tree::Store;
use bfs_types::Context;
use bfs_wire::{NfsReply, Status};

/// REMOVE (RFC 1094 section 2.2.11).
#[tactic(auto, unfolding(bfs_model::specs::Server::Changes::changed))]
pub(crate) fn remove<S: Store>(
    store: &mut S,
    context: &Context,
    dir: Option<FileId>,
    name: &[u8],
) -> Result<NfsReply, NotDone>
    requires { Knows (S.reach store.old) (footprint (S.inodes store.old) context.now (call.remove dir name.now)) }
    ensures done { Answers (S.inodes store.old) (S.inodes store.new) result (file_removed (S.inodes store.old) context.now dir name.now) }
    ensures reach { S.reach store.new ≡ S.reach store.old }
{
    let found = match found_directory(store, dir) {
        Ok(found) => found,
        Err(status) => return Err(NotDone::Refused(status)),
    };
    let dir = found.id;
    let id = child_of(context, &found, name)?;
    let child = store.get(id).ok_or(Status::Stale)?;
    if child.is_directory() {
        return Err(NotDone::Refused(Status::IsDir));
    }
    drop_entry(store, context.time, dir, name);
    lose_name(store, context.time, id);
    Ok(NfsReply::Done)
}

/// RMDIR (RFC 1094 section 2.2.16).
#[tactic(auto, unfolding(bfs_model::specs::Server::Changes::changed))]
pub(crate) fn remove_directory<S: Store>(
    store: &mut S,
    context: &Context,
    dir: Option<FileId>,
    name: &[u8],
) -> Result<NfsReply, NotDone>
    requires { Knows (S.reach store.old) (footprint (S.inodes store.old) context.now (call.remove_directory dir name.now)) }
    ensures done { Answers (S.inodes store.old) (S.inodes store.new) result (directory_removed (S.inodes store.old) context.now dir name.now) }
    ensures reach { S.reach store.new ≡ S.reach store.old }
{
    let found = match found_directory(store, dir) {
        Ok(found) => found,
        Err(status) => return Err(NotDone::Refused(status)),
    };
    let dir = found.id;
    let id = child_of(context, &found, name)?;
    is_empty_directory(store.get(id).ok_or(Status::Stale)?)?;
    drop_entry(store, context.time, dir, name);
    store.remove(id);
    lose_link(store, context.time, dir);
    Ok(NfsReply::Done)
}

// the fileid of what a name that may go leads to
fn child_of(context: &Context, dir: &FoundDirectory, name: &[u8]) -> Result<FileId, Status>
    ensures { result_map_both (λ id. id) status_seen result ≡ name_leads context.now (found_seen dir.now) name.now }
{
    if !dir.inode.may_change_entries(&context.caller) {
        return Err(Status::Acces);
    }
    if is_bad_name(name) {
        return Err(Status::Perm);
    }
    let entry = dir.directory.entry(name).ok_or(Status::NoEnt)?;
    Ok(entry.child)
}

// whether an inode is a directory that can be removed, or why it is none
fn is_empty_directory(inode: &Inode) -> Result<(), Status>
    ensures { result_map_both (λ _. tt) status_seen result ≡ checked ((not (is_directory_body inode.now.body), notdir) ∷ (has_entries inode.now.body, notempty) ∷ []) }
{
    let directory = inode.directory().ok_or(Status::NotDir)?;
    if directory.is_empty() {
        Ok(())
    } else {
        Err(Status::NotEmpty)
    }
}
