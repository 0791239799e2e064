// GETATTR and SETATTR.
ghost use Rattle.std.specs.Prelude.{◌≡◌, ◌==◌, ◌||◌, false, not, is_some};
ghost use Rattle.std.specs.Option.{option_map, option_map_or};
ghost use Rattle.std.specs.Result.{result_map_both};
ghost use Rattle.bfs_model.specs.Bytes.Arguments as call;
ghost use Rattle.bfs_model.specs.Server.Access.{is_superuser, may_give_to};
ghost use Rattle.bfs_model.specs.Server.Footprints.{footprint};
ghost use Rattle.bfs_model.specs.Server.Refusals.{checked};
ghost use Rattle.bfs_model.specs.Server.Procedures.Attributes.{attributes_got, attributes_set, setting_refusals, size_refusals};
ghost use Rattle.bfs_procs.specs.Answers.{Answers};
ghost use Rattle.bfs_tree.specs.Reach.{Knows};
ghost use Rattle.bfs_wire.specs.Replies.{status_seen};

use crate::not_done::NotDone;
use bfs_inode::{FileId, Inode};
use bfs_tree::Store;
use bfs_types::{Context, Cred, MOST_FILE_BYTES, Settings};
use bfs_wire::{NfsReply, Status};

/// GETATTR (RFC 1094 section 2.2.2).
pub(crate) fn get_attributes<S: Store>(
    store: &S,
    context: &Context,
    file: Option<FileId>,
) -> Result<NfsReply, NotDone>
    requires { Knows (S.reach store.now) (footprint (S.inodes store.now) context.now (call.get_attributes file)) }
    ensures { Answers (S.inodes store.now) (S.inodes store.now) result (attributes_got (S.inodes store.now) context.now file) }
{
    let id = file.ok_or(Status::Stale)?;
    let inode = store.get(id).ok_or(Status::Stale)?;
    Ok(NfsReply::Attributes(inode.attributes(id)))
}

/// SETATTR (RFC 1094 section 2.2.3).
#[tactic(auto, using(bfs_tree::proofs::Public::insert_same))]
pub(crate) fn set_attributes<S: Store>(
    store: &mut S,
    context: &Context,
    file: Option<FileId>,
    settings: &Settings,
) -> Result<NfsReply, NotDone>
    requires { Knows (S.reach store.old) (footprint (S.inodes store.old) context.now (call.set_attributes file settings.now)) }
    ensures done { Answers (S.inodes store.old) (S.inodes store.new) result (attributes_set (S.inodes store.old) context.now file settings.now) }
    ensures reach { S.reach store.new ≡ S.reach store.old }
{
    let id = file.ok_or(Status::Stale)?;
    let Some(inode) = store.get_mut(id) else {
        return Err(NotDone::Refused(Status::Stale));
    };
    takes_settings(&context.caller, inode, settings)?;
    takes_size(&context.caller, inode, settings.size)?;
    inode.set_attributes(context.time, settings)?;
    Ok(NfsReply::Attributes(inode.attributes(id)))
}

// whether a caller may set these attributes of an inode, or why not
fn takes_settings(caller: &Cred, inode: &Inode, settings: &Settings) -> Result<(), Status>
    ensures { result_map_both (λ _. tt) status_seen result ≡ checked (setting_refusals caller.now inode.now settings.now) }
{
    if sets_owned(settings) && !inode.may_set(caller) {
        return Err(Status::Perm);
    }
    if gives_away(caller, inode, settings.uid) || regroups(caller, inode, settings.gid) {
        return Err(Status::Perm);
    }
    Ok(())
}

// whether a call sets what only the owner sets
fn sets_owned(settings: &Settings) -> bool
    ensures { result ≡ (is_some settings.now.mode || is_some settings.now.gid || is_some settings.now.atime || is_some settings.now.mtime) }
{
    settings.mode.is_some()
        || settings.gid.is_some()
        || settings.atime.is_some()
        || settings.mtime.is_some()
}

// whether a caller gives an inode to another user, which the superuser alone may
fn gives_away(caller: &Cred, inode: &Inode, uid: Option<u32>) -> bool
    ensures { result ≡ option_map_or (λ uid. not (uid == inode.now.uid || is_superuser caller.now)) uid false }
{
    uid.is_some_and(|uid| !(uid == inode.uid() || caller.is_superuser()))
}

// whether a caller gives an inode to another group that the caller does not hold
fn regroups(caller: &Cred, inode: &Inode, gid: Option<u32>) -> bool
    ensures { result ≡ option_map_or (λ gid. not (gid == inode.now.gid || may_give_to caller.now gid)) gid false }
{
    gid.is_some_and(|gid| !(gid == inode.gid() || caller.may_give_to(gid)))
}

// whether an inode takes a size from a caller, or why not
fn takes_size(caller: &Cred, inode: &Inode, size: Option<u32>) -> Result<(), Status>
    ensures { result_map_both (λ _. tt) status_seen result ≡ checked (size_refusals caller.now inode.now size inode.now.body) }
{
    let Some(size) = size else {
        return Ok(());
    };
    if inode.is_directory() {
        Err(Status::IsDir)
    } else if inode.is_link() {
        Err(Status::Perm)
    } else if !inode.may_write_file(caller) {
        Err(Status::Acces)
    } else if size as usize > MOST_FILE_BYTES {
        Err(Status::FBig)
    } else {
        Ok(())
    }
}
