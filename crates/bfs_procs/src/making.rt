// CREATE, MKDIR, SYMLINK and LINK, and the new name that each makes.
ghost use Rattle.std.specs.Prelude.{◌≡◌, ◌<◌, ◌≤◌, ◌∷◌, [], ◌++◌, None, not, is_some, length, nat_lt, unwrap_or, IfOk};
ghost use Rattle.std.specs.Result.{result_map_both};
ghost use Rattle.bfs_model.specs.Bytes.Arguments as call;
ghost use Rattle.bfs_model.specs.Bytes.Attributes.{attributes_of};
ghost use Rattle.bfs_model.specs.Server.Access.{may_change_entries, owner_refusals};
ghost use Rattle.bfs_model.specs.Server.Directories.{is_bad_name, entry_named};
ghost use Rattle.bfs_model.specs.Server.Footprints.{footprint, IsFresh};
ghost use Rattle.bfs_model.specs.Server.Limits.{most_name_bytes, most_path_bytes, most_file_bytes, most_entries, most_links};
ghost use Rattle.bfs_model.specs.Server.Refusals.{checked, is_spent, is_full, has_most_links};
ghost use Rattle.bfs_model.specs.Bytes.Replies as replies;
ghost use Rattle.bfs_model.specs.Bytes.Replies.{perm, acces, exist, fbig, nospc};
ghost use Rattle.bfs_model.specs.Server.Tree.{spent_ordinal};
ghost use Rattle.bfs_model.specs.Server.Procedures.Making.{new_name_refusals, file_created, directory_made, symbolic_link_made, link_made};
ghost use Rattle.bfs_procs.specs.Answers.{Answers};
ghost use Rattle.bfs_procs.specs.Borrowed.{found_seen};
ghost use Rattle.bfs_tree.specs.Reach.{Knows};
ghost use Rattle.bfs_wire.specs.Replies.{reply_seen, status_seen};

use crate::found::{FoundDirectory, found_directory};
use crate::not_done::NotDone;
use crate::steps::{add_entry, add_link, put};
use bfs_inode::{Directory, FileId, Inode, is_bad_name};
use bfs_tree::Store;
use bfs_types::{Context, Cred, MOST_ENTRIES, MOST_FILE_BYTES, MOST_LINKS, Settings};
use bfs_wire::{NfsReply, Status};
use std::alloc::Global;

/// CREATE (RFC 1094 section 2.2.10).
#[tactic(auto, using(crate::proofs::Fresh::above_first), unfolding(bfs_model::specs::Server::Changes::changed))]
pub(crate) fn create<S: Store>(
    alloc: Global,
    store: &mut S,
    context: &Context,
    dir: Option<FileId>,
    name: &[u8],
    settings: &Settings,
) -> Result<NfsReply, NotDone>
    requires known { Knows (S.reach store.old) (footprint (S.inodes store.old) context.now (call.create dir name.now settings.now)) }
    requires fresh { IsFresh (S.inodes store.old) context.now (call.create dir name.now settings.now) }
    requires short { length name.now ≤ most_name_bytes }
    ensures done { Answers (S.inodes store.old) (S.inodes store.new) result (file_created (S.inodes store.old) context.now dir name.now settings.now) }
    ensures reach { S.reach store.new ≡ S.reach store.old }
{
    let found = match found_directory(store, dir) {
        Ok(found) => found,
        Err(status) => return Err(NotDone::Refused(status)),
    };
    let dir = found.id;
    let id = new_file_id(context, &found, name, settings)?;
    let file = Inode::new_file(alloc, context, settings)?;
    let reply = made(id, &file);
    add_entry(store, context, dir, name, id)?;
    put(store, id, file)?;
    Ok(reply)
}

/// MKDIR (RFC 1094 section 2.2.15).
#[tactic(auto, using(crate::proofs::Fresh::above_first, bfs_model::proofs::Public::insert_again, bfs_model::proofs::Public::got_put), unfolding(bfs_model::specs::Server::Changes::changed))]
pub(crate) fn make_directory<S: Store>(
    alloc: Global,
    store: &mut S,
    context: &Context,
    dir: Option<FileId>,
    name: &[u8],
    settings: &Settings,
) -> Result<NfsReply, NotDone>
    requires known { Knows (S.reach store.old) (footprint (S.inodes store.old) context.now (call.make_directory dir name.now settings.now)) }
    requires fresh { IsFresh (S.inodes store.old) context.now (call.make_directory dir name.now settings.now) }
    requires short { length name.now ≤ most_name_bytes }
    ensures done { Answers (S.inodes store.old) (S.inodes store.new) result (directory_made (S.inodes store.old) context.now dir name.now settings.now) }
    ensures reach { S.reach store.new ≡ S.reach store.old }
{
    let found = match found_directory(store, dir) {
        Ok(found) => found,
        Err(status) => return Err(NotDone::Refused(status)),
    };
    let dir = found.id;
    let id = new_directory_id(context, &found, name, settings)?;
    let new = Inode::new_directory(alloc, context, settings, dir);
    let reply = made(id, &new);
    add_entry(store, context, dir, name, id)?;
    add_link(store, context.time, dir);
    put(store, id, new)?;
    Ok(reply)
}

/// What a symbolic link is made with.
#[derive(Clone, Copy)]
pub(crate) struct NewLink<'a> {
    /// The path that it leads to.
    pub(crate) path: &'a [u8],
    /// Its attributes.
    pub(crate) settings: &'a Settings,
}

/// SYMLINK (RFC 1094 section 2.2.14).
#[tactic(auto, using(crate::proofs::Fresh::above_first), unfolding(bfs_model::specs::Server::Changes::changed))]
pub(crate) fn make_symbolic_link<S: Store>(
    alloc: Global,
    store: &mut S,
    context: &Context,
    dir: Option<FileId>,
    name: &[u8],
    link: &NewLink,
) -> Result<NfsReply, NotDone>
    requires known { Knows (S.reach store.old) (footprint (S.inodes store.old) context.now (call.make_symbolic_link dir name.now link.now.path.now link.now.settings.now)) }
    requires fresh { IsFresh (S.inodes store.old) context.now (call.make_symbolic_link dir name.now link.now.path.now link.now.settings.now) }
    requires short { length name.now ≤ most_name_bytes }
    requires short_path { length link.now.path.now ≤ most_path_bytes }
    ensures done { Answers (S.inodes store.old) (S.inodes store.new) result (symbolic_link_made (S.inodes store.old) context.now dir name.now link.now.path.now link.now.settings.now) }
    ensures reach { S.reach store.new ≡ S.reach store.old }
{
    let found = match found_directory(store, dir) {
        Ok(found) => found,
        Err(status) => return Err(NotDone::Refused(status)),
    };
    let dir = found.id;
    let id = new_name(context, &found, name, link.settings)?;
    let symbolic_link = Inode::new_symbolic_link(alloc, context, link.settings, link.path)?;
    add_entry(store, context, dir, name, id)?;
    put(store, id, symbolic_link)?;
    Ok(NfsReply::Done)
}

/// LINK (RFC 1094 section 2.2.13).
#[tactic(auto, using(crate::proofs::Fresh::above_second), unfolding(bfs_model::specs::Server::Changes::changed))]
pub(crate) fn link<S: Store>(
    store: &mut S,
    context: &Context,
    file: Option<FileId>,
    dir: Option<FileId>,
    name: &[u8],
) -> Result<NfsReply, NotDone>
    requires known { Knows (S.reach store.old) (footprint (S.inodes store.old) context.now (call.make_link file dir name.now)) }
    requires fresh { IsFresh (S.inodes store.old) context.now (call.make_link file dir name.now) }
    requires short { length name.now ≤ most_name_bytes }
    ensures done { Answers (S.inodes store.old) (S.inodes store.new) result (link_made (S.inodes store.old) context.now file dir name.now) }
    ensures reach { S.reach store.new ≡ S.reach store.old }
{
    let id = file.ok_or(Status::Stale)?;
    let linked = store.get(id).ok_or(Status::Stale)?;
    if linked.is_directory() {
        return Err(NotDone::Refused(Status::IsDir));
    }
    let found = match found_directory(store, dir) {
        Ok(found) => found,
        Err(status) => return Err(NotDone::Refused(status)),
    };
    let dir = found.id;
    takes_link(context, &found, name, linked.links())?;
    add_entry(store, context, dir, name, id)?;
    add_link(store, context.time, id);
    Ok(NfsReply::Done)
}

// what is answered with the inode that was made under that fileid
fn made(id: FileId, inode: &Inode) -> NfsReply
    ensures { reply_seen result ≡ replies.found id (attributes_of id inode.now) }
{
    NfsReply::Found {
        file: id,
        attributes: inode.attributes(id),
    }
}

// whether a new name may come to a directory, or why not
fn takes_name(context: &Context, dir: &FoundDirectory, name: &[u8]) -> Result<(), Status>
    ensures checked { result_map_both (λ _. tt) status_seen result ≡ checked ((not (may_change_entries context.now.caller dir.now.inode.now), acces) ∷ (is_bad_name name.now, perm) ∷ (is_some (entry_named name.now dir.now.directory.now.entries), exist) ∷ []) }
    ensures free { IfOk result (λ _. entry_named name.now dir.now.directory.now.entries ≡ None) }
{
    if !dir.inode.may_change_entries(&context.caller) {
        return Err(Status::Acces);
    }
    if is_bad_name(name) {
        return Err(Status::Perm);
    }
    if dir.directory.holds(name) {
        return Err(Status::Exist);
    }
    Ok(())
}

// whether the caller may make what belongs to the user and the group that are set, or why not
fn takes_owner(caller: &Cred, settings: &Settings) -> Result<(), Status>
    ensures { result_map_both (λ _. tt) status_seen result ≡ checked (owner_refusals caller.now settings.now) }
{
    if settings.uid.is_some_and(|uid| !caller.may_make_for(uid)) {
        return Err(Status::Perm);
    }
    if settings.gid.is_some_and(|gid| !caller.may_give_to(gid)) {
        return Err(Status::Perm);
    }
    Ok(())
}

// the fileid for what comes to a directory, or why there is no room
fn room(context: &Context, directory: &Directory) -> Result<FileId, Status>
    ensures checked { result_map_both (λ _. tt) status_seen result ≡ checked ((is_spent context.now.ordinal, nospc) ∷ (is_full (length directory.now.entries), nospc) ∷ []) }
    ensures value { IfOk result (λ id. id ≡ context.now.ordinal) }
    ensures unspent { IfOk result (λ id. context.now.ordinal < spent_ordinal) }
    ensures room { IfOk result (λ id. length directory.now.entries < most_entries) }
{
    let id = context.ordinal.file_id().ok_or(Status::NoSpc)?;
    if directory.len() >= MOST_ENTRIES {
        return Err(Status::NoSpc);
    }
    Ok(id)
}

// the fileid for what is made under a new name, or why there is none
fn new_name(
    context: &Context,
    dir: &FoundDirectory,
    name: &[u8],
    settings: &Settings,
) -> Result<FileId, Status>
    ensures checked { result_map_both (λ _. tt) status_seen result ≡ checked (new_name_refusals context.now (found_seen dir.now) name.now (owner_refusals context.now.caller settings.now)) }
    ensures value { IfOk result (λ id. id ≡ context.now.ordinal) }
    ensures unspent { IfOk result (λ id. context.now.ordinal < spent_ordinal) }
    ensures room { IfOk result (λ id. length dir.now.directory.now.entries < most_entries) }
    ensures free { IfOk result (λ id. entry_named name.now dir.now.directory.now.entries ≡ None) }
{
    takes_name(context, dir, name)?;
    takes_owner(&context.caller, settings)?;
    room(context, dir.directory)
}

// .. for a file
fn new_file_id(
    context: &Context,
    dir: &FoundDirectory,
    name: &[u8],
    settings: &Settings,
) -> Result<FileId, Status>
    ensures checked { result_map_both (λ _. tt) status_seen result ≡ checked (new_name_refusals context.now (found_seen dir.now) name.now (owner_refusals context.now.caller settings.now) ++ (nat_lt most_file_bytes (unwrap_or settings.now.size 0), fbig) ∷ []) }
    ensures value { IfOk result (λ id. id ≡ context.now.ordinal) }
    ensures unspent { IfOk result (λ id. context.now.ordinal < spent_ordinal) }
    ensures room { IfOk result (λ id. length dir.now.directory.now.entries < most_entries) }
    ensures free { IfOk result (λ id. entry_named name.now dir.now.directory.now.entries ≡ None) }
    ensures small { IfOk result (λ id. unwrap_or settings.now.size 0 ≤ most_file_bytes) }
{
    let id = new_name(context, dir, name, settings)?;
    if settings.size.unwrap_or(0) as usize > MOST_FILE_BYTES {
        return Err(Status::FBig);
    }
    Ok(id)
}

// .. for a directory, which makes one link more of the directory that holds it
fn new_directory_id(
    context: &Context,
    dir: &FoundDirectory,
    name: &[u8],
    settings: &Settings,
) -> Result<FileId, Status>
    ensures checked { result_map_both (λ _. tt) status_seen result ≡ checked (new_name_refusals context.now (found_seen dir.now) name.now (owner_refusals context.now.caller settings.now) ++ (has_most_links dir.now.inode.now.links, nospc) ∷ []) }
    ensures value { IfOk result (λ id. id ≡ context.now.ordinal) }
    ensures unspent { IfOk result (λ id. context.now.ordinal < spent_ordinal) }
    ensures room { IfOk result (λ id. length dir.now.directory.now.entries < most_entries) }
    ensures free { IfOk result (λ id. entry_named name.now dir.now.directory.now.entries ≡ None) }
    ensures few { IfOk result (λ id. dir.now.inode.now.links < most_links) }
{
    let id = new_name(context, dir, name, settings)?;
    if dir.inode.links() >= MOST_LINKS {
        return Err(Status::NoSpc);
    }
    Ok(id)
}

// whether an inode that has so many links may get a new name, or why not
fn takes_link(
    context: &Context,
    dir: &FoundDirectory,
    name: &[u8],
    links: u32,
) -> Result<(), Status>
    ensures checked { result_map_both (λ _. tt) status_seen result ≡ checked (new_name_refusals context.now (found_seen dir.now) name.now [] ++ (has_most_links links, nospc) ∷ []) }
    ensures unspent { IfOk result (λ _. context.now.ordinal < spent_ordinal) }
    ensures room { IfOk result (λ _. length dir.now.directory.now.entries < most_entries) }
    ensures free { IfOk result (λ _. entry_named name.now dir.now.directory.now.entries ≡ None) }
    ensures few { IfOk result (λ _. links < most_links) }
{
    takes_name(context, dir, name)?;
    room(context, dir.directory)?;
    if links >= MOST_LINKS {
        return Err(Status::NoSpc);
    }
    Ok(())
}
