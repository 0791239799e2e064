ghost use Rattle.std.specs.Prelude.{◌≡◌, IfOk};
ghost use Rattle.bfs_model.specs.Server.Footprints.{footprint, IsFresh};
ghost use Rattle.bfs_model.specs.Server.Procedures.{procedure, attempted};
ghost use Rattle.bfs_model.specs.Server.Short.{IsShort};
ghost use Rattle.bfs_procs.specs.Answers.{Answers};
ghost use Rattle.bfs_tree.specs.Reach.{Knows};
ghost use Rattle.bfs_wire.specs.Calls.{call_seen};
ghost use Rattle.bfs_wire.specs.Replies.{reply_seen};

use crate::attributes::{get_attributes, set_attributes};
use crate::data::{read, read_link, write};
use crate::making::{NewLink, create, link, make_directory, make_symbolic_link};
use crate::names::{look_up, read_directory};
use crate::not_done::NotDone;
use crate::removing::{remove, remove_directory};
use crate::renaming::rename;
use crate::status::file_system_status;
use bfs_inode::Time;
use bfs_rpc::Cred;
use bfs_tree::Store;
use bfs_types::{Context, Memory, Ordinal};
use bfs_wire::{NfsCall, NfsReply};
use std::alloc::Global;

/// Carries out a call under its ordinal, at the time of its batch, for the caller of that credential. The store knows what
/// the call touches, and the ordinal is fresh for it. `Memory` if memory runs out: what the store holds then is unspecified,
/// and which fileids it knows stays.
pub fn run<S: Store>(
    alloc: Global,
    store: &mut S,
    ordinal: Ordinal,
    time: Time,
    cred: &Cred,
    call: &NfsCall,
) -> Result<NfsReply, Memory>
    requires known { Knows (S.reach store.old) (footprint (S.inodes store.old) (record { ordinal = ordinal; time = time; caller = cred.now }) (call_seen call.now)) }
    requires fresh { IsFresh (S.inodes store.old) (record { ordinal = ordinal; time = time; caller = cred.now }) (call_seen call.now) }
    requires short { IsShort (call_seen call.now) }
    ensures done { IfOk result (λ reply. (S.inodes store.new, reply_seen reply) ≡ procedure (S.inodes store.old) (record { ordinal = ordinal; time = time; caller = cred.now }) (call_seen call.now)) }
    ensures reach { S.reach store.new ≡ S.reach store.old }
{
    let context = Context {
        ordinal,
        time,
        caller: *cred,
    };
    match attempt(alloc, store, &context, call) {
        Ok(reply) => Ok(reply),
        Err(NotDone::Refused(status)) => Ok(NfsReply::Refused(status)),
        Err(NotDone::Memory) => Err(Memory),
    }
}

// the procedure that the call names
fn attempt<S: Store>(
    alloc: Global,
    store: &mut S,
    context: &Context,
    call: &NfsCall,
) -> Result<NfsReply, NotDone>
    requires known { Knows (S.reach store.old) (footprint (S.inodes store.old) context.now (call_seen call.now)) }
    requires fresh { IsFresh (S.inodes store.old) context.now (call_seen call.now) }
    requires short { IsShort (call_seen call.now) }
    ensures done { Answers (S.inodes store.old) (S.inodes store.new) result (attempted (S.inodes store.old) context.now (call_seen call.now)) }
    ensures reach { S.reach store.new ≡ S.reach store.old }
{
    match *call {
        NfsCall::Null | NfsCall::Root | NfsCall::WriteCache => Ok(NfsReply::Void),
        NfsCall::GetAttr { file } => get_attributes(store, context, file),
        NfsCall::SetAttr { file, settings } => set_attributes(store, context, file, &settings),
        NfsCall::LookUp { dir, name } => look_up(store, context, dir, name),
        NfsCall::ReadLink { file } => read_link(alloc, store, context, file),
        NfsCall::Read {
            file,
            offset,
            count,
        } => read(alloc, store, context, file, offset, count),
        NfsCall::Write {
            file,
            offset,
            bytes,
        } => write(store, context, file, offset, bytes),
        NfsCall::Create {
            dir,
            name,
            settings,
        } => create(alloc, store, context, dir, name, &settings),
        NfsCall::Remove { dir, name } => remove(store, context, dir, name),
        NfsCall::Rename {
            from,
            from_name,
            to,
            to_name,
        } => rename(store, context, from, from_name, to, to_name),
        NfsCall::Link { file, dir, name } => link(store, context, file, dir, name),
        NfsCall::SymbolicLink {
            dir,
            name,
            path,
            settings,
        } => {
            let link = NewLink {
                path,
                settings: &settings,
            };
            make_symbolic_link(alloc, store, context, dir, name, &link)
        }
        NfsCall::MakeDirectory {
            dir,
            name,
            settings,
        } => make_directory(alloc, store, context, dir, name, &settings),
        NfsCall::RemoveDirectory { dir, name } => remove_directory(store, context, dir, name),
        NfsCall::ReadDirectory { dir, cookie, count } => {
            read_directory(alloc, store, context, dir, cookie, count)
        }
        NfsCall::FileSystemStatus { file } => file_system_status(store, context, file),
    }
}
