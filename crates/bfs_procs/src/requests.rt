ghost use Rattle.std.specs.Prelude.{◌≡◌, IfOk};
ghost use Rattle.bfs_model.specs.Bytes.Call as model;
ghost use Rattle.bfs_model.specs.Server.Serial.{answer, answer_call};
ghost use Rattle.bfs_model.specs.Server.Footprints.{footprint_of, footprint_of_call, IsFreshFor};
ghost use Rattle.bfs_tree.specs.Reach.{Knows};
ghost use Rattle.bfs_rpc.specs.Calls.{request_seen};

use crate::calls::run;
use crate::data::read_contents;
use crate::names::read_page;
use crate::successes::{success_of, success_of_contents, success_of_page};
use bfs_inode::Time;
use bfs_rpc::{Call, parse_call, write_garbage, write_reject};
use bfs_tree::Store;
use bfs_types::{Context, Memory, Ordinal};
use bfs_wire::{NfsCall, parse_args};
use std::alloc::Global;

/// Answers the request that the bytes spell, under its ordinal and at the time of its batch: gives the bytes of the reply,
/// none if the request can't be answered (RFC 5531 section 9). The store knows what the request touches, and the ordinal is
/// fresh for it. `Memory` if memory runs out: what the store holds then is unspecified, and which fileids it knows stays.
#[tactic(auto, unfolding(bfs_model::specs::Server::Serial::answer))]
pub fn answer<S: Store>(
    alloc: Global,
    store: &mut S,
    ordinal: Ordinal,
    time: Time,
    request: &[u8],
) -> Result<Vec<u8>, Memory>
    requires known { Knows (S.reach store.old) (footprint_of (S.inodes store.old) ordinal time request.now) }
    requires fresh { IsFreshFor (S.inodes store.old) ordinal (footprint_of (S.inodes store.old) ordinal time request.now) }
    ensures done { IfOk result (λ reply. (S.inodes store.new, reply.items) ≡ answer (S.inodes store.old) ordinal time request.now) }
    ensures reach { S.reach store.new ≡ S.reach store.old }
{
    match parse_call(request) {
        Ok(call) => answer_call(alloc, store, ordinal, time, &call),
        Err(reject) => write_reject(alloc, &reject),
    }
}

fn answer_call<S: Store>(
    alloc: Global,
    store: &mut S,
    ordinal: Ordinal,
    time: Time,
    call: &Call,
) -> Result<Vec<u8>, Memory>
    requires known { Knows (S.reach store.old) (footprint_of_call (S.inodes store.old) ordinal time (Ok (request_seen call.now))) }
    requires fresh { IsFreshFor (S.inodes store.old) ordinal (footprint_of_call (S.inodes store.old) ordinal time (Ok (request_seen call.now))) }
    ensures done { IfOk result (λ reply. (S.inodes store.new, reply.items) ≡ answer_call (S.inodes store.old) ordinal time (Ok (request_seen call.now))) }
    ensures reach { S.reach store.new ≡ S.reach store.old }
{
    let Ok(arguments) = parse_args(call.proc, call.args) else {
        return write_garbage(alloc, call.xid);
    };
    let context = Context {
        ordinal,
        time,
        caller: call.cred,
    };
    match arguments {
        NfsCall::Read {
            file,
            offset,
            count,
        } => {
            let read = read_contents(store, &context, file, offset, count);
            success_of_contents(alloc, call.xid, &read)
        }
        NfsCall::ReadDirectory { dir, cookie, count } => {
            let listed = read_page(store, &context, dir, cookie, count);
            success_of_page(alloc, call.xid, count, listed)
        }
        _ => {
            let reply = run(alloc, store, ordinal, time, &call.cred, &arguments)?;
            success_of(alloc, call.xid, &reply)
        }
    }
}
