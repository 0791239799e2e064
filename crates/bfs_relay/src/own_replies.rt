ghost use Rattle.std.specs.Prelude.{◌≡◌, IfOk};
ghost use Rattle.std.specs.Option.{option_map};
ghost use Rattle.bfs_rpc.specs.Calls.{refusal_seen};
ghost use Rattle.bfs_relay.specs.OwnReplies as model;
ghost use Rattle.bfs_relay.specs.OwnReplies.{program_call_of};

use crate::mount::{MOUNT_PROGRAM, mount_reply, void_reply};
use crate::program_calls::program_call_of;
use bfs_rpc::{Reject, parse_call, write_reject};
use bfs_types::{Memory, Procedure};
use std::alloc::Global;

/// The relay's own reply to a message, which has no bytes where that is no call; `None` where the replicas are to answer. `Memory` if memory runs
/// out.
pub(crate) fn own_reply(alloc: Global, message: &[u8]) -> Result<Option<Vec<u8>>, Memory>
    ensures { IfOk result (λ reply. option_map (λ bytes. bytes.items) reply ≡ model.own_reply message.now) }
{
    match parse_call(message) {
        Ok(call) => match call.proc {
            Procedure::Null => Ok(Some(void_reply(alloc, call.xid, call.args, &[])?)),
            _ => Ok(None),
        },
        Err(reject) => Ok(Some(refused_reply(alloc, message, reject)?)),
    }
}

fn refused_reply(alloc: Global, message: &[u8], reject: Reject) -> Result<Vec<u8>, Memory>
    ensures { IfOk result (λ reply. reply.items ≡ model.refused_reply message.now (refusal_seen reject)) }
{
    match reject {
        Reject::ProgUnavail(xid) => other_reply(alloc, xid, message),
        _ => write_reject(alloc, &reject),
    }
}

// to a call of a program that isn't NFS
fn other_reply(alloc: Global, xid: u32, message: &[u8]) -> Result<Vec<u8>, Memory>
    ensures { IfOk result (λ reply. reply.items ≡ model.other_reply xid (program_call_of message.now)) }
{
    match program_call_of(message) {
        Some(call) if call.program == MOUNT_PROGRAM => mount_reply(alloc, &call),
        _ => write_reject(alloc, &Reject::ProgUnavail(xid)),
    }
}
