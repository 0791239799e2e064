ghost use Rattle.std.specs.Prelude.{◌≡◌, [], ◌∷◌, ◌++◌, OnOk, OnErr, IfOk};
ghost use Rattle.bfs_model.specs.Bytes.Items.{words};
ghost use Rattle.bfs_model.specs.Bytes.Replies.{success, garbage, refusal};
ghost use Rattle.bfs_rpc.specs.Calls.{refusal_seen};

use crate::reject::Reject;
use bfs_types::Memory;
use bfs_xdr::put_words;
use std::alloc::Global;

// the words of RFC 5531 section 9 by their names there
const REPLY: u32 = 1;

const MSG_ACCEPTED: u32 = 0;

const MSG_DENIED: u32 = 1;

const AUTH_NONE: u32 = 0;

const SUCCESS: u32 = 0;

const PROG_UNAVAIL: u32 = 1;

const PROG_MISMATCH: u32 = 2;

const PROC_UNAVAIL: u32 = 3;

const GARBAGE_ARGS: u32 = 4;

const RPC_MISMATCH: u32 = 0;

const AUTH_ERROR: u32 = 1;

const AUTH_BADCRED: u32 = 1;

// a mismatch tells the lowest and the highest version that there is: 2, of RPC and of NFS
const VERSION: u32 = 2;

// the reply of a call that was accepted, up to its status: its verifier is an AUTH_NONE of no bytes
fn put_accepted(out: &mut Vec<u8>, xid: u32, status: u32) -> Result<(), Memory>
    ensures ok { OnOk result (out.new.items ≡ out.old.items ++ words (xid ∷ 1 ∷ 0 ∷ 0 ∷ 0 ∷ status ∷ [])) }
    ensures err { OnErr result (out.new.items ≡ out.old.items) }
{
    put_words(out, &[xid, REPLY, MSG_ACCEPTED, AUTH_NONE, 0, status])
}

/// Appends the header of the reply to a call that was carried out; the results of the procedure are to follow. `Memory` if
/// memory runs out; then nothing is appended.
#[tactic(auto, unfolding(bfs_model::specs::Bytes::Replies::success))]
pub fn put_success(out: &mut Vec<u8>, xid: u32) -> Result<(), Memory>
    ensures ok { OnOk result (out.new.items ≡ out.old.items ++ success xid []) }
    ensures err { OnErr result (out.new.items ≡ out.old.items) }
{
    put_accepted(out, xid, SUCCESS)
}

/// The reply to a call that was carried out, where `body` is the bytes of the procedure's results. `Memory` if memory runs out.
#[tactic(auto, unfolding(bfs_model::specs::Bytes::Replies::success))]
pub fn write_success(alloc: Global, xid: u32, body: &[u8]) -> Result<Vec<u8>, Memory>
    ensures { IfOk result (λ reply. reply.items ≡ success xid body.now) }
{
    let mut reply = Vec::new(alloc);
    put_success(&mut reply, xid)?;
    reply.extend_from_slice(body)?;
    Ok(reply)
}

/// The reply to a call whose arguments can't be read (RFC 5531 section 9, GARBAGE_ARGS). `Memory` if memory runs out.
#[tactic(auto, unfolding(bfs_model::specs::Bytes::Replies::garbage))]
pub fn write_garbage(alloc: Global, xid: u32) -> Result<Vec<u8>, Memory>
    ensures { IfOk result (λ reply. reply.items ≡ garbage xid) }
{
    let mut reply = Vec::new(alloc);
    put_accepted(&mut reply, xid, GARBAGE_ARGS)?;
    Ok(reply)
}

/// The reply to a message that is refused. It has no bytes for `Reject::Silent`, to which no reply is sent. `Memory` if memory
/// runs out.
#[tactic(auto, unfolding(bfs_model::specs::Bytes::Replies::refusal))]
pub fn write_reject(alloc: Global, reject: &Reject) -> Result<Vec<u8>, Memory>
    ensures { IfOk result (λ reply. reply.items ≡ refusal (refusal_seen reject.now)) }
{
    let mut reply = Vec::new(alloc);
    let out = &mut reply;
    match *reject {
        Reject::Silent => {}
        Reject::RpcMismatch(xid) => put_words(
            out,
            &[xid, REPLY, MSG_DENIED, RPC_MISMATCH, VERSION, VERSION],
        )?,
        Reject::BadCred(xid) => {
            put_words(out, &[xid, REPLY, MSG_DENIED, AUTH_ERROR, AUTH_BADCRED])?
        }
        Reject::ProgUnavail(xid) => put_accepted(out, xid, PROG_UNAVAIL)?,
        Reject::ProgMismatch(xid) => {
            put_accepted(out, xid, PROG_MISMATCH)?;
            put_words(out, &[VERSION, VERSION])?;
        }
        Reject::ProcUnavail(xid) => put_accepted(out, xid, PROC_UNAVAIL)?,
    }
    Ok(reply)
}
