ghost use Rattle.std.specs.Prelude.{◌≡◌};
ghost use Rattle.std.specs.Option.{option_map};
ghost use Rattle.bfs_model.specs.Bytes.Call as model;
ghost use Rattle.bfs_xdr.specs.Reading.{Gives};
ghost use Rattle.bfs_rpc.specs.Calls.{header_seen, request_seen, refusal_seen};

use crate::cred::cred_of;
use crate::reject::Reject;
use bfs_types::{Cred, Procedure};
use bfs_xdr::Reader;

/// A call of a procedure of NFS version 2 (RFC 5531 section 9, call_body).
#[derive(Clone, Copy, Debug, PartialEq, Eq)]
pub struct Call<'a> {
    /// The number by which the caller tells the reply to this call from others.
    pub xid: u32,
    /// The procedure (RFC 1094 section 2.2).
    pub proc: Procedure,
    /// The caller.
    pub cred: Cred,
    /// The bytes of the procedure's arguments.
    pub args: &'a [u8],
}

// the fields of a call, as they are on the wire (RFC 5531 section 9, call_body)
#[derive(Clone, Copy)]
struct Header<'a> {
    xid: u32,
    rpc_version: u32,
    program: u32,
    program_version: u32,
    procedure: u32,
    flavor: u32,
    body: &'a [u8],
    arguments: &'a [u8],
}

const CALL: u32 = 0;

const RPC_VERSION: u32 = 2;

const NFS_PROGRAM: u32 = 100_003;

const NFS_VERSION: u32 = 2;

// the most bytes of a credential's or a verifier's body (RFC 5531 section 8.2, opaque_auth)
const MAX_AUTH_BYTES: u32 = 400;

/// The call that a message spells (RFC 5531 section 9), or the reason for which it is refused. If there are several reasons,
/// it is the first in the order of `Reject`. The bytes of the padding may have any value.
#[tactic(auto, unfolding(bfs_model::specs::Bytes::Call::call_of))]
pub fn parse_call(bytes: &[u8]) -> Result<Call<'_>, Reject>
    ensures { Gives request_seen refusal_seen result (model.call_of bytes.now) }
{
    let header = header_at(bytes).ok_or(Reject::Silent)?;
    let xid = header.xid;
    if header.rpc_version != RPC_VERSION {
        return Err(Reject::RpcMismatch(xid));
    }
    let cred = cred_of(header.flavor, header.body).ok_or(Reject::BadCred(xid))?;
    if header.program != NFS_PROGRAM {
        return Err(Reject::ProgUnavail(xid));
    }
    if header.program_version != NFS_VERSION {
        return Err(Reject::ProgMismatch(xid));
    }
    let proc = Procedure::new(header.procedure).ok_or(Reject::ProcUnavail(xid))?;
    Ok(Call {
        xid,
        proc,
        cred,
        args: header.arguments,
    })
}

#[tactic(auto, unfolding(bfs_model::specs::Bytes::Call::header_of))]
fn header_at(bytes: &[u8]) -> Option<Header<'_>>
    ensures { option_map header_seen result ≡ model.header_of bytes.now }
{
    let mut reader = Reader::new(bytes);
    let xid = reader.u32().ok()?;
    let message_type = reader.u32().ok()?;
    if message_type != CALL {
        return None;
    }
    let rpc_version = reader.u32().ok()?;
    let program = reader.u32().ok()?;
    let program_version = reader.u32().ok()?;
    let procedure = reader.u32().ok()?;
    let (flavor, body, rest) = opaque_auth_at(reader.rest())?;
    let (_, _, arguments) = opaque_auth_at(rest)?;
    Some(Header {
        xid,
        rpc_version,
        program,
        program_version,
        procedure,
        flavor,
        body,
        arguments,
    })
}

// a flavor, a body, and the bytes after them
#[tactic(auto, unfolding(bfs_model::specs::Bytes::Call::opaque_auth_at))]
fn opaque_auth_at(bytes: &[u8]) -> Option<(u32, &[u8], &[u8])>
    ensures { option_map (λ x. (x.0, (x.1.now, x.2.now))) result ≡ model.opaque_auth_at bytes.now }
{
    let mut reader = Reader::new(bytes);
    let flavor = reader.u32().ok()?;
    let body = reader.opaque(MAX_AUTH_BYTES).ok()?;
    Some((flavor, body, reader.rest()))
}
