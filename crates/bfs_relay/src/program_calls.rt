ghost use Rattle.std.specs.Prelude.{◌≡◌};
ghost use Rattle.std.specs.Option.{option_map};
ghost use Rattle.bfs_model.specs.Bytes.Call.{opaque_auth_at};
ghost use Rattle.bfs_relay.specs.Mount as model;
ghost use Rattle.bfs_relay.specs.OwnReplies.{program_call_of};
ghost use Rattle.bfs_relay.specs.Views.{call_seen};

use bfs_xdr::Reader;

/// Which program is called, which version and procedure of it, and with which bytes of arguments (RFC 5531 section 9, call_body).
#[derive(Clone, Copy)]
pub(crate) struct ProgramCall<'a> {
    pub xid: u32,
    pub program: u32,
    pub version: u32,
    pub procedure: u32,
    pub arguments: &'a [u8],
}

const CALL: u32 = 0;

// the most bytes of a credential's or a verifier's body (RFC 5531 section 8.2, opaque_auth)
const MOST_AUTH_BYTES: u32 = 400;

/// The program that a message calls; `None` where its header can't be read, or it is no call.
#[tactic(auto, unfolding(bfs_model::specs::Bytes::Call::header_of))]
pub(crate) fn program_call_of(message: &[u8]) -> Option<ProgramCall<'_>>
    ensures { option_map call_seen result ≡ program_call_of message.now }
{
    let mut reader = Reader::new(message);
    let xid = reader.u32().ok()?;
    let message_type = reader.u32().ok()?;
    if message_type != CALL {
        return None;
    }
    let _rpc_version = reader.u32().ok()?;
    let program = reader.u32().ok()?;
    let version = reader.u32().ok()?;
    let procedure = reader.u32().ok()?;
    let (_, _, rest) = opaque_auth_at(reader.rest())?;
    let (_, _, arguments) = opaque_auth_at(rest)?;
    Some(ProgramCall {
        xid,
        program,
        version,
        procedure,
        arguments,
    })
}

// a flavor, a body, and the bytes after them
#[tactic(auto, unfolding(bfs_model::specs::Bytes::Call::opaque_auth_at))]
fn opaque_auth_at(bytes: &[u8]) -> Option<(u32, &[u8], &[u8])>
    ensures { option_map (λ x. (x.0, (x.1.now, x.2.now))) result ≡ opaque_auth_at bytes.now }
{
    let mut reader = Reader::new(bytes);
    let flavor = reader.u32().ok()?;
    let body = reader.opaque(MOST_AUTH_BYTES).ok()?;
    Some((flavor, body, reader.rest()))
}
