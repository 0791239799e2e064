ghost use Rattle.std.specs.Prelude.{◌≡◌, ◌≤◌, length};
ghost use Rattle.bfs_model.specs.Bytes.Items.{counted};
ghost use Rattle.bfs_types.specs.Procedures.{number_of};
ghost use Rattle.bfs_trace.specs.Inside.Writing.{Puts};
ghost use Rattle.bfs_trace.specs.Messages.{call_header, credential_body};

use crate::buffer::Buffer;
use bfs_types::{Cred, Procedure};

// the words of a call's header (RFC 5531 section 9)
const CALL: u32 = 0;

const RPC_VERSION: u32 = 2;

const NFS_PROGRAM: u32 = 100_003;

const NFS_VERSION: u32 = 2;

// flavors (RFC 5531 section 8.2)
const AUTH_NONE: u32 = 0;

const AUTH_SYS: u32 = 1;

// how long an AUTH_SYS credential is, whose caller belongs to no group but its own
const CREDENTIAL_BYTES: u32 = 28;

/// Appends an AUTH_SYS credential (RFC 5531 appendix A), with a stamp of 0, behind the number of its bytes.
#[tactic(auto, using(std::proofs::lemmas::List::append_assoc, crate::proofs::Room::length_of_both, crate::proofs::Headers::credential_counted))]
fn put_credential(caller: &Cred, out: &mut Buffer) -> Option<()>
    ensures { Puts result out.old out.new (counted (credential_body caller.now)) }
{
    let gids = caller.gids.as_slice();
    let count = gids.len() as u32;
    out.push_words(&[CREDENTIAL_BYTES + 4 * count, 0])?;
    out.push_opaque(b"replay")?;
    out.push_words(&[caller.uid, caller.gid, count])?;
    out.push_words(gids)
}

/// Appends the header of the call of a procedure, with the timestamp modulo 2^32 as the xid.
#[tactic(auto, unfolding(crate::specs::Messages::call_header), using(std::proofs::lemmas::List::append_assoc, crate::proofs::Room::length_of_both))]
pub(crate) fn put_header(
    caller: &Cred,
    timestamp: u64,
    procedure: Procedure,
    out: &mut Buffer,
) -> Option<()>
    ensures { Puts result out.old out.new (call_header caller.now timestamp (number_of procedure)) }
{
    let xid = (timestamp % 4_294_967_296) as u32;
    out.push_words(&[
        xid,
        CALL,
        RPC_VERSION,
        NFS_PROGRAM,
        NFS_VERSION,
        procedure.number(),
        AUTH_SYS,
    ])?;
    put_credential(caller, out)?;
    out.push_words(&[AUTH_NONE, 0])
}
