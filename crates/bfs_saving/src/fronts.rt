// The words that the text of a saved replica begins with, and what they tell of one that is refused.
ghost use Rattle.std.specs.Prelude.{◌≡◌, ◌++◌, OnOk};
ghost use Rattle.std.specs.Option.{option_map};
ghost use Rattle.bfs_model.specs.Bytes.Items.{word};
ghost use Rattle.bfs_saving.specs.Errors.{front_from, has_other_version, refused_by, refusal};
ghost use Rattle.bfs_saving.specs.Saved.{magic, version};

use crate::error::SavedError;
use bfs_types::Memory;
use bfs_xdr::{Reader, put_u32};

/// The word in front of every saved replica: `BFSN`.
pub const MAGIC: u32 = 0x4246_534e;

/// The version of the text that is written. It rises with each change of the text, that of states in it too.
pub const VERSION: u32 = 1;

// What the text begins with.
#[derive(Clone, Copy)]
pub(crate) struct Front {
    pub(crate) magic: u32,
    pub(crate) version: u32,
    pub(crate) clients: u32,
    pub(crate) f: u32,
    pub(crate) me: u32,
}

/// Appends the word and the version in front, and the number of clients. `Memory` if memory runs out.
#[tactic(auto, using(std::proofs::lemmas::List::append_assoc))]
pub fn put_front(out: &mut Vec<u8>, clients: u32) -> Result<(), Memory>
    ensures { OnOk result (out.new.items ≡ out.old.items ++ (word magic ++ word version ++ word clients)) }
{
    put_u32(out, MAGIC)?;
    put_u32(out, VERSION)?;
    put_u32(out, clients)
}

/// Why bytes are refused that spell no replica of that number, where `f` may be faulty, with so many clients.
pub fn refusal(clients: u32, f: u32, me: u32, bytes: &[u8]) -> SavedError
    ensures { result ≡ refusal clients f me bytes.now }
{
    if has_other_version(bytes) {
        SavedError::WrongVersion
    } else {
        refused_by(clients, f, me, bytes)
    }
}

fn has_other_version(bytes: &[u8]) -> bool
    ensures { result ≡ has_other_version bytes.now }
{
    let mut reader = Reader::strict(bytes);
    let Ok(first) = reader.u32() else {
        return false;
    };
    let Ok(version) = reader.u32() else {
        return false;
    };
    first == MAGIC && version != VERSION
}

fn refused_by(clients: u32, f: u32, me: u32, bytes: &[u8]) -> SavedError
    ensures { result ≡ refused_by clients f me (front_from bytes.now) }
{
    let Some(front) = front_of(bytes) else {
        return SavedError::Malformed;
    };
    if front.magic != MAGIC || front.version != VERSION {
        SavedError::Malformed
    } else if front.clients != clients || front.f != f {
        SavedError::OtherSettings
    } else if front.me != me {
        SavedError::OtherReplica
    } else {
        SavedError::Malformed
    }
}

#[tactic(auto, unfolding(crate::specs::Errors::front_from))]
fn front_of(bytes: &[u8]) -> Option<Front>
    ensures { result ≡ option_map (λ read. read.0) (front_from bytes.now) }
{
    let mut reader = Reader::strict(bytes);
    let magic = reader.u32().ok()?;
    let version = reader.u32().ok()?;
    let clients = reader.u32().ok()?;
    let f = reader.u32().ok()?;
    let me = reader.u32().ok()?;
    Some(Front {
        magic,
        version,
        clients,
        f,
        me,
    })
}
