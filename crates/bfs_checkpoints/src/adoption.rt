ghost use Rattle.std.specs.Prelude.{◌≡◌, ◌↔◌, Some, IfOk, IfSome, IsErrOf};
ghost use Rattle.std.specs.Option.{option_map};
ghost use Rattle.bfs_checkpoints.specs.Adoption.{HasDigest, HasOtherDigest, code_of};
ghost use Rattle.bfs_checkpoints.specs.Snapshots.{snapshot_of};
ghost use Rattle.bfs_checkpoints.specs.Outcomes.{IsRead, NodeHasOtherVersion, NodeIsMalformed, SpellsIllFormedNode};

use crate::reading::read_node;
use crate::snapshots::{Snapshot, take_snapshot};
use bfs_digest::RestoreError;
use bfs_replies::ReplyTable;
use bfs_serial::FileSystem;
use std::alloc::Global;
use std::thread::Threads;
use thiserror::Error;

/// Why a replica's text is not taken over.
#[derive(Clone, Copy, Debug, PartialEq, Eq, Error)]
pub enum AdoptError {
    /// It is no text of a replica of so many clients.
    #[error("the bytes spell no replica")]
    Malformed,
    /// The file system's text is of another version.
    #[error("the text is of another version")]
    WrongVersion,
    /// The file system is not well formed.
    #[error("the file system is not well formed")]
    NotWellFormed,
    /// The replica has another digest than was told.
    #[error("the digest is another one")]
    DigestDiffers,
    /// Memory ran out.
    #[error("out of memory")]
    Memory,
}

impl AdoptError {
    /// The number of the refusal.
    pub fn code(self) -> u32
        ensures { result ≡ code_of self }
    {
        match self {
            AdoptError::Malformed => 20,
            AdoptError::NotWellFormed => 21,
            AdoptError::WrongVersion => 22,
            AdoptError::DigestDiffers => 35,
            AdoptError::Memory => 40,
        }
    }
}

impl From<RestoreError> for AdoptError {
    ghost use Rattle.bfs_checkpoints.specs.Adoption.{refusal_of};

    ghost from_gives = { λ error refused. refused ≡ refusal_of error };

    fn from(error: RestoreError) -> AdoptError {
        match error {
            RestoreError::Malformed => AdoptError::Malformed,
            RestoreError::WrongVersion => AdoptError::WrongVersion,
            RestoreError::NotWellFormed => AdoptError::NotWellFormed,
            RestoreError::Memory => AdoptError::Memory,
        }
    }
}

/// What is taken over: the file system, which is live, the table of replies, and the snapshot that they were read from.
#[derive(Drop)]
pub struct Adopted {
    pub files: FileSystem,
    pub table: ReplyTable,
    pub snapshot: Snapshot,
}

/// What a replica's text spells, if it has the digest that CHECKPOINTs tell (OSDI 1999 section 4.3). `Malformed`, `WrongVersion` and
/// `NotWellFormed` are as of `read_node`; `DigestDiffers` if it is read and has another digest; `Memory` if memory runs out.
pub fn adopt(
    rt: &(impl Threads + Sync),
    alloc: Global,
    bytes: &[u8],
    clients: u32,
    digest: &[u8; 32],
) -> Result<Adopted, AdoptError>
    ensures read { IfOk result (λ adopted. IsRead clients bytes.now adopted.files adopted.table) }
    ensures digest { IfOk result (λ adopted. HasDigest adopted.files adopted.table digest.now) }
    ensures snapshot { IfOk result (λ adopted. adopted.snapshot ≡ record { text = bytes.now; digest = digest.now }) }
    ensures malformed { IsErrOf result AdoptError.Malformed ↔ NodeIsMalformed clients bytes.now }
    ensures wrong_version { IsErrOf result AdoptError.WrongVersion ↔ NodeHasOtherVersion clients bytes.now }
    ensures ill_formed { IsErrOf result AdoptError.NotWellFormed → SpellsIllFormedNode clients bytes.now }
    ensures differs { IsErrOf result AdoptError.DigestDiffers → HasOtherDigest clients bytes.now digest.now }
{
    let (mut files, table) = read_node(alloc, bytes, clients)?;
    let Some(snapshot) = live_snapshot(rt, alloc, &mut files, &table) else {
        return Err(AdoptError::Memory);
    };
    if snapshot.digest() != digest {
        return Err(AdoptError::DigestDiffers);
    }
    Ok(Adopted {
        files,
        table,
        snapshot,
    })
}

// The snapshot of a replica whose file system is live, or `None` if memory runs out.
fn live_snapshot(
    rt: &(impl Threads + Sync),
    alloc: Global,
    files: &mut FileSystem,
    table: &ReplyTable,
) -> Option<Snapshot>
    ensures value { IfSome result (λ snapshot. option_map (λ live. snapshot_of live table.now) files.old ≡ Some snapshot) }
    ensures stays { files.new ≡ files.old }
{
    match take_snapshot(rt, alloc, files, table) {
        Ok(snapshot) => Some(snapshot),
        Err(_) => None,
    }
}
