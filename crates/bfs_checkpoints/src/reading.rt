ghost use Rattle.std.specs.Prelude.{◌≡◌, ◌↔◌, Some, IfOk, IsErrOf};
ghost use Rattle.bfs_replies.specs.TextReading.{passed, table_from};
ghost use Rattle.bfs_checkpoints.specs.Outcomes.{IsRead, NodeHasOtherVersion, NodeIsMalformed, SpellsIllFormedNode};

use bfs_digest::{RestoreError, restore_latest};
use bfs_replies::{ReadError, ReplyTable};
use bfs_serial::FileSystem;
use std::alloc::Global;

/// The live file system and the table of so many clients that a replica's text spells. `Malformed` if the bytes don't begin with the
/// text of a table of so many clients; then what refuses the rest is as of `restore_latest`: `WrongVersion` too if it
/// is of version 1, since of such a text no CHECKPOINT tells the digest. Nothing is built before all bytes were looked at.
pub fn read_node(
    alloc: Global,
    bytes: &[u8],
    clients: u32,
) -> Result<(FileSystem, ReplyTable), RestoreError>
    ensures ok { IfOk result (λ read. IsRead clients bytes.now read.0 read.1) }
    ensures malformed { IsErrOf result RestoreError.Malformed ↔ NodeIsMalformed clients bytes.now }
    ensures wrong_version { IsErrOf result RestoreError.WrongVersion ↔ NodeHasOtherVersion clients bytes.now }
    ensures ill_formed { IsErrOf result RestoreError.NotWellFormed → SpellsIllFormedNode clients bytes.now }
{
    let Some((found, rest)) = ReplyTable::skip_text(bytes) else {
        return Err(RestoreError::Malformed);
    };
    if found != clients {
        return Err(RestoreError::Malformed);
    }
    read_parts(alloc, bytes, rest, clients)
}

// The file system and the table of a text of which the rest is known to stand behind the table's.
fn read_parts(
    alloc: Global,
    bytes: &[u8],
    rest: &[u8],
    clients: u32,
) -> Result<(FileSystem, ReplyTable), RestoreError>
    requires { passed (table_from bytes.now) ≡ Some (clients, rest.now) }
    ensures ok { IfOk result (λ read. IsRead clients bytes.now read.0 read.1) }
    ensures malformed { IsErrOf result RestoreError.Malformed ↔ NodeIsMalformed clients bytes.now }
    ensures wrong_version { IsErrOf result RestoreError.WrongVersion ↔ NodeHasOtherVersion clients bytes.now }
    ensures ill_formed { IsErrOf result RestoreError.NotWellFormed → SpellsIllFormedNode clients bytes.now }
{
    match restore_latest(alloc, rest) {
        Ok(files) => match ReplyTable::read(alloc, bytes) {
            Ok((table, _)) => Ok((files, table)),
            Err(ReadError::Memory) => Err(RestoreError::Memory),
            Err(ReadError::Malformed) => unreachable!(),
        },
        Err(refused) => Err(refused),
    }
}
