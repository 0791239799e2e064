ghost use Rattle.std.specs.Prelude.{◌≡◌, ◌≤◌, ◌↔◌, IfOk, IsErrOf};
ghost use Rattle.bfs_model.specs.Server.Tree.{spent_ordinal};
ghost use Rattle.bfs_digest.specs.Outcomes.{HasOtherVersion, IsMalformed, IsRestored, SpellsIllFormed};
ghost use Rattle.bfs_digest.specs.Text.{latest_version, oldest_version};
ghost use Rattle.bfs_digest.specs.Inside.Taking.{AreRecords, BuildsFiles, IsText};

use crate::errors::RestoreError;
use crate::formation::is_well_formed;
use crate::headers::Header;
use crate::inodes::tree_of;
use crate::readers::TextReader;
use crate::spelling::spelled;
use crate::versions::{LATEST_VERSION, OLDEST_VERSION, is_taken};
use bfs_serial::FileSystem;
use bfs_types::{Memory, Ordinal};
use std::alloc::Global;

/// The live file system of which the bytes are the text, in either version. `Malformed` if they don't begin with `BFSS`, `WrongVersion`
/// if another version than 1 or 2 follows, `Malformed` if the rest spells no file system, `NotWellFormed` if it spells one that is not
/// well formed, and `Memory` if memory runs out. Bytes that spell none are refused without memory. What is spelled is built, and then
/// looked at, so one that is not well formed takes the memory of one that is. A text of n bytes takes at most n log n steps.
pub fn restore(alloc: Global, bytes: &[u8]) -> Result<FileSystem, RestoreError>
    ensures ok { IfOk result (λ files. IsRestored oldest_version bytes.now files) }
    ensures malformed { IsErrOf result RestoreError.Malformed ↔ IsMalformed oldest_version bytes.now }
    ensures wrong_version { IsErrOf result RestoreError.WrongVersion ↔ HasOtherVersion oldest_version bytes.now }
    ensures ill_formed { IsErrOf result RestoreError.NotWellFormed → SpellsIllFormed oldest_version bytes.now }
{
    restore_from(alloc, bytes, OLDEST_VERSION)
}

/// The same of a text as `snapshot` writes it: `WrongVersion` also if it is of version 1.
pub fn restore_latest(alloc: Global, bytes: &[u8]) -> Result<FileSystem, RestoreError>
    ensures ok { IfOk result (λ files. IsRestored latest_version bytes.now files) }
    ensures malformed { IsErrOf result RestoreError.Malformed ↔ IsMalformed latest_version bytes.now }
    ensures wrong_version { IsErrOf result RestoreError.WrongVersion ↔ HasOtherVersion latest_version bytes.now }
    ensures ill_formed { IsErrOf result RestoreError.NotWellFormed → SpellsIllFormed latest_version bytes.now }
{
    restore_from(alloc, bytes, LATEST_VERSION)
}

// of the versions from the oldest on
fn restore_from(alloc: Global, bytes: &[u8], oldest: u32) -> Result<FileSystem, RestoreError>
    ensures ok { IfOk result (λ files. IsRestored oldest bytes.now files) }
    ensures malformed { IsErrOf result RestoreError.Malformed ↔ IsMalformed oldest bytes.now }
    ensures wrong_version { IsErrOf result RestoreError.WrongVersion ↔ HasOtherVersion oldest bytes.now }
    ensures ill_formed { IsErrOf result RestoreError.NotWellFormed → SpellsIllFormed oldest bytes.now }
{
    match text_of(bytes, oldest) {
        Ok((header, records)) => match files_of(alloc, &header, records)? {
            Some(files) => Ok(files),
            None => Err(RestoreError::NotWellFormed),
        },
        Err(refused) => Err(refused),
    }
}

// the header and the records that the bytes spell
fn text_of(bytes: &[u8], oldest: u32) -> Result<(Header, &[u8]), RestoreError>
    ensures ok { IfOk result (λ text. IsText oldest bytes.now text.0 text.1.now) }
    ensures records { IfOk result (λ text. AreRecords text.0 text.1.now) }
    ensures malformed { IsErrOf result RestoreError.Malformed ↔ IsMalformed oldest bytes.now }
    ensures wrong_version { IsErrOf result RestoreError.WrongVersion ↔ HasOtherVersion oldest bytes.now }
    ensures no_other { IsErrOf result RestoreError.NotWellFormed → ⊥ }
{
    let mut reader = TextReader::new(bytes);
    let Ok(version) = reader.version() else {
        return Err(RestoreError::Malformed);
    };
    if !is_taken(oldest, version) {
        return Err(RestoreError::WrongVersion);
    }
    match spelled(&mut reader, version) {
        Ok(text) => Ok(text),
        Err(_) => Err(RestoreError::Malformed),
    }
}

// the file system of the records, or `None` if it is not well formed
fn files_of(alloc: Global, header: &Header, records: &[u8]) -> Result<Option<FileSystem>, Memory>
    requires { AreRecords header.now records.now }
    ensures { IfOk result (λ files. BuildsFiles files header.now records.now) }
{
    let Some(tree) = tree_of(alloc, records, header.count)? else {
        return Ok(None);
    };
    if !is_well_formed(alloc, &tree, header.next_ordinal)? {
        return Ok(None);
    }
    let ordinal = ordinal_of(header.next_ordinal);
    Ok(Some(FileSystem::from_parts(tree, ordinal, header.last_time)))
}

fn ordinal_of(number: u64) -> Ordinal
    requires { number ≤ spent_ordinal }
    ensures { result ≡ number }
{
    match Ordinal::new(number) {
        Some(ordinal) => ordinal,
        None => Ordinal::first(),
    }
}
