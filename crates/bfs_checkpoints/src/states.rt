// The text of a state whose file system is live or has failed.
ghost use Rattle.std.specs.Prelude.{◌≡◌, ◌++◌, Option, None, IfOk, OnOk};
ghost use Rattle.std.specs.Option.{ForSome};
ghost use Rattle.bfs_model.specs.Server.Stored.{IsLive};
ghost use Rattle.bfs_model.specs.Server.Tree as model;
ghost use Rattle.bfs_replies.specs.Tables.{IsKept, Table};
ghost use Rattle.bfs_checkpoints.specs.States.{AreFilesReadAs, IsStateReadAs, files_text, state_text};

use bfs_digest::{RestoreError, restore_latest, snapshot};
use bfs_replies::{ReadError, ReplyTable};
use bfs_serial::{ExecError, FileSystem};
use bfs_types::Memory;
use std::alloc::Global;

/// Appends the text of a state: that of the table of replies, and behind it that of the file system, or nothing where that has failed. `Memory` if
/// memory runs out; then some of it may stand behind what was there.
#[tactic(auto, using(std::proofs::lemmas::List::append_assoc))]
pub fn put_state(
    out: &mut Vec<u8>,
    alloc: Global,
    files: &FileSystem,
    table: &ReplyTable,
) -> Result<(), Memory>
    ensures text { OnOk result (out.new.items ≡ out.old.items ++ state_text files.now table.now) }
    ensures live { ForSome files.now IsLive }
    ensures kept { IsKept table.now }
{
    is_kept(table);
    are_live(files);
    table.put_text(out)?;
    put_files(out, alloc, files)
}

// what is said is the contract
pub(crate) fn is_kept(table: &ReplyTable)
    ensures { IsKept table.now }
{
    let _clients = table.clients();
}

// what is said is the contract
#[tactic(auto, using(crate::proofs::StateTexts::live_where_told))]
pub(crate) fn are_live(files: &FileSystem)
    ensures { ForSome files.now IsLive }
{
    let _live = files.is_live();
}

#[tactic(auto, using(crate::proofs::StateTexts::files_put))]
fn put_files(out: &mut Vec<u8>, alloc: Global, files: &FileSystem) -> Result<(), Memory>
    ensures { OnOk result (out.new.items ≡ out.old.items ++ files_text files.now) }
{
    match snapshot(alloc, files) {
        Ok(text) => Ok(out.extend_from_slice(&text)?),
        Err(ExecError::Failed) => Ok(()),
        Err(ExecError::Memory) => Err(Memory),
    }
}

/// The file system and the table of which the bytes are the text. The file system has failed where nothing stands behind the table's text. `Malformed` if they
/// don't begin with the text of a table; then what refuses the rest is as of `restore_latest`.
pub fn read_state(alloc: Global, bytes: &[u8]) -> Result<(FileSystem, ReplyTable), RestoreError>
    ensures text { IfOk result (λ read. bytes.now ≡ state_text read.0 read.1) }
    // The text of a state that was kept is read.
    ensures only { (files : Option model.FileSystem) (table : Table) → ForSome files IsLive → IsKept table → bytes.now ≡ state_text files table → IsStateReadAs files table result }
{
    match ReplyTable::read(alloc, bytes) {
        Ok((table, rest)) => match read_files(alloc, rest) {
            Ok(files) => Ok((files, table)),
            Err(refused) => Err(refused),
        },
        Err(ReadError::Malformed) => Err(RestoreError::Malformed),
        Err(ReadError::Memory) => Err(RestoreError::Memory),
    }
}

fn read_files(alloc: Global, bytes: &[u8]) -> Result<FileSystem, RestoreError>
    ensures text { IfOk result (λ files. bytes.now ≡ files_text files) }
    ensures only { (files : Option model.FileSystem) → ForSome files IsLive → bytes.now ≡ files_text files → AreFilesReadAs files result }
{
    if bytes.is_empty() {
        match failed(alloc) {
            Ok(files) => Ok(files),
            Err(Memory) => Err(RestoreError::Memory),
        }
    } else {
        restore_latest(alloc, bytes)
    }
}

// one that has failed
fn failed(alloc: Global) -> Result<FileSystem, Memory>
    ensures { IfOk result (λ files. files ≡ None) }
{
    let mut files = FileSystem::new(alloc)?;
    files.take_parts();
    Ok(files)
}
