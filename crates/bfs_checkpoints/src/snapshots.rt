ghost use Rattle.std.specs.Prelude.{◌≡◌, ◌↔◌, ◌++◌, Some, None, IfOk, IsErrOf, OnOk};
ghost use Rattle.std.specs.Option.{option_map};
ghost use Rattle.bfs_checkpoints.specs.Snapshots.{IsReadAs, IsSnapshot, IsTaken, snapshot_of};
ghost use Rattle.bfs_checkpoints.specs.Snapshots.{Snapshot as Taken};

use crate::digests::digest_with;
use crate::states::{are_live, is_kept, read_state};
use bfs_digest::{FrozenFiles, RestoreError, freeze};
use bfs_replies::ReplyTable;
use bfs_serial::{ExecError, FileSystem};
use bfs_types::{Memory, TryClone};
use std::alloc::Global;
use std::marker::Model;
use std::thread::Threads;

/// What a replica was: its text, and its digest. Both are of one state. The file system is frozen, and the table shares the replies; the text is made when
/// somebody asks for it.
#[derive(Debug, Drop)]
pub struct Snapshot {
    files: FrozenFiles,
    table: ReplyTable,
    digest: [u8; 32],
}

impl Model for Snapshot {
    ghost use Rattle.std.specs.Prelude.{◌++◌};
    ghost use Rattle.bfs_replies.specs.Texts.{table_text};
    ghost use Rattle.bfs_checkpoints.specs.Snapshots as model;

    ghost Value = { model.Snapshot };

    ghost view = { λ snapshot. record { text = table_text snapshot.table ++ snapshot.files.text; digest = snapshot.digest } };

    ghost invariant = { λ snapshot. model.IsTaken (record { text = table_text snapshot.table ++ snapshot.files.text; digest = snapshot.digest }) };
}

impl Snapshot {
    /// The text: that of the table of replies, and behind it that of the file system. Each call makes it anew. `Memory` if memory runs out.
    #[tactic(auto, using(crate::proofs::Taken::of_one_state))]
    pub fn text(&self, alloc: Global) -> Result<Vec<u8>, Memory>
        ensures value { IfOk result (λ text. text.items ≡ self.now.text) }
        ensures snapshot { IsSnapshot self.now }
    {
        let mut text = Vec::new(alloc);
        self.put_text(&mut text)?;
        Ok(text)
    }

    /// Appends the text. Each byte is written once. `Memory` if memory runs out; then some of it may stand behind what was there.
    #[tactic(auto, using(std::proofs::lemmas::List::append_assoc))]
    pub fn put_text(&self, out: &mut Vec<u8>) -> Result<(), Memory>
        ensures text { OnOk result (out.new.items ≡ out.old.items ++ self.now.text) }
        ensures taken { IsTaken self.now }
    {
        self.table.put_text(out)?;
        self.files.put_text(out)
    }

    /// The digest, which CHECKPOINTs tell.
    pub fn digest(&self) -> &[u8; 32]
        ensures { result.now ≡ self.now.digest }
    {
        &self.digest
    }

    /// Its text and its digest are of one state: a call that does nothing tells it.
    #[tactic(auto, using(crate::proofs::Taken::of_one_state))]
    pub(crate) fn is_of_one_state(&self)
        ensures { IsSnapshot self.now }
    {
        let _ = &self.digest;
    }
}

/// A snapshot of a replica. What its inodes are is frozen and shared (`freeze`), so that a snapshot costs what has changed since the one
/// before it, and a pointer and 36 hashed bytes an inode. The file system stays as it was. `Failed` if it has failed, `Memory` if memory
/// runs out.
pub fn take_snapshot(
    rt: &(impl Threads + Sync),
    alloc: Global,
    files: &mut FileSystem,
    table: &ReplyTable,
) -> Result<Snapshot, ExecError>
    ensures value { IfOk result (λ snapshot. option_map (λ live. snapshot_of live table.now) files.old ≡ Some snapshot) }
    ensures stays { files.new ≡ files.old }
    ensures failed { IsErrOf result ExecError.Failed ↔ (files.old ≡ None) }
{
    let frozen = freeze(rt, alloc, files)?;
    are_live(files);
    let Ok(table) = table.try_clone(alloc) else {
        return Err(ExecError::Memory);
    };
    is_kept(&table);
    let digest = digest_with(frozen.digest(), &table);
    Ok(Snapshot {
        files: frozen,
        table,
        digest,
    })
}

/// The snapshot of which the bytes are the text, with a table of however many clients. What is read is as of `read_state`, but that of a file system that
/// has failed there is none (`Malformed`); then all of it is hashed.
pub fn restore_snapshot(
    rt: &(impl Threads + Sync),
    alloc: Global,
    bytes: &[u8],
) -> Result<Snapshot, RestoreError>
    ensures text { IfOk result (λ snapshot. snapshot.text ≡ bytes.now) }
    // The text of one that was taken is read.
    ensures only { (snapshot : Taken) → IsTaken snapshot → bytes.now ≡ snapshot.text → IsReadAs snapshot result }
{
    match read_state(alloc, bytes) {
        Ok((mut files, table)) => match take_snapshot(rt, alloc, &mut files, &table) {
            Ok(snapshot) => Ok(snapshot),
            Err(ExecError::Failed) => Err(RestoreError::Malformed),
            Err(ExecError::Memory) => Err(RestoreError::Memory),
        },
        Err(refused) => Err(refused),
    }
}
