ghost use Rattle.std.specs.Prelude.{[], ◌∷◌, ◌++◌, List, ℕ, OnOk};
ghost use Rattle.bfs_journal.specs.Disk.{IsBeforeOrAfter, IsSettled, LeavesOnly};
ghost use Rattle.bfs_journal.specs.Records.{IsBody};

use crate::disk::Disk;
use crate::error::KeepError;
use crate::writing::put_record;
use std::alloc::Global;

/// Adds a record to a journal, and syncs it. Once it has returned `Ok` each crash leaves a file that has it: then what rests on it may be told.
pub fn keep<D: Disk>(alloc: Global, disk: &mut D, body: &[u8]) -> Result<(), KeepError>
    requires body { IsBody body.now }
    ensures kept { OnOk result ((bodies : List (List ℕ)) → IsSettled D.seen D.may_leave disk.old bodies → IsSettled D.seen D.may_leave disk.new (bodies ++ body.now ∷ [])) }
    // A crash at any moment of the call, also of one that fails, leaves the records from before it, with the new one or without.
    ensures any_moment { (bodies : List (List ℕ)) → IsSettled D.seen D.may_leave disk.old bodies
        → LeavesOnly D.moment D.left_since disk.old disk.new (IsBeforeOrAfter bodies body.now) }
{
    let mut record = Vec::new(alloc);
    put_record(&mut record, body)?;
    disk.append(record.as_slice())?;
    disk.sync()?;
    Ok(())
}
