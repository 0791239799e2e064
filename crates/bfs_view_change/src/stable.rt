// The checkpoint behind which a new view begins.
ghost use Rattle.std.specs.Prelude.{◌≡◌, ◌==◌, find, IfOk};
ghost use Rattle.std.specs.Option.{option_map};
ghost use Rattle.bfs_view_change.specs.Changes.NewViews.{latest_checkpoint};
ghost use Rattle.bfs_view_change.specs.Changes.ViewChanges.{first_digest, messages_of, stable_in};

use crate::choice::latest_stable;
use bfs_log::StableCheckpoint;
use bfs_messages::{Checkpoint, Signed, ViewChange};
use bfs_types::{Memory, copies_of};
use std::alloc::Global;

/// The checkpoint of the latest stable number that VIEW-CHANGEs tell, with the CHECKPOINTs of the first that tells it: a new view begins behind it.
/// None where that is number 0, which needs none. Nothing is checked here. `Memory` if memory runs out.
pub fn latest_checkpoint(
    alloc: Global,
    changes: &[Signed<ViewChange>],
) -> Result<Option<StableCheckpoint>, Memory>
    ensures { IfOk result (λ stable. stable ≡ latest_checkpoint (messages_of changes.now)) }
{
    let latest = latest_stable(changes);
    if latest == 0 {
        return Ok(None);
    }
    match find_with(changes, latest) {
        None => Ok(None),
        Some(change) => Ok(Some(stable_in(alloc, change)?)),
    }
}

// The first that tells that stable number.
fn find_with(changes: &[Signed<ViewChange>], stable: u64) -> Option<&ViewChange>
    ensures { option_map (λ change. change.now) result ≡ find (λ change. change.stable == stable) (messages_of changes.now) }
{
    match changes {
        [] => None,
        [first, rest @ ..] => {
            if first.message.stable() == stable {
                Some(&first.message)
            } else {
                find_with(rest, stable)
            }
        }
    }
}

fn stable_in(alloc: Global, change: &ViewChange) -> Result<StableCheckpoint, Memory>
    ensures { IfOk result (λ stable. stable ≡ stable_in change.now) }
{
    let checkpoints = copies_of(alloc, change.checkpoints())?;
    let digest = first_digest(change.checkpoints());
    Ok(StableCheckpoint::new(change.stable(), digest, checkpoints))
}

fn first_digest(checkpoints: &[Signed<Checkpoint>]) -> [u8; 32]
    ensures { result ≡ first_digest checkpoints.now }
{
    match checkpoints {
        [] => [0; 32],
        [first, ..] => *first.message.digest(),
    }
}
