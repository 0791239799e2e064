// The CHECKPOINTs that make a checkpoint stable, out of those that several replicas give.
ghost use Rattle.std.specs.Prelude.{◌≡◌, ◌≤◌, ◌==◌, true, IfOk, IfSome};
ghost use Rattle.std.specs.List.{list_any};
ghost use Rattle.bfs_model.specs.Server.Limits.{most_faults, most_number};
ghost use Rattle.bfs_log.specs.Certificates.{as_checkpoints, has_sender, is_shown};
ghost use Rattle.bfs_checkpoints.specs.Collecting.{collected, right_checkpoints};

use bfs_auth::Keys;
use bfs_log::{StableCheckpoint, does_vouch};
use bfs_messages::{Checkpoint, Signed};
use bfs_types::{Memory, TryClone};
use std::alloc::Global;

/// Of CHECKPOINTs that were told by whomever, in any order, the first of each replica that is right by these keys and tells that number and
/// digest: copies of these make the checkpoint stable where they are of 2f + 1 replicas or more (OSDI 1999 section 4.3). Wrong ones, others and
/// those of a sender that stands there are passed over. None where fewer are right. `Memory` if memory runs out.
pub fn collect(
    alloc: Global,
    keys: &Keys,
    f: u32,
    number: u64,
    digest: &[u8; 32],
    told: &[Signed<Checkpoint>],
) -> Result<Option<StableCheckpoint>, Memory>
    requires faults { f ≤ most_faults }
    requires number { number ≤ most_number }
    ensures value { IfOk result (λ found. found ≡ collected keys.now f number digest.now told.now) }
    ensures shown { IfOk result (λ found. IfSome found (λ c. is_shown keys.now f c ≡ true)) }
{
    let right = right_checkpoints(alloc, keys, f, number, digest, told)?;
    if right.len() < 2 * f as usize + 1 {
        return Ok(None);
    }
    Ok(Some(StableCheckpoint::new(number, *digest, right)))
}

fn right_checkpoints(
    alloc: Global,
    keys: &Keys,
    f: u32,
    number: u64,
    digest: &[u8; 32],
    told: &[Signed<Checkpoint>],
) -> Result<Vec<Signed<Checkpoint>>, Memory>
    requires { f ≤ most_faults }
    ensures { IfOk result (λ found. found.items ≡ right_checkpoints keys.now f number digest.now told.now) }
{
    let mut found = Vec::new(alloc);
    for signed in told {
        if !has_sender(&found, signed.message.sender())
            && does_vouch(keys, f, number, digest, signed)
        {
            found.push(signed.try_clone(alloc)?)?;
        }
    }
    Ok(found)
}

// There are at most as many as replicas.
#[tactic(auto, using(crate::proofs::Collected::any_sender))]
fn has_sender(found: &[Signed<Checkpoint>], sender: u32) -> bool
    ensures { result ≡ has_sender (as_checkpoints found.now) sender }
{
    is_any_from(found, sender)
}

fn is_any_from(found: &[Signed<Checkpoint>], sender: u32) -> bool
    ensures { result ≡ list_any (λ s. s.message.sender == sender) found.now }
{
    found.iter().any(|signed| signed.message.sender() == sender)
}
