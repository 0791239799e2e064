// The CHECKPOINTs that make a checkpoint stable.
ghost use Rattle.std.specs.Prelude.{◌≡◌, ◌∷◌, ◌++◌, [], IfOk, OnOk};
ghost use Rattle.bfs_log.specs.Headers.{header};
ghost use Rattle.bfs_checkpoints.specs.Certificates.{checkpoints, told_checkpoint};

use bfs_log::StableCheckpoint;
use bfs_messages::{Checkpoint, OrderMessage, Signed};
use bfs_types::{Memory, TryClone};
use std::alloc::Global;

/// Copies of the CHECKPOINTs of a log that have the number and the digest of a message, and behind them of that message, if it is a
/// CHECKPOINT. So they are ready before the message is taken into the log. `Memory` if memory runs out.
#[tactic(auto, using(crate::proofs::Certifying::told_more))]
pub fn certificate_with(
    alloc: Global,
    log: &[Signed<OrderMessage>],
    last: &Signed<OrderMessage>,
) -> Result<StableCheckpoint, Memory>
    ensures { IfOk result (λ c. c ≡ told_checkpoint (header last.now).number (header last.now).digest (log.now ++ last.now ∷ [])) }
{
    let (number, digest) = (last.message.number(), last.message.digest());
    let mut copies = Vec::new(alloc);
    put_checkpoints(alloc, &mut copies, log, number, digest)?;
    put_checkpoint(alloc, &mut copies, last, number, digest)?;
    Ok(StableCheckpoint::new(number, *digest, copies))
}

/// Copies of the CHECKPOINTs of a log that have that number and digest. `Memory` if memory runs out.
pub fn checkpoints_told(
    alloc: Global,
    log: &[Signed<OrderMessage>],
    number: u64,
    digest: &[u8; 32],
) -> Result<Vec<Signed<Checkpoint>>, Memory>
    ensures { IfOk result (λ copies. copies.items ≡ checkpoints number digest.now log.now) }
{
    let mut copies = Vec::new(alloc);
    put_checkpoints(alloc, &mut copies, log, number, digest)?;
    Ok(copies)
}

fn put_checkpoints(
    alloc: Global,
    copies: &mut Vec<Signed<Checkpoint>>,
    log: &[Signed<OrderMessage>],
    number: u64,
    digest: &[u8; 32],
) -> Result<(), Memory>
    ensures { OnOk result (copies.new.items ≡ copies.old.items ++ checkpoints number digest.now log.now) }
{
    for signed in log {
        put_checkpoint(alloc, copies, signed, number, digest)?;
    }
    Ok(())
}

fn put_checkpoint(
    alloc: Global,
    copies: &mut Vec<Signed<Checkpoint>>,
    signed: &Signed<OrderMessage>,
    number: u64,
    digest: &[u8; 32],
) -> Result<(), Memory>
    ensures { OnOk result (copies.new.items ≡ copies.old.items ++ checkpoints number digest.now (signed.now ∷ [])) }
{
    match &signed.message {
        OrderMessage::Checkpoint(checkpoint) => {
            if checkpoint.number() == number && checkpoint.digest() == digest {
                copies.push(Signed {
                    message: *checkpoint,
                    auth: signed.auth.try_clone(alloc)?,
                })?;
            }
            Ok(())
        }
        _ => Ok(()),
    }
}
