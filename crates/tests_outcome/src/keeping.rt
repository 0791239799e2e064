//! Snapshots that are kept, and become stable.
ghost use Rattle.std.specs.Prelude.{◌≡◌, ◌≤◌};
ghost use Rattle.bfs_model.specs.Server.Limits.{most_number};

use crate::nodes::{fuller_table, snapshot, table};
use bfs_auth::Authenticator;
use bfs_checkpoints::{Snapshots, certificate_with, checkpoints_told};
use bfs_log::{Log, Slot};
use bfs_messages::{Checkpoint, OrderMessage, Signed};
use bfs_replies::ReplyTable;
use bfs_testing::same;
use bfs_types::Memory;
use std::alloc::Global;
use std::test::Fail;
use std::thread::Threads;

// a replica's CHECKPOINT comes into a log of four replicas
fn tell(
    alloc: Global,
    kept: &mut Snapshots,
    log: &mut Log,
    sender: u32,
    number: u64,
    digest: &[u8; 32],
) -> Result<(), Memory>
    requires { number ≤ most_number }
{
    let slot = Slot {
        tag: 5,
        sender,
        view: 0,
        number,
    };
    let faults = kept.faults();
    if sender >= 4 || faults > 10 || log.has(slot) {
        return Err(Memory);
    }
    let signed = Signed {
        message: OrderMessage::Checkpoint(Checkpoint::new(sender, number, *digest)),
        auth: Authenticator::new(alloc),
    };
    let certificate = certificate_with(alloc, log.messages(), &signed)?;
    log.push(signed)?;
    log.messages_differ();
    if log.is_checkpoint_stable(faults, number, digest) {
        kept.settle(certificate);
    }
    Ok(())
}

// the number of the stable checkpoint, how many bytes its text has, and of how many replicas there are CHECKPOINTs
fn stable(alloc: Global, kept: &Snapshots) -> Option<(u64, usize, usize)> {
    let stable = kept.stable()?;
    let checkpoint = stable.checkpoint;
    Some((
        checkpoint.number(),
        stable.snapshot.text(alloc).ok()?.len(),
        checkpoint.checkpoints().len(),
    ))
}

// the digest of the snapshot of a number
fn digest_at(kept: &Snapshots, number: u64) -> Option<[u8; 32]> {
    let snapshot = kept.snapshot_at(number)?;
    Some(*snapshot.digest())
}

// puts the snapshot of a replica with that table behind the others, and gives its digest
fn keep(
    rt: &(impl Threads + Sync),
    alloc: Global,
    kept: &mut Snapshots,
    number: u64,
    table: &ReplyTable,
) -> Result<[u8; 32], Fail> {
    let taken = snapshot(rt, alloc, table)?;
    let digest = *taken.digest();
    kept.push(number, taken)?;
    Ok(digest)
}

#[test]
fn snapshots_become_stable_one_after_another(rt: HostRuntime) -> Result<(), Fail> {
    let alloc = rt.alloc();
    let mut log = Log::new(alloc);
    let mut kept = Snapshots::new(alloc, 1);
    same!(rt; kept.faults(), 1);
    let first = keep(&rt, alloc, &mut kept, 16, &table(alloc)?)?;
    let second = keep(&rt, alloc, &mut kept, 32, &fuller_table(alloc)?)?;
    same!(rt; digest_at(&kept, 32), Some(second));
    same!(rt; digest_at(&kept, 48), None);
    tell(alloc, &mut kept, &mut log, 0, 16, &first)?;
    tell(alloc, &mut kept, &mut log, 1, 16, &second)?;
    tell(alloc, &mut kept, &mut log, 2, 16, &first)?;
    same!(rt; stable(alloc, &kept), None);
    tell(alloc, &mut kept, &mut log, 3, 16, &first)?;
    same!(rt; stable(alloc, &kept), Some((16, 112, 3)));
    same!(rt; checkpoints_told(alloc, log.messages(), 16, &first)?.len(), 3);
    same!(rt; checkpoints_told(alloc, log.messages(), 16, &second)?.len(), 1);
    // of a number of which there is no snapshot, and of another digest
    for sender in 0..4u32 {
        tell(alloc, &mut kept, &mut log, sender, 48, &first)?;
    }
    same!(rt; stable(alloc, &kept), Some((16, 112, 3)));
    for sender in 0..4u32 {
        tell(alloc, &mut kept, &mut log, sender, 32, &second)?;
    }
    same!(rt; stable(alloc, &kept), Some((32, 128, 3)));
    same!(rt; digest_at(&kept, 16), None);
    Ok(())
}

#[test]
fn a_snapshot_can_be_forgotten(rt: HostRuntime) -> Result<(), Fail> {
    let alloc = rt.alloc();
    let mut log = Log::new(alloc);
    let mut kept = Snapshots::new(alloc, 1);
    let table = table(alloc)?;
    let digest = keep(&rt, alloc, &mut kept, 16, &table)?;
    kept.pop();
    for sender in 0..4u32 {
        tell(alloc, &mut kept, &mut log, sender, 16, &digest)?;
    }
    same!(rt; stable(alloc, &kept), None);
    Ok(())
}
