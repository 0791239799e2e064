//! Snapshots, which another replica adopts once they are stable.
use bfs_log::StableCheckpoint;
use bfs_messages::{Checkpoint, Signed};
use bfs_node::{Node, NodeError};
use bfs_types::{MOST_NUMBER, Memory, TryClone};
use std::alloc::Global;
use std::thread::Threads;

/// A stable snapshot, and the checkpoint that tells its digest.
#[derive(Drop)]
pub struct Snapshot {
    pub text: Vec<u8>,
    pub checkpoint: StableCheckpoint,
}

/// A copy of a replica's stable snapshot, if it has one.
pub fn snapshot_of(alloc: Global, node: &Node) -> Result<Option<Snapshot>, Memory> {
    let Some(stable) = node.stable() else {
        return Ok(None);
    };
    Ok(Some(Snapshot {
        text: stable.snapshot.text(alloc)?,
        checkpoint: stable.checkpoint.try_clone(alloc)?,
    }))
}

/// How many CHECKPOINTs tell a replica's stable snapshot, and its digest.
pub fn stable_of(node: &Node) -> Option<(usize, [u8; 32])> {
    let stable = node.stable()?;
    let digest = *stable.snapshot.digest();
    Some((stable.checkpoint.checkpoints().len(), digest))
}

/// A replica adopts a snapshot.
pub fn adopt<R: Threads + Sync>(
    rt: &R,
    node: &mut Node,
    text: &[u8],
    checkpoint: &StableCheckpoint,
) -> Result<(), NodeError> {
    node.adopt(rt, text, checkpoint)
}

/// A replica settles a checkpoint by a certificate.
pub fn settle(node: &mut Node, checkpoint: &StableCheckpoint) -> Result<(), NodeError> {
    node.settle(checkpoint)
}

/// What a replica has told of a number: its text, its digest, and the CHECKPOINTs that tell it.
#[derive(Drop)]
pub struct Told {
    pub text: Vec<u8>,
    pub digest: [u8; 32],
    pub checkpoints: Vec<Signed<Checkpoint>>,
}

/// A copy of what a replica has told of a number, if it keeps that.
pub fn told_of(alloc: Global, node: &Node, number: u64) -> Result<Option<Told>, Memory> {
    let Some(told) = node.told(number)? else {
        return Ok(None);
    };
    Ok(Some(Told {
        text: told.snapshot.text(alloc)?,
        digest: *told.snapshot.digest(),
        checkpoints: told.checkpoints,
    }))
}

/// What makes a checkpoint stable, as a replica collects it.
pub fn collect(
    node: &Node,
    number: u64,
    digest: &[u8; 32],
    told: &[Signed<Checkpoint>],
) -> Result<Option<StableCheckpoint>, Memory> {
    if number > MOST_NUMBER {
        return Ok(None);
    }
    node.collect(number, digest, told)
}

/// What another replica has told of a number as a stable snapshot, where a replica collects what makes it so, of what was told and of what it has
/// heard itself.
pub fn collected_by(node: &Node, number: u64, told: Told) -> Result<Option<Snapshot>, Memory> {
    let mut checkpoints = told.checkpoints;
    let mut heard = node.checkpoints_of(number, &told.digest)?;
    checkpoints.append(&mut heard)?;
    match collect(node, number, &told.digest, &checkpoints)? {
        Some(checkpoint) => Ok(Some(Snapshot {
            text: told.text,
            checkpoint,
        })),
        None => Ok(None),
    }
}
