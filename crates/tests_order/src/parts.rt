//! The messages that tests make in the name of replicas and of clients.
use bfs_auth::Authenticator;
use bfs_messages::{
    Checkpoint, OrderMessage, OrderedBatch, PrePrepare, Signed, Vote, sign_checkpoint, sign_order,
    sign_proposal,
};
use bfs_testing_nodes::hashes::with_changed_entry;
use bfs_testing_nodes::members::{Members, request};
use bfs_types::{Memory, Time};
use std::alloc::Global;
use std::sync::Arc;

/// 3f + 1 replicas, and their clients.
pub fn members(faults: u32) -> Members {
    Members {
        f: faults,
        clients: 16,
    }
}

/// What a message says.
#[derive(Clone, Copy)]
pub enum Told {
    /// A PRE-PREPARE of the null request: its sender, view and number.
    Proposal(u32, u64, u64),
    /// A PRE-PREPARE: its sender, view and number. Its batch has one request of client 3 at 1.000000, which that client signed.
    Batch(u32, u64, u64, u32),
    /// A PREPARE on the null request: its sender, view and number.
    Prepare(u32, u64, u64),
    /// A PREPARE on what is no batch.
    OtherPrepare(u32, u64, u64),
    /// A COMMIT on the null request: its sender, view and number.
    Commit(u32, u64, u64),
    /// A COMMIT on what is no batch.
    OtherCommit(u32, u64, u64),
    /// A CHECKPOINT: its sender and number, with a digest of that byte.
    Checkpoint(u32, u64, u8),
}

/// The null request.
pub fn null(alloc: Global) -> Result<Arc<OrderedBatch>, Memory> {
    Ok(Arc::new(alloc, OrderedBatch::null())?)
}

// a batch of one request of client 3, signed by a client among those of 3f + 1 replicas
fn batch_signed_by(alloc: Global, faults: u32, client: u32) -> Result<Arc<OrderedBatch>, Memory> {
    let mut requests = Vec::new(alloc);
    requests.push(members(faults).request(alloc, client, request(alloc, 3, 5, b"a call")?)?)?;
    let time = Time::new(1, 0).ok_or(Memory)?;
    Ok(Arc::new(alloc, OrderedBatch::new(time, requests))?)
}

fn proposal(sender: u32, view: u64, number: u64, batch: Arc<OrderedBatch>) -> PrePrepare {
    PrePrepare::new(sender, view % (1 << 63), number % (1 << 63), batch)
}

fn vote(sender: u32, view: u64, number: u64, digest: [u8; 32]) -> Vote {
    Vote::new(sender, view % (1 << 63), number % (1 << 63), digest)
}

fn null_vote(sender: u32, view: u64, number: u64) -> Vote {
    vote(sender, view, number, OrderedBatch::null().digest())
}

fn other_vote(sender: u32, view: u64, number: u64) -> Vote {
    vote(sender, view, number, [7; 32])
}

fn checkpoint(sender: u32, number: u64, byte: u8) -> Checkpoint {
    Checkpoint::new(sender, number % (1 << 63), [byte; 32])
}

/// A PRE-PREPARE of the null request for a number of view 1, signed by its sender among 3f + 1 replicas.
pub fn handed_by(
    alloc: Global,
    faults: u32,
    sender: u32,
    number: u64,
) -> Result<Signed<PrePrepare>, Memory> {
    let keys = members(faults).keys_of(alloc, sender)?;
    sign_proposal(alloc, &keys, proposal(sender, 1, number, null(alloc)?))
}

/// A CHECKPOINT of number 16 with a digest of that byte, signed by its sender among 3f + 1 replicas.
pub fn told_by(
    alloc: Global,
    faults: u32,
    sender: u32,
    byte: u8,
) -> Result<Signed<Checkpoint>, Memory> {
    let keys = members(faults).keys_of(alloc, sender)?;
    sign_checkpoint(alloc, &keys, checkpoint(sender, 16, byte))
}

impl Told {
    /// The message, among 3f + 1 replicas.
    pub fn message(self, alloc: Global, faults: u32) -> Result<OrderMessage, Memory> {
        Ok(match self {
            Told::Proposal(sender, view, number) => {
                OrderMessage::PrePrepare(proposal(sender, view, number, null(alloc)?))
            }
            Told::Batch(sender, view, number, client) => {
                let batch = batch_signed_by(alloc, faults, client)?;
                OrderMessage::PrePrepare(proposal(sender, view, number, batch))
            }
            Told::Prepare(sender, view, number) => {
                OrderMessage::Prepare(null_vote(sender, view, number))
            }
            Told::OtherPrepare(sender, view, number) => {
                OrderMessage::Prepare(other_vote(sender, view, number))
            }
            Told::Commit(sender, view, number) => {
                OrderMessage::Commit(null_vote(sender, view, number))
            }
            Told::OtherCommit(sender, view, number) => {
                OrderMessage::Commit(other_vote(sender, view, number))
            }
            Told::Checkpoint(sender, number, byte) => {
                OrderMessage::Checkpoint(checkpoint(sender, number, byte))
            }
        })
    }

    /// The message as one among 3f + 1 replicas signs it, whoever it says that it is of.
    pub fn signed_by(
        self,
        alloc: Global,
        faults: u32,
        signer: u32,
    ) -> Result<Signed<OrderMessage>, Memory> {
        let keys = members(faults).keys_of(alloc, signer)?;
        sign_order(alloc, &keys, self.message(alloc, faults)?)
    }

    /// The message as that one signs it, with a changed entry for a receiver.
    pub fn spoiled_for(
        self,
        alloc: Global,
        faults: u32,
        signer: u32,
        receiver: u32,
    ) -> Result<Signed<OrderMessage>, Memory> {
        let Signed { message, auth } = self.signed_by(alloc, faults, signer)?;
        let auth = with_changed_entry(alloc, &auth, receiver as usize)?;
        Ok(Signed { message, auth })
    }

    /// The message without entries.
    pub fn unsigned(self, alloc: Global, faults: u32) -> Result<Signed<OrderMessage>, Memory> {
        Ok(Signed {
            message: self.message(alloc, faults)?,
            auth: Authenticator::new(alloc),
        })
    }
}
