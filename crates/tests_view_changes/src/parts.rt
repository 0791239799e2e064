//! The messages of four replicas, told by what they say. A test that makes them by calls takes many times as long to prove.
ghost use Rattle.std.specs.Prelude.{◌<◌, ◌≤◌, ◌^◌};

use bfs_auth::Keys;
use bfs_messages::{
    Checkpoint, Message, NewView, OrderedBatch, PrePrepare, PreparedBatch, Request, Signed,
    ViewChange, Vote, sign_checkpoint, sign_new_view, sign_prepare, sign_proposal,
    sign_view_change,
};
use bfs_testing_nodes::hashes::with_changed_entry;
use bfs_testing_nodes::members::{Members, request};
use bfs_types::{Memory, Time};
use std::alloc::Global;
use std::sync::Arc;

/// 3f + 1 replicas, and their clients.
pub fn members(f: u32) -> Members {
    Members { f, clients: 2 }
}

/// The keys of one of four.
pub fn keys_of(alloc: Global, replica: u32) -> Result<Keys, Memory> {
    members(1).keys_of(alloc, replica)
}

/// What a batch is.
#[derive(Clone, Copy)]
pub enum Batch {
    /// The null request.
    Null,
    /// No requests, at a time in seconds.
    At(u32),
    /// A request of client 1 at second 1, signed by a client.
    SignedBy(u32),
}

fn batch_at(
    alloc: Global,
    second: u32,
    requests: Vec<Signed<Request>>,
) -> Result<OrderedBatch, Memory> {
    if requests.len() > 1 {
        return Err(Memory);
    }
    Ok(OrderedBatch::new(Time::new(second, 0).ok_or(Memory)?, requests))
}

fn batch_signed_by(alloc: Global, client: u32) -> Result<OrderedBatch, Memory> {
    let mut requests = Vec::new(alloc);
    requests.push(members(1).request(alloc, client, request(alloc, 1, 5, b"a call")?)?)?;
    batch_at(alloc, 1, requests)
}

impl Batch {
    /// The batch, to be shared.
    pub fn made(self, alloc: Global) -> Result<Arc<OrderedBatch>, Memory> {
        let batch = match self {
            Batch::Null => OrderedBatch::null(),
            Batch::At(second) => batch_at(alloc, second, Vec::new(alloc))?,
            Batch::SignedBy(client) => batch_signed_by(alloc, client)?,
        };
        Ok(Arc::new(alloc, batch)?)
    }
}

/// The PRE-PREPARE of a sender for a number of a view, signed by that sender.
pub fn proposal(
    alloc: Global,
    sender: u32,
    view: u64,
    number: u64,
    batch: Batch,
) -> Result<Signed<PrePrepare>, Memory> {
    let batch = batch.made(alloc)?;
    let proposal = PrePrepare::new(sender, view % (1 << 63), number % (1 << 63), batch);
    sign_proposal(alloc, &keys_of(alloc, sender)?, proposal)
}

// the PREPARE of a sender that matches what is voted
fn prepare(alloc: Global, sender: u32, proposed: &Vote) -> Result<Signed<Vote>, Memory> {
    let vote = Vote::new(
        sender,
        proposed.view(),
        proposed.number(),
        *proposed.digest(),
    );
    sign_prepare(alloc, &keys_of(alloc, sender)?, vote)
}

/// A certificate: its view and number, who sends its PRE-PREPARE, and whose PREPAREs there are; and its batch.
#[derive(Clone, Copy)]
pub struct Prepared(pub u64, pub u64, pub u32, pub &'static [u32], pub Batch);

impl Prepared {
    fn certificate(self, alloc: Global) -> Result<PreparedBatch, Memory> {
        let Prepared(view, number, primary, backups, batch) = self;
        let proposal = proposal(alloc, primary, view, number, batch)?;
        let mut prepares = Vec::new(alloc);
        for backup in backups {
            prepares.push(prepare(alloc, *backup, proposal.message.vote())?)?;
        }
        if prepares.len() > 31 {
            return Err(Memory);
        }
        Ok(PreparedBatch::new(proposal, prepares))
    }
}

/// A CHECKPOINT: its sender and number. All have one digest.
#[derive(Clone, Copy)]
pub struct Told(pub u32, pub u64);

impl Told {
    /// The CHECKPOINT, signed by its sender.
    pub fn checkpoint(self, alloc: Global) -> Result<Signed<Checkpoint>, Memory> {
        let Told(sender, number) = self;
        let checkpoint = Checkpoint::new(sender, number % (1 << 63), [1; 32]);
        sign_checkpoint(alloc, &keys_of(alloc, sender)?, checkpoint)
    }
}

/// A VIEW-CHANGE.
#[derive(Clone, Copy)]
pub struct Asked<'a> {
    pub sender: u32,
    pub view: u64,
    pub stable: u64,
    pub told: &'a [Told],
    pub held: &'a [Prepared],
}

fn checkpoints(alloc: Global, told: &[Told]) -> Result<Vec<Signed<Checkpoint>>, Memory> {
    let mut all = Vec::new(alloc);
    for one in told {
        all.push(one.checkpoint(alloc)?)?;
    }
    Ok(all)
}

fn certificates(alloc: Global, held: &[Prepared]) -> Result<Vec<PreparedBatch>, Memory> {
    let mut all = Vec::new(alloc);
    for one in held {
        all.push(one.certificate(alloc)?)?;
    }
    Ok(all)
}

impl<'a> Asked<'a> {
    /// The VIEW-CHANGE, signed by its sender.
    pub fn change(self, alloc: Global) -> Result<Signed<ViewChange>, Memory> {
        self.signed_by(alloc, self.sender)
    }

    // signed by a replica
    fn signed_by(self, alloc: Global, signer: u32) -> Result<Signed<ViewChange>, Memory> {
        let checkpoints = checkpoints(alloc, self.told)?;
        let certificates = certificates(alloc, self.held)?;
        if checkpoints.len() > 31 || certificates.len() > 32 {
            return Err(Memory);
        }
        let (view, stable) = (self.view % (1 << 63), self.stable % (1 << 63));
        let change = ViewChange::new(self.sender, view, stable, checkpoints, certificates);
        sign_view_change(alloc, &keys_of(alloc, signer)?, change)
    }

    /// The VIEW-CHANGE as a message, signed by a replica.
    pub fn message_by(self, alloc: Global, signer: u32) -> Result<Signed<Message>, Memory> {
        let Signed { message, auth } = self.signed_by(alloc, signer)?;
        Ok(Signed {
            message: Message::ViewChange(message),
            auth,
        })
    }

    /// The VIEW-CHANGE as a message, signed by its sender, with a changed entry for a receiver.
    pub fn spoiled_for(self, alloc: Global, receiver: usize) -> Result<Signed<Message>, Memory> {
        let Signed { message, auth } = self.message_by(alloc, self.sender)?;
        let auth = with_changed_entry(alloc, &auth, receiver)?;
        Ok(Signed { message, auth })
    }
}

/// VIEW-CHANGEs, each signed by its sender.
pub fn changes(alloc: Global, asked: &[Asked<'_>]) -> Result<Vec<Signed<ViewChange>>, Memory> {
    let mut all = Vec::new(alloc);
    for one in asked {
        all.push(one.change(alloc)?)?;
    }
    Ok(all)
}

/// A NEW-VIEW for view 1: its sender, its VIEW-CHANGEs, and the numbers and batches of its PRE-PREPAREs.
#[derive(Clone, Copy)]
pub struct Begun(
    pub u32,
    pub &'static [Asked<'static>],
    pub &'static [(u64, Batch)],
);

fn proposals(
    alloc: Global,
    sender: u32,
    proposed: &[(u64, Batch)],
) -> Result<Vec<Signed<PrePrepare>>, Memory> {
    let mut all = Vec::new(alloc);
    for (number, batch) in proposed {
        all.push(proposal(alloc, sender, 1, *number, *batch)?)?;
    }
    Ok(all)
}

impl Begun {
    /// The NEW-VIEW, signed by its sender.
    pub fn signed(self, alloc: Global) -> Result<Signed<NewView>, Memory> {
        let Begun(sender, asked, proposed) = self;
        let changes = changes(alloc, asked)?;
        let proposals = proposals(alloc, sender, proposed)?;
        if changes.len() > 31 || proposals.len() > 32 {
            return Err(Memory);
        }
        let new = NewView::new(sender, 1, changes, proposals);
        sign_new_view(alloc, &keys_of(alloc, sender)?, new)
    }

    /// The NEW-VIEW as a message.
    pub fn message(self, alloc: Global) -> Result<Signed<Message>, Memory> {
        let Signed { message, auth } = self.signed(alloc)?;
        Ok(Signed {
            message: Message::NewView(message),
            auth,
        })
    }
}
