ghost use Rattle.std.specs.Prelude.{◌≡◌, ◌≤◌};
ghost use Rattle.std.specs.Arc.{arc_value};
ghost use Rattle.sha2.specs.Sha256.{sha256};
ghost use Rattle.bfs_model.specs.Server.Limits.{most_number};
ghost use Rattle.bfs_messages.specs.Batches.{batch_text};
ghost use Rattle.bfs_messages.specs.Changes.{proposal_text};
ghost use Rattle.bfs_messages.specs.Limits.{FitsPrePrepare, FitsSigned};

use crate::batches::{HashedBatch, OrderedBatch, put_batch};
use crate::parts::Part;
use crate::signed::Signed;
use crate::tags::PRE_PREPARE_TAG;
use crate::votes::Vote;
use bfs_types::{Memory, TryClone};
use bfs_xdr::Sink;
use std::alloc::Global;
use std::marker::Model;
use std::sync::Arc;

/// A primary's proposal of a batch for a number in a view (OSDI 1999 section 4.2). Its digest is the batch's. It may share the batch with
/// others.
#[derive(Drop)]
pub struct PrePrepare {
    vote: Vote,
    batch: Arc<OrderedBatch>,
}

impl Model for PrePrepare {
    ghost use Rattle.std.specs.Prelude.{◌≡◌};
    ghost use Rattle.std.specs.Arc.{arc_value};
    ghost use Rattle.sha2.specs.Sha256.{sha256};
    ghost use Rattle.bfs_messages.specs.Batches.{batch_text};
    ghost use Rattle.bfs_messages.specs.Messages as model;

    ghost Value = { model.PrePrepare };

    ghost view = { λ proposal. record { vote = proposal.vote; batch = arc_value proposal.batch } };

    ghost invariant = { λ proposal. proposal.vote.digest ≡ sha256 (batch_text (arc_value proposal.batch)) };
}

impl PrePrepare {
    /// Of a primary, by its number. View and number are at most `MOST_NUMBER`.
    pub fn new(sender: u32, view: u64, number: u64, batch: Arc<OrderedBatch>) -> PrePrepare
        requires view { view ≤ most_number }
        requires number { number ≤ most_number }
        ensures { result ≡ record { vote = record { sender = sender; view = view; number = number; digest = sha256 (batch_text (arc_value batch)) }; batch = arc_value batch } }
    {
        PrePrepare::of_hashed(sender, view, number, HashedBatch::new(batch))
    }

    /// Of a primary, by its number, with a batch that is hashed already. View and number are at most `MOST_NUMBER`.
    pub fn of_hashed(sender: u32, view: u64, number: u64, hashed: HashedBatch) -> PrePrepare
        requires view { view ≤ most_number }
        requires number { number ≤ most_number }
        ensures { result ≡ record { vote = record { sender = sender; view = view; number = number; digest = sha256 (batch_text hashed) }; batch = hashed } }
    {
        let (batch, digest) = hashed.into_parts();
        PrePrepare {
            vote: Vote::new(sender, view, number, digest),
            batch,
        }
    }

    /// What a primary says of a batch by its digest.
    pub fn from_vote(vote: Vote, batch: Arc<OrderedBatch>) -> PrePrepare
        requires { vote.digest ≡ sha256 (batch_text (arc_value batch)) }
        ensures { result ≡ record { vote = vote; batch = arc_value batch } }
    {
        PrePrepare { vote, batch }
    }

    /// What it says of the number.
    pub fn vote(&self) -> &Vote
        ensures value { result.now ≡ self.now.vote }
        ensures digest { self.now.vote.digest ≡ sha256 (batch_text self.now.batch) }
    {
        &self.vote
    }

    /// The batch.
    pub fn batch(&self) -> &Arc<OrderedBatch>
        ensures { arc_value result.now ≡ self.now.batch }
    {
        &self.batch
    }
}

impl TryClone for PrePrepare {
    fn try_clone(&self, _alloc: Global) -> Result<PrePrepare, Memory> {
        Ok(PrePrepare {
            vote: self.vote,
            batch: Arc::try_clone(&self.batch)?,
        })
    }
}

impl Part for Signed<PrePrepare> {
    ghost text = { proposal_text };

    ghost fits = { FitsSigned FitsPrePrepare };

    fn put<S: Sink>(&self, out: &mut S) -> Result<(), S::Error> {
        out.u32(PRE_PREPARE_TAG)?;
        self.message.vote.put(out)?;
        self.auth.put(out)?;
        put_batch(&self.message.batch, out)
    }
}
