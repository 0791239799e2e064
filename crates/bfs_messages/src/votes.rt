ghost use Rattle.std.specs.Prelude.{◌≡◌, ◌≤◌};
ghost use Rattle.bfs_model.specs.Server.Limits.{most_number};
ghost use Rattle.bfs_messages.specs.Batches.{checkpoint_text, vote_text};
ghost use Rattle.bfs_messages.specs.Limits.{FitsCheckpoint, FitsVote};
ghost use Rattle.bfs_votes.specs.Tags.{checkpoint_tag, prepare_tag};

use crate::parts::{Kind, Part};
use crate::tags::{CHECKPOINT_TAG, PREPARE_TAG};
use bfs_types::{Memory, TryClone};
use bfs_xdr::Sink;
use std::alloc::Global;
use std::marker::Model;

/// What a replica says of a number in a view: the digest of the batch that has it (OSDI 1999 section 4.2). View and number are at most
/// `MOST_NUMBER`.
#[derive(Clone, Copy)]
pub struct Vote {
    sender: u32,
    view: u64,
    number: u64,
    digest: [u8; 32],
}

impl Model for Vote {
    ghost use Rattle.std.specs.Prelude.{◌≤◌};
    ghost use Rattle.bfs_model.specs.Server.Limits.{most_number};
    ghost use Rattle.bfs_messages.specs.Messages as model;

    ghost Value = { model.Vote };

    ghost view = { λ vote. record { sender = vote.sender; view = vote.view; number = vote.number; digest = vote.digest } };

    ghost invariant = { λ vote. (vote.view ≤ most_number) × (vote.number ≤ most_number) };

    ghost inverse = { λ vote. record { sender = vote.sender; view = vote.view; number = vote.number; digest = vote.digest } };
}

impl Vote {
    /// Of a replica, by its number.
    pub fn new(sender: u32, view: u64, number: u64, digest: [u8; 32]) -> Vote
        requires view { view ≤ most_number }
        requires number { number ≤ most_number }
        ensures { result ≡ record { sender = sender; view = view; number = number; digest = digest } }
    {
        Vote {
            sender,
            view,
            number,
            digest,
        }
    }

    /// The replica that says it.
    pub fn sender(&self) -> u32
        ensures { result ≡ self.now.sender }
    {
        self.sender
    }

    /// The view.
    pub fn view(&self) -> u64
        ensures value { result ≡ self.now.view }
        ensures within { result ≤ most_number }
    {
        self.view
    }

    /// The number in the order.
    pub fn number(&self) -> u64
        ensures value { result ≡ self.now.number }
        ensures within { result ≤ most_number }
    {
        self.number
    }

    /// The digest of the batch.
    pub fn digest(&self) -> &[u8; 32]
        ensures { result.now ≡ self.now.digest }
    {
        &self.digest
    }
}

impl Part for Vote {
    ghost text = { vote_text };

    ghost fits = { FitsVote };

    fn put<S: Sink>(&self, out: &mut S) -> Result<(), S::Error> {
        out.u32(self.sender)?;
        out.u64(self.view)?;
        out.u64(self.number)?;
        out.fixed(&self.digest)
    }
}

impl TryClone for Vote {
    fn try_clone(&self, _alloc: Global) -> Result<Vote, Memory> {
        Ok(*self)
    }
}

impl Kind for Vote {
    ghost TAG = { prepare_tag };

    const TAG: u32 = PREPARE_TAG;
}

/// What a replica says of its node behind a number: its digest (OSDI 1999 section 4.3). The number is at most `MOST_NUMBER`.
#[derive(Clone, Copy)]
pub struct Checkpoint {
    sender: u32,
    number: u64,
    digest: [u8; 32],
}

impl Model for Checkpoint {
    ghost use Rattle.std.specs.Prelude.{◌≤◌};
    ghost use Rattle.bfs_model.specs.Server.Limits.{most_number};
    ghost use Rattle.bfs_messages.specs.Messages as model;

    ghost Value = { model.Checkpoint };

    ghost view = { λ checkpoint. record { sender = checkpoint.sender; number = checkpoint.number; digest = checkpoint.digest } };

    ghost invariant = { λ checkpoint. checkpoint.number ≤ most_number };

    ghost inverse = { λ checkpoint. record { sender = checkpoint.sender; number = checkpoint.number; digest = checkpoint.digest } };
}

impl Checkpoint {
    /// Of a replica, by its number.
    pub fn new(sender: u32, number: u64, digest: [u8; 32]) -> Checkpoint
        requires { number ≤ most_number }
        ensures { result ≡ record { sender = sender; number = number; digest = digest } }
    {
        Checkpoint {
            sender,
            number,
            digest,
        }
    }

    /// The replica that says it.
    pub fn sender(&self) -> u32
        ensures { result ≡ self.now.sender }
    {
        self.sender
    }

    /// The number in the order.
    pub fn number(&self) -> u64
        ensures value { result ≡ self.now.number }
        ensures within { result ≤ most_number }
    {
        self.number
    }

    /// The digest of the node.
    pub fn digest(&self) -> &[u8; 32]
        ensures { result.now ≡ self.now.digest }
    {
        &self.digest
    }
}

impl Part for Checkpoint {
    ghost text = { checkpoint_text };

    ghost fits = { FitsCheckpoint };

    fn put<S: Sink>(&self, out: &mut S) -> Result<(), S::Error> {
        out.u32(self.sender)?;
        out.u64(self.number)?;
        out.fixed(&self.digest)
    }
}

impl TryClone for Checkpoint {
    fn try_clone(&self, _alloc: Global) -> Result<Checkpoint, Memory> {
        Ok(*self)
    }
}

impl Kind for Checkpoint {
    ghost TAG = { checkpoint_tag };

    const TAG: u32 = CHECKPOINT_TAG;
}
