ghost use Rattle.std.specs.Prelude.{◌≡◌, ◌≤◌, IfOk};
ghost use Rattle.bfs_model.specs.Server.Limits.{most_number};
ghost use Rattle.bfs_messages.specs.OrderMessages.{order_digest, order_number, order_sender, order_tag, order_view};
ghost use Rattle.bfs_messages.specs.Signing.{as_message};
ghost use Rattle.bfs_messages.specs.declared.message.Message.TheVariants as kind;
ghost use Rattle.bfs_messages.specs.declared.order_messages.OrderMessage.TheVariants as order;

use crate::message::Message;
use crate::proposals::PrePrepare;
use crate::signed::Signed;
use crate::tags::{CHECKPOINT_TAG, COMMIT_TAG, PRE_PREPARE_TAG, PREPARE_TAG};
use crate::votes::{Checkpoint, Vote};
use bfs_types::{Memory, TryClone};
use std::alloc::Global;

/// A message of the order: what replicas say of a number (OSDI 1999 sections 4.2 and 4.3).
#[derive(Drop)]
pub enum OrderMessage {
    /// Of a primary, which proposes a batch for a number.
    PrePrepare(PrePrepare),
    /// Of a backup, which accepts the proposal.
    Prepare(Vote),
    /// Of a replica, for which the batch is prepared.
    Commit(Vote),
    /// Of a replica, which has executed the batches up to a number.
    Checkpoint(Checkpoint),
}

impl OrderMessage {
    /// The number that its text begins with.
    pub fn tag(&self) -> u32
        ensures { result ≡ order_tag self.now }
    {
        match self {
            OrderMessage::PrePrepare(_) => PRE_PREPARE_TAG,
            OrderMessage::Prepare(_) => PREPARE_TAG,
            OrderMessage::Commit(_) => COMMIT_TAG,
            OrderMessage::Checkpoint(_) => CHECKPOINT_TAG,
        }
    }

    /// The replica that says it.
    pub fn sender(&self) -> u32
        ensures { result ≡ order_sender self.now }
    {
        match self {
            OrderMessage::PrePrepare(proposal) => proposal.vote().sender(),
            OrderMessage::Prepare(vote) | OrderMessage::Commit(vote) => vote.sender(),
            OrderMessage::Checkpoint(checkpoint) => checkpoint.sender(),
        }
    }

    /// The view. A CHECKPOINT is of none: 0.
    pub fn view(&self) -> u64
        ensures value { result ≡ order_view self.now }
        ensures within { result ≤ most_number }
    {
        match self {
            OrderMessage::PrePrepare(proposal) => proposal.vote().view(),
            OrderMessage::Prepare(vote) | OrderMessage::Commit(vote) => vote.view(),
            OrderMessage::Checkpoint(_) => 0,
        }
    }

    /// The number in the order.
    pub fn number(&self) -> u64
        ensures value { result ≡ order_number self.now }
        ensures within { result ≤ most_number }
    {
        match self {
            OrderMessage::PrePrepare(proposal) => proposal.vote().number(),
            OrderMessage::Prepare(vote) | OrderMessage::Commit(vote) => vote.number(),
            OrderMessage::Checkpoint(checkpoint) => checkpoint.number(),
        }
    }

    /// The digest of the batch, or of the node behind a checkpoint.
    pub fn digest(&self) -> &[u8; 32]
        ensures { result.now ≡ order_digest self.now }
    {
        match self {
            OrderMessage::PrePrepare(proposal) => proposal.vote().digest(),
            OrderMessage::Prepare(vote) | OrderMessage::Commit(vote) => vote.digest(),
            OrderMessage::Checkpoint(checkpoint) => checkpoint.digest(),
        }
    }
}

impl TryClone for OrderMessage {
    fn try_clone(&self, alloc: Global) -> Result<OrderMessage, Memory> {
        Ok(match self {
            OrderMessage::PrePrepare(proposal) => {
                OrderMessage::PrePrepare(proposal.try_clone(alloc)?)
            }
            OrderMessage::Prepare(vote) => OrderMessage::Prepare(*vote),
            OrderMessage::Commit(vote) => OrderMessage::Commit(*vote),
            OrderMessage::Checkpoint(checkpoint) => OrderMessage::Checkpoint(*checkpoint),
        })
    }
}

impl Signed<OrderMessage> {
    /// As one of the messages that replicas send.
    pub fn into_message(self) -> Signed<Message>
        ensures { result ≡ as_message kind.Order self }
    {
        Signed {
            message: Message::Order(self.message),
            auth: self.auth,
        }
    }
}

impl Signed<PrePrepare> {
    /// As a message of the order.
    pub fn into_order(self) -> Signed<OrderMessage>
        ensures { result ≡ as_message order.PrePrepare self }
    {
        Signed {
            message: OrderMessage::PrePrepare(self.message),
            auth: self.auth,
        }
    }

    /// As a message of the order, which shares the batch. `Memory` if memory runs out.
    pub fn to_order(&self, alloc: Global) -> Result<Signed<OrderMessage>, Memory>
        ensures { IfOk result (λ m. m ≡ as_message order.PrePrepare self.now) }
    {
        Ok(Signed {
            message: OrderMessage::PrePrepare(self.message.try_clone(alloc)?),
            auth: self.auth.try_clone(alloc)?,
        })
    }
}

impl Signed<Checkpoint> {
    /// As a message of the order. `Memory` if memory runs out.
    pub fn to_order(&self, alloc: Global) -> Result<Signed<OrderMessage>, Memory>
        ensures { IfOk result (λ m. m ≡ as_message order.Checkpoint self.now) }
    {
        Ok(Signed {
            message: OrderMessage::Checkpoint(self.message),
            auth: self.auth.try_clone(alloc)?,
        })
    }
}
