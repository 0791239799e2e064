// What one message says at its place.
ghost use Rattle.std.specs.Prelude.{◌≡◌, IfOk};
ghost use Rattle.std.specs.Option.{option_map};
ghost use Rattle.bfs_log.specs.Logs.{batch_in, said_in};

use crate::committed::Committed;
use bfs_messages::{OrderMessage, Signed};
use bfs_types::{Memory, TryClone};
use std::alloc::Global;
use std::marker::Model;

/// What a message says of its number: the message, who says it, the digest that it tells, and the batch of a PRE-PREPARE.
#[derive(Drop)]
pub struct Said {
    signed: Signed<OrderMessage>,
    batch: Option<Committed>,
}

impl Model for Said {
    ghost use Rattle.bfs_log.specs.Batches as model;
    ghost use Rattle.bfs_log.specs.Headers.{header};

    ghost Value = { model.Said };

    ghost view = { λ said. record { signed = said.signed; sender = (header said.signed).sender; digest = (header said.signed).digest; batch = said.batch } };
}

fn batch_of(message: &OrderMessage) -> Result<Option<Committed>, Memory>
    ensures { IfOk result (λ batch. batch ≡ batch_in message.now) }
{
    match message {
        OrderMessage::PrePrepare(proposal) => Ok(Some(Committed::of(proposal)?)),
        _ => Ok(None),
    }
}

impl Said {
    /// What a message says. It shares the batch. `Memory` if memory runs out.
    pub(crate) fn of(alloc: Global, signed: &Signed<OrderMessage>) -> Result<Said, Memory>
        ensures { IfOk result (λ said. said ≡ said_in signed.now) }
    {
        Ok(Said {
            signed: signed.try_clone(alloc)?,
            batch: batch_of(&signed.message)?,
        })
    }

    /// The message.
    pub(crate) fn signed(&self) -> &Signed<OrderMessage>
        ensures { result.now ≡ self.now.signed }
    {
        &self.signed
    }

    pub(crate) fn sender(&self) -> u32
        ensures { result ≡ self.now.sender }
    {
        self.signed.message.sender()
    }

    /// The digest that it tells.
    pub fn digest(&self) -> &[u8; 32]
        ensures { result.now ≡ self.now.digest }
    {
        self.signed.message.digest()
    }

    /// The number and the batch of a PRE-PREPARE.
    pub fn batch(&self) -> Option<&Committed>
        ensures { option_map (λ batch. batch.now) result ≡ self.now.batch }
    {
        self.batch.as_ref()
    }
}
