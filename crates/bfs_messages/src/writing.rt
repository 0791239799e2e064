// The texts of messages.
ghost use Rattle.std.specs.Prelude.{◌≡◌, ◌++◌, IfOk, OnOk};
ghost use Rattle.bfs_model.specs.Bytes.Items.{word};
ghost use Rattle.bfs_messages.specs.Batches.{batch_text};
ghost use Rattle.bfs_xdr.specs.Sinks.{Takes};
ghost use Rattle.bfs_messages.specs.Fits.{FieldsFit, FitsMessage, OrderFieldsFit};
ghost use Rattle.bfs_messages.specs.Limits.{FitsSigned};
ghost use Rattle.bfs_messages.specs.Spelling.{attached_text, body_text, order_body_text, signed_text};

use crate::batches::{OrderedBatch, put_batch};
use crate::message::Message;
use crate::order_messages::OrderMessage;
use crate::parts::Part;
use crate::signed::Signed;
use crate::tags::{
    CHECKPOINT_TAG, COMMIT_TAG, NEW_VIEW_TAG, PRE_PREPARE_TAG, PREPARE_TAG, REPLY_TAG, REQUEST_TAG,
    VIEW_CHANGE_TAG,
};
use bfs_types::Memory;
use bfs_xdr::Sink;
use std::alloc::Global;

/// Writes a message and its authenticator behind the bytes that are there. `Memory` if memory runs out.
pub fn put_message(bytes: &mut Vec<u8>, signed: &Signed<Message>) -> Result<(), Memory>
    ensures text { OnOk result (bytes.new.items ≡ bytes.old.items ++ signed_text signed.now) }
    ensures fits { OnOk result (FitsSigned FitsMessage signed.now) }
{
    put_signed(signed, bytes)
}

/// The bytes of a batch. `Memory` if memory runs out.
pub fn batch_bytes(alloc: Global, batch: &OrderedBatch) -> Result<Vec<u8>, Memory>
    ensures { IfOk result (λ bytes. bytes.items ≡ batch_text batch.now) }
{
    let mut bytes = Vec::new(alloc);
    put_batch(batch, &mut bytes)?;
    Ok(bytes)
}

#[tactic(auto, using(std::proofs::lemmas::List::append_assoc), unfolding(crate::specs::Spelling::signed_text))]
fn put_signed<S: Sink>(signed: &Signed<Message>, out: &mut S) -> Result<(), S::Error>
    ensures text { OnOk result (Takes S.holds out.old out.new (signed_text signed.now)) }
    ensures fits { OnOk result (FitsSigned FitsMessage signed.now) }
{
    put_body(&signed.message, out)?;
    signed.auth.put(out)?;
    put_attached(&signed.message, out)
}

/// What of a message is signed.
pub(crate) fn put_body<S: Sink>(message: &Message, out: &mut S) -> Result<(), S::Error>
    ensures text { OnOk result (Takes S.holds out.old out.new (body_text message.now)) }
    ensures fits { OnOk result (FieldsFit message.now) }
{
    match message {
        Message::Request(request) => put_tagged(REQUEST_TAG, request, out),
        Message::Order(message) => put_order_body(message, out),
        Message::ViewChange(change) => put_tagged(VIEW_CHANGE_TAG, change, out),
        Message::NewView(new) => put_tagged(NEW_VIEW_TAG, new, out),
        Message::Reply(reply) => put_tagged(REPLY_TAG, reply, out),
    }
}

pub(crate) fn put_order_body<S: Sink>(message: &OrderMessage, out: &mut S) -> Result<(), S::Error>
    ensures text { OnOk result (Takes S.holds out.old out.new (order_body_text message.now)) }
    ensures fits { OnOk result (OrderFieldsFit message.now) }
{
    match message {
        OrderMessage::PrePrepare(proposal) => put_tagged(PRE_PREPARE_TAG, proposal.vote(), out),
        OrderMessage::Prepare(vote) => put_tagged(PREPARE_TAG, vote, out),
        OrderMessage::Commit(vote) => put_tagged(COMMIT_TAG, vote, out),
        OrderMessage::Checkpoint(checkpoint) => put_tagged(CHECKPOINT_TAG, checkpoint, out),
    }
}

/// What stands behind a tag.
pub(crate) fn put_tagged<T: Part, S: Sink>(
    tag: u32,
    fields: &T,
    out: &mut S,
) -> Result<(), S::Error>
    ensures text { OnOk result (Takes S.holds out.old out.new (word tag ++ T.text fields.now)) }
    ensures fits { OnOk result (T.fits fields.now) }
{
    out.u32(tag)?;
    fields.put(out)
}

// what follows the authenticator
fn put_attached<S: Sink>(message: &Message, out: &mut S) -> Result<(), S::Error>
    ensures text { OnOk result (Takes S.holds out.old out.new (attached_text message.now)) }
    ensures fits { OnOk result (FieldsFit message.now → FitsMessage message.now) }
{
    match message {
        Message::Order(OrderMessage::PrePrepare(proposal)) => {
            let _vote = proposal.vote();
            put_batch(proposal.batch(), out)
        }
        _ => Ok(()),
    }
}
