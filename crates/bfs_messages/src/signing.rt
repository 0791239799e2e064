// Messages, signed for all replicas: by keyed hashes, or by a signature where the replica has a key and the message is of a place (`bfs_auth::Place`). What is signed is hashed
// piece by piece, and lies nowhere as a whole.
ghost use Rattle.std.specs.Prelude.{◌≡◌, ◌++◌, IfOk};
ghost use Rattle.bfs_auth.specs.Authenticators.{signature};
ghost use Rattle.bfs_model.specs.Bytes.Items.{word};
ghost use Rattle.bfs_messages.specs.Batches.{checkpoint_text, vote_text};
ghost use Rattle.bfs_messages.specs.Changes.{new_view_text, view_change_text};
ghost use Rattle.bfs_messages.specs.Signing.{order_signed_by, signed_by};
ghost use Rattle.bfs_messages.specs.Spelling.{body_text, order_body_text};
ghost use Rattle.bfs_votes.specs.Tags.{checkpoint_tag, new_view_tag, pre_prepare_tag, prepare_tag, view_change_tag};

use crate::bodies::{Body, of_checkpoint, of_new_view, of_view_change, of_vote};
use crate::changes::{NewView, ViewChange};
use crate::message::Message;
use crate::order_messages::OrderMessage;
use crate::proposals::PrePrepare;
use crate::signed::Signed;
use crate::votes::{Checkpoint, Vote};
use crate::writing::{put_body, put_order_body};
use bfs_auth::{Keys, Place, Text, sign_text};
use bfs_types::Memory;
use sha2::Sha256;
use std::alloc::Global;

impl Text for Message {
    ghost text = { body_text };

    fn hash(&self, hasher: &mut Sha256) {
        match put_body(self, hasher) {
            Ok(()) => (),
            Err(never) => match never {},
        }
    }

    #[tactic(auto, using(crate::proofs::Places::request_place, crate::proofs::Places::reply_place, crate::proofs::Places::view_change_place, crate::proofs::Places::new_view_place))]
    fn place(&self) -> Option<Place> {
        match self {
            Message::Request(_) => None,
            Message::Order(message) => message.place(),
            Message::ViewChange(change) => Some(of_view_change(change)),
            Message::NewView(new) => Some(of_new_view(new)),
            Message::Reply(_) => None,
        }
    }
}

impl Text for OrderMessage {
    ghost text = { order_body_text };

    fn hash(&self, hasher: &mut Sha256) {
        match put_order_body(self, hasher) {
            Ok(()) => (),
            Err(never) => match never {},
        }
    }

    #[tactic(auto, using(crate::proofs::Places::commit_place, crate::proofs::Places::pre_prepare_place, crate::proofs::Places::prepare_place, crate::proofs::Places::checkpoint_place))]
    fn place(&self) -> Option<Place> {
        match self {
            OrderMessage::PrePrepare(proposal) => Some(of_vote(proposal.vote())),
            OrderMessage::Prepare(vote) => Some(of_vote(vote)),
            OrderMessage::Commit(_) => None,
            OrderMessage::Checkpoint(checkpoint) => Some(of_checkpoint(checkpoint)),
        }
    }
}

/// Signs a message. `Memory` if memory runs out.
pub fn sign(alloc: Global, keys: &Keys, message: Message) -> Result<Signed<Message>, Memory>
    ensures { IfOk result (λ signed. signed ≡ signed_by keys.now message) }
{
    let auth = sign_text(alloc, keys, &message)?;
    Ok(Signed { message, auth })
}

/// Signs a message of the order. `Memory` if memory runs out.
pub fn sign_order(
    alloc: Global,
    keys: &Keys,
    message: OrderMessage,
) -> Result<Signed<OrderMessage>, Memory>
    ensures { IfOk result (λ signed. signed ≡ order_signed_by keys.now message) }
{
    let auth = sign_text(alloc, keys, &message)?;
    Ok(Signed { message, auth })
}

/// Signs a PREPARE. `Memory` if memory runs out.
pub fn sign_prepare(alloc: Global, keys: &Keys, vote: Vote) -> Result<Signed<Vote>, Memory>
    ensures { IfOk result (λ signed. signed ≡ record { message = vote; auth = signature keys.now (word prepare_tag ++ vote_text vote) }) }
{
    let auth = sign_text(alloc, keys, &Body::Prepare(&vote))?;
    Ok(Signed {
        message: vote,
        auth,
    })
}

/// Signs a PRE-PREPARE. `Memory` if memory runs out.
pub fn sign_proposal(
    alloc: Global,
    keys: &Keys,
    proposal: PrePrepare,
) -> Result<Signed<PrePrepare>, Memory>
    ensures { IfOk result (λ signed. signed ≡ record { message = proposal; auth = signature keys.now (word pre_prepare_tag ++ vote_text proposal.vote) }) }
{
    let auth = sign_text(alloc, keys, &Body::PrePrepare(proposal.vote()))?;
    Ok(Signed {
        message: proposal,
        auth,
    })
}

/// Signs a CHECKPOINT. `Memory` if memory runs out.
pub fn sign_checkpoint(
    alloc: Global,
    keys: &Keys,
    checkpoint: Checkpoint,
) -> Result<Signed<Checkpoint>, Memory>
    ensures { IfOk result (λ signed. signed ≡ record { message = checkpoint; auth = signature keys.now (word checkpoint_tag ++ checkpoint_text checkpoint) }) }
{
    let auth = sign_text(alloc, keys, &Body::Checkpoint(&checkpoint))?;
    Ok(Signed {
        message: checkpoint,
        auth,
    })
}

/// Signs a VIEW-CHANGE. `Memory` if memory runs out.
pub fn sign_view_change(
    alloc: Global,
    keys: &Keys,
    change: ViewChange,
) -> Result<Signed<ViewChange>, Memory>
    ensures { IfOk result (λ signed. signed ≡ record { message = change; auth = signature keys.now (word view_change_tag ++ view_change_text change) }) }
{
    let auth = sign_text(alloc, keys, &Body::ViewChange(&change))?;
    Ok(Signed {
        message: change,
        auth,
    })
}

/// Signs a NEW-VIEW. `Memory` if memory runs out.
pub fn sign_new_view(alloc: Global, keys: &Keys, new: NewView) -> Result<Signed<NewView>, Memory>
    ensures { IfOk result (λ signed. signed ≡ record { message = new; auth = signature keys.now (word new_view_tag ++ new_view_text new) }) }
{
    let auth = sign_text(alloc, keys, &Body::NewView(&new))?;
    Ok(Signed { message: new, auth })
}
