// Which messages are signed: their authenticators pass, as the receiver sees it. Nothing here takes memory.
ghost use Rattle.std.specs.Prelude.{◌≡◌};
ghost use Rattle.bfs_messages.specs.Signing.{as_message, is_signed, order_is_signed, request_is_signed};
ghost use Rattle.bfs_messages.specs.declared.message.Message.TheVariants as kind;
ghost use Rattle.bfs_messages.specs.declared.order_messages.OrderMessage.TheVariants as order;

use crate::bodies::Body;
use crate::changes::{NewView, ViewChange};
use crate::message::Message;
use crate::order_messages::OrderMessage;
use crate::proposals::PrePrepare;
use crate::requests::Request;
use crate::signed::Signed;
use crate::votes::{Checkpoint, Vote};
use bfs_auth::{Checker, Keys, Principal, check_text};

/// Whether a message is its sender's, as the holder of the keys sees it. The REQUESTs that it carries are another thing.
pub fn is_signed(keys: &Keys, signed: &Signed<Message>) -> bool
    ensures { result ≡ is_signed keys.now signed.now }
{
    is_signed_by(&mut Checker::new(), keys, signed)
}

/// What `is_signed` answers, by a checker of messages that come one behind another.
pub fn is_signed_by(checker: &mut Checker, keys: &Keys, signed: &Signed<Message>) -> bool
    ensures { result ≡ is_signed keys.now signed.now }
{
    let sender = signed.message.sender();
    checker.check_text(keys, sender, &signed.message, &signed.auth)
}

/// Whether a message of the order is its sender's. The REQUESTs that it carries are another thing.
pub fn is_order_signed(keys: &Keys, signed: &Signed<OrderMessage>) -> bool
    ensures { result ≡ order_is_signed keys.now signed.now }
{
    let sender = Principal::Replica(signed.message.sender());
    check_text(keys, sender, &signed.message, &signed.auth)
}

/// Whether a REQUEST is its client's.
pub fn is_request_signed(keys: &Keys, signed: &Signed<Request>) -> bool
    ensures { result ≡ request_is_signed keys.now signed.now }
{
    is_request_signed_by(&mut Checker::new(), keys, signed)
}

/// What `is_request_signed` answers, by a checker of REQUESTs that come one behind another.
pub fn is_request_signed_by(checker: &mut Checker, keys: &Keys, signed: &Signed<Request>) -> bool
    ensures { result ≡ request_is_signed keys.now signed.now }
{
    let client = Principal::Client(signed.message.client());
    checker.check_text(keys, client, &Body::Request(&signed.message), &signed.auth)
}

/// Whether a PREPARE is its sender's.
pub fn is_prepare_signed(keys: &Keys, signed: &Signed<Vote>) -> bool
    ensures { result ≡ order_is_signed keys.now (as_message order.Prepare signed.now) }
{
    let sender = Principal::Replica(signed.message.sender());
    check_text(keys, sender, &Body::Prepare(&signed.message), &signed.auth)
}

/// Whether a PRE-PREPARE is its sender's. The REQUESTs of its batch are another thing.
pub fn is_proposal_signed(keys: &Keys, signed: &Signed<PrePrepare>) -> bool
    ensures { result ≡ order_is_signed keys.now (as_message order.PrePrepare signed.now) }
{
    let vote = signed.message.vote();
    check_text(
        keys,
        Principal::Replica(vote.sender()),
        &Body::PrePrepare(vote),
        &signed.auth,
    )
}

/// Whether a CHECKPOINT is its sender's.
pub fn is_checkpoint_signed(keys: &Keys, signed: &Signed<Checkpoint>) -> bool
    ensures { result ≡ order_is_signed keys.now (as_message order.Checkpoint signed.now) }
{
    let sender = Principal::Replica(signed.message.sender());
    check_text(
        keys,
        sender,
        &Body::Checkpoint(&signed.message),
        &signed.auth,
    )
}

/// Whether a VIEW-CHANGE is its sender's. The messages within it are another thing.
pub fn is_view_change_signed(keys: &Keys, signed: &Signed<ViewChange>) -> bool
    ensures { result ≡ is_signed keys.now (as_message kind.ViewChange signed.now) }
{
    let sender = Principal::Replica(signed.message.sender());
    check_text(
        keys,
        sender,
        &Body::ViewChange(&signed.message),
        &signed.auth,
    )
}

/// Whether a NEW-VIEW is its sender's. The messages within it are another thing.
pub fn is_new_view_signed(keys: &Keys, signed: &Signed<NewView>) -> bool
    ensures { result ≡ is_signed keys.now (as_message kind.NewView signed.now) }
{
    let sender = Principal::Replica(signed.message.sender());
    check_text(keys, sender, &Body::NewView(&signed.message), &signed.auth)
}
