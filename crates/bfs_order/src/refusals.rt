// Why a message is not taken.
ghost use Rattle.std.specs.Prelude.{◌≡◌, ◌≢◌, ◌<◌, ◌==◌, ◌&&◌, not, true, false, IfNone, IfSome};
ghost use Rattle.bfs_log.specs.Headers.{header, message_header};
ghost use Rattle.bfs_votes.specs.Votes.{primary};
ghost use Rattle.bfs_messages.specs.Signing.{carried_are_signed};
ghost use Rattle.bfs_pending.specs.Passed.{HavePassed};
ghost use Rattle.bfs_order.specs.Replica.Refusals.{conflicts, is_authentic, is_between, is_inside, is_of_view, is_there, place_refusal, refusal};
ghost use Rattle.bfs_order.specs.declared.error.OrderError.TheVariants as error;
ghost use Rattle.bfs_votes.specs.Tags.{pre_prepare_tag};
ghost use Rattle.bfs_model.specs.Server.Limits.{most_replicas};

use crate::error::OrderError;
use crate::order::Order;
use bfs_auth::Keys;
use bfs_log::{Slot, primary_of};
use bfs_messages::{
    CHECKPOINT_TAG, OrderMessage, PRE_PREPARE_TAG, PREPARE_TAG, Signed, is_order_signed,
};
use bfs_pending::PendingRequests;
use bfs_types::{CHECKPOINT_INTERVAL, LOG_SIZE};
use std::thread::Threads;

impl Order {
    pub(crate) fn is_between(&self, number: u64) -> bool
        ensures { result ≡ is_between self.now number }
    {
        self.low < number && number <= self.low + LOG_SIZE as u64
    }

    fn is_inside(&self, message: &OrderMessage) -> bool
        ensures { result ≡ is_inside self.now (message_header message.now) }
    {
        self.is_between(message.number())
            && if message.tag() == CHECKPOINT_TAG {
                message.number() % CHECKPOINT_INTERVAL == 0
            } else {
                self.min_s < message.number()
            }
    }

    fn is_of_view(&self, message: &OrderMessage) -> bool
        ensures { result ≡ is_of_view self.now (message_header message.now) }
    {
        message.tag() == CHECKPOINT_TAG || (message.view() == self.view && self.asked <= self.view)
    }

    pub(crate) fn is_there(&self, message: &OrderMessage) -> bool
        ensures { result ≡ is_there self.now (message_header message.now) }
    {
        self.log.has(Slot::of(message))
    }

    // The primary of a view.
    #[tactic(auto, using(crate::proofs::Senders::primary_is_few))]
    pub(crate) fn leader(&self, view: u64) -> u32
        ensures value { result ≡ primary self.now.f view }
        ensures within { result < most_replicas }
    {
        primary_of(self.f, view)
    }

    // A PRE-PREPARE is the primary's.
    fn is_led(&self, message: &OrderMessage) -> bool
        ensures value { result ≡ not (((message_header message.now).tag == pre_prepare_tag) && not ((message_header message.now).sender == primary self.now.f (message_header message.now).view)) }
        ensures few { result ≡ true → (message_header message.now).tag ≡ pre_prepare_tag → (message_header message.now).sender < most_replicas }
    {
        if message.tag() != PRE_PREPARE_TAG {
            return true;
        }
        message.sender() == self.leader(message.view())
    }

    fn conflicts(&self, message: &OrderMessage) -> bool
        ensures { result ≡ conflicts self.now (message_header message.now) }
    {
        (message.tag() == PREPARE_TAG && message.sender() == self.leader(message.view()))
            || (self.is_there(message) && !self.log.is_told(Slot::of(message), message.digest()))
    }

    pub(crate) fn place_refusal(&self, message: &OrderMessage) -> Option<OrderError>
        ensures value { result ≡ place_refusal self.now (message_header message.now) }
        ensures free { IfNone result (is_there self.now (message_header message.now) ≡ false) }
        ensures leader { IfNone result ((message_header message.now).tag ≡ pre_prepare_tag → (message_header message.now).sender < most_replicas) }
        ensures one { IfSome result (λ e. e ≢ error.Memory) }
    {
        if !self.is_of_view(message) {
            return Some(OrderError::WrongView);
        }
        if !self.is_inside(message) {
            return Some(OrderError::OutsideMarks);
        }
        if !self.is_led(message) {
            return Some(OrderError::NotPrimary);
        }
        if self.conflicts(message) {
            return Some(OrderError::Conflicting);
        }
        if self.is_there(message) {
            return Some(OrderError::AlreadyHave);
        }
        None
    }

    fn is_authentic(
        &self,
        rt: &(impl Threads + Sync),
        keys: &Keys,
        passed: &PendingRequests,
        signed: &Signed<OrderMessage>,
    ) -> bool
        requires { HavePassed keys.now passed.now }
        ensures value { result ≡ is_authentic keys.now self.now signed.now }
        ensures sender { result ≡ true → (header signed.now).sender < most_replicas }
    {
        if 3 * self.f + 1 <= signed.message.sender() {
            return false;
        }
        is_order_signed(keys, signed) && are_carried_signed(rt, keys, passed, &signed.message)
    }

    /// Why a message is not taken, if it isn't: what `on_message` refuses it with, in the same order. Its authenticator is looked at before
    /// the log is. It takes no memory.
    pub fn refusal(
        &self,
        rt: &(impl Threads + Sync),
        keys: &Keys,
        passed: &PendingRequests,
        signed: &Signed<OrderMessage>,
    ) -> Option<OrderError>
        requires { HavePassed keys.now passed.now }
        ensures value { result ≡ refusal keys.now self.now signed.now }
        ensures free { IfNone result (is_there self.now (header signed.now) ≡ false) }
        ensures sender { IfNone result ((header signed.now).sender < most_replicas) }
        ensures one { IfSome result (λ e. e ≢ error.Memory) }
    {
        if !self.is_authentic(rt, keys, passed, signed) {
            return Some(OrderError::BadAuthenticator);
        }
        self.place_refusal(&signed.message)
    }
}

// Whether the REQUESTs that a message carries are their clients'. Only a PRE-PREPARE carries any.
fn are_carried_signed(
    rt: &(impl Threads + Sync),
    keys: &Keys,
    passed: &PendingRequests,
    message: &OrderMessage,
) -> bool
    requires { HavePassed keys.now passed.now }
    ensures { result ≡ carried_are_signed keys.now message.now }
{
    match message {
        OrderMessage::PrePrepare(proposal) => passed.are_signed(rt, keys, proposal.batch()),
        _ => true,
    }
}
