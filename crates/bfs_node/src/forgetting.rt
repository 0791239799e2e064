// Requests that wait for nothing any more are forgotten.
ghost use Rattle.std.specs.Prelude.{◌≡◌, not, filter, true, IfOk, OnOk, OnErr};
ghost use Rattle.bfs_auth.specs.Keys.{Keys as Secrets};
ghost use Rattle.bfs_log.specs.Headers.{message_header};
ghost use Rattle.bfs_node.specs.Forgetting.{is_new, is_open, open_in, open_requests, without_answered, without_proposed};
ghost use Rattle.bfs_pending.specs.Passed.{HavePassed};
ghost use Rattle.bfs_pending.specs.Requests.{without_named};

use crate::node::Node;
use bfs_messages::{OrderMessage, Request, Signed};
use bfs_order::Order;
use bfs_pending::PendingRequests;
use bfs_replies::{Class, ReplyTable};
use bfs_types::{Memory, TryClone};
use std::alloc::Global;

impl Node {
    /// Requests that wait, and that are not new by the last replies to their clients, wait no longer: so it is due once a state was adopted.
    /// `Memory` if memory runs out; then all wait on.
    #[tactic(auto, using(crate::proofs::Waiting::only_new))]
    pub fn forget_answered(&mut self) -> Result<(), Memory>
        ensures ok { OnOk result (self.new ≡ without_answered self.old) }
        ensures err { OnErr result (self.new ≡ self.old) }
    {
        let answered = answered_among(self.alloc, &self.table, self.pending.as_slice())?;
        self.pending.drop_named(&answered);
        Ok(())
    }

    /// Requests that wait, and that it has itself proposed in the view that it has entered for numbers that it has not executed, wait no longer: so
    /// it is due before a primary leaves its view. Where others can't take them, as those can't whose keyed hashes are right for the primary
    /// alone, they would be in its way for ever; the clients of the others send them again. It takes no memory.
    pub fn forget_proposed(&mut self)
        ensures { self.new ≡ without_proposed self.old }
    {
        forget_open(&mut self.pending, &self.order);
    }
}

// those that are not new
fn answered_among(
    alloc: Global,
    table: &ReplyTable,
    waiting: &[Signed<Request>],
) -> Result<Vec<Signed<Request>>, Memory>
    ensures { IfOk result (λ answered. answered.items ≡ filter (λ one. not (is_new table.now one)) waiting.now) }
{
    let mut answered = Vec::new(alloc);
    for signed in waiting {
        if !is_new(table, signed) {
            answered.push(signed.try_clone(alloc)?)?;
        }
    }
    Ok(answered)
}

fn is_new(table: &ReplyTable, signed: &Signed<Request>) -> bool
    ensures { result ≡ is_new table.now signed.now }
{
    match table.classify(signed.message.client(), signed.message.timestamp()) {
        Class::New => true,
        Class::Repeat | Class::Old | Class::Unknown => false,
    }
}

#[tactic(auto, using(crate::proofs::Waiting::without_both, crate::proofs::Waiting::opened_more))]
fn forget_open(pending: &mut PendingRequests, order: &Order)
    ensures now { pending.new ≡ without_named pending.old (open_requests order.now) }
    ensures passed { (keys : Secrets) → HavePassed keys pending.old → HavePassed keys pending.new }
{
    let log = order.log();
    for signed in log {
        pending.drop_named(open_in(order, signed));
    }
}

fn open_in<'a>(order: &Order, signed: &'a Signed<OrderMessage>) -> &'a [Signed<Request>]
    ensures { result.now ≡ open_in order.now signed.now }
{
    match &signed.message {
        OrderMessage::PrePrepare(proposal) if is_open(order, &signed.message) => {
            proposal.batch().requests()
        }
        _ => &[],
    }
}

fn is_open(order: &Order, message: &OrderMessage) -> bool
    ensures { result ≡ is_open order.now (message_header message.now) }
{
    message.sender() == order.me()
        && (message.view() == order.view() && order.last_executed() < message.number())
}
