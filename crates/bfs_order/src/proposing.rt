// The primary proposes a batch.
ghost use Rattle.std.specs.Prelude.{◌≡◌, ◌≢◌, ◌<◌, false, None, Some, IfSome, IfOk, IfErr, OnOk, OnErr};
ghost use Rattle.bfs_log.specs.Headers.{header};
ghost use Rattle.bfs_order.specs.Replica.Proposing.{greatest_taken, leads, lone_commits, own_proposal, proposal, proposal_refusal, proposed};
ghost use Rattle.bfs_order.specs.Replica.Refusals.{is_there};
ghost use Rattle.bfs_order.specs.Replica.States.{with_message, with_more};
ghost use Rattle.bfs_order.specs.declared.error.OrderError.TheVariants as error;
ghost use Rattle.bfs_model.specs.Server.Limits.{most_replicas};

use crate::error::OrderError;
use crate::order::Order;
use bfs_auth::Keys;
use bfs_messages::{HashedBatch, OrderMessage, PrePrepare, Signed, Vote, sign_order};
use bfs_types::{LOG_SIZE, MOST_NUMBER, Memory, TryClone};

impl Order {
    fn greatest_taken(&self) -> u64
        ensures { result ≡ greatest_taken self.now }
    {
        let proposed = self.log.greatest_proposed(self.view);
        proposed.max(self.handed.max(self.low.max(self.min_s)))
    }

    /// Whether it is the primary of the view entered, and has asked for no later one.
    pub fn leads(&self) -> bool
        ensures { result ≡ leads self.now }
    {
        self.me == self.leader(self.view) && self.asked <= self.view
    }

    /// Whether `propose` would refuse, whatever the batch, so that it is known before a batch is made: `NotPrimary` unless the replica is
    /// the primary of the view and no view change is under way; then `OutsideMarks` where the next number is above the high mark, or not
    /// below 2^63. It takes no memory.
    pub fn proposal_refusal(&self) -> Option<OrderError>
        ensures value { result ≡ proposal_refusal self.now }
        ensures one { IfSome result (λ e. e ≢ error.Memory) }
    {
        if !self.leads() {
            return Some(OrderError::NotPrimary);
        }
        let greatest = self.greatest_taken();
        if greatest < self.low + LOG_SIZE as u64 && greatest < MOST_NUMBER {
            None
        } else {
            Some(OrderError::OutsideMarks)
        }
    }

    fn own_proposal(&self, batch: HashedBatch) -> PrePrepare
        requires { proposal_refusal self.now ≡ None }
        ensures { result ≡ own_proposal self.now batch }
    {
        PrePrepare::of_hashed(self.me, self.view, self.greatest_taken() + 1, batch)
    }

    /// Proposes a batch for the next number of the view, as its primary, and gives the PRE-PREPARE, which is to be sent to all other
    /// replicas. It is refused, in this order: `NotPrimary`, also while a view change is under way; `OutsideMarks`; `Memory`. Nothing
    /// changes then.
    pub fn propose(
        &mut self,
        keys: &Keys,
        batch: HashedBatch,
    ) -> Result<Signed<OrderMessage>, OrderError>
        ensures taken { OnOk result (proposal_refusal self.old ≡ None) }
        ensures now { OnOk result (self.new ≡ (proposed keys.now self.old batch).now) }
        ensures sent { IfOk result (λ sent. sent ≡ proposal keys.now self.old batch) }
        ensures refused { IfErr result (λ e. e ≢ error.Memory → proposal_refusal self.old ≡ Some e) }
        ensures memory { IfErr result (λ e. e ≡ error.Memory → proposal_refusal self.old ≡ None) }
        ensures err { OnErr result (self.new ≡ self.old) }
    {
        if let Some(error) = self.proposal_refusal() {
            return Err(error);
        }
        let own = self.own_proposal(batch);
        let vote = *own.vote();
        let sent = sign_order(self.alloc, keys, OrderMessage::PrePrepare(own))?;
        self.add_proposal(keys, sent.try_clone(self.alloc)?, &vote)?;
        Ok(sent)
    }

    // Puts its own PRE-PREPARE in the log, and a COMMIT behind it where there is no other replica.
    fn add_proposal(
        &mut self,
        keys: &Keys,
        signed: Signed<OrderMessage>,
        vote: &Vote,
    ) -> Result<(), Memory>
        requires free { is_there self.old (header signed) ≡ false }
        requires sender { (header signed).sender < most_replicas }
        ensures now { OnOk result (self.new ≡ with_more (with_message self.old signed) (lone_commits keys.now (with_message self.old signed) vote.now.view vote.now.number vote.now.digest)) }
        ensures err { OnErr result (self.new ≡ self.old) }
    {
        let before = self.log.messages().len();
        self.log.push(signed)?;
        if self.f != 0 {
            return Ok(());
        }
        let mut sent = Vec::new(self.alloc);
        if self.add_commit(keys, vote, &mut sent).is_err() {
            self.log.truncate(before);
            return Err(Memory);
        }
        Ok(())
    }
}
