// When a checkpoint is stable, and its own checkpoints.
ghost use Rattle.std.specs.Prelude.{◌≡◌, ◌≢◌, false, None, Some, IfSome, IfOk, IfErr, OnOk, OnErr};
ghost use Rattle.bfs_order.specs.Inside.Asking.{asked_settled};
ghost use Rattle.bfs_order.specs.Replica.Checkpoints.{OneMoreIsTooFew, checkpoint, checkpoint_refusal, checkpointed, is_nearly_stable};
ghost use Rattle.bfs_order.specs.declared.error.OrderError.TheVariants as error;

use crate::asking::Asked;
use crate::error::OrderError;
use crate::order::Order;
use bfs_auth::Keys;
use bfs_log::Slot;
use bfs_messages::{CHECKPOINT_TAG, Checkpoint, OrderMessage, Signed, sign_order};
use bfs_types::{MOST_NUMBER, TryClone};

impl Order {
    /// Raises the low mark, and drops what stands up to it, where enough replicas tell that a checkpoint is stable.
    pub(crate) fn settle(&mut self, asked: &Asked)
        ensures { self.new ≡ asked_settled self.old asked.now }
    {
        let Asked::Stable(checkpoint) = asked else {
            return;
        };
        let number = checkpoint.number();
        if self
            .log
            .is_checkpoint_stable(self.f, number, checkpoint.digest())
        {
            self.low = number;
            self.log.drop_up_to(number, checkpoint.digest());
        }
    }

    /// Whether one more CHECKPOINT of that number and digest may make it stable: 2f replicas have told it. It takes no memory.
    pub fn is_nearly_stable(&self, number: u64, digest: &[u8; 32]) -> bool
        ensures value { result ≡ is_nearly_stable self.now number digest.now }
        ensures only { result ≡ false → OneMoreIsTooFew self.now number digest.now }
    {
        2 * self.f as usize <= self.log.checkpoint_votes(self.f, number, digest)
    }

    /// Whether `on_checkpoint` would refuse the number, whatever the digest, so that it is known before a digest is computed: `OutsideMarks`
    /// unless the number is above the low mark, not above the high one, and below 2^63; then `AlreadyHave` where the replica has told that
    /// checkpoint. It takes no memory.
    pub fn checkpoint_refusal(&self, number: u64) -> Option<OrderError>
        ensures value { result ≡ checkpoint_refusal self.now number }
        ensures one { IfSome result (λ e. e ≢ error.Memory) }
    {
        if !(self.is_between(number) && number <= MOST_NUMBER) {
            return Some(OrderError::OutsideMarks);
        }
        let slot = Slot {
            tag: CHECKPOINT_TAG,
            sender: self.me,
            view: 0,
            number,
        };
        if self.log.has(slot) {
            return Some(OrderError::AlreadyHave);
        }
        None
    }

    /// Tells that it has executed what leads to a checkpoint with that digest, and gives the CHECKPOINT, which is to be sent to all
    /// other replicas. It is refused, in this order: `OutsideMarks`; `AlreadyHave`, whatever digest it told; `Memory`. Nothing changes
    /// then.
    pub fn on_checkpoint(
        &mut self,
        keys: &Keys,
        number: u64,
        digest: [u8; 32],
    ) -> Result<Signed<OrderMessage>, OrderError>
        ensures taken { OnOk result (checkpoint_refusal self.old number ≡ None) }
        ensures now { OnOk result (self.new ≡ (checkpointed keys.now self.old number digest).now) }
        ensures sent { IfOk result (λ sent. sent ≡ checkpoint keys.now self.old number digest) }
        ensures refused { IfErr result (λ e. e ≢ error.Memory → checkpoint_refusal self.old number ≡ Some e) }
        ensures memory { IfErr result (λ e. e ≡ error.Memory → checkpoint_refusal self.old number ≡ None) }
        ensures err { OnErr result (self.new ≡ self.old) }
    {
        if let Some(error) = self.checkpoint_refusal(number) {
            return Err(error);
        }
        let own = Checkpoint::new(self.me, number, digest);
        let asked = Asked::Stable(own);
        let sent = sign_order(self.alloc, keys, OrderMessage::Checkpoint(own))?;
        self.log.push(sent.try_clone(self.alloc)?)?;
        self.settle(&asked);
        Ok(sent)
    }
}
