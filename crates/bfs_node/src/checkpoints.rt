// A replica tells what it is after a number.
ghost use Rattle.std.specs.Prelude.{◌≡◌, ◌≢◌, ◌∷◌, [], None, Some, IfOk, IfErr, OnOk, OnErr};
ghost use Rattle.std.specs.Option.{option_map};
ghost use Rattle.bfs_order.specs.Replica.Checkpoints as order;
ghost use Rattle.bfs_node.specs.Checkpoints.{checkpoint, checkpoint_refusal, with_checkpoint};
ghost use Rattle.bfs_node.specs.declared.error.NodeError.TheVariants as error;

use crate::error::NodeError;
use crate::node::Node;
use bfs_checkpoints::{Snapshot, take_snapshot};
use bfs_messages::{Checkpoint, Message, OrderMessage, Signed, sign_order};
use bfs_types::CHECKPOINT_INTERVAL;
use std::thread::Threads;

impl Node {
    /// Makes the checkpoint of the number last executed, and gives the CHECKPOINT; its snapshot is kept. It is refused, in this order:
    /// `OutsideMarks`, also where the number is no multiple of 16; `AlreadyHave` where it was told; `Failed` where the file system has failed;
    /// `Memory`. Nothing changes then.
    pub fn checkpoint(&mut self, rt: &(impl Threads + Sync)) -> Result<Signed<Message>, NodeError>
        ensures taken { OnOk result (checkpoint_refusal self.old ≡ None) }
        ensures now { OnOk result (option_map (λ outcome. outcome.now) (checkpoint self.old) ≡ Some self.new) }
        ensures sent { IfOk result (λ own. option_map (λ outcome. outcome.sent) (checkpoint self.old) ≡ Some (own ∷ [])) }
        ensures refused { IfErr result (λ e. e ≢ error.Memory → checkpoint_refusal self.old ≡ Some e) }
        ensures memory { IfErr result (λ e. e ≡ error.Memory → checkpoint_refusal self.old ≡ None) }
        ensures err { OnErr result (self.new ≡ self.old) }
    {
        let number = self.order.last_executed();
        if number % CHECKPOINT_INTERVAL != 0 {
            return Err(NodeError::OutsideMarks);
        }
        if let Some(error) = self.order.checkpoint_refusal(number) {
            return Err(NodeError::from(error));
        }
        let snapshot = take_snapshot(rt, self.alloc, &mut self.files, &self.table)?;
        self.tell(number, snapshot)
    }

    // The CHECKPOINTs that may make it stable are copied first, and its own is signed for that, so that nothing is refused afterwards.
    fn tell(&mut self, number: u64, snapshot: Snapshot) -> Result<Signed<Message>, NodeError>
        requires last { number ≡ self.old.order.last }
        requires taken { order.checkpoint_refusal self.old.order number ≡ None }
        ensures now { OnOk result (self.new ≡ (with_checkpoint self.old snapshot).now) }
        ensures sent { IfOk result (λ own. (with_checkpoint self.old snapshot).sent ≡ own ∷ []) }
        ensures memory { IfErr result (λ e. e ≡ error.Memory) }
        ensures err { OnErr result (self.new ≡ self.old) }
    {
        let digest = *snapshot.digest();
        let own = Checkpoint::new(self.order.me(), number, digest);
        let signed = sign_order(self.alloc, &self.keys, OrderMessage::Checkpoint(own))?;
        let stable = self.stable_if_due(&signed)?;
        self.snapshots.push(number, snapshot)?;
        match self.order.on_checkpoint(&self.keys, number, digest) {
            Ok(sent) => {
                self.settle_at(number, stable);
                Ok(sent.into_message())
            }
            Err(error) => {
                self.snapshots.pop();
                Err(NodeError::from(error))
            }
        }
    }
}
