// A checkpoint that was executed is settled by a certificate of another replica.
ghost use Rattle.std.specs.Prelude.{◌≡◌, ◌≢◌, None, Some, IfErr, OnOk, OnErr};
ghost use Rattle.bfs_checkpoints.specs.Keeping.{settled};
ghost use Rattle.bfs_log.specs.Certificates.{MakesStable};
ghost use Rattle.bfs_node.specs.Settling.{may_settle, settling, settling_refusal};
ghost use Rattle.bfs_node.specs.declared.error.NodeError.TheVariants as error;

use crate::error::NodeError;
use crate::node::Node;
use bfs_log::StableCheckpoint;
use bfs_order::certificates_make_checkpoints_stable;
use bfs_types::TryClone;

impl Node {
    /// Raises the low mark to a checkpoint that another replica shows to be stable and that was executed here, as where its CHECKPOINTs come one
    /// after another: `stable` of the other one gives it. What stands up to it is dropped from the log, the CHECKPOINTs stand there, and where a
    /// snapshot of it is kept that is stable then. So a replica goes on that misses CHECKPOINTs, or has passed the number without making one.
    /// It is refused, in this order: `NoCertificate` where the checkpoint is not shown to be stable, and where its number is not above the low mark or is
    /// above the one last executed; `Memory`. Nothing changes then.
    pub fn settle(&mut self, checkpoint: &StableCheckpoint) -> Result<(), NodeError>
        ensures taken { OnOk result (settling_refusal self.old checkpoint.now ≡ None) }
        ensures now { OnOk result (self.new ≡ settling self.old checkpoint.now) }
        ensures refused { IfErr result (λ e. e ≢ error.Memory → settling_refusal self.old checkpoint.now ≡ Some e) }
        ensures memory { IfErr result (λ e. e ≡ error.Memory → settling_refusal self.old checkpoint.now ≡ None) }
        ensures err { OnErr result (self.new ≡ self.old) }
    {
        certificates_make_checkpoints_stable();
        if !self.may_settle(checkpoint) {
            return Err(NodeError::NoCertificate);
        }
        let copy = checkpoint.try_clone(self.alloc)?;
        if !self.install(checkpoint) {
            return Err(NodeError::Memory);
        }
        self.settle_snapshots(copy);
        Ok(())
    }

    fn settle_snapshots(&mut self, checkpoint: StableCheckpoint)
        requires { MakesStable self.old.order.f checkpoint }
        ensures { self.new ≡ record self.old { snapshots = settled checkpoint self.old.snapshots } }
    {
        self.snapshots.settle(checkpoint);
    }

    // Whether it may settle a checkpoint.
    fn may_settle(&self, checkpoint: &StableCheckpoint) -> bool
        ensures { result ≡ may_settle self.now checkpoint.now }
    {
        let number = checkpoint.number();
        checkpoint.is_shown(&self.keys, self.order.f())
            && (self.order.low() < number && number <= self.order.last_executed())
    }
}
