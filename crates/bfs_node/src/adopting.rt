// A replica that is behind takes over the stable snapshot of another one.
ghost use Rattle.std.specs.Prelude.{◌≡◌, ◌≢◌, true, false, length, IfErr, OnOk, OnErr};
ghost use Rattle.bfs_log.specs.Certificates.{is_shown};
ghost use Rattle.bfs_node.specs.Adopting.{Adopts, IsAdoptionRefusal, holding, may_adopt};
ghost use Rattle.bfs_node.specs.declared.error.NodeError as refusal;
ghost use Rattle.bfs_node.specs.declared.error.NodeError.TheVariants as error;
ghost use Rattle.bfs_order.specs.Replica.Installing.{installed};

use crate::error::NodeError;
use crate::node::Node;
use bfs_checkpoints::{Adopted, a_text_spells_one_node, adopt, live_nodes_are_read_again};
use bfs_log::StableCheckpoint;
use bfs_order::{OrderError, certificates_make_checkpoints_stable};
use bfs_types::{Memory, TryClone};
use std::thread::Threads;

impl Node {
    /// Takes over the file system and the last replies that the text of another replica's stable snapshot spells, by the checkpoint
    /// that comes with it: `stable` gives both. The file system is live then, and the number last executed is the checkpoint's. Requests
    /// stay pending. It is refused, in this order: `NoCertificate` where the checkpoint is not shown to be stable, and where its number is not
    /// above the one last executed, unless it is that one and the file system has failed; `MalformedText`; `WrongVersion`; `NotWellFormed`;
    /// `DigestDiffers`; `Memory`. Nothing changes then.
    pub fn adopt(
        &mut self,
        rt: &(impl Threads + Sync),
        text: &[u8],
        checkpoint: &StableCheckpoint,
    ) -> Result<(), NodeError>
        ensures taken { OnOk result ((e : refusal.NodeError) → IsAdoptionRefusal self.old text.now checkpoint.now e → ⊥) }
        ensures now { OnOk result (Adopts self.old text.now checkpoint.now self.new) }
        ensures last { OnOk result (self.new.order.last ≡ checkpoint.now.number) }
        ensures refused { IfErr result (λ e. e ≢ error.Memory → IsAdoptionRefusal self.old text.now checkpoint.now e) }
        ensures memory { IfErr result (λ e. e ≡ error.Memory → may_adopt self.old checkpoint.now ≡ true) }
        ensures err { OnErr result (self.new ≡ self.old) }
    {
        a_text_spells_one_node();
        live_nodes_are_read_again();
        if !self.may_adopt(checkpoint) {
            return Err(NodeError::NoCertificate);
        }
        let adopted = adopt(
            rt,
            self.alloc,
            text,
            self.table.clients(),
            checkpoint.digest(),
        )?;
        Ok(self.hold(checkpoint, adopted)?)
    }

    // Whether it may adopt by a checkpoint.
    fn may_adopt(&self, checkpoint: &StableCheckpoint) -> bool
        ensures { result ≡ may_adopt self.now checkpoint.now }
    {
        let (last, number) = (self.order.last_executed(), checkpoint.number());
        checkpoint.is_shown(&self.keys, self.order.f())
            && (last < number || (number == last && !self.files.is_live()))
    }

    // What may want memory comes before anything changes.
    fn hold(&mut self, checkpoint: &StableCheckpoint, adopted: Adopted) -> Result<(), Memory>
        requires may { may_adopt self.old checkpoint.now ≡ true }
        requires clients { length adopted.table ≡ length self.old.table }
        ensures now { OnOk result (self.new ≡ holding self.old checkpoint.now adopted.files adopted.table adopted.snapshot) }
        ensures err { OnErr result (self.new ≡ self.old) }
    {
        certificates_make_checkpoints_stable();
        let copy = checkpoint.try_clone(self.alloc)?;
        self.snapshots.push(checkpoint.number(), adopted.snapshot)?;
        if !self.install(checkpoint) {
            self.snapshots.pop();
            return Err(Memory);
        }
        self.snapshots.settle(copy);
        self.files = adopted.files;
        self.table = adopted.table;
        Ok(())
    }

    /// Installs a certificate. `false` if memory ran out, and nothing has changed.
    pub(crate) fn install(&mut self, checkpoint: &StableCheckpoint) -> bool
        requires { is_shown self.old.keys self.old.order.f checkpoint.now ≡ true }
        ensures now { result ≡ true → self.new ≡ record self.old { order = (installed self.old.order checkpoint.now).now } }
        ensures stays { result ≡ false → self.new ≡ self.old }
    {
        match self.order.install(&self.keys, checkpoint) {
            Ok(()) => true,
            Err(OrderError::Memory) => false,
            // neither mark is below that number, where a failed file system is to be replaced
            Err(_) => true,
        }
    }
}
