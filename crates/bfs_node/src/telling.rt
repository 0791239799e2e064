// What a replica has told is offered to others, who collect what makes it stable.
ghost use Rattle.std.specs.Prelude.{◌≡◌, ◌≤◌, true, IfOk, IfSome};
ghost use Rattle.std.specs.Option.{option_map};
ghost use Rattle.bfs_model.specs.Server.Limits.{most_number};
ghost use Rattle.bfs_checkpoints.specs.Collecting.{collected};
ghost use Rattle.bfs_log.specs.Certificates.{is_shown};
ghost use Rattle.bfs_node.specs.Telling.{checkpoints_of, told};

use crate::node::Node;
use bfs_checkpoints::{Snapshot, checkpoints_told, collect};
use bfs_log::StableCheckpoint;
use bfs_messages::{Checkpoint, Signed};
use bfs_types::Memory;

/// What a replica was after a number, as it has told: it may not be stable yet.
#[derive(Drop)]
pub struct ToldSnapshot<'a> {
    /// The snapshot, whose text is that of the last replies and of the file system.
    pub snapshot: &'a Snapshot,
    /// Copies of the CHECKPOINTs of the number that tell its digest, of however many replicas.
    pub checkpoints: Vec<Signed<Checkpoint>>,
}

impl Node {
    /// The snapshot of a checkpoint that it has made, or has adopted, whether that is stable or not, with the CHECKPOINTs in its log that tell
    /// its digest, its own among them. A snapshot is kept until a later one is stable. So its number is a multiple of 16, and may lie above
    /// `stable_number()`. None where it keeps none of that number. Only the copies take memory: `Memory` if that runs out.
    pub fn told(&self, number: u64) -> Result<Option<ToldSnapshot<'_>>, Memory>
        ensures { IfOk result (λ found. option_map (λ one. (one.snapshot.now, one.checkpoints.items)) found ≡ told self.now number) }
    {
        let Some(snapshot) = self.snapshots.snapshot_at(number) else {
            return Ok(None);
        };
        let checkpoints = self.checkpoints_of(number, snapshot.digest())?;
        Ok(Some(ToldSnapshot {
            snapshot,
            checkpoints,
        }))
    }

    /// Copies of the CHECKPOINTs in its log that tell that digest of a number: one that is behind may collect what it has heard of a snapshot
    /// with what others give. `Memory` if memory runs out.
    pub fn checkpoints_of(
        &self,
        number: u64,
        digest: &[u8; 32],
    ) -> Result<Vec<Signed<Checkpoint>>, Memory>
        ensures { IfOk result (λ found. found.items ≡ checkpoints_of self.now number digest.now) }
    {
        checkpoints_told(self.alloc, self.order.log(), number, digest)
    }

    /// Of CHECKPOINTs that several replicas gave, in any order, wrong ones and others among them: the first of each replica that is right by
    /// this one's keys and tells that number and digest, where these are of 2f + 1 replicas or more. What it gives is shown to be stable: `adopt` takes
    /// it with the text of a snapshot of that digest, and `settle` where the number was executed. None where fewer are right. `Memory` if memory
    /// runs out.
    pub fn collect(
        &self,
        number: u64,
        digest: &[u8; 32],
        told: &[Signed<Checkpoint>],
    ) -> Result<Option<StableCheckpoint>, Memory>
        requires { number ≤ most_number }
        ensures value { IfOk result (λ found. found ≡ collected self.now.keys self.now.order.f number digest.now told.now) }
        ensures shown { IfOk result (λ found. IfSome found (λ c. is_shown self.now.keys self.now.order.f c ≡ true)) }
    {
        collect(self.alloc, &self.keys, self.order.f(), number, digest, told)
    }
}
