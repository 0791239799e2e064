//! A replica that is behind, and the stable snapshot of another one, as tables of steps.
use crate::parts::{Told, stable_by};
use crate::replica::{is_behind, members, stable_numbers};
use crate::texts::{Snapshot, Text, of_sixteen_batches};
use bfs_node::{Node, NodeError};
use bfs_testing::asserts::compared;
use bfs_testing_nodes::calls::{Said, Standing, digest_of, standing_of, take};
use bfs_testing_nodes::snapshots::{adopt, stable_of};
use bfs_types::Memory;
use std::alloc::Global;
use std::sync::Wait;
use std::test::Fail;
use std::thread::Threads;

/// What happens to the replica that is behind and what comes of it, or what is to hold then.
#[derive(Clone, Copy)]
pub enum Step {
    /// A CHECKPOINT comes that tells the snapshot's digest.
    Tell(Told, Said),
    /// It adopts a text by CHECKPOINTs that tell the snapshot's digest.
    Adopt(Text, &'static [Told], Said),
    /// It stands so.
    Stands(Standing),
    /// Whether it is behind.
    IsBehind(bool),
    /// The number of its last stable checkpoint, and that of its stable snapshot.
    StableAt(u64, Option<u64>),
    /// It has the snapshot's digest and, by three CHECKPOINTs, its text.
    HasAdopted,
    /// It has the digest that it began with, and no stable snapshot.
    IsAsBefore,
}

/// Replica 3 of four, which has done nothing, and the snapshot.
#[derive(Drop)]
struct Behind {
    alloc: Global,
    node: Node,
    before: Result<[u8; 32], NodeError>,
    snapshot: Snapshot,
}

impl Behind {
    fn new<R: Threads + Wait + Sync>(rt: &R, alloc: Global) -> Result<Behind, Memory> {
        let snapshot = of_sixteen_batches(rt, alloc)?;
        let node = members(1).replica(alloc, 3)?;
        let before = digest_of(rt, &node);
        Ok(Behind {
            alloc,
            node,
            before,
            snapshot,
        })
    }

    fn tell<R: Threads + Sync>(&mut self, rt: &R, told: Told) -> Result<Said, Memory> {
        let signed = told.message(self.alloc, self.snapshot.digest)?;
        Ok(Said::of_all(&take(rt, &mut self.node, signed)))
    }

    fn adopt<R: Threads + Sync>(
        &mut self,
        rt: &R,
        text: Text,
        told: &[Told],
    ) -> Result<Said, Memory> {
        let checkpoint = stable_by(self.alloc, told, self.snapshot.digest)?;
        let text = self.snapshot.bytes(self.alloc, text)?;
        Ok(Said::of_none(adopt(rt, &mut self.node, &text, &checkpoint)))
    }

    fn has_adopted<R: Threads + Sync>(&self, rt: &R) -> bool {
        digest_of(rt, &self.node) == Ok(self.snapshot.digest)
            && stable_of(&self.node) == Some((3, self.snapshot.digest))
    }

    fn is_as_before<R: Threads + Sync>(&self, rt: &R) -> bool {
        self.before.is_ok()
            && digest_of(rt, &self.node) == self.before
            && stable_of(&self.node).is_none()
    }

    // whether it comes as it is told
    fn happens<R: Threads + Sync>(&mut self, rt: &R, step: Step) -> Result<bool, Memory> {
        match step {
            Step::Tell(told, wanted) => Ok(self.tell(rt, told)? == wanted),
            Step::Adopt(text, told, wanted) => Ok(self.adopt(rt, text, told)? == wanted),
            Step::Stands(wanted) => Ok(standing_of(&self.node) == wanted),
            Step::IsBehind(wanted) => Ok(is_behind(&self.node) == wanted),
            Step::StableAt(low, snapshot) => Ok(stable_numbers(&self.node) == (low, snapshot)),
            Step::HasAdopted => Ok(self.has_adopted(rt)),
            Step::IsAsBefore => Ok(self.is_as_before(rt)),
        }
    }
}

// the place of the first step that does not come as it is told
fn first_wrong<R: Threads + Sync>(
    rt: &R,
    behind: &mut Behind,
    steps: &[Step],
) -> Result<Option<usize>, Memory> {
    for (place, step) in steps.iter().enumerate() {
        if !behind.happens(rt, *step)? {
            return Ok(Some(place));
        }
    }
    Ok(None)
}

/// It all comes as it is told, at the replica that is behind.
pub fn plays<R: Threads + Wait + Sync>(rt: &R, alloc: Global, steps: &[Step]) -> Result<(), Fail> {
    let mut behind = Behind::new(rt, alloc)?;
    compared(first_wrong(rt, &mut behind, steps)?, None)?;
    Ok(())
}
