// CHECKPOINTs that other replicas give, until some of them make a checkpoint stable.
use bfs_log::StableCheckpoint;
use bfs_messages::{Checkpoint, Signed};
use bfs_node::Node;
use bfs_types::{MOST_NUMBER, Memory, TryClone};
use std::alloc::Global;

// What a replica has given last.
#[derive(Drop)]
struct Given {
    from: u32,
    checkpoints: Vec<Signed<Checkpoint>>,
}

/// The CHECKPOINTs that each other replica has given last, of whatever numbers.
#[derive(Drop)]
pub(crate) struct Collecting {
    alloc: Global,
    given: Vec<Given>,
}

impl Collecting {
    /// None was given yet. It takes no memory.
    pub(crate) fn new(alloc: Global) -> Collecting {
        Collecting {
            alloc,
            given: Vec::new(alloc),
        }
    }

    /// A replica gives CHECKPOINTs of a number. What makes that number stable with the digest that the first of them tells, if these do, together with those that
    /// others have given and that the node has heard.
    pub(crate) fn collect(
        &mut self,
        node: &Node,
        from: u32,
        number: u64,
        checkpoints: Vec<Signed<Checkpoint>>,
    ) -> Result<Option<StableCheckpoint>, Memory> {
        let Some(first) = checkpoints.first() else {
            return Ok(None);
        };
        if number > MOST_NUMBER || from > node.f().saturating_mul(3) {
            return Ok(None);
        }
        let digest = *first.message.digest();
        self.take(from, checkpoints)?;
        let all = self.all_of(node, number, &digest)?;
        node.collect(number, &digest, &all)
    }

    fn take(&mut self, from: u32, checkpoints: Vec<Signed<Checkpoint>>) -> Result<(), Memory> {
        for given in self.given.iter_mut() {
            if given.from == from {
                given.checkpoints = checkpoints;
                return Ok(());
            }
        }
        Ok(self.given.push(Given { from, checkpoints })?)
    }

    // those that the node has heard, and those that were given
    fn all_of(
        &self,
        node: &Node,
        number: u64,
        digest: &[u8; 32],
    ) -> Result<Vec<Signed<Checkpoint>>, Memory> {
        let mut all = node.checkpoints_of(number, digest)?;
        for given in &self.given {
            self.put_all(&mut all, number, &given.checkpoints)?;
        }
        Ok(all)
    }

    fn put_all(
        &self,
        all: &mut Vec<Signed<Checkpoint>>,
        number: u64,
        checkpoints: &[Signed<Checkpoint>],
    ) -> Result<(), Memory> {
        for signed in checkpoints {
            if signed.message.number() == number {
                all.push(signed.try_clone(self.alloc)?)?;
            }
        }
        Ok(())
    }
}
