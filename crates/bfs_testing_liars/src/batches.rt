//! The batches that were proposed.
use bfs_messages::{OrderedBatch, PrePrepare};
use bfs_types::Memory;
use std::alloc::Global;
use std::sync::Arc;

#[derive(Drop)]
struct Proposed {
    digest: [u8; 32],
    batch: Arc<OrderedBatch>,
}

/// Each batch that was proposed once, by its digest.
#[derive(Drop)]
pub struct Batches {
    proposed: Vec<Proposed>,
}

impl Batches {
    pub fn new(alloc: Global) -> Batches {
        Batches {
            proposed: Vec::new(alloc),
        }
    }

    /// The batch of a PRE-PREPARE is one of them.
    pub fn put(&mut self, proposal: &PrePrepare) -> Result<(), Memory> {
        let digest = *proposal.vote().digest();
        if self.of(&digest).is_none() {
            let batch = Arc::try_clone(proposal.batch())?;
            self.proposed.push(Proposed { digest, batch })?;
        }
        Ok(())
    }

    /// The batch with that digest.
    pub fn of(&self, digest: &[u8; 32]) -> Option<&OrderedBatch> {
        for proposed in &self.proposed {
            if proposed.digest == *digest {
                return Some(&proposed.batch);
            }
        }
        None
    }
}
