ghost use Rattle.std.specs.Prelude.{◌≡◌, ◌≤◌, IfOk};
ghost use Rattle.std.specs.Arc.{arc_value};
ghost use Rattle.bfs_model.specs.Server.Limits.{most_number};

use bfs_messages::{OrderedBatch, PrePrepare};
use bfs_types::Memory;
use std::marker::Model;
use std::sync::Arc;

/// A batch, and the number as which it is executed. The batch may be shared with others.
#[derive(Drop)]
pub struct Committed {
    number: u64,
    batch: Arc<OrderedBatch>,
}

impl Model for Committed {
    ghost use Rattle.std.specs.Prelude.{◌≤◌};
    ghost use Rattle.bfs_model.specs.Server.Limits.{most_number};
    ghost use Rattle.std.specs.Arc.{arc_value};
    ghost use Rattle.bfs_log.specs.Batches as model;

    ghost Value = { model.Committed };

    ghost view = { λ committed. record { number = committed.number; batch = arc_value committed.batch } };

    ghost invariant = { λ committed. committed.number ≤ most_number };
}

impl Committed {
    /// What a PRE-PREPARE proposes, with the same batch. `Memory` if memory runs out.
    pub(crate) fn of(proposal: &PrePrepare) -> Result<Committed, Memory>
        ensures { IfOk result (λ committed. committed ≡ record { number = proposal.now.vote.number; batch = proposal.now.batch }) }
    {
        Ok(Committed {
            number: proposal.vote().number(),
            batch: Arc::try_clone(proposal.batch())?,
        })
    }

    /// The number.
    pub fn number(&self) -> u64
        ensures value { result ≡ self.now.number }
        ensures within { result ≤ most_number }
    {
        self.number
    }

    /// The batch.
    pub fn batch(&self) -> &Arc<OrderedBatch>
        ensures { arc_value result.now ≡ self.now.batch }
    {
        &self.batch
    }
}
