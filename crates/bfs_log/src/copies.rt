ghost use Rattle.std.specs.Prelude.{◌≡◌, ◌<◌, All, IfOk};
ghost use Rattle.bfs_model.specs.Server.Limits.{most_replicas};
ghost use Rattle.bfs_votes.specs.Votes.{SlotsDiffer};
ghost use Rattle.bfs_log.specs.Headers.{header};
ghost use Rattle.bfs_log.specs.Logs.{headers};

use crate::logs::Log;
use bfs_messages::{OrderMessage, Signed};
use bfs_types::{Memory, TryClone};
use std::alloc::Global;

impl TryClone for Log {
    fn try_clone(&self, alloc: Global) -> Result<Log, Memory> {
        self.messages_differ();
        copy_of(alloc, self.messages())
    }
}

fn copy_of(alloc: Global, messages: &[Signed<OrderMessage>]) -> Result<Log, Memory>
    requires differ { SlotsDiffer (headers messages.now) }
    requires senders { All (λ m. (header m).sender < most_replicas) messages.now }
    ensures { IfOk result (λ copy. copy ≡ messages.now) }
{
    let mut copy = Log::new(alloc);
    for signed in messages {
        copy.push(signed.try_clone(alloc)?)?;
    }
    Ok(copy)
}
