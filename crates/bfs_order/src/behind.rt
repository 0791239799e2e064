// Whether others have gone on.
ghost use Rattle.std.specs.Prelude.{◌≡◌, ◌&&◌, nat_lt};
ghost use Rattle.bfs_votes.specs.Tags.{checkpoint_tag};
ghost use Rattle.bfs_votes.specs.Votes.{has_slot};
ghost use Rattle.bfs_order.specs.Replica.Behind.{is_ahead, is_behind};
ghost use Rattle.bfs_order.specs.Replica.States.{known};

use crate::order::Order;
use bfs_log::Slot;
use bfs_messages::CHECKPOINT_TAG;
use bfs_types::CHECKPOINT_INTERVAL;

impl Order {
    /// Whether f + 1 other replicas have told checkpoints above the number last executed here: then a correct one is ahead, and its snapshot
    /// may be adopted. It takes no memory.
    pub fn is_behind(&self) -> bool
        ensures { result ≡ is_behind self.now }
    {
        let mut ahead = 0;
        for replica in 0..3 * self.f + 1 {
            if replica != self.me && self.is_ahead(replica) {
                ahead += 1;
            }
        }
        self.f + 1 <= ahead
    }

    fn is_ahead(&self, sender: u32) -> bool
        ensures { result ≡ is_ahead self.now sender }
    {
        self.is_told_ahead(sender, self.low)
            || (self.is_told_ahead(sender, self.low + CHECKPOINT_INTERVAL)
                || self.is_told_ahead(sender, self.low + 2 * CHECKPOINT_INTERVAL))
    }

    fn is_told_ahead(&self, sender: u32, number: u64) -> bool
        ensures { result ≡ (nat_lt self.now.last number && has_slot (known self.now) checkpoint_tag sender 0 number) }
    {
        let slot = Slot {
            tag: CHECKPOINT_TAG,
            sender,
            view: 0,
            number,
        };
        self.last < number && self.log.has(slot)
    }
}
