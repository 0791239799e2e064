// Replicas that are behind adopt the stable snapshot of one that is ahead.
ghost use Rattle.std.specs.Prelude.{◌≡◌, ◌<◌, length, IsSome, IfOk, OnErr};
ghost use Rattle.std.specs.Option.{option_map};
ghost use Rattle.bfs_cluster.specs.CatchingUp.{HasOffer, Offer as Offered, ahead_of, offer_to};
ghost use Rattle.bfs_cluster.specs.Inside.Trying.{AllCatchUpIf, CatchesUpIf, TakesIf};

use crate::cluster::Cluster;
use bfs_checkpoints::StableSnapshot;
use bfs_log::StableCheckpoint;
use bfs_types::{Memory, TryClone};
use std::sync::Wait;
use std::thread::Threads;

/// A copy of a stable snapshot's text, and of what makes it stable.
#[derive(Drop)]
struct Offer {
    text: Vec<u8>,
    checkpoint: StableCheckpoint,
}

impl Cluster {
    /// Each replica that is behind adopts, the lowest first, until none can; `false` where none could. It is asked for once no message is
    /// left and nothing is ready.
    pub(crate) fn catch_up<R: Threads + Wait + Sync>(&mut self, rt: &R) -> Result<bool, Memory>
        ensures caught { IfOk result (λ any. AllCatchUpIf any self.old self.new) }
        ensures memory { OnErr result (HasOffer self.old) }
    {
        let mut any = false;
        for _ in rt.forever() {
            if !self.adopt_lowest(rt)? {
                return Ok(any);
            }
            any = true;
        }
        unreachable!()
    }

    fn adopt_lowest<R: Threads + Sync>(&mut self, rt: &R) -> Result<bool, Memory>
        ensures caught { IfOk result (λ caught. CatchesUpIf caught self.old self.new) }
        ensures memory { OnErr result (HasOffer self.old) }
    {
        for number in 0..self.replicas.len() {
            if self.adopt_at(rt, number)? {
                return Ok(true);
            }
        }
        Ok(false)
    }

    fn adopt_at<R: Threads + Sync>(&mut self, rt: &R, number: usize) -> Result<bool, Memory>
        requires { number < length self.old.replicas }
        ensures took { IfOk result (λ took. TakesIf took self.old number self.new) }
        ensures memory { OnErr result (IsSome (offer_to self.old number)) }
    {
        match self.offer_to(number)? {
            None => Ok(false),
            Some(offer) => {
                self.replicas[number].adopt(rt, offer.text.as_slice(), &offer.checkpoint)
            }
        }
    }

    fn offer_to(&self, number: usize) -> Result<Option<Offer>, Memory>
        requires { number < length self.now.replicas }
        ensures offer { IfOk result (λ offer. option_map {U = Offered} (λ copy. (copy.text.items, copy.checkpoint)) offer ≡ offer_to self.now number) }
        ensures memory { OnErr result (IsSome (offer_to self.now number)) }
    {
        let replica = &self.replicas[number];
        if !replica.heard {
            return Ok(None);
        }
        match self.ahead_of(replica.node.last_executed()) {
            None => Ok(None),
            Some(stable) => Ok(Some(Offer {
                text: stable.snapshot.text(self.alloc)?,
                checkpoint: stable.checkpoint.try_clone(self.alloc)?,
            })),
        }
    }

    fn ahead_of(&self, last: u64) -> Option<StableSnapshot<'_>>
        ensures { option_map {U = Offered} (λ stable. (stable.snapshot.now.text, stable.checkpoint.now)) result ≡ ahead_of last self.now.replicas }
    {
        for replica in &self.replicas {
            if let Some(offer) = replica.offer(last) {
                return Some(offer);
            }
        }
        None
    }
}
