ghost use Rattle.std.specs.Prelude.{◌≡◌, fold, OnErr, OnOk};
ghost use Rattle.std.specs.List.{list_all, list_any};
ghost use Rattle.bfs_cluster.specs.Blocks.{HasBlockWork, HasRequests, requested, with_block};
ghost use Rattle.bfs_cluster.specs.Inside.Requests.{is_request};
ghost use Rattle.bfs_cluster.specs.World.{emptied};

use crate::acts::Act;
use crate::cluster::Cluster;
use bfs_messages::{Message, Signed};
use bfs_types::{Memory, Time, TryClone};
use std::thread::Threads;

impl Cluster {
    /// The requests of a block, signed by their clients, come to each replica that is heard; then each that is a primary proposes at that
    /// time, also where there is no request: the time moves. `Memory` if memory runs out; the cluster is empty then.
    pub fn send_block<R: Threads + Sync>(
        &mut self,
        rt: &R,
        time: Time,
        requests: &[Signed<Message>],
    ) -> Result<(), Memory>
        ensures ok { OnOk result (self.new ≡ with_block self.old time requests.now) }
        ensures memory { OnErr result (HasBlockWork self.old time requests.now) }
        ensures err { OnErr result (self.new ≡ emptied) }
    {
        match self.pass_block(rt, time, requests) {
            Ok(()) => Ok(()),
            Err(Memory) => Err(self.empty()),
        }
    }

    fn pass_block<R: Threads + Sync>(
        &mut self,
        rt: &R,
        time: Time,
        requests: &[Signed<Message>],
    ) -> Result<(), Memory>
        ensures ok { OnOk result (self.new ≡ with_block self.old time requests.now) }
        ensures memory { OnErr result (HasBlockWork self.old time requests.now) }
    {
        self.request_all(rt, time, requests)?;
        self.act(&Act::Propose(time))
    }

    // They come nowhere where none is heard.
    fn request_all<R: Threads + Sync>(
        &mut self,
        rt: &R,
        time: Time,
        messages: &[Signed<Message>],
    ) -> Result<(), Memory>
        ensures ok { OnOk result (self.new ≡ fold requested self.old messages.now) }
        ensures memory { OnErr result (HasRequests self.old messages.now) }
    {
        if messages.is_empty() || !self.is_any_heard() {
            return Ok(());
        }
        if are_requests(messages) {
            // none makes a replica send anything
            self.take_requests_each(rt, time, messages)
        } else {
            self.request_each(rt, messages)
        }
    }

    fn is_any_heard(&self) -> bool
        ensures { result ≡ list_any (λ replica. replica.heard) self.now.replicas }
    {
        self.replicas.iter().any(|replica| replica.heard)
    }

    fn request_each<R: Threads + Sync>(
        &mut self,
        rt: &R,
        messages: &[Signed<Message>],
    ) -> Result<(), Memory>
        ensures { OnOk result (self.new ≡ fold requested self.old messages.now) }
    {
        for signed in messages {
            self.request(rt, signed)?;
        }
        Ok(())
    }

    fn request<R: Threads + Sync>(&mut self, rt: &R, signed: &Signed<Message>) -> Result<(), Memory>
        ensures { OnOk result (self.new ≡ requested self.old signed.now) }
    {
        for number in 0..self.replicas.len() {
            let copy = signed.try_clone(self.alloc)?;
            self.hand(rt, copy, number)?;
        }
        Ok(())
    }
}

fn are_requests(messages: &[Signed<Message>]) -> bool
    ensures { result ≡ list_all is_request messages.now }
{
    messages.iter().all(
        |signed: &Signed<Message>| -> bool
            ensures { result ≡ is_request signed.now }
        { matches!(signed.message, Message::Request(_)) },
    )
}
