ghost use Rattle.std.specs.Prelude.{◌≡◌, ◌<◌, ◌+◌, None, [], ◌∷◌, length, map, IfOk, IsSome, OnErr, OnOk};
ghost use Rattle.std.specs.List.{fold, list_any};
ghost use Rattle.std.specs.Option.{option_map};
ghost use Rattle.bfs_cluster.specs.Inside.Acts.{posted_if};
ghost use Rattle.bfs_cluster.specs.Inside.Aside.{Goes, posted_all};
ghost use Rattle.bfs_cluster.specs.Steps.{HasWork, Rests, Settles, delivering, handed, has_ready, step};
ghost use Rattle.bfs_cluster.specs.World.{emptied, posted};
ghost use Rattle.bfs_node.specs.Executing.{Runs};

use crate::cluster::{Broadcast, Cluster};
use crate::replica::Replica;
use bfs_messages::{Message, Signed};
use bfs_node::{Executor, Gate, Receivers, receivers_of};
use bfs_types::{Memory, TryClone};
use std::sync::Wait;
use std::thread::Threads;

impl Cluster {
    /// Delivers messages and executes what is ready, until no message is left and nothing is ready. Then replicas that are behind catch
    /// up, and all begins anew, until none does. Replica 0 executes as `executor` says, and each other one with a worker more than the one
    /// before it, up to the most there can be and then from one on; where there is an engine, each new request is run by the gate, but those
    /// that may touch any inode. `Memory` if memory runs out; the cluster is empty then.
    pub fn settle<R: Threads + Wait + Sync, G: Gate + Sync>(
        &mut self,
        rt: &R,
        executor: Executor,
        gate: &G,
    ) -> Result<(), Memory>
        ensures ok { OnOk result (Settles (Runs G.ran executor.engine) self.old self.new) }
        ensures memory { OnErr result (HasWork self.old) }
        ensures err { OnErr result (self.new ≡ emptied) }
    {
        match self.go_on(rt, &executor, gate) {
            Ok(()) => Ok(()),
            Err(Memory) => Err(self.empty()),
        }
    }

    fn go_on<R: Threads + Wait + Sync, G: Gate + Sync>(
        &mut self,
        rt: &R,
        executor: &Executor,
        gate: &G,
    ) -> Result<(), Memory>
        ensures ok { OnOk result (Settles (Runs G.ran executor.now.engine) self.old self.new) }
        ensures memory { OnErr result (HasWork self.old) }
    {
        for _ in rt.forever() {
            self.rest(rt, executor, gate)?;
            if !self.catch_up(rt)? {
                return Ok(());
            }
        }
        unreachable!()
    }

    fn rest<R: Threads + Wait + Sync, G: Gate + Sync>(
        &mut self,
        rt: &R,
        executor: &Executor,
        gate: &G,
    ) -> Result<(), Memory>
        ensures ok { OnOk result (Rests (Runs G.ran executor.now.engine) self.old self.new) }
        ensures memory { OnErr result (IsSome (step self.old)) }
    {
        for _ in rt.forever() {
            if !self.go(rt, executor, gate)? {
                return Ok(());
            }
        }
        unreachable!()
    }

    // `false` where no step is left
    fn go<R: Threads + Wait + Sync, G: Gate + Sync>(
        &mut self,
        rt: &R,
        executor: &Executor,
        gate: &G,
    ) -> Result<bool, Memory>
        ensures goes { IfOk result (λ went. Goes (Runs G.ran executor.now.engine) went self.old self.new) }
        ensures memory { OnErr result (IsSome (step self.old)) }
    {
        match self.queue.pop_front() {
            Some(broadcast) => {
                self.deliver(rt, broadcast)?;
                Ok(true)
            }
            None => self.execute_if_ready(rt, executor, gate),
        }
    }

    // `false` where nothing is ready
    fn execute_if_ready<R: Threads + Wait + Sync, G: Gate + Sync>(
        &mut self,
        rt: &R,
        executor: &Executor,
        gate: &G,
    ) -> Result<bool, Memory>
        requires turn { self.old.turn ≡ None }
        requires queue { self.old.queue ≡ [] }
        ensures goes { IfOk result (λ went. Goes (Runs G.ran executor.now.engine) went self.old self.new) }
        ensures memory { OnErr result (IsSome (step self.old)) }
    {
        if !self.is_any_ready() {
            return Ok(false);
        }
        self.execute_each(rt, executor, gate)?;
        Ok(true)
    }

    fn is_any_ready(&self) -> bool
        ensures { result ≡ list_any has_ready self.now.replicas }
    {
        self.replicas.iter().any(|replica| replica.is_ready())
    }

    // the next receiver of a broadcast has it
    fn deliver<R: Threads + Sync>(&mut self, rt: &R, broadcast: Broadcast) -> Result<(), Memory>
        ensures { OnOk result (self.new ≡ delivering self.old broadcast) }
    {
        let number = broadcast.next;
        if number >= self.replicas.len() {
            return Ok(());
        }
        if number == broadcast.sender {
            return self.keep(broadcast);
        }
        let copy = broadcast.signed.try_clone(self.alloc)?;
        self.keep(broadcast)?;
        self.hand(rt, copy, number)
    }

    // the broadcast stays the first, for those behind its next receiver
    fn keep(&mut self, broadcast: Broadcast) -> Result<(), Memory>
        requires { broadcast.next < length self.old.replicas }
        ensures { OnOk result (self.new ≡ record self.old { queue = (record broadcast { next = broadcast.next + 1 }) ∷ self.old.queue }) }
    {
        self.queue.push_front(Broadcast {
            next: broadcast.next + 1,
            ..broadcast
        })?;
        Ok(())
    }

    /// A message comes to a replica.
    pub(crate) fn hand<R: Threads + Sync>(
        &mut self,
        rt: &R,
        signed: Signed<Message>,
        number: usize,
    ) -> Result<(), Memory>
        requires { number < length self.old.replicas }
        ensures { OnOk result (self.new ≡ handed signed self.old number) }
    {
        let sent = self.replicas[number].take(rt, signed)?;
        self.post_if(number, sent)
    }

    /// Sends what a replica gave to be sent, if it gave anything.
    pub(crate) fn post_if(
        &mut self,
        sender: usize,
        sent: Option<Vec<Signed<Message>>>,
    ) -> Result<(), Memory>
        ensures ok { OnOk result (self.new ≡ posted_if sender self.old (option_map (λ all. all.items) sent)) }
        ensures memory { OnErr result (IsSome sent) }
    {
        match sent {
            Some(sent) => self.post(sender, sent),
            None => Ok(()),
        }
    }

    /// Sends what a replica gave to be sent behind each batch.
    pub(crate) fn post_all(
        &mut self,
        sender: usize,
        all: Vec<Vec<Signed<Message>>>,
    ) -> Result<(), Memory>
        ensures { OnOk result (self.new ≡ posted_all sender self.old (map (λ sent. sent.items) all.items)) }
    {
        for sent in all {
            self.post(sender, sent)?;
        }
        Ok(())
    }

    fn post(&mut self, sender: usize, sent: Vec<Signed<Message>>) -> Result<(), Memory>
        ensures { OnOk result (self.new ≡ fold (posted sender) self.old sent.items) }
    {
        for signed in sent {
            self.post_one(sender, signed)?;
        }
        Ok(())
    }

    fn post_one(&mut self, sender: usize, signed: Signed<Message>) -> Result<(), Memory>
        ensures { OnOk result (self.new ≡ posted sender self.old signed) }
    {
        self.note(sender, &signed)?;
        match receivers_of(&signed.message) {
            Receivers::Replicas => self.queue.push_back(Broadcast {
                sender,
                next: 0,
                signed,
            })?,
            Receivers::Client(_) => self.replies.push(signed)?,
        }
        Ok(())
    }
}
