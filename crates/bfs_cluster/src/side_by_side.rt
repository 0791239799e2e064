// Replicas are busy side by side while none takes what another one sends.
ghost use Rattle.std.specs.Prelude.{◌≡◌, true, [], None, Some, Ok, All, map, IfOk, OnOk};
ghost use Rattle.std.specs.List.{fold};
ghost use Rattle.bfs_cluster.specs.Inside.Aside.{AreBack, CameOut, CameTo, Goes, back};
ghost use Rattle.bfs_cluster.specs.Inside.Requests.{with_requests};
ghost use Rattle.bfs_node.specs.Executing.{Runs};

use crate::cluster::Cluster;
use crate::replica::Replica;
use bfs_messages::{Message, Signed};
use bfs_node::{Executor, Gate, MOST_WORKERS, Workers};
use bfs_types::{Memory, Time};
use rayon::prelude::*;
use std::alloc::Global;
use std::sync::Wait;
use std::thread::Threads;

/// A replica out of its cluster, what it sends, a list for each batch that it executes, and whether there was memory for it.
#[derive(Drop)]
pub(crate) struct Busy {
    pub replica: Replica,
    pub sent: Vec<Vec<Signed<Message>>>,
    pub came: Result<(), Memory>,
}

impl Busy {
    fn new(alloc: Global, replica: Replica) -> Busy
        ensures replica { result.replica ≡ replica }
        ensures sent { result.sent.items ≡ [] }
    {
        Busy {
            replica,
            sent: Vec::new(alloc),
            came: Ok(()),
        }
    }

    fn take_requests<R: Threads + Sync>(&mut self, rt: &R, time: Time, messages: &[Signed<Message>])
        ensures { CameTo messages.now self.old self.new }
    {
        self.came = self.replica.take_requests(rt, time, messages);
    }

    fn execute_all<R: Threads + Wait + Sync, G: Gate + Sync>(
        &mut self,
        rt: &R,
        alloc: Global,
        executor: &Executor,
        gate: &G,
    )
        ensures { CameOut (Runs G.ran executor.now.engine) self.old self.new }
    {
        match self.replica.execute_all(rt, alloc, executor, gate) {
            Ok(sent) => {
                self.sent = sent;
                self.came = Ok(());
            }
            Err(error) => self.came = Err(error),
        }
    }
}

impl Cluster {
    /// The requests come to each replica before it proposes at that time; as many threads as there are processors share the replicas out among
    /// them.
    pub(crate) fn take_requests_each<R: Threads + Sync>(
        &mut self,
        rt: &R,
        time: Time,
        messages: &[Signed<Message>],
    ) -> Result<(), Memory>
        ensures { OnOk result (self.new ≡ record self.old { replicas = map (with_requests messages.now) self.old.replicas }) }
    {
        let mut all = self.take_out()?;
        par_for_each_mut(
            rt,
            all.as_mut_slice(),
            |_number: usize, one: &mut Busy|
                ensures { CameTo messages.entry.now one.old one.new }
            { one.take_requests(rt, time, messages) },
        );
        self.put_back(all)
    }

    /// Each replica that is heard executes all that is ready, and makes the checkpoints that are due; as many threads as there are processors
    /// share the replicas out among them. Then what each sends is posted, by rising number.
    pub(crate) fn execute_each<R: Threads + Wait + Sync, G: Gate + Sync>(
        &mut self,
        rt: &R,
        executor: &Executor,
        gate: &G,
    ) -> Result<(), Memory>
        requires { self.old.turn ≡ None }
        ensures { OnOk result (Goes (Runs G.ran executor.now.engine) true (record self.old { turn = Some 0 }) self.new) }
    {
        let (alloc, mut all) = (self.alloc, self.take_out()?);
        par_for_each_mut(
            rt,
            all.as_mut_slice(),
            |number: usize, one: &mut Busy|
                ensures { CameOut (Runs G.ran executor.entry.now.engine) one.old one.new }
            { one.execute_all(rt, alloc, &executor_of(executor, number), gate) },
        );
        self.put_back(all)
    }

    // All replicas leave the cluster, with room for them to come back.
    fn take_out(&mut self) -> Result<Vec<Busy>, Memory>
        ensures all { IfOk result (λ all. map (λ one. one.replica) all.items ≡ self.old.replicas) }
        ensures sent { IfOk result (λ all. All (λ one. one.sent.items ≡ []) all.items) }
        ensures now { OnOk result (self.new ≡ record self.old { replicas = [] }) }
    {
        let mut all = Vec::with_capacity(self.alloc, self.replicas.len())?;
        let room = Vec::with_capacity(self.alloc, self.replicas.len())?;
        for replica in std::mem::replace(&mut self.replicas, room) {
            all.push(Busy::new(self.alloc, replica))?;
        }
        Ok(all)
    }

    // They come back one after another, also where memory ran out, and what each sends is posted.
    fn put_back(&mut self, all: Vec<Busy>) -> Result<(), Memory>
        ensures { OnOk result (AreBack all.items × (self.new ≡ fold back self.old all.items)) }
    {
        let mut done = Ok(());
        for one in all {
            done = self.put_one(one, done);
        }
        done
    }

    // What it sends is posted unless memory ran out before.
    fn put_one(&mut self, one: Busy, before: Result<(), Memory>) -> Result<(), Memory>
        ensures { OnOk result ((before ≡ Ok tt) × (one.came ≡ Ok tt) × (self.new ≡ back self.old one)) }
    {
        let number = self.replicas.len();
        self.replicas.push(one.replica)?;
        before?;
        one.came?;
        self.post_all(number, one.sent)
    }
}

// with so many workers more, up to the most there can be and then from one on
fn executor_of(executor: &Executor, number: usize) -> Executor
    ensures { result.engine ≡ executor.now.engine }
{
    let more = (number % MOST_WORKERS as usize) as u32;
    let before = (executor.workers.count() - 1 + more) % MOST_WORKERS;
    match Workers::new(before + 1) {
        Some(workers) => Executor {
            workers,
            engine: executor.engine,
        },
        None => unreachable!(),
    }
}
