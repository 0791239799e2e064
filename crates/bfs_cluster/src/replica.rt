ghost use Rattle.std.specs.Prelude.{◌≡◌, true, Some, None, IsSome, map, IfOk, OnErr, OnOk};
ghost use Rattle.std.specs.Option.{option_map};
ghost use Rattle.bfs_cluster.specs.Blocks.{proposal};
ghost use Rattle.bfs_cluster.specs.CatchingUp.{Offer, offered};
ghost use Rattle.bfs_cluster.specs.Inside.Acts.{Acts, MayTake, deed, doing};
ghost use Rattle.bfs_cluster.specs.Inside.Aside.{RunsOut};
ghost use Rattle.bfs_cluster.specs.Inside.Requests.{with_requests};
ghost use Rattle.bfs_cluster.specs.Inside.Trying.{Tries};
ghost use Rattle.bfs_cluster.specs.Standings.{is_in};
ghost use Rattle.bfs_cluster.specs.Steps.{delivery, has_ready};
ghost use Rattle.bfs_cluster.specs.Timeouts.{timing_out};
ghost use Rattle.bfs_node.specs.Adopting.{may_adopt};
ghost use Rattle.bfs_node.specs.Advancing.{advancing};
ghost use Rattle.bfs_node.specs.Executing.{Runs};

use crate::acts::Act;
use bfs_checkpoints::StableSnapshot;
use bfs_log::StableCheckpoint;
use bfs_messages::{Message, Signed};
use bfs_node::{Executor, Gate, Node, NodeError};
use bfs_types::{Memory, Time};
use std::alloc::Global;
use std::marker::Model;
use std::sync::Wait;
use std::thread::Threads;

/// A replica of a cluster, which is heard or silent. While it is silent, each call answers `None` and changes nothing.
#[derive(Drop)]
pub(crate) struct Replica {
    pub heard: bool,
    pub node: Node,
}

impl Model for Replica {
    ghost use Rattle.bfs_cluster.specs.World as model;
    ghost use Rattle.std.specs.Coded.{codes};
    ghost use Rattle.bfs_serial.specs.Codes.{inodes_code};

    ghost Value = { model.Replica };

    ghost coded = { Prim.hlevel (codes, inodes_code) };

    ghost view = { λ replica. record { heard = replica.heard; node = replica.node } };
}

impl Replica {
    /// What it sends when a message comes; `None` where it refuses that message.
    pub fn take<R: Threads + Sync>(
        &mut self,
        rt: &R,
        signed: Signed<Message>,
    ) -> Result<Option<Vec<Signed<Message>>>, Memory>
        ensures done { IfOk result (λ sent. Acts (doing (delivery signed) self.old) self.old self.new (option_map (λ all. all.items) sent)) }
        ensures memory { OnErr result (MayTake signed self.old) }
    {
        if !self.heard {
            return Ok(None);
        }
        match self.node.take(rt, signed) {
            Ok(sent) => Ok(Some(sent)),
            Err(NodeError::Memory) => Err(Memory),
            Err(_) => Ok(None),
        }
    }

    /// The REQUESTs among messages come, one after another, before it proposes at that time; it sends nothing then.
    pub fn take_requests<R: Threads + Sync>(
        &mut self,
        rt: &R,
        time: Time,
        messages: &[Signed<Message>],
    ) -> Result<(), Memory>
        ensures ok { OnOk result (self.new ≡ with_requests messages.now self.old) }
        ensures memory { OnErr result (self.old.heard ≡ true) }
    {
        if self.heard {
            self.node.take_requests_for(rt, time, messages)?;
        }
        Ok(())
    }

    /// What it sends to do that; `None` where it refuses to.
    pub fn act(&mut self, alloc: Global, act: &Act) -> Result<Option<Vec<Signed<Message>>>, Memory>
        ensures done { IfOk result (λ sent. Acts (doing (deed act.now) self.old) self.old self.new (option_map (λ all. all.items) sent)) }
        ensures memory { OnErr result (IsSome (doing (deed act.now) self.old)) }
    {
        match act {
            Act::Propose(time) => self.propose(alloc, *time),
            Act::ProposeWaiting(time) => {
                if !self.heard || self.node.pending() == 0 {
                    return Ok(None);
                }
                self.propose(alloc, *time)
            }
            Act::TimeOut => self.time_out(),
        }
    }

    // the requests that wait; `None` where it is no primary, or can't propose now
    fn propose(&mut self, alloc: Global, time: Time) -> Result<Option<Vec<Signed<Message>>>, Memory>
        ensures done { IfOk result (λ sent. Acts (doing (proposal time) self.old) self.old self.new (option_map (λ all. all.items) sent)) }
        ensures memory { OnErr result (IsSome (doing (proposal time) self.old)) }
    {
        if !self.heard {
            return Ok(None);
        }
        match self.node.propose(time) {
            Ok(own) => Ok(Some(vec![in alloc; own]?)),
            Err(NodeError::Memory) => Err(Memory),
            Err(_) => Ok(None),
        }
    }

    fn time_out(&mut self) -> Result<Option<Vec<Signed<Message>>>, Memory>
        ensures done { IfOk result (λ sent. Acts (doing timing_out self.old) self.old self.new (option_map (λ all. all.items) sent)) }
        ensures memory { OnErr result (IsSome (doing timing_out self.old)) }
    {
        if !self.heard {
            return Ok(None);
        }
        let sent = match self.node.timeout() {
            Ok(sent) => sent,
            Err(NodeError::Memory) => return Err(Memory),
            Err(_) => return Ok(None),
        };
        Ok(Some(sent))
    }

    /// Executes the next committed batch by the executor and the gate, and makes the checkpoint that is due; `None` where no batch is next.
    pub fn execute<R: Threads + Wait + Sync, G: Gate + Sync>(
        &mut self,
        rt: &R,
        executor: &Executor,
        gate: &G,
    ) -> Result<Option<Vec<Signed<Message>>>, Memory>
        ensures done { IfOk result (λ sent. Acts (doing advancing self.old) self.old self.new (option_map (λ all. all.items) sent)) }
        ensures ran { IfOk result (λ sent. IsSome sent → Runs G.ran executor.now.engine self.old.node) }
        ensures memory { OnErr result (has_ready self.old ≡ true) }
    {
        if !self.is_ready() {
            return Ok(None);
        }
        self.node.advance_once(rt, executor, gate)
    }

    /// Whether it is heard, and a batch is next.
    pub fn is_ready(&self) -> bool
        ensures { result ≡ has_ready self.now }
    {
        self.heard && self.node.is_ready()
    }

    /// Executes all that is ready, as `execute` does one batch. It gives what it sends behind each.
    pub fn execute_all<R: Threads + Wait + Sync, G: Gate + Sync>(
        &mut self,
        rt: &R,
        alloc: Global,
        executor: &Executor,
        gate: &G,
    ) -> Result<Vec<Vec<Signed<Message>>>, Memory>
        ensures done { IfOk result (λ all. RunsOut (Runs G.ran executor.now.engine) (map (λ sent. sent.items) all.items) self.old self.new) }
        ensures memory { OnErr result (has_ready self.old ≡ true) }
    {
        let mut all = Vec::new(alloc);
        for _ in rt.forever() {
            match self.execute(rt, executor, gate)? {
                Some(sent) => all.push(sent)?,
                None => return Ok(all),
            }
        }
        unreachable!()
    }

    /// Whether it is heard, and has entered that view last.
    pub fn is_in(&self, view: u64) -> bool
        ensures { result ≡ is_in view self.now }
    {
        self.heard && self.node.view() == view
    }

    /// Its stable snapshot, if its number is above that one.
    pub fn offer(&self, last: u64) -> Option<StableSnapshot<'_>>
        ensures { option_map {U = Offer} (λ stable. (stable.snapshot.now.text, stable.checkpoint.now)) result ≡ offered last self.now }
    {
        if !self.heard {
            return None;
        }
        let stable = self.node.stable()?;
        if last < stable.checkpoint.number() {
            Some(stable)
        } else {
            None
        }
    }

    /// Adopts a snapshot; `false` where it refuses to.
    pub fn adopt<R: Threads + Sync>(
        &mut self,
        rt: &R,
        text: &[u8],
        checkpoint: &StableCheckpoint,
    ) -> Result<bool, Memory>
        ensures tried { IfOk result (λ took. Tries took self.old text.now checkpoint.now self.new) }
        ensures memory { OnErr result (may_adopt self.old.node checkpoint.now ≡ true) }
    {
        match self.node.adopt(rt, text, checkpoint) {
            Ok(()) => Ok(true),
            Err(NodeError::Memory) => Err(Memory),
            Err(_) => Ok(false),
        }
    }
}
