//! One replica, which is looked at where memory runs out, and then asked again.
use bfs_messages::{Message, Signed};
use bfs_node::{Lag, Node, NodeError};
use bfs_testing_nodes::calls::{
    Given, Standing, advance, checkpoint, deliver, digest_of, execute, propose, standing_of,
    time_out,
};
use bfs_testing_nodes::members::Members;
use bfs_testing_nodes::snapshots::{
    Snapshot, adopt, collected_by, settle, snapshot_of, stable_of, told_of,
};
use bfs_types::Memory;
use std::alloc::Global;
use std::sync::Wait;
use std::thread::Threads;

/// 3f + 1 replicas, and their clients.
pub fn members(f: u32) -> Members {
    Members { f, clients: 2 }
}

/// What is asked of a replica.
#[derive(Clone, Copy)]
pub enum Call<'a> {
    /// To take the bytes of a message.
    Deliver(&'a [u8]),
    /// To propose what waits.
    Propose,
    /// To leave its view.
    TimeOut,
    /// To leave it for that view.
    LeaveFor(u64),
    /// To execute the next batch.
    Execute,
    /// To make a checkpoint.
    Checkpoint,
}

/// Why nothing is sent.
#[derive(Clone, Copy, Debug, PartialEq, Eq)]
pub enum Silence {
    /// The call is refused, by that number.
    Refused(u32),
    /// Memory ran out while a batch was executed, and the replica is as it must be then.
    HasFailed,
    /// Memory ran out, and the replica is not as it must be then.
    IsWrong,
}

// what shows of it: besides, the number that is stable, how many CHECKPOINTs tell its stable snapshot, and its digest
type Shown = (Standing, u64, Option<(usize, [u8; 32])>);

/// A replica, with the digest that it has.
#[derive(Drop)]
pub struct Replica {
    alloc: Global,
    node: Node,
    digest: Option<[u8; 32]>,
}

// a list with room for it
fn one_in(mut room: Vec<Signed<Message>>, given: Result<Signed<Message>, NodeError>) -> Given {
    match room.push(given?) {
        Ok(()) => Ok(room),
        Err(_) => Err(NodeError::Memory),
    }
}

impl Replica {
    /// The replica of that number among 3f + 1, which has done nothing.
    pub fn new<R: Threads + Sync>(
        rt: &R,
        alloc: Global,
        f: u32,
        me: u32,
    ) -> Result<Replica, Memory> {
        let mut replica = Replica {
            alloc,
            node: members(f).replica(alloc, me)?,
            digest: None,
        };
        replica.digest = Some(replica.digest(rt).ok_or(Memory)?);
        Ok(replica)
    }

    /// How it stands.
    pub fn standing(&self) -> Standing {
        standing_of(&self.node)
    }

    /// The number of its last stable checkpoint.
    pub fn stable_number(&self) -> u64 {
        self.node.stable_number()
    }

    /// How far it is.
    pub fn lag(&self) -> Lag {
        Lag {
            view: self.node.view(),
            last: self.node.last_executed(),
            stable: self.node.stable_number(),
        }
    }

    /// The view that it is to follow, if it is to.
    pub fn to_follow(&self) -> Option<u64> {
        self.node.view_to_follow()
    }

    /// What it gives again to one that is so far. Where memory runs out, it is asked again.
    pub fn resends(&self, to: Lag) -> Result<Vec<Signed<Message>>, Memory> {
        match self.node.resend(to) {
            Ok(sent) => Ok(sent),
            Err(_) => self.node.resend(to),
        }
    }

    fn shown(&self) -> Shown {
        (self.standing(), self.stable_number(), stable_of(&self.node))
    }

    /// Its digest, if it has not failed. Where memory runs out, it is asked again.
    pub fn digest<R: Threads + Sync>(&self, rt: &R) -> Option<[u8; 32]> {
        match digest_of(rt, &self.node) {
            Err(NodeError::Memory) => digest_of(rt, &self.node).ok(),
            given => given.ok(),
        }
    }

    /// Whether it has a stable snapshot that so many CHECKPOINTs tell.
    pub fn has_stable(&self, checkpoints: usize) -> bool {
        match stable_of(&self.node) {
            Some((told, _)) => told == checkpoints,
            None => false,
        }
    }

    fn once<R: Threads + Wait + Sync>(&mut self, rt: &R, call: Call<'_>) -> Given {
        match call {
            Call::Deliver(bytes) => deliver(rt, &mut self.node, bytes),
            Call::TimeOut => time_out(&mut self.node),
            Call::LeaveFor(view) => self.node.leave_for(view),
            Call::Propose => self.propose(),
            Call::Checkpoint => self.checkpoint(rt),
            Call::Execute => self.execute(rt),
        }
    }

    // the list for a message that is given alone is made before the call
    fn propose(&mut self) -> Given {
        let room = Vec::with_capacity(self.alloc, 1)?;
        one_in(room, propose(&mut self.node, 1))
    }

    fn checkpoint<R: Threads + Sync>(&mut self, rt: &R) -> Given {
        let room = Vec::with_capacity(self.alloc, 1)?;
        one_in(room, checkpoint(rt, &mut self.node))
    }

    fn execute<R: Threads + Wait + Sync>(&mut self, rt: &R) -> Given {
        match execute(rt, &mut self.node)? {
            Some(replies) => Ok(replies),
            None => Ok(Vec::new(self.alloc)),
        }
    }

    /// Does what it is asked, and gives what it sends. Where memory runs out, it is to be as it was, and to do the same when it is asked again;
    /// but where it executes a batch, its file system has failed, and it executes nothing when it is asked again.
    pub fn does<R: Threads + Wait + Sync>(
        &mut self,
        rt: &R,
        call: Call<'_>,
    ) -> Result<Vec<Signed<Message>>, Silence> {
        let before = self.shown();
        match self.once(rt, call) {
            Ok(sent) => Ok(sent),
            Err(NodeError::Memory) => self.does_again(rt, call, before),
            Err(error) => Err(Silence::Refused(error.code())),
        }
    }

    fn does_again<R: Threads + Wait + Sync>(
        &mut self,
        rt: &R,
        call: Call<'_>,
        before: Shown,
    ) -> Result<Vec<Signed<Message>>, Silence> {
        if matches!(call, Call::Execute) {
            return Err(self.failure(rt, before));
        }
        if !self.is_as(rt, before, true) {
            return Err(Silence::IsWrong);
        }
        match self.once(rt, call) {
            Ok(sent) => Ok(sent),
            Err(error) => Err(Silence::Refused(error.code())),
        }
    }

    // whether nothing but its file system has failed
    fn failure<R: Threads + Wait + Sync>(&mut self, rt: &R, before: Shown) -> Silence {
        let failed = self.is_as(rt, before, false) && self.digest(rt).is_none();
        let again = self.execute(rt).err();
        if failed && again == Some(NodeError::Failed) && self.is_as(rt, before, false) {
            Silence::HasFailed
        } else {
            Silence::IsWrong
        }
    }

    /// It executes the next batch, and gives what it sends. Its digest is noted.
    pub fn goes_on<R: Threads + Wait + Sync>(
        &mut self,
        rt: &R,
    ) -> Result<Vec<Signed<Message>>, Silence> {
        let sent = self.does(rt, Call::Execute)?;
        self.digest = self.digest(rt);
        Ok(sent)
    }

    /// A copy of its stable snapshot, if it has one.
    pub fn snapshot(&self) -> Result<Option<Snapshot>, Memory> {
        snapshot_of(self.alloc, &self.node)
    }

    fn adopts_once<R: Threads + Sync>(
        &mut self,
        rt: &R,
        snapshot: &Snapshot,
    ) -> Result<(), NodeError> {
        adopt(rt, &mut self.node, &snapshot.text, &snapshot.checkpoint)
    }

    /// It adopts the stable snapshot of another replica. Where memory runs out, it is to be as it was, and is asked again. It gives whether all
    /// that is so.
    pub fn adopts<R: Threads + Sync>(&mut self, rt: &R, snapshot: &Snapshot) -> bool {
        let (before, live) = (self.shown(), self.node.is_live());
        let took = match self.adopts_once(rt, snapshot) {
            Err(NodeError::Memory) => {
                self.is_as(rt, before, live) && self.adopts_once(rt, snapshot).is_ok()
            }
            given => given.is_ok(),
        };
        self.digest = self.digest(rt);
        took && self.digest.is_some()
    }

    /// What another replica has told of a number, with what makes it stable of what both have heard, if that is enough. Where memory runs out, it is
    /// asked again.
    pub fn collects(&self, other: &Replica, number: u64) -> Result<Option<Snapshot>, Memory> {
        match self.collects_once(other, number) {
            Ok(found) => Ok(found),
            Err(_) => self.collects_once(other, number),
        }
    }

    fn collects_once(&self, other: &Replica, number: u64) -> Result<Option<Snapshot>, Memory> {
        match told_of(self.alloc, &other.node, number)? {
            Some(told) => collected_by(&self.node, number, told),
            None => Ok(None),
        }
    }

    /// It settles the checkpoint of another replica's stable snapshot. Where memory runs out, it is to be as it was, and is asked again. It gives
    /// whether all that is so.
    pub fn settles<R: Threads + Sync>(&mut self, rt: &R, snapshot: &Snapshot) -> bool {
        let (before, live) = (self.shown(), self.node.is_live());
        match settle(&mut self.node, &snapshot.checkpoint) {
            Err(NodeError::Memory) => {
                self.is_as(rt, before, live) && settle(&mut self.node, &snapshot.checkpoint).is_ok()
            }
            given => given.is_ok(),
        }
    }

    fn advances_once<R: Threads + Wait + Sync>(&mut self, rt: &R) -> Result<(), NodeError> {
        advance(rt, &mut self.node)?;
        Ok(())
    }

    /// It executes all that is committed. Where memory runs out, it is asked again, but where its file system has failed: then it executes
    /// nothing before it adopts a snapshot. It gives whether all that is so.
    pub fn advances<R: Threads + Wait + Sync>(&mut self, rt: &R, snapshot: &Snapshot) -> bool {
        match self.advances_once(rt) {
            Ok(()) => true,
            Err(NodeError::Memory) if self.node.is_live() => self.advances_once(rt).is_ok(),
            Err(NodeError::Memory) => self.mends(rt, snapshot),
            Err(_) => false,
        }
    }

    fn mends<R: Threads + Wait + Sync>(&mut self, rt: &R, snapshot: &Snapshot) -> bool {
        let before = self.shown();
        self.advances_once(rt).err() == Some(NodeError::Failed)
            && self.is_as(rt, before, false)
            && self.adopts(rt, snapshot)
            && self.advances_once(rt).is_ok()
    }

    fn is_as<R: Threads + Sync>(&self, rt: &R, before: Shown, live: bool) -> bool {
        self.shown() == before
            && self.node.is_live() == live
            && (!live || self.digest(rt) == self.digest)
    }
}
