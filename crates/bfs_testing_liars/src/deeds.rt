//! What is done to replicas, and what comes of it.
use crate::heads::Head;
use crate::sets::Set;
use crate::world::{Flight, World};
use bfs_testing_nodes::calls::{Given, checkpoint, deliver, digest_of, execute, propose, time_out};
use bfs_testing_nodes::snapshots::{adopt, snapshot_of};
use bfs_types::Memory;
use std::sync::Wait;
use std::thread::Threads;

impl World {
    // what a call came to, which a replica did that was in that view before
    fn follow(&mut self, number: usize, before: u64, given: &Given) -> Result<(), Memory> {
        let Ok(messages) = given else {
            return Ok(());
        };
        if self.view(number) != before && !self.liars.has(number) {
            self.record.note_view();
        }
        self.send(number, messages)
    }

    /// A message that was sent once comes to a replica.
    pub fn deliver<R: Threads + Sync>(&mut self, rt: &R, flight: Flight) -> Result<(), Memory> {
        let before = self.view(flight.to);
        let (Some(node), Some(sent)) = (self.nodes.get_mut(flight.to), self.sent.get(flight.which))
        else {
            return Ok(());
        };
        let given = deliver(rt, node, &sent.bytes);
        let (head, is_lie) = (sent.head, sent.is_lie);
        if given.is_ok() && !self.liars.has(flight.to) {
            self.note_taken(flight.to, head, is_lie)?;
        }
        self.follow(flight.to, before, &given)
    }

    fn note_taken(&mut self, number: usize, head: Head, is_lie: bool) -> Result<(), Memory> {
        if is_lie {
            self.record.note_lie();
        }
        if head.has_digest() {
            self.record.note_taken(number, head)
        } else {
            Ok(())
        }
    }

    /// Time runs out at a replica.
    pub fn time_out(&mut self, number: usize) -> Result<(), Memory> {
        let before = self.view(number);
        let Some(node) = self.nodes.get_mut(number) else {
            return Ok(());
        };
        let given = time_out(node);
        self.follow(number, before, &given)
    }

    /// Some replicas leave for a view, if it isn't too far away.
    pub fn leave(&mut self, of: Set, view: u64) -> Result<(), Memory> {
        for number in 0..self.nodes.len() {
            for _ in 0u32..8 {
                if of.has(number) && self.asked(number) < view {
                    self.time_out(number)?;
                }
            }
        }
        Ok(())
    }

    /// A replica proposes what waits, if it may.
    pub fn propose(&mut self, number: usize) -> Result<(), Memory> {
        let second = self.tick();
        let Some(node) = self.nodes.get_mut(number) else {
            return Ok(());
        };
        match propose(node, second) {
            Ok(signed) => self.send_one(number, &signed),
            Err(_) => Ok(()),
        }
    }

    // the digest of the batch that it has committed for that number: it is in the COMMIT that it sent last, since what is committed stays so
    fn committed(&self, number: usize, executed: u64) -> Option<[u8; 32]> {
        for sent in self.sent.iter().rev() {
            let head = &sent.head;
            let is_own = head.sender as usize == number && !sent.is_lie;
            if is_own && head.kind == 4 && head.number == executed {
                return Some(head.digest);
            }
        }
        None
    }

    // it has executed the batch that the others have
    fn note_batch(&mut self, number: usize) -> Result<(), Memory> {
        let last = self.last(number);
        match self.committed(number, last) {
            Some(batch) if !self.liars.has(number) => self.record.note_batch(last, batch),
            _ => Ok(()),
        }
    }

    // it is as the others are behind the number last executed
    fn compare<R: Threads + Sync>(&mut self, rt: &R, number: usize) -> Result<(), Memory> {
        if self.liars.has(number) {
            return Ok(());
        }
        let Some(node) = self.nodes.get(number) else {
            return Ok(());
        };
        match digest_of(rt, node) {
            Ok(digest) => self.record.note(number, node.last_executed(), digest),
            Err(_) => Err(Memory),
        }
    }

    /// A replica executes the next batch, if there is one, and tells a checkpoint where it is due. It gives whether it did.
    pub fn execute<R: Threads + Wait + Sync>(
        &mut self,
        rt: &R,
        number: usize,
    ) -> Result<bool, Memory> {
        let Some(node) = self.nodes.get_mut(number) else {
            return Ok(false);
        };
        let Ok(Some(mut messages)) = execute(rt, node) else {
            return Ok(false);
        };
        if let Ok(signed) = checkpoint(rt, node) {
            messages.push(signed)?;
        }
        self.note_batch(number)?;
        self.compare(rt, number)?;
        self.send(number, &messages)?;
        Ok(true)
    }

    /// A replica adopts the stable snapshot of another one, if it is ahead.
    pub fn adopt<R: Threads + Sync>(
        &mut self,
        rt: &R,
        number: usize,
        other: usize,
    ) -> Result<(), Memory> {
        let Some(node) = self.nodes.get(other) else {
            return Ok(());
        };
        let Some(snapshot) = snapshot_of(self.alloc, node)? else {
            return Ok(());
        };
        let Some(node) = self.nodes.get_mut(number) else {
            return Ok(());
        };
        if adopt(rt, node, &snapshot.text, &snapshot.checkpoint).is_err() {
            return Ok(());
        }
        if !self.liars.has(number) {
            self.record.note_adoption();
        }
        self.compare(rt, number)
    }
}
