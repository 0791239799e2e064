//! Four replicas, of which one may be faulty, and bytes on their way between them.
use crate::replica::{Call, Replica, Silence};
use crate::requests::{large_request, request};
use bfs_codec::{decode, encode};
use bfs_messages::{Message, Signed};
use bfs_testing_nodes::calls::Standing;
use bfs_types::Memory;
use std::alloc::Global;
use std::sync::Wait;
use std::thread::Threads;

/// Four replicas, the bytes of messages on their way, each with who sends it, and the bytes of all that were sent.
#[derive(Drop)]
pub struct Replicas {
    alloc: Global,
    all: Vec<Replica>,
    on_their_way: Vec<(usize, Vec<u8>)>,
    said: Vec<u8>,
    noted: Option<[u8; 32]>,
}

// how many VIEW-CHANGEs and PRE-PREPAREs a NEW-VIEW has
fn sizes_of(message: &Message) -> Option<(usize, usize)> {
    match message {
        Message::NewView(new) => Some((new.changes().len(), new.proposals().len())),
        _ => None,
    }
}

fn sizes_in(alloc: Global, bytes: &[u8]) -> Result<Option<(usize, usize)>, Memory> {
    match decode(alloc, bytes) {
        Ok(signed) => Ok(sizes_of(&signed.message)),
        Err(_) => Err(Memory),
    }
}

// where memory runs out, it is asked again
fn spelled(alloc: Global, signed: &Signed<Message>) -> Result<Vec<u8>, Memory> {
    match encode(alloc, signed) {
        Ok(bytes) => Ok(bytes),
        Err(_) => encode(alloc, signed),
    }
}

impl Replicas {
    /// Four that have done nothing.
    pub fn new<R: Threads + Sync>(rt: &R, alloc: Global) -> Result<Replicas, Memory> {
        let mut all = Vec::new(alloc);
        for me in 0..4 {
            all.push(Replica::new(rt, alloc, 1, me)?)?;
        }
        Ok(Replicas {
            alloc,
            all,
            on_their_way: Vec::new(alloc),
            said: Vec::new(alloc),
            noted: None,
        })
    }

    /// What was sent.
    pub fn said(&self) -> &[u8] {
        self.said.as_slice()
    }

    /// Whether each of these stands so.
    pub fn stand(&self, numbers: &[usize], wanted: Standing) -> bool {
        for number in numbers {
            match self.all.get(*number) {
                Some(replica) if replica.standing() == wanted => {}
                _ => return false,
            }
        }
        true
    }

    fn digest<R: Threads + Sync>(&self, rt: &R, number: usize) -> Option<[u8; 32]> {
        self.all.get(number)?.digest(rt)
    }

    /// Whether these have a digest, and the same one.
    pub fn agree<R: Threads + Sync>(&self, rt: &R, numbers: &[usize]) -> bool {
        let mut last = None;
        for number in numbers {
            let digest = self.digest(rt, *number);
            if digest.is_none() || (last.is_some() && last != digest) {
                return false;
            }
            last = digest;
        }
        true
    }

    /// Whether each of these has a stable snapshot that so many CHECKPOINTs tell.
    pub fn have_stable(&self, numbers: &[usize], checkpoints: usize) -> bool {
        for number in numbers {
            match self.all.get(*number) {
                Some(replica) if replica.has_stable(checkpoints) => {}
                _ => return false,
            }
        }
        true
    }

    /// Whether none of these has a stable snapshot.
    pub fn have_none(&self, numbers: &[usize]) -> bool {
        for number in numbers {
            match self.all.get(*number).map(Replica::snapshot) {
                Some(Ok(None)) => {}
                _ => return false,
            }
        }
        true
    }

    /// Whether the last stable checkpoint of each of these has that number.
    pub fn stable_at(&self, numbers: &[usize], stable: u64) -> bool {
        for number in numbers {
            match self.all.get(*number) {
                Some(replica) if replica.stable_number() == stable => {}
                _ => return false,
            }
        }
        true
    }

    /// A replica's digest is noted. It gives whether there is one.
    pub fn note<R: Threads + Sync>(&mut self, rt: &R, number: usize) -> bool {
        self.noted = self.digest(rt, number);
        self.noted.is_some()
    }

    /// Whether each of these has the digest that was noted.
    pub fn are_as_noted<R: Threads + Sync>(&self, rt: &R, numbers: &[usize]) -> bool {
        for number in numbers {
            if self.digest(rt, *number) != self.noted {
                return false;
            }
        }
        true
    }

    /// How many VIEW-CHANGEs and PRE-PREPAREs the first NEW-VIEW has that is on its way.
    pub fn new_view(&self) -> Result<Option<(usize, usize)>, Memory> {
        for (_, bytes) in &self.on_their_way {
            let sizes = sizes_in(self.alloc, bytes.as_slice())?;
            if sizes.is_some() {
                return Ok(sizes);
            }
        }
        Ok(None)
    }

    /// Whether a replica refuses what it is asked.
    pub fn refuses<R: Threads + Wait + Sync>(
        &mut self,
        rt: &R,
        number: usize,
        call: Call<'_>,
    ) -> bool {
        match self.all.get_mut(number) {
            Some(replica) => matches!(replica.does(rt, call), Err(Silence::Refused(_))),
            None => false,
        }
    }

    /// What is on its way is lost.
    pub fn lose(&mut self) {
        self.on_their_way.clear();
    }

    // a REPLY is said, and goes to no replica
    fn send(&mut self, sender: usize, sent: Vec<Signed<Message>>) -> Result<(), Memory> {
        for signed in &sent {
            let bytes = spelled(self.alloc, signed)?;
            self.said.extend_from_slice(bytes.as_slice())?;
            if !matches!(signed.message, Message::Reply(_)) {
                self.on_their_way.push((sender, bytes))?;
            }
        }
        Ok(())
    }

    /// Asks a replica, and what it sends is on its way. It gives whether the replica is as it must be; a refusal is passed over.
    pub fn ask<R: Threads + Wait + Sync>(
        &mut self,
        rt: &R,
        number: usize,
        call: Call<'_>,
    ) -> Result<bool, Memory> {
        let Some(replica) = self.all.get_mut(number) else {
            return Ok(false);
        };
        match replica.does(rt, call) {
            Ok(sent) => {
                self.send(number, sent)?;
                Ok(true)
            }
            Err(silence) => Ok(silence != Silence::IsWrong),
        }
    }

    /// Asks each of these.
    pub fn ask_each<R: Threads + Wait + Sync>(
        &mut self,
        rt: &R,
        numbers: &[usize],
        call: Call<'_>,
    ) -> Result<bool, Memory> {
        for number in numbers {
            if !self.ask(rt, *number, call)? {
                return Ok(false);
            }
        }
        Ok(true)
    }

    /// The client's request of that timestamp comes to these.
    pub fn request<R: Threads + Wait + Sync>(
        &mut self,
        rt: &R,
        numbers: &[usize],
        timestamp: u32,
    ) -> Result<bool, Memory> {
        let bytes = request(self.alloc, 1, timestamp)?;
        self.ask_each(rt, numbers, Call::Deliver(bytes.as_slice()))
    }

    /// A large request of that timestamp comes to these.
    pub fn large_request<R: Threads + Wait + Sync>(
        &mut self,
        rt: &R,
        numbers: &[usize],
        timestamp: u32,
    ) -> Result<bool, Memory> {
        let bytes = large_request(self.alloc, timestamp)?;
        self.ask_each(rt, numbers, Call::Deliver(bytes.as_slice()))
    }

    /// What is on its way comes to those that are heard, and not what they send then.
    pub fn hand_over<R: Threads + Wait + Sync>(
        &mut self,
        rt: &R,
        heard: &[usize],
    ) -> Result<bool, Memory> {
        let due = std::mem::replace(&mut self.on_their_way, Vec::new(self.alloc));
        for (sender, bytes) in &due {
            if !self.hand_over_one(rt, heard, *sender, bytes.as_slice())? {
                return Ok(false);
            }
        }
        Ok(true)
    }

    fn hand_over_one<R: Threads + Wait + Sync>(
        &mut self,
        rt: &R,
        heard: &[usize],
        sender: usize,
        bytes: &[u8],
    ) -> Result<bool, Memory> {
        for number in heard {
            if *number != sender && !self.ask(rt, *number, Call::Deliver(bytes))? {
                return Ok(false);
            }
        }
        Ok(true)
    }

    /// Each of these that is to follow others leaves for the view that they ask for.
    pub fn follow<R: Threads + Wait + Sync>(
        &mut self,
        rt: &R,
        numbers: &[usize],
    ) -> Result<bool, Memory> {
        for number in numbers {
            let view = match self.all.get(*number) {
                Some(replica) => replica.to_follow(),
                None => return Ok(false),
            };
            if let Some(view) = view {
                if !self.ask(rt, *number, Call::LeaveFor(view))? {
                    return Ok(false);
                }
            }
        }
        Ok(true)
    }

    /// Each of these gives again what each other one of them needs, and it comes there.
    pub fn resend<R: Threads + Wait + Sync>(
        &mut self,
        rt: &R,
        numbers: &[usize],
    ) -> Result<bool, Memory> {
        for from in numbers {
            for to in numbers {
                if from != to && !self.resend_to(rt, *from, *to)? {
                    return Ok(false);
                }
            }
        }
        Ok(true)
    }

    fn resend_to<R: Threads + Wait + Sync>(
        &mut self,
        rt: &R,
        from: usize,
        to: usize,
    ) -> Result<bool, Memory> {
        let sent = match (self.all.get(from), self.all.get(to)) {
            (Some(replica), Some(other)) => replica.resends(other.lag())?,
            _ => return Ok(false),
        };
        for signed in &sent {
            let bytes = spelled(self.alloc, signed)?;
            if !self.ask(rt, to, Call::Deliver(bytes.as_slice()))? {
                return Ok(false);
            }
        }
        Ok(true)
    }

    // it executes what is next, and makes a checkpoint where one is due
    fn goes_on<R: Threads + Wait + Sync>(
        &mut self,
        rt: &R,
        number: usize,
        may_fail: bool,
    ) -> Result<bool, Memory> {
        let Some(replica) = self.all.get_mut(number) else {
            return Ok(false);
        };
        match replica.goes_on(rt) {
            Ok(sent) => {
                self.send(number, sent)?;
                self.ask(rt, number, Call::Checkpoint)
            }
            Err(Silence::HasFailed) if may_fail => Ok(true),
            Err(Silence::HasFailed) => Err(Memory),
            Err(silence) => Ok(silence != Silence::IsWrong),
        }
    }

    /// Those that are heard execute what is next. Where one fails for want of memory, that is passed over if it may, and else ends the run.
    pub fn execute<R: Threads + Wait + Sync>(
        &mut self,
        rt: &R,
        heard: &[usize],
        may_fail: bool,
    ) -> Result<bool, Memory> {
        for number in heard {
            if !self.goes_on(rt, *number, may_fail)? {
                return Ok(false);
            }
        }
        Ok(true)
    }

    /// Messages come to those that are heard, who execute what is next, until that has gone on long enough for all that is asked of them.
    pub fn settle<R: Threads + Wait + Sync>(
        &mut self,
        rt: &R,
        heard: &[usize],
    ) -> Result<bool, Memory> {
        for _ in 0u32..5 {
            if !self.hand_over(rt, heard)? || !self.execute(rt, heard, false)? {
                return Ok(false);
            }
        }
        Ok(true)
    }

    /// Those of these that have failed adopt the stable snapshot of the next one, and execute what is next.
    pub fn mend<R: Threads + Wait + Sync>(
        &mut self,
        rt: &R,
        numbers: &[usize],
    ) -> Result<bool, Memory> {
        for number in numbers {
            let other = number.wrapping_add(1) % 4;
            let has_failed = self.digest(rt, *number).is_none();
            if has_failed
                && !(self.adopt(rt, *number, other)? && self.goes_on(rt, *number, false)?)
            {
                return Ok(false);
            }
        }
        Ok(true)
    }

    /// A replica adopts the stable snapshot of another one.
    pub fn adopt<R: Threads + Sync>(
        &mut self,
        rt: &R,
        number: usize,
        from: usize,
    ) -> Result<bool, Memory> {
        let Some(other) = self.all.get(from) else {
            return Ok(false);
        };
        let Some(snapshot) = other.snapshot()? else {
            return Ok(false);
        };
        Ok(match self.all.get_mut(number) {
            Some(replica) => replica.adopts(rt, &snapshot),
            None => false,
        })
    }

    /// A replica adopts what another one has told of a number, by what both have heard.
    pub fn adopt_told<R: Threads + Sync>(
        &mut self,
        rt: &R,
        number: usize,
        from: usize,
        told: u64,
    ) -> Result<bool, Memory> {
        let (Some(replica), Some(other)) = (self.all.get(number), self.all.get(from)) else {
            return Ok(false);
        };
        let Some(snapshot) = replica.collects(other, told)? else {
            return Ok(false);
        };
        Ok(match self.all.get_mut(number) {
            Some(replica) => replica.adopts(rt, &snapshot),
            None => false,
        })
    }

    /// A replica settles the checkpoint of another one's stable snapshot.
    pub fn settle_by<R: Threads + Sync>(
        &mut self,
        rt: &R,
        number: usize,
        from: usize,
    ) -> Result<bool, Memory> {
        let Some(other) = self.all.get(from) else {
            return Ok(false);
        };
        let Some(snapshot) = other.snapshot()? else {
            return Ok(false);
        };
        Ok(match self.all.get_mut(number) {
            Some(replica) => replica.settles(rt, &snapshot),
            None => false,
        })
    }

    /// A replica executes what is next, and makes no checkpoint.
    pub fn pass_on<R: Threads + Wait + Sync>(
        &mut self,
        rt: &R,
        number: usize,
    ) -> Result<bool, Memory> {
        let Some(replica) = self.all.get_mut(number) else {
            return Ok(false);
        };
        match replica.goes_on(rt) {
            Ok(sent) => {
                self.send(number, sent)?;
                Ok(true)
            }
            Err(Silence::HasFailed) => Err(Memory),
            Err(_) => Ok(false),
        }
    }
}
