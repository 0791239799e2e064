//! A replica among 3f + 1, with its keys. What is done to it comes to an answer, and to nothing that a contract says.
use crate::parts::{Told, handed_by, members, null, told_by};
use bfs_auth::Keys;
use bfs_log::StableCheckpoint;
use bfs_messages::{Checkpoint, HashedBatch, Message, OrderMessage, PrePrepare, Signed};
use bfs_order::{Order, OrderError};
use bfs_pending::PendingRequests;
use bfs_types::Memory;
use std::alloc::Global;
use std::thread::Threads;

/// What comes of an event.
#[derive(Clone, Copy, Debug, PartialEq, Eq)]
pub enum Answer {
    /// It is done, or may be done.
    Done,
    /// It is done, and so many messages are sent.
    Sent(usize),
    /// The number of the refusal.
    Refused(u32),
    /// A view and a number.
    Proposed(u64, u64),
    /// A number and how many requests its batch has.
    Executed(u64, usize),
    /// How many of several are answered by a message, and which is the first.
    Answered(u32, u32),
    /// The low mark and the high one.
    Marks(u64, u64),
    /// How many replicas may be faulty, and its own number.
    Itself(u32, u32),
    /// So many messages are in its log.
    Kept(usize),
    /// A number, 0 where there is none.
    Number(u64),
}

fn done<T: Drop>(given: Result<T, OrderError>) -> Answer {
    match given {
        Ok(_) => Answer::Done,
        Err(error) => Answer::Refused(error.code()),
    }
}

fn may(refusal: Option<OrderError>) -> Answer {
    match refusal {
        None => Answer::Done,
        Some(error) => Answer::Refused(error.code()),
    }
}

fn sent(given: Result<Vec<Signed<Message>>, OrderError>) -> Answer {
    match given {
        Ok(sent) => Answer::Sent(sent.len()),
        Err(error) => Answer::Refused(error.code()),
    }
}

fn proposed(given: Result<Signed<OrderMessage>, OrderError>) -> Answer {
    match given {
        Err(error) => Answer::Refused(error.code()),
        Ok(signed) => Answer::Proposed(signed.message.view(), signed.message.number()),
    }
}

/// A replica among 3f + 1, with its keys.
#[derive(Drop)]
pub struct Replica {
    alloc: Global,
    faults: u32,
    keys: Keys,
    order: Order,
}

impl Replica {
    pub fn new(alloc: Global, faults: u32, me: u32) -> Result<Replica, Memory> {
        if faults > 10 || me > 3 * faults {
            return Err(Memory);
        }
        Ok(Replica {
            alloc,
            faults,
            keys: members(faults).keys_of(alloc, me)?,
            order: Order::new(alloc, faults, me),
        })
    }

    fn take_signed<R: Threads + Sync>(&mut self, rt: &R, signed: Signed<OrderMessage>) -> Answer {
        let none = PendingRequests::new(self.alloc);
        sent(self.order.on_message(rt, &self.keys, &none, signed))
    }

    /// It takes what that one signs, whoever the message says that it is of.
    pub fn take<R: Threads + Sync>(
        &mut self,
        rt: &R,
        signer: u32,
        told: Told,
    ) -> Result<Answer, Memory> {
        let signed = told.signed_by(self.alloc, self.faults, signer)?;
        Ok(self.take_signed(rt, signed))
    }

    /// It takes what that one signs, with a changed entry for a receiver.
    pub fn take_spoiled<R: Threads + Sync>(
        &mut self,
        rt: &R,
        (signer, receiver): (u32, u32),
        told: Told,
    ) -> Result<Answer, Memory> {
        let signed = told.spoiled_for(self.alloc, self.faults, signer, receiver)?;
        Ok(self.take_signed(rt, signed))
    }

    /// It takes a message without entries.
    pub fn take_unsigned<R: Threads + Sync>(
        &mut self,
        rt: &R,
        told: Told,
    ) -> Result<Answer, Memory> {
        let signed = told.unsigned(self.alloc, self.faults)?;
        Ok(self.take_signed(rt, signed))
    }

    /// Which of these replicas' PREPAREs for number 1 of view 0 it answers, one after another.
    pub fn take_prepares<R: Threads + Sync>(
        &mut self,
        rt: &R,
        from: u32,
        to: u32,
    ) -> Result<Answer, Memory> {
        let mut answers = 0u32;
        let mut first = 0u32;
        for sender in from..to {
            if self.take(rt, sender, Told::Prepare(sender, 0, 1))? != Answer::Sent(0) {
                answers = answers.wrapping_add(1);
                if answers == 1 {
                    first = sender;
                }
            }
        }
        Ok(Answer::Answered(answers, first))
    }

    /// What it may execute after one of these replicas' COMMITs for number 1 of view 0.
    pub fn take_commits<R: Threads + Sync>(
        &mut self,
        rt: &R,
        from: u32,
        to: u32,
    ) -> Result<Answer, Memory> {
        for sender in from..to {
            self.take(rt, sender, Told::Commit(sender, 0, 1))?;
            if self.next() != 0 {
                break;
            }
        }
        Ok(Answer::Number(self.next()))
    }

    /// Whether it may propose.
    pub fn may_propose(&self) -> Answer {
        may(self.order.proposal_refusal())
    }

    /// It proposes the null request.
    pub fn propose(&mut self) -> Result<Answer, Memory> {
        let batch = HashedBatch::new(null(self.alloc)?);
        Ok(proposed(self.order.propose(&self.keys, batch)))
    }

    /// How many null requests it proposes, of so many.
    pub fn propose_many(&mut self, count: u32) -> Result<Answer, Memory> {
        let mut accepted = 0u64;
        for _ in 0..count {
            if let Answer::Proposed(_, _) = self.propose()? {
                accepted = accepted.wrapping_add(1);
            }
        }
        Ok(Answer::Number(accepted))
    }

    /// The number that it may execute next, 0 where there is none.
    pub fn next(&self) -> u64 {
        match self.order.next_committed() {
            Some(committed) => committed.number(),
            None => 0,
        }
    }

    /// It executes what is next.
    pub fn execute(&mut self) -> Answer {
        let Some(committed) = self.order.next_committed() else {
            return Answer::Number(0);
        };
        let number = committed.number();
        let requests = committed.batch().requests().len();
        self.order.executed(number);
        Answer::Executed(number, requests)
    }

    /// Whether it may tell a checkpoint of that number.
    pub fn may_tell(&self, number: u64) -> Answer {
        may(self.order.checkpoint_refusal(number))
    }

    /// It tells a checkpoint of that number, with a digest of that byte.
    pub fn tell(&mut self, number: u64, byte: u8) -> Answer {
        done(self.order.on_checkpoint(&self.keys, number, [byte; 32]))
    }

    // CHECKPOINTs of number 16, each of a sender and with a digest of one byte
    fn told(&self, told: &[(u32, u8)]) -> Result<Vec<Signed<Checkpoint>>, Memory> {
        let mut all = Vec::new(self.alloc);
        for (sender, byte) in told {
            all.push(told_by(self.alloc, self.faults, *sender, *byte)?)?;
        }
        Ok(all)
    }

    /// It installs a number with a digest of one byte, by CHECKPOINTs of number 16, each of a sender and with a digest of one byte.
    pub fn install(&mut self, number: u64, byte: u8, told: &[(u32, u8)]) -> Result<Answer, Memory> {
        let told = self.told(told)?;
        let stable = StableCheckpoint::new(number % (1 << 63), [byte; 32], told);
        Ok(done(self.order.install(&self.keys, &stable)))
    }

    /// It leaves its view for that one.
    pub fn leave(&mut self, view: u64) -> Answer {
        done(self.order.leave_view(view))
    }

    // PRE-PREPAREs of the null request, each of a sender for a number of view 1
    fn handed(&self, chosen: &[(u32, u64)]) -> Result<Vec<Signed<PrePrepare>>, Memory> {
        let mut all = Vec::new(self.alloc);
        for (sender, number) in chosen {
            all.push(handed_by(self.alloc, self.faults, *sender, *number)?)?;
        }
        Ok(all)
    }

    /// It enters a view, with PRE-PREPAREs of the null request, each of a sender for a number of view 1.
    pub fn enter(&mut self, view: u64, chosen: &[(u32, u64)]) -> Result<Answer, Memory> {
        let handed = self.handed(chosen)?;
        Ok(sent(self.order.enter_view(&self.keys, view, None, handed)))
    }

    /// It enters view 1 so, behind a number with a digest of the byte 1, by CHECKPOINTs of number 16, each of a sender and with a digest of one byte.
    pub fn enter_behind(
        &mut self,
        number: u64,
        told: &[(u32, u8)],
        chosen: &[(u32, u64)],
    ) -> Result<Answer, Memory> {
        let told = self.told(told)?;
        let stable = StableCheckpoint::new(number % (1 << 63), [1; 32], told);
        let handed = self.handed(chosen)?;
        Ok(sent(self.order.enter_view(&self.keys, 1, Some(&stable), handed)))
    }

    /// How many replicas may be faulty, and its own number.
    pub fn itself(&self) -> Answer {
        Answer::Itself(self.order.f(), self.order.me())
    }

    pub fn marks(&self) -> Answer {
        Answer::Marks(self.order.low(), self.order.high())
    }

    pub fn view(&self) -> u64 {
        self.order.view()
    }

    pub fn last_executed(&self) -> u64 {
        self.order.last_executed()
    }

    /// How many messages its log has.
    pub fn kept(&self) -> usize {
        self.order.log().len()
    }
}
