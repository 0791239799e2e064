//! What happens to one replica, one event after another, as tables. The proof of a test that tells them by calls takes many times as long.
use crate::parts::Told;
use crate::replica::{Answer, Replica};
use bfs_testing::asserts::compared;
use bfs_types::Memory;
use std::alloc::Global;
use std::test::Fail;
use std::thread::Threads;

/// What happens to a replica, or what it is asked.
#[derive(Clone, Copy)]
pub enum Event {
    /// It takes what that replica signs, whoever the message says that it is of.
    Take(u32, Told),
    /// It takes what the first one signs, with a changed entry for the second.
    TakeSpoiled((u32, u32), Told),
    /// It takes a message without entries.
    TakeUnsigned(Told),
    /// PREPAREs for number 1 come from the first of these replicas up to the second, and not of it.
    TakePrepares(u32, u32),
    /// COMMITs for number 1 come from the first of these replicas up to the second, and not of it, until there is a number to execute.
    TakeCommits(u32, u32),
    /// Whether it may propose.
    MayPropose,
    /// It proposes the null request.
    Propose,
    /// It proposes the null request so many times.
    ProposeMany(u32),
    /// It executes what is next.
    Execute,
    /// Whether it may tell a checkpoint of that number.
    MayTell(u64),
    /// It tells a checkpoint of that number, with a digest of that byte.
    Tell(u64, u8),
    /// It installs number 16 with a digest of the byte 1, by CHECKPOINTs of that number, each of a sender and with a digest of that byte.
    Install(&'static [(u32, u8)]),
    /// It installs that number with a digest of that byte, by CHECKPOINTs as before.
    InstallAs(u64, u8, &'static [(u32, u8)]),
    /// It leaves its view for that one.
    Leave(u64),
    /// It enters a view. PRE-PREPAREs are handed over, each of a sender for a number of view 1.
    Enter(u64, &'static [(u32, u64)]),
    /// It enters view 1 behind a number with a digest of the byte 1, by CHECKPOINTs of number 16 as before. PRE-PREPAREs are handed over.
    EnterBehind(u64, &'static [(u32, u8)], &'static [(u32, u64)]),
    /// How many replicas may be faulty, and its own number.
    Itself,
    /// Its view.
    View,
    /// Its low mark and its high one.
    Marks,
    /// The number last executed.
    LastExecuted,
    /// The number that may be executed next.
    Next,
    /// How many messages its log has.
    Kept,
}

/// What happens, and what comes of it.
pub struct Step(pub Event, pub Answer);

/// What happens to that replica among 3f + 1, where so many may be faulty.
pub struct Script {
    pub faults: u32,
    pub me: u32,
    pub steps: &'static [Step],
}

fn happens<R: Threads + Sync>(
    rt: &R,
    replica: &mut Replica,
    event: Event,
) -> Result<Answer, Memory> {
    match event {
        Event::Take(signer, told) => replica.take(rt, signer, told),
        Event::TakeSpoiled(of, told) => replica.take_spoiled(rt, of, told),
        Event::TakeUnsigned(told) => replica.take_unsigned(rt, told),
        Event::TakePrepares(from, to) => replica.take_prepares(rt, from, to),
        Event::TakeCommits(from, to) => replica.take_commits(rt, from, to),
        Event::Propose => replica.propose(),
        Event::ProposeMany(count) => replica.propose_many(count),
        Event::Execute => Ok(replica.execute()),
        Event::Tell(number, byte) => Ok(replica.tell(number, byte)),
        Event::Install(told) => replica.install(16, 1, told),
        Event::InstallAs(number, byte, told) => replica.install(number, byte, told),
        Event::Leave(view) => Ok(replica.leave(view)),
        Event::Enter(view, chosen) => replica.enter(view, chosen),
        Event::EnterBehind(number, told, chosen) => replica.enter_behind(number, told, chosen),
        Event::MayPropose => Ok(replica.may_propose()),
        Event::MayTell(number) => Ok(replica.may_tell(number)),
        Event::Itself => Ok(replica.itself()),
        Event::Marks => Ok(replica.marks()),
        Event::View => Ok(Answer::Number(replica.view())),
        Event::LastExecuted => Ok(Answer::Number(replica.last_executed())),
        Event::Next => Ok(Answer::Number(replica.next())),
        Event::Kept => Ok(Answer::Kept(replica.kept())),
    }
}

// the place of the first step of which something else comes, and what does
fn first_wrong<R: Threads + Sync>(
    rt: &R,
    replica: &mut Replica,
    steps: &[Step],
) -> Result<Option<(usize, Answer)>, Memory> {
    for (place, Step(event, wanted)) in steps.iter().enumerate() {
        let answer = happens(rt, replica, *event)?;
        if answer != *wanted {
            return Ok(Some((place, answer)));
        }
    }
    Ok(None)
}

impl Script {
    /// It all comes as it is told.
    pub fn plays<R: Threads + Sync>(&self, rt: &R, alloc: Global) -> Result<(), Fail> {
        let mut replica = Replica::new(alloc, self.faults, self.me)?;
        compared(first_wrong(rt, &mut replica, self.steps)?, None)?;
        Ok(())
    }
}
