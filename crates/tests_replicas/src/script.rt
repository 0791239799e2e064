//! What happens to four replicas, one event after another, as tables. The proof of a test that tells them by calls takes many times as long.
use crate::replica::Call;
use crate::replicas::Replicas;
use bfs_testing_nodes::calls::Standing;
use bfs_types::Memory;
use std::alloc::Global;
use std::sync::Wait;
use std::thread::Threads;

pub const ALL: &[usize] = &[0, 1, 2, 3];

/// The primary of view 0.
pub const PRIMARY: &[usize] = &[0];

/// All but the primary of view 0.
pub const BACKUPS: &[usize] = &[1, 2, 3];

/// What happens, or what is to hold then.
#[derive(Clone, Copy)]
pub enum Event {
    /// The client's request of that timestamp comes to these.
    Ask(&'static [usize], u32),
    /// A large request of that timestamp comes to these.
    AskMuch(&'static [usize], u32),
    /// A replica proposes what waits.
    Propose(usize),
    /// Replica 0 proposes what waits, and what is said of it comes to these: it is committed there.
    Commit(&'static [usize]),
    /// A replica may propose nothing.
    MayNotPropose(usize),
    /// Time runs out at each of these.
    TimeOut(&'static [usize]),
    /// Each of these leaves for that view.
    LeaveFor(&'static [usize], u64),
    /// Each of these that is to follow others leaves for the view that they ask for.
    Follow(&'static [usize]),
    /// Each of these gives again what each other one of them needs.
    Resend(&'static [usize]),
    /// What is on its way comes to these, and what they send then is on its way.
    HandOver(&'static [usize]),
    /// What is on its way is lost.
    Lose,
    /// These execute what is next, and make a checkpoint where one is due. One may fail.
    Execute(&'static [usize]),
    /// These execute what is next, and make a checkpoint where one is due. None may fail: where memory runs out at one, the run ends.
    MustExecute(&'static [usize]),
    /// A replica executes what is next, and makes no checkpoint.
    PassOn(usize),
    /// Messages come to these until none is on its way, and they execute what is next.
    Settle(&'static [usize]),
    /// So many batches without requests are proposed by replica 0, and executed by these.
    Batches(&'static [usize], u32),
    /// Those of these that have failed adopt another one's stable snapshot, and execute what is next.
    Mend(&'static [usize]),
    /// A replica adopts the stable snapshot of another one.
    Adopt(usize, usize),
    /// A replica adopts what another one has told of that number, by what both have heard.
    AdoptTold(usize, usize, u64),
    /// A replica settles the checkpoint of another one's stable snapshot.
    SettleBy(usize, usize),
    /// A NEW-VIEW is on its way that has so many VIEW-CHANGEs and PRE-PREPAREs.
    NewView(usize, usize),
    /// Each of these stands so.
    Stand(&'static [usize], Standing),
    /// Each of these has a stable snapshot that so many CHECKPOINTs tell.
    HaveStable(&'static [usize], usize),
    /// None of these has a stable snapshot.
    HaveNone(&'static [usize]),
    /// The last stable checkpoint of each of these has that number.
    StableAt(&'static [usize], u64),
    /// These have the same digest.
    Agree(&'static [usize]),
    /// A replica's digest is noted.
    Note(usize),
    /// Each of these has the digest that was noted.
    AsNoted(&'static [usize]),
}

fn batches<R: Threads + Wait + Sync>(
    rt: &R,
    all: &mut Replicas,
    heard: &[usize],
    count: u32,
) -> Result<bool, Memory> {
    for _ in 0..count {
        if !all.ask(rt, 0, Call::Propose)? || !all.settle(rt, heard)? {
            return Ok(false);
        }
    }
    Ok(true)
}

// PRE-PREPARE, PREPAREs and COMMITs
fn commit<R: Threads + Wait + Sync>(
    rt: &R,
    all: &mut Replicas,
    heard: &[usize],
) -> Result<bool, Memory> {
    let mut goes_on = all.ask(rt, 0, Call::Propose)?;
    for _ in 0u32..3 {
        goes_on = goes_on && all.hand_over(rt, heard)?;
    }
    Ok(goes_on)
}

fn lose(all: &mut Replicas) -> bool {
    all.lose();
    true
}

// whether it comes as it is told
fn happens<R: Threads + Wait + Sync>(
    rt: &R,
    all: &mut Replicas,
    event: Event,
) -> Result<bool, Memory> {
    match event {
        Event::Ask(numbers, timestamp) => all.request(rt, numbers, timestamp),
        Event::AskMuch(numbers, timestamp) => all.large_request(rt, numbers, timestamp),
        Event::Propose(number) => all.ask(rt, number, Call::Propose),
        Event::Commit(numbers) => commit(rt, all, numbers),
        Event::MayNotPropose(number) => Ok(all.refuses(rt, number, Call::Propose)),
        Event::TimeOut(numbers) => all.ask_each(rt, numbers, Call::TimeOut),
        Event::LeaveFor(numbers, view) => all.ask_each(rt, numbers, Call::LeaveFor(view)),
        Event::Follow(numbers) => all.follow(rt, numbers),
        Event::Resend(numbers) => all.resend(rt, numbers),
        Event::HandOver(numbers) => all.hand_over(rt, numbers),
        Event::Lose => Ok(lose(all)),
        Event::Execute(numbers) => all.execute(rt, numbers, true),
        Event::MustExecute(numbers) => all.execute(rt, numbers, false),
        Event::PassOn(number) => all.pass_on(rt, number),
        Event::Settle(numbers) => all.settle(rt, numbers),
        Event::Batches(numbers, count) => batches(rt, all, numbers, count),
        Event::Mend(numbers) => all.mend(rt, numbers),
        Event::Adopt(number, from) => all.adopt(rt, number, from),
        Event::AdoptTold(number, from, told) => all.adopt_told(rt, number, from, told),
        Event::SettleBy(number, from) => all.settle_by(rt, number, from),
        Event::NewView(changes, proposals) => Ok(all.new_view()? == Some((changes, proposals))),
        Event::Stand(numbers, wanted) => Ok(all.stand(numbers, wanted)),
        Event::HaveStable(numbers, count) => Ok(all.have_stable(numbers, count)),
        Event::HaveNone(numbers) => Ok(all.have_none(numbers)),
        Event::StableAt(numbers, number) => Ok(all.stable_at(numbers, number)),
        Event::Agree(numbers) => Ok(all.agree(rt, numbers)),
        Event::Note(number) => Ok(all.note(rt, number)),
        Event::AsNoted(numbers) => Ok(all.are_as_noted(rt, numbers)),
    }
}

// the place of the first event that does not come as it is told
fn first_wrong<R: Threads + Wait + Sync>(
    rt: &R,
    all: &mut Replicas,
    events: &[Event],
) -> Result<Option<usize>, Memory> {
    for (place, event) in events.iter().enumerate() {
        if !happens(rt, all, *event)? {
            return Ok(Some(place));
        }
    }
    Ok(None)
}

/// The place of the first event that does not come as it is told, at four replicas that have done nothing.
pub fn wrong_in<R: Threads + Wait + Sync>(
    rt: &R,
    alloc: Global,
    events: &[Event],
) -> Result<Option<usize>, Memory> {
    let mut all = Replicas::new(rt, alloc)?;
    first_wrong(rt, &mut all, events)
}

// what shows of logs and of kept VIEW-CHANGEs: all say what they have prepared and what is stable, and the next primary passes on what it keeps
static SAID_AT_THE_END: [Event; 2] = [Event::TimeOut(ALL), Event::HandOver(ALL)];

// the place of the first event that does not come as it is told, those at the end among them
fn first_wrong_up_to_the_end<R: Threads + Wait + Sync>(
    rt: &R,
    all: &mut Replicas,
    events: &[Event],
) -> Result<Option<usize>, Memory> {
    match first_wrong(rt, all, events)? {
        None => first_wrong(rt, all, &SAID_AT_THE_END),
        wrong => Ok(wrong),
    }
}

/// The same at four replicas and at four others, whether memory ran out at one of them or not, and whether both then have sent the same. At the
/// end all leave their views, so that what their logs hold is sent too.
pub fn wrong_in_both<R: Threads + Wait + Sync>(
    rt: &R,
    alloc: Global,
    events: &[Event],
) -> Result<(Option<usize>, bool), Memory> {
    let mut all = Replicas::new(rt, alloc)?;
    let mut others = Replicas::new(rt, alloc)?;
    match first_wrong_up_to_the_end(rt, &mut all, events)? {
        None => {
            let wrong = first_wrong_up_to_the_end(rt, &mut others, events)?;
            Ok((wrong, all.said() == others.said()))
        }
        wrong => Ok((wrong, false)),
    }
}
