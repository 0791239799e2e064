//! Worked groups: each refusal, and calls that are finished after later ones.
use crate::groups::{
    Asked, batch_of, compare, compare_first, compare_played, core_of, execute, first_core, happens,
    part_of, played, with_files,
};
use bfs_overtaking::{Core, Event};
use bfs_serial::{Batch, FileSystem};
use bfs_testing::asserts::compared;
use bfs_testing::numbers::{CREATE, LOOKUP, READ, REMOVE, RENAME, STATFS, WRITE};
use bfs_testing::same;
use bfs_testing::words::{A, B, D, FOURTH, ROOT, THIRD, UNSET};
use bfs_types::Memory;
use std::alloc::Global;
use std::test::Fail;

const BYTE: &[u32] = &[0, 0, 0, 1, 0x61000000];

const PLACE: &[u32] = &[0, 8, 0];

static WRITES: &[Asked] = &[
    Asked(WRITE, &[THIRD, BYTE]),
    Asked(WRITE, &[FOURTH, BYTE]),
    Asked(WRITE, &[THIRD, BYTE]),
];

static EVENTS: &[(Event, u32)] = &[
    (Event::Take(9), 17),
    (Event::Finish(9), 17),
    (Event::Finish(0), 16),
    (Event::Take(2), 14),
    (Event::Take(0), 0),
    (Event::Take(0), 15),
    (Event::Take(1), 0),
    (Event::Finish(1), 0),
    (Event::Take(1), 15),
    (Event::Finish(1), 16),
    (Event::Take(2), 14),
    (Event::Finish(0), 0),
    (Event::Take(2), 0),
    (Event::Finish(2), 0),
];

// the place of the first that comes to something else, or before which all is finished
fn first_wrong(core: &mut Core, events: &[(Event, u32)]) -> Option<usize> {
    let mut place = 0;
    for event in events {
        if core.finished() || happens(core, event.0) != event.1 {
            return Some(place);
        }
        place = usize::saturating_add(place, 1);
    }
    None
}

// those that are not refused
fn accepted(alloc: Global, events: &[(Event, u32)]) -> Result<Vec<Event>, Memory> {
    let mut accepted = Vec::new(alloc);
    for event in events {
        if event.1 == 0 {
            accepted.push(event.0)?;
        }
    }
    Ok(accepted)
}

// at the machine of the batch's first group, which is then as the calls one after another leave it
fn first_wrong_of(
    alloc: Global,
    batch: &Batch,
    events: &[(Event, u32)],
) -> Result<Option<usize>, Fail> {
    let mut core = first_core(alloc, batch)?;
    let wrong = first_wrong(&mut core, events);
    compare_first(alloc, &core, batch, 3)?;
    Ok(wrong)
}

fn compare_accepted(alloc: Global, batch: &Batch, events: &[(Event, u32)]) -> Result<(), Fail> {
    compare_played(alloc, batch, &accepted(alloc, events)?, 3)
}

#[test]
fn refuses_events_out_of_turn(rt: HostRuntime) -> Result<(), Fail> {
    let batch = batch_of(rt.alloc(), 2, WRITES)?;
    same!(rt; first_wrong_of(rt.alloc(), &batch, EVENTS)?, None);
    compare_accepted(rt.alloc(), &batch, EVENTS)
}

// to which of the requests 0, 1 and 9 there is a reply
fn replied(core: &Core) -> (bool, bool, bool) {
    (
        core.reply(0).is_some(),
        core.reply(1).is_some(),
        core.reply(9).is_some(),
    )
}

#[test]
fn replies_once_a_call_is_finished(rt: HostRuntime) -> Result<(), Fail> {
    let batch = batch_of(rt.alloc(), 2, WRITES)?;
    let mut core = first_core(rt.alloc(), &batch)?;
    same!(rt; replied(&core), (false, false, false));
    same!(rt; happens(&mut core, Event::Take(1)), 0);
    same!(rt; replied(&core), (false, false, false));
    same!(rt; happens(&mut core, Event::Finish(1)), 0);
    same!(rt; replied(&core), (false, true, false));
    Ok(())
}

// the number of the refusal with which it ends, and whether all is finished where there is none
fn play(alloc: Global, batch: &Batch, events: &[Event]) -> Result<(u32, bool), Fail> {
    match played(alloc, &mut with_files(alloc)?, batch, 0, events) {
        Ok(core) => Ok((0, core.finished())),
        Err(refused) => Ok((refused.code(), false)),
    }
}

static REFUSED_SECOND: &[Event] = &[Event::Take(1), Event::Take(2), Event::Finish(9)];

#[test]
fn play_ends_with_the_first_refusal(rt: HostRuntime) -> Result<(), Fail> {
    let alloc = rt.alloc();
    let batch = batch_of(alloc, 2, WRITES)?;
    same!(rt; play(alloc, &batch, REFUSED_SECOND)?, (14, false));
    same!(rt; play(alloc, &batch, &[])?, (0, false));
    Ok(())
}

pub(crate) static READS_BETWEEN: &[Asked] = &[
    Asked(WRITE, &[THIRD, BYTE]),
    Asked(READ, &[THIRD, PLACE]),
    Asked(WRITE, &[FOURTH, BYTE]),
    Asked(READ, &[THIRD, PLACE]),
    Asked(WRITE, &[THIRD, BYTE]),
];

pub(crate) static OVERTAKING: &[Event] = &[
    Event::Take(0),
    Event::Take(2),
    Event::Finish(2),
    Event::Finish(0),
    Event::Take(3),
    Event::Take(1),
    Event::Finish(3),
    Event::Finish(1),
    Event::Take(4),
    Event::Finish(4),
];

#[test]
fn reads_overtake_each_other(rt: HostRuntime) -> Result<(), Fail> {
    let alloc = rt.alloc();
    let batch = batch_of(alloc, 2, READS_BETWEEN)?;
    compare_played(alloc, &batch, OVERTAKING, 5)
}

static REPLACING: &[Asked] = &[
    Asked(REMOVE, &[ROOT, A]),
    Asked(CREATE, &[ROOT, A, UNSET]),
    Asked(LOOKUP, &[ROOT, A]),
    Asked(STATFS, &[ROOT]),
    Asked(RENAME, &[ROOT, B, ROOT, D]),
];

// a file system on which the requests before that one were executed
fn before(alloc: Global, batch: &Batch, first: u32) -> Result<FileSystem, Fail> {
    let mut files = with_files(alloc)?;
    execute(alloc, &mut files, &part_of(alloc, batch, 0, first)?)?;
    Ok(files)
}

fn finish_one(core: &mut Core, number: u32) -> u32 {
    match happens(core, Event::Take(number)) {
        0 => happens(core, Event::Finish(number)),
        refusal => refusal,
    }
}

// the number of the first refusal, 0 where each call is taken and finished
fn finish_each(core: &mut Core, first: u32, end: u32) -> u32 {
    for number in first..end {
        let refusal = finish_one(core, number);
        if refusal != 0 {
            return refusal;
        }
    }
    0
}

// the number of the first refusal of those, and of the call behind them
fn finish_all(core: &mut Core, first: u32, end: u32) -> (u32, u32) {
    let refusal = finish_each(core, first, end);
    (refusal, happens(core, Event::Take(end)))
}

// a group of so many calls that begins with that one. The call behind it is of no call of it
fn ends(alloc: Global, core: &mut Core, batch: &Batch, first: u32, count: u32) -> Result<(), Fail> {
    let end = first.saturating_add(count);
    compared(finish_all(core, first, end), (0, 17))?;
    let mut files = before(alloc, batch, first)?;
    compare(alloc, core, &mut files, batch, first, count)
}

fn goes(alloc: Global, batch: &Batch, first: u32, count: u32) -> Result<(), Fail> {
    let mut files = before(alloc, batch, first)?;
    let mut core = core_of(alloc, &mut files, batch, first)?;
    ends(alloc, &mut core, batch, first, count)
}

// the first calls of groups, and how many calls they have
static GROUPS: &[(u32, u32)] = &[(0, 2), (2, 1), (3, 1), (4, 1)];

#[test]
fn goes_group_after_group(rt: HostRuntime) -> Result<(), Fail> {
    let alloc = rt.alloc();
    let batch = batch_of(alloc, 2, REPLACING)?;
    for group in GROUPS {
        goes(alloc, &batch, group.0, group.1)?;
    }
    Ok(())
}
