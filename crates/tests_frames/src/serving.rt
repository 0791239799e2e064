//! A machine that tells the operator each frame, and refuses two kinds of them.
use crate::writers::Narrow;
use bfs_filter::{Machine, ServeError, TurnError, serve};
use bfs_frames::{Kind, Limits, Parcel, To, Turn};
use bfs_testing::asserts::compared;
use bfs_testing::{holds, same};
use std::alloc::{AllocError, Global};
use std::cell::Cell;
use std::io::{Error, ErrorKind, Write};
use std::sync::Wait;
use std::test::Fail;
use std::thread::Threads;

#[derive(Drop)]
struct Echo {
    alloc: Global,
    turns: u32,
    // how often it has rested; something is due the first three times
    rests: Cell<u32>,
}

impl Machine for Echo {
    ghost takes = { λ _ _ _ _. Unit {0} };

    fn turn<H: Threads + Wait + Sync>(
        &mut self,
        _rt: &H,
        turn: Turn,
    ) -> Result<Vec<Parcel>, TurnError> {
        self.turns = self.turns.saturating_add(1);
        let mut parcels = Vec::new(self.alloc);
        for frame in turn.frames {
            match frame.kind {
                Kind::Status => return Err(TurnError::Memory),
                Kind::Report => return Err(TurnError::Storage(Error::from(ErrorKind::StorageFull))),
                _ => {}
            }
            let to = To::Operator;
            if parcels.push(Parcel { to, frame }).is_err() {
                return Err(TurnError::Memory);
            }
        }
        Ok(parcels)
    }

    fn rest(&self) -> bool {
        let rests = self.rests.get();
        self.rests.set(rests.saturating_add(1));
        rests < 3
    }
}

// a turn of a line and of a frame of no kind, and its answer; a turn without frames, and its answer; turns that are refused, and one that is cut
const LINE: &str = "0000000100000002000000020d000000026f6bff00000000";

const LINE_TOLD: &str = "000000010300000000000000000d000000026f6b";

const EMPTY: &str = "000000010000000300000000";

const EMPTY_TOLD: &str = "00000000";

const STATUS: &str = "0000000100000004000000010600000000";

const REPORT: &str = "0000000100000004000000010a00000000";

const CUT: &str = "0000000100000004000000010a000000";

const BAD_TIME: &str = "00000001ffffffff000000010a00000000";

impl Echo {
    fn new(alloc: Global) -> Echo {
        Echo {
            alloc,
            turns: 0,
            rests: Cell::new(0),
        }
    }
}

fn serves<R: Threads + Wait + Sync, W: Write>(
    rt: &R,
    echo: &mut Echo,
    turns: &[u8],
    writer: &mut W,
) -> Result<(), ServeError> {
    let mut reader = turns;
    serve(echo.alloc, rt, echo, &Limits::new(), &mut reader, writer)
}

fn words_of(alloc: Global, ended: Result<(), ServeError>) -> Result<String, AllocError> {
    match ended {
        Ok(()) => String::from_str(alloc, "the end"),
        Err(error) => format!(in alloc; "{error}"),
    }
}

// what comes of turns: how many were taken, how it ended, and what was written; the writer takes so many bytes
fn served<R: Threads + Wait + Sync>(
    rt: &R,
    alloc: Global,
    turns: &str,
    room: usize,
) -> Result<String, Fail> {
    let input = hex::decode(alloc, turns)?;
    let mut echo = Echo::new(alloc);
    let mut writer = Narrow::new(alloc, room);
    let ended = serves(rt, &mut echo, input.as_slice(), &mut writer);
    let words = words_of(alloc, ended)?;
    let written = hex::encode(alloc, &writer.taken)?;
    Ok(format!(in alloc; "{} {words} {written}", echo.turns)?)
}

#[test]
fn turns_are_answered_until_the_end(rt: HostRuntime) -> Result<(), Fail> {
    let alloc = rt.alloc();
    let input = format!(in alloc; "{LINE}{EMPTY}{LINE}")?;
    let output = format!(in alloc; "3 the end {LINE_TOLD}{EMPTY_TOLD}{LINE_TOLD}")?;
    same!(rt; served(&rt, alloc, input.as_str(), 100)?, output);
    let nothing = served(&rt, alloc, "", 100)?;
    holds!(rt; nothing.as_str() == "0 the end ");
    Ok(())
}

#[test]
fn a_machine_rests_before_the_first_turn_and_behind_each(rt: HostRuntime) -> Result<(), Fail> {
    let alloc = rt.alloc();
    let input = hex::decode(alloc, EMPTY)?;
    let mut echo = Echo::new(alloc);
    let mut writer = Narrow::new(alloc, 100);
    holds!(rt; serves(&rt, &mut echo, input.as_slice(), &mut writer).is_ok());
    // until nothing is due, before the turn, and behind it
    same!(rt; echo.rests.get(), 4 + 1 + 1);
    Ok(())
}

// the turn behind a whole one, how many are taken, and how it ends
static ROWS: &[(&str, u32, &str)] = &[
    (STATUS, 2, "out of memory"),
    (
        REPORT,
        2,
        "what is to be kept cannot be written: no storage space",
    ),
    (CUT, 1, "the input ends within a turn"),
    (
        BAD_TIME,
        1,
        "the time of a turn has 1,000,000 microseconds or more",
    ),
];

// a turn between whole ones, or behind one where it ends the input
fn turns_with(alloc: Global, turn: &str, taken: u32) -> Result<String, AllocError> {
    if taken == 1 {
        format!(in alloc; "{LINE}{turn}")
    } else {
        format!(in alloc; "{LINE}{turn}{LINE}")
    }
}

fn fails_so<R: Threads + Wait + Sync>(
    rt: &R,
    alloc: Global,
    turn: &str,
    taken: u32,
    error: &str,
) -> Result<(), Fail> {
    let input = turns_with(alloc, turn, taken)?;
    let output = format!(in alloc; "{taken} {error} {LINE_TOLD}")?;
    compared(served(rt, alloc, input.as_str(), 100)?, output)?;
    Ok(())
}

#[test]
fn nothing_is_written_of_a_turn_that_fails(rt: HostRuntime) -> Result<(), Fail> {
    for (turn, taken, error) in ROWS {
        fails_so(&rt, rt.alloc(), *turn, *taken, *error)?;
    }
    Ok(())
}

// what is written before a writer that takes so many bytes of two answers
fn front_of(alloc: Global, told: &str, room: usize) -> Result<String, Fail> {
    let taken = if room < 20 { 1 } else { 2 };
    let Some(front) = told.get(..room.saturating_mul(2)) else {
        return Err("a shorter text".into());
    };
    Ok(format!(in alloc; "{taken} the answer cannot be written: timed out {front}")?)
}

#[test]
fn a_writer_may_refuse_each_byte(rt: HostRuntime) -> Result<(), Fail> {
    let alloc = rt.alloc();
    let input = format!(in alloc; "{LINE}{EMPTY}")?;
    let told = format!(in alloc; "{LINE_TOLD}{EMPTY_TOLD}")?;
    for room in 0usize..24 {
        let output = front_of(alloc, told.as_str(), room)?;
        same!(rt; served(&rt, alloc, input.as_str(), room)?, output);
    }
    Ok(())
}
