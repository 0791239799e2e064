//! Turns, whole and cut. Each is told as Rust prints it, or by the words of the error.
use bfs_frames::{Limits, ReadError, read_turn};
use bfs_testing::holds;
use std::alloc::{AllocError, Global};
use std::io;
use std::io::{Error, ErrorKind, Read};
use std::test::Fail;

// two frames, a request and a line of a log, at 1,234,567,890 seconds and 7 microseconds
const TURN: &[u8] = &[
    0x49, 0x96, 0x02, 0xd2, 0, 0, 0, 7, 0, 0, 0, 2, 1, 0, 0, 0, 3, 97, 98, 99, 13, 0, 0, 0, 0,
];

// five frames: kind 0, a request of two bytes, a line of five bytes, kind 14, a line of four bytes
const MIXED: &[u8] = &[
    0, 0, 0, 1, 0, 0, 0, 2, 0, 0, 0, 5, 0, 0, 0, 0, 1, 9, 1, 0, 0, 0, 2, 8, 7, 13, 0, 0, 0, 5, 1,
    2, 3, 4, 5, 14, 0, 0, 0, 0, 13, 0, 0, 0, 4, 1, 2, 3, 4,
];

// a time of that many microseconds, and no frames
const BAD_TIME: &[u8] = &[0, 0, 0, 1, 0, 0x0f, 0x42, 0x40, 0, 0, 0, 0];

const LAST_TIME: &[u8] = &[0, 0, 0, 1, 0, 0x0f, 0x42, 0x3f, 0, 0, 0, 0];

// 4,294,967,295 frames, of which the first is a request without bytes
const FEW: &[u8] = &[
    0, 0, 0, 1, 0, 0, 0, 2, 0xff, 0xff, 0xff, 0xff, 1, 0, 0, 0, 0,
];

// what is read of the bytes first, and how many are left
fn told(alloc: Global, bytes: &[u8], limits: &Limits) -> Result<String, AllocError> {
    let mut input = bytes;
    match read_turn(alloc, &mut input, limits) {
        Ok(Some(turn)) => {
            let left = input.len();
            format!(in alloc; "{turn:?}, {left} left")
        }
        Ok(None) => String::from_str(alloc, "none"),
        Err(error) => format!(in alloc; "{error}"),
    }
}

// with lines of at most four bytes
fn short_lines() -> Limits {
    let mut limits = Limits::new();
    limits.log = 4;
    limits
}

#[test]
fn a_turn_is_read_and_then_none(rt: HostRuntime) -> Result<(), Fail> {
    let alloc = rt.alloc();
    let limits = Limits::new();
    let turn = told(alloc, TURN, &limits)?;
    holds!(rt; turn.as_str() == "Turn { time: Time { seconds: 1234567890, useconds: 7 }, frames: [Frame { kind: Request, payload: [97, 98, 99] }, Frame { kind: Log, payload: [] }] }, 0 left");
    let end = told(alloc, &[], &limits)?;
    holds!(rt; end.as_str() == "none");
    Ok(())
}

#[test]
fn unknown_and_long_frames_are_read_over(rt: HostRuntime) -> Result<(), Fail> {
    let turn = told(rt.alloc(), MIXED, &short_lines())?;
    holds!(rt; turn.as_str() == "Turn { time: Time { seconds: 1, useconds: 2 }, frames: [Frame { kind: Request, payload: [8, 7] }, Frame { kind: Log, payload: [1, 2, 3, 4] }] }, 0 left");
    Ok(())
}

#[test]
fn a_cut_turn_is_refused_wherever_it_ends(rt: HostRuntime) -> Result<(), Fail> {
    let limits = short_lines();
    for turn in [TURN, MIXED] {
        for end in 1..turn.len() {
            let mut input = &turn[..end];
            let refused = matches!(
                read_turn(rt.alloc(), &mut input, &limits),
                Err(ReadError::Cut)
            );
            holds!(rt; refused);
        }
    }
    let few = told(rt.alloc(), FEW, &limits)?;
    holds!(rt; few.as_str() == "the input ends within a turn");
    Ok(())
}

#[test]
fn a_second_has_a_million_microseconds(rt: HostRuntime) -> Result<(), Fail> {
    let alloc = rt.alloc();
    let limits = Limits::new();
    let bad = told(alloc, BAD_TIME, &limits)?;
    holds!(rt; bad.as_str() == "the time of a turn has 1,000,000 microseconds or more");
    let last = told(alloc, LAST_TIME, &limits)?;
    holds!(rt; last.as_str() == "Turn { time: Time { seconds: 1, useconds: 999999 }, frames: [] }, 0 left");
    Ok(())
}

// gives a byte a time, is interrupted before each, and fails where `fails` bytes are left
#[derive(Drop)]
struct Halting<'a> {
    left: &'a [u8],
    fails: usize,
    interrupted: bool,
}

impl Read for Halting<'_> {
    fn read(&mut self, buffer: &mut [u8]) -> io::Result<usize> {
        self.interrupted = !self.interrupted;
        if self.interrupted {
            return Err(Error::from(ErrorKind::Interrupted));
        }
        if self.left.len() == self.fails {
            return Err(Error::from(ErrorKind::TimedOut));
        }
        let Some((first, rest)) = self.left.split_first() else {
            return Ok(0);
        };
        if buffer.is_empty() {
            return Ok(0);
        }
        buffer[0] = *first;
        self.left = rest;
        Ok(1)
    }
}

fn told_halting(alloc: Global, fails: usize) -> Result<String, AllocError> {
    let mut input = Halting {
        left: TURN,
        fails,
        interrupted: false,
    };
    match read_turn(alloc, &mut input, &Limits::new()) {
        Ok(Some(turn)) => format!(in alloc; "{turn:?}"),
        Ok(None) => String::from_str(alloc, "none"),
        Err(error) => format!(in alloc; "{error}"),
    }
}

#[test]
fn a_reader_may_give_little_or_fail(rt: HostRuntime) -> Result<(), Fail> {
    let alloc = rt.alloc();
    let turn = told_halting(alloc, 0)?;
    holds!(rt; turn.as_str() == "Turn { time: Time { seconds: 1234567890, useconds: 7 }, frames: [Frame { kind: Request, payload: [97, 98, 99] }, Frame { kind: Log, payload: [] }] }");
    for fails in 1..=TURN.len() {
        let failed = told_halting(alloc, fails)?;
        holds!(rt; failed.as_str() == "the input cannot be read: timed out");
    }
    Ok(())
}
