//! Callers: for whom the calls of a client are, behind lines that say so.
//!
//! The bytes of the calls are RFC 5531's, word by word: the header of section 9, and in it the credential of appendix A.
use crate::populations::parse_alone;
use bfs_testing::asserts::compared;
use bfs_testing::same;
use bfs_trace::{Request, TraceError, TraceEvent};
use std::alloc::Global;
use std::test::Fail;

static FAULTS: [&str; 26] = [
    "as",
    "as ",
    "as 0",
    "as 0 ",
    "as 0 1",
    "as 0 1 ",
    "as 0 1 2 ",
    "as  0 1 2",
    "as 0  1 2",
    "as 0 1 2  3",
    " as 0 1 2",
    "As 0 1 2",
    "as\t0 1 2",
    "as 0 1 2\r",
    "as 16 1 2",
    "as #0 1 2",
    "as +0 1 2",
    "as 0 +1 2",
    "as 0 -1 2",
    "as 0 1 +2",
    "as 0 1 2 x",
    "as 0 4294967296 2",
    "as 0 1 4294967296",
    "as 0 1 2 4294967296",
    "as 0 1 2 1 2 3 4 5 6 7 8 9 10 11 12 13 14 15 16 17",
    "as 0 1 2 1 2 3 4 5 6 7 8 9 10 11 12 13 14 15 16 +17",
];

/// The first line at fault of a trace, or 0.
fn line_at_fault(alloc: Global, text: &str) -> Result<usize, Fail> {
    match parse_alone(alloc, text.as_bytes()) {
        Ok(_) => Ok(0),
        Err(TraceError::BadLine(number)) => Ok(number),
        Err(TraceError::Memory) => Err(Fail::from("memory")),
    }
}

fn first_taken(alloc: Global) -> Result<Option<&'static str>, Fail> {
    for line in &FAULTS {
        let text = format!(in alloc; "# a\nbatch 1.000000\n{line}\nbatch 2.000000\n")?;
        if line_at_fault(alloc, text.as_str())? != 3 {
            return Ok(Some(*line));
        }
    }
    Ok(None)
}

#[test]
fn refuses_words_that_name_no_caller(rt: HostRuntime) -> Result<(), Fail> {
    Ok(compared(first_taken(rt.alloc())?, None)?)
}

// where lines may stand, and the first line at fault, or 0
static PLACES: [(&str, usize); 6] = [
    ("as 0 1 2", 0),
    ("as 00 01 002 0003\nas 15 4294967295 4294967295\n", 0),
    ("as 0 1 2\n0 1 null\n", 2),
    ("batch 1.000000\nas 0 1 2\n0 1 null\n", 3),
    ("batch 1.000000\n0 1 null\nas 0 1 2\n# a\n\n0 2 null\n", 6),
    (
        "batch 1.000000\n0 1 null\nas 0 1 2\nbatch 2.000000\n0 2 null\n",
        0,
    ),
];

fn first_misplaced(alloc: Global) -> Result<Option<&'static str>, Fail> {
    for (text, line) in &PLACES {
        if line_at_fault(alloc, *text)? != *line {
            return Ok(Some(*text));
        }
    }
    Ok(None)
}

#[test]
fn names_callers_between_blocks(rt: HostRuntime) -> Result<(), Fail> {
    Ok(compared(first_misplaced(rt.alloc())?, None)?)
}

const NAMED: &[u8] =
    b"as 3 9 8\nbatch 1.000000\n3 1 null\n2 2 null\nas 2 7 6 5 4294967295\nas 3 0 0 1 2 3 4 5 6 7 8 9 10 11 12 13 14 15 16\nbatch 2.000000\n3 3 null\nbatch 3.000000\n2 4 null\n1 5 null\nas 2 1 2\nbatch 4.000000\n2 6 null\n3 7 null\n";

// the same calls, of which each has its caller in its bytes
const SPELLED: &[u8] =
    b"batch 1.000000\n3 1 raw 000000010000000000000002000186a30000000200000000000000010000001c00000000000000067265706c617900000000000900000008000000000000000000000000\n2 2 raw 000000020000000000000002000186a30000000200000000000000010000001c00000000000000067265706c61790000000003ea00000064000000000000000000000000\nbatch 2.000000\n3 3 raw 000000030000000000000002000186a30000000200000000000000010000005c00000000000000067265706c617900000000000000000000000000100000000100000002000000030000000400000005000000060000000700000008000000090000000a0000000b0000000c0000000d0000000e0000000f000000100000000000000000\nbatch 3.000000\n2 4 raw 000000040000000000000002000186a30000000200000000000000010000002400000000000000067265706c6179000000000007000000060000000200000005ffffffff0000000000000000\n1 5 raw 000000050000000000000002000186a30000000200000000000000010000001c00000000000000067265706c61790000000003e900000064000000000000000000000000\nbatch 4.000000\n2 6 raw 000000060000000000000002000186a30000000200000000000000010000001c00000000000000067265706c617900000000000100000002000000000000000000000000\n3 7 raw 000000070000000000000002000186a30000000200000000000000010000005c00000000000000067265706c617900000000000000000000000000100000000100000002000000030000000400000005000000060000000700000008000000090000000a0000000b0000000c0000000d0000000e0000000f000000100000000000000000\n";

fn requests_of(event: &TraceEvent) -> &[Request] {
    match event {
        TraceEvent::Block(block) => block.requests(),
        _ => &[],
    }
}

// the timestamp of the first request whose call differs
fn first_other(given: &[TraceEvent], wanted: &[TraceEvent]) -> Option<u64> {
    for (one, other) in given.iter().zip(wanted) {
        for (request, raw) in requests_of(one).iter().zip(requests_of(other)) {
            if request.call() != raw.call() {
                return Some(raw.timestamp());
            }
        }
    }
    None
}

#[test]
fn spells_calls_of_the_callers_that_lines_name(rt: HostRuntime) -> Result<(), Fail> {
    let named = parse_alone(rt.alloc(), NAMED)?;
    let spelled = parse_alone(rt.alloc(), SPELLED)?;
    same!(rt; (named.events().len(), spelled.events().len()), (4, 4));
    same!(rt; first_other(named.events(), spelled.events()), None);
    Ok(())
}
