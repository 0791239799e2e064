//! Traces that were cut, changed, mixed and lengthened at random: whether one is read, and which of its lines is the first at fault, is decided by a
//! reading that shares nothing with the code. It knows the verbs that these traces have; no change at random makes another one of them.
use bfs_testing::asserts::compared;
use bfs_testing::changes::{Change, Changes};
use bfs_testing::holds;
use bfs_trace::{Population, TraceError, parse_trace};
use std::alloc::Global;
use std::test::Fail;

// of 16 clients and four replicas
const TEXT: &[u8] =
    b"# a comment\n\nsilent 3\nbatch 1.000000\n0 1 null\n15 18446744073709551615 root\n1 2 getattr #2\n0 3 raw 00ff7A\nheard 3\ntimeout\nbatch 4294967295.999999\n7 9 writecache\n7 10 statfs #4294967295\n";

const OTHER: &[u8] = b"batch 2.000001\n3 4 readlink #16\n3 5 null\nsilent 0\nheard 0\n# end";

// the number that is spelled, by digits alone, if it is at most that
fn number(word: &[u8], most: u64) -> Option<u64> {
    let mut value: u64 = 0;
    for byte in word {
        let digit = byte.checked_sub(b'0')?;
        if 9 < digit {
            return None;
        }
        value = value.checked_mul(10)?.checked_add(digit as u64)?;
    }
    if word.is_empty() || most < value {
        None
    } else {
        Some(value)
    }
}

// seconds, and six digits behind a point
fn is_time(word: &[u8]) -> bool {
    let Some(point) = word.len().checked_sub(7) else {
        return false;
    };
    match word.split_at_checked(point) {
        Some((seconds, [b'.', digits @ ..])) => {
            number(seconds, 0xffff_ffff).is_some() && number(digits, 999_999).is_some()
        }
        _ => false,
    }
}

fn is_handle(word: &[u8]) -> bool {
    match word {
        [b'#', digits @ ..] => number(digits, 0xffff_ffff).is_some(),
        _ => false,
    }
}

fn is_hex(word: &[u8]) -> bool {
    !word.is_empty() && word.len() % 2 == 0 && word.iter().all(|byte| byte.is_ascii_hexdigit())
}

fn is_one_of(word: &[u8], others: &[&str]) -> bool {
    for other in others {
        if word == other.as_bytes() {
            return true;
        }
    }
    false
}

fn is_call(words: &[&[u8]]) -> bool {
    match words {
        [verb] => is_one_of(verb, &["null", "root", "writecache"]),
        [verb, word] if is_one_of(verb, &["raw"]) => is_hex(word),
        [verb, word] => is_one_of(verb, &["getattr", "statfs", "readlink"]) && is_handle(word),
        _ => false,
    }
}

fn is_request(words: &[&[u8]]) -> bool {
    match words {
        [client, timestamp, call @ ..] => {
            number(client, 15).is_some() && number(timestamp, u64::MAX).is_some() && is_call(call)
        }
        _ => false,
    }
}

/// What a line is.
#[derive(Clone, Copy, PartialEq, Eq)]
enum Line {
    /// Empty, or a comment.
    Nothing,
    /// It begins a block.
    Batch,
    /// It stands alone.
    Event,
    Request,
    Fault,
}

fn line_of(words: &[&[u8]]) -> Line {
    match words {
        [word] if is_one_of(word, &["timeout"]) => Line::Event,
        [word, time] if is_one_of(word, &["batch"]) && is_time(time) => Line::Batch,
        [word, replica] if is_one_of(word, &["silent", "heard"]) => match number(replica, 3) {
            Some(_) => Line::Event,
            None => Line::Fault,
        },
        _ if is_request(words) => Line::Request,
        _ => Line::Fault,
    }
}

// the number of the first line at fault, 0 where there is none
fn first_fault(alloc: Global, text: &[u8]) -> Result<usize, Fail> {
    let mut is_in_block = false;
    for (place, line) in text.split(|byte| *byte == b'\n').enumerate() {
        let kind = kind_of(alloc, line)?;
        match kind {
            Line::Nothing => {}
            Line::Batch => is_in_block = true,
            Line::Event => is_in_block = false,
            Line::Request if is_in_block => {}
            _ => return Ok(place.wrapping_add(1)),
        }
    }
    Ok(0)
}

fn kind_of(alloc: Global, line: &[u8]) -> Result<Line, Fail> {
    if line.is_empty() || line.starts_with(b"#") {
        return Ok(Line::Nothing);
    }
    let mut words: Vec<&[u8]> = Vec::new(alloc);
    for word in line.split(|byte| *byte == b' ') {
        words.push(word)?;
    }
    Ok(line_of(words.as_slice()))
}

// the number of the line that is told, 0 where the trace is read
fn told(alloc: Global, text: &[u8]) -> Result<usize, Fail> {
    let population = Population::new(16, 4).ok_or("population")?;
    match parse_trace(alloc, text, population) {
        Ok(_) => Ok(0),
        Err(TraceError::BadLine(line)) => Ok(line),
        Err(TraceError::Memory) => Err("memory".into()),
    }
}

fn judge(alloc: Global, changes: &mut Changes, text: &[u8], other: &[u8]) -> Result<bool, Fail> {
    let (change, changed): (Change, Vec<u8>) = changes.changed(alloc, text, other)?;
    let line = told(alloc, changed.as_slice())?;
    compared(
        (change, line),
        (change, first_fault(alloc, changed.as_slice())?),
    )?;
    Ok(line == 0)
}

#[test]
fn changed_traces_are_read_as_lines_are_told(rt: HostRuntime) -> Result<(), Fail> {
    let alloc = rt.alloc();
    let mut changes = Changes { state: 36 };
    let mut read: u32 = 0;
    for _ in 0u32..1_000 {
        for (text, other) in [(TEXT, OTHER), (OTHER, TEXT)] {
            if judge(alloc, &mut changes, text, other)? {
                read = read.wrapping_add(1);
            }
        }
    }
    // of 2,000, some of both
    holds!(rt; 100 < read && read < 1_900);
    Ok(())
}
