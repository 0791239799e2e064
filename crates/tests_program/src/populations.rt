//! Populations: which clients and replicas a trace may name.
use bfs_testing::asserts::compared;
use bfs_testing::{holds, same};
use bfs_trace::{Population, Request, Trace, TraceError, TraceEvent, parse_trace};
use std::alloc::Global;
use std::test::Fail;

/// Reads a trace of 16 clients and one replica.
pub(crate) fn parse_alone(alloc: Global, text: &[u8]) -> Result<Trace, TraceError> {
    match Population::new(16, 1) {
        Some(population) => parse_trace(alloc, text, population),
        None => unreachable!(),
    }
}

/// The requests of the only block of a trace.
pub(crate) fn only_requests(events: &[TraceEvent]) -> &[Request] {
    match events {
        [TraceEvent::Block(block)] => block.requests(),
        _ => &[],
    }
}

// how many clients and replicas, and whether there may be so many
static NUMBERS: [(u32, u32, bool); 6] = [
    (1, 1, true),
    (1_024, 31, true),
    (0, 1, false),
    (1, 0, false),
    (1_025, 31, false),
    (1_024, 32, false),
];

// how many there are of a population of so many
fn counts_of(clients: u32, replicas: u32) -> Option<(u32, u32)> {
    let population = Population::new(clients, replicas)?;
    Some((population.clients(), population.replicas()))
}

fn first_wrong_numbers() -> Option<(u32, u32)> {
    for (clients, replicas, may_be) in &NUMBERS {
        let wanted = if *may_be {
            Some((*clients, *replicas))
        } else {
            None
        };
        if counts_of(*clients, *replicas) != wanted {
            return Some((*clients, *replicas));
        }
    }
    None
}

#[test]
fn has_at_most_1024_clients_and_31_replicas(rt: HostRuntime) -> Result<(), Fail> {
    same!(rt; first_wrong_numbers(), None);
    Ok(())
}

/// The first line at fault of a trace of so many clients and replicas, or 0.
fn line_at_fault(alloc: Global, clients: u32, replicas: u32, text: &str) -> Result<usize, Fail> {
    let population = Population::new(clients, replicas).ok_or("population")?;
    match parse_trace(alloc, text.as_bytes(), population) {
        Ok(_) => Ok(0),
        Err(TraceError::BadLine(number)) => Ok(number),
        Err(TraceError::Memory) => Err(Fail::from("memory")),
    }
}

/// How many clients and replicas there are, a trace, and its first line at fault, or 0.
struct Case(u32, u32, &'static str, usize);

fn first_wrong(alloc: Global, cases: &[Case]) -> Result<Option<&'static str>, Fail> {
    for Case(clients, replicas, text, line) in cases {
        if line_at_fault(alloc, *clients, *replicas, *text)? != *line {
            return Ok(Some(*text));
        }
    }
    Ok(None)
}

static CLIENTS: [Case; 6] = [
    Case(1, 1, "batch 1.000000\n0 1 null\n", 0),
    Case(1, 1, "batch 1.000000\n1 1 null\n", 2),
    Case(16, 1, "batch 1.000000\n15 1 null\n", 0),
    Case(16, 1, "batch 1.000000\n16 1 null\n", 2),
    Case(1_024, 1, "batch 1.000000\n1023 1 null\n", 0),
    Case(1_024, 1, "batch 1.000000\n1024 1 null\n", 2),
];

#[test]
fn names_clients_below_their_number(rt: HostRuntime) -> Result<(), Fail> {
    Ok(compared(first_wrong(rt.alloc(), &CLIENTS)?, None)?)
}

static REPLICAS: [Case; 20] = [
    Case(16, 1, "silent 0\n", 0),
    Case(16, 1, "heard 0\n", 0),
    Case(16, 1, "silent 1\n", 1),
    Case(16, 1, "heard 1\n", 1),
    Case(16, 2, "silent 1\n", 0),
    Case(16, 2, "heard 1\n", 0),
    Case(16, 2, "silent 2\n", 1),
    Case(16, 2, "heard 2\n", 1),
    Case(16, 31, "silent 30\n", 0),
    Case(16, 31, "heard 30\n", 0),
    Case(16, 31, "silent 31\n", 1),
    Case(16, 31, "heard 31\n", 1),
    Case(16, 4, "silent\n", 1),
    Case(16, 4, "silent 0 1\n", 1),
    Case(16, 4, "heard +1\n", 1),
    Case(16, 4, "Heard 1\n", 1),
    Case(16, 4, "timeout 1\n", 1),
    Case(16, 4, "timeouts\n", 1),
    // within a block
    Case(16, 4, "batch 1.000000\nheard 3\n0 1 null\n", 3),
    Case(16, 4, "batch 1.000000\ntimeout\n0 1 null\n", 3),
];

#[test]
fn names_replicas_below_their_number(rt: HostRuntime) -> Result<(), Fail> {
    Ok(compared(first_wrong(rt.alloc(), &REPLICAS)?, None)?)
}

/// `.ci/refusals` runs this one with each growth of memory refused in turn.
#[test]
fn reads_who_is_silent_between_blocks(rt: HostRuntime) -> Result<(), Fail> {
    let population = Population::new(16, 4).ok_or("population")?;
    let text = b"silent 3\nbatch 1.000000\n0 1 null\nheard 3\ntimeout\n";
    let trace = parse_trace(rt.alloc(), text, population)?;
    let is_read = matches!(
        trace.events(),
        [
            TraceEvent::Silent(3),
            TraceEvent::Block(_),
            TraceEvent::Heard(3),
            TraceEvent::Timeout
        ]
    );
    holds!(rt; is_read);
    Ok(())
}

// the call of the last client there may be, whose uid is 2,023
const LAST_CLIENT: &[u8] =
    b"batch 1.000000\n1023 1 null\n0 1 raw 000000010000000000000002000186a30000000200000000000000010000001c00000000000000067265706c61790000000007e700000064000000000000000000000000\n";

#[test]
fn spells_calls_of_each_client(rt: HostRuntime) -> Result<(), Fail> {
    let population = Population::new(1_024, 1).ok_or("population")?;
    let trace = parse_trace(rt.alloc(), LAST_CLIENT, population)?;
    let is_same = match only_requests(trace.events()) {
        [null, raw] => null.call() == raw.call(),
        _ => false,
    };
    holds!(rt; is_same);
    Ok(())
}
