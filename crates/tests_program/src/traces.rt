//! Traces: what is read, and the lines that are refused.
use crate::populations::parse_alone;
use bfs_testing::{holds, same};
use bfs_trace::{Request, TraceError, TraceEvent};
use std::alloc::Global;
use std::test::Fail;

#[test]
fn tells_the_line_at_fault(rt: HostRuntime) -> Result<(), Fail> {
    // verbs are in lower case
    let refused = parse_alone(rt.alloc(), b"batch 1.000000\n0 1 Raw 00\n").err();
    same!(rt; refused, Some(TraceError::BadLine(2)));
    same!(rt; TraceError::BadLine(2).code(), 37);
    Ok(())
}

static CARRIAGE_RETURNS: [&str; 3] = ["\r\n", "batch 1.000000\r\n", "batch 1.000000 \r\n"];

fn is_refused(alloc: Global, text: &str) -> bool {
    parse_alone(alloc, text.as_bytes()).err() == Some(TraceError::BadLine(1))
}

fn first_taken(alloc: Global) -> Option<&'static str> {
    for text in &CARRIAGE_RETURNS {
        if !is_refused(alloc, *text) {
            return Some(*text);
        }
    }
    None
}

#[test]
fn refuses_carriage_returns(rt: HostRuntime) {
    same!(rt; first_taken(rt.alloc()), None);
}

#[test]
fn passes_comments_over(rt: HostRuntime) -> Result<(), Fail> {
    let trace = parse_alone(rt.alloc(), b"# no call\r\n\n#\r\n# a\rb")?;
    holds!(rt; trace.events().is_empty());
    Ok(())
}

// a request's client and timestamp, and how many bytes its call has
fn is_request(request: &Request, wanted: (u32, u64, usize)) -> bool {
    (request.client(), request.timestamp(), request.call().len()) == wanted
}

// the second of a block, and its requests, of which there are two at most
fn is_block(event: &TraceEvent, second: u32, wanted: &[(u32, u64, usize)]) -> bool {
    let TraceEvent::Block(block) = event else {
        return false;
    };
    block.time().seconds() == second
        && match (block.requests(), wanted) {
            ([], []) => true,
            ([one, other], [first, second]) => {
                is_request(one, *first) && is_request(other, *second)
            }
            _ => false,
        }
}

/// `.ci/refusals` runs this one with each growth of memory refused in turn.
#[test]
fn reads_blocks_with_their_requests(rt: HostRuntime) -> Result<(), Fail> {
    let text = b"batch 4294967295.999999\n0 5 raw 00\n15 6 raw 0102\nbatch 2.000000";
    let trace = parse_alone(rt.alloc(), text)?;
    let is_read = match trace.events() {
        [first, last] => {
            is_block(first, 4_294_967_295, &[(0, 5, 1), (15, 6, 2)]) && is_block(last, 2, &[])
        }
        _ => false,
    };
    holds!(rt; is_read);
    Ok(())
}
