ghost use Rattle.std.specs.Prelude.{Err};
ghost use Rattle.bfs_trace.specs.Outcomes.{ParsesTrace};
ghost use Rattle.bfs_trace.specs.Trace.{trace_spelled};

use crate::buffer::Buffer;
use crate::checking::find_fault;
use crate::fault::Fault;
use crate::population::Population;
use crate::reading::Reading;
use crate::trace::{Trace, TraceError};
use crate::words::cut;
use std::alloc::Global;

/// Reads a trace of so many clients and replicas: lines of words with one space between two words, where empty lines and lines
/// that begin with `#` are passed over. A line ends with a newline, which the last may lack.
///
/// `batch S.UUUUUU` begins a block at a time in seconds and microseconds since the beginning of 1970. `CLIENT T VERB ..` is a
/// request of the block before it: a client's number, its timestamp below 2^64, and a call of at most 16,384 bytes. `raw HEX` is
/// the whole call; each other verb is a procedure of RFC 1094 section 2.2, and the words behind it spell its arguments, as
/// `getattr #2` or `read #2 0 64`. A block has at most 1,024 requests. `silent REPLICA`, `heard REPLICA`, `timeout` and
/// `as CLIENT UID GID [GID..]` stand between blocks: with the last, verbs spell that client's later calls as those of another user, who
/// belongs to at most 16 groups beside the first. All of the text is read before the answer, and `TraceError::BadLine` has the first line
/// that breaks this grammar. That is told without memory, so `TraceError::Memory` comes only where no line breaks it.
#[tactic(auto, unfolding(crate::specs::Trace::read_lines))]
pub fn parse_trace(alloc: Global, text: &[u8], population: Population) -> Result<Trace, TraceError>
    ensures { ParsesTrace result (trace_spelled population text.now) }
{
    let mut reading = Reading::new(alloc, population);
    let mut call = Buffer::new();
    let mut number = 0usize;
    let mut left = Some(text);
    while let Some(bytes) = left {
        let (line, more) = cut(bytes, b'\n');
        number += 1;
        left = more;
        match reading.read(alloc, population, line, &mut call) {
            Ok(()) => {}
            Err(Fault::Bad) => return Err(TraceError::BadLine(number)),
            Err(Fault::Memory) => return Err(why_unread(alloc, text, population)),
        }
    }
    Ok(reading.into_trace())
}

// Why a text is not read, where memory ran out: a line may break the grammar all the same.
fn why_unread(alloc: Global, text: &[u8], population: Population) -> TraceError
    ensures { ParsesTrace (Err result) (trace_spelled population text.now) }
{
    match find_fault(alloc, text, population) {
        Some(number) => TraceError::BadLine(number),
        None => TraceError::Memory,
    }
}
