// The lines of a trace, one by one. No memory is taken.
ghost use Rattle.std.specs.Prelude.{◌≡◌, ◌≤◌, [], length, IfSome, option_map};
ghost use Rattle.bfs_model.specs.Server.Limits.{most_request_bytes};
ghost use Rattle.bfs_trace.specs.Lines.{batch_line, call_by_verb, call_spelled, caller_line, heard_line, line_spelled, replica_named, raw_call, request_line, silent_line, timeout_line, verb_call};

use crate::buffer::Buffer;
use crate::callers::{Caller, Callers, parse_caller};
use crate::events::{Block, RequestText, TraceEvent};
use crate::header::put_header;
use crate::numbers::parse_number;
use crate::population::Population;
use crate::times::parse_time;
use crate::verbs::{procedure_named, put_arguments};
use crate::words::Words;
use bfs_types::Cred;
use std::alloc::Global;

/// What a line says that is neither empty nor a comment.
#[derive(Drop)]
pub(crate) enum Line<'c> {
    /// Something happens behind what happened before.
    Event(TraceEvent),
    /// A client's later calls are for another.
    Caller(Caller),
    /// A request of the block before it.
    Request(RequestText<'c>),
}

/// Reads the bytes of a call from their hexadecimal digits.
#[tactic(auto, unfolding(crate::specs::Lines::call_spelled))]
fn parse_call<'c>(word: &[u8], call: &'c mut Buffer) -> Option<&'c [u8]>
    ensures value { option_map (λ bytes. bytes.now) result ≡ call_spelled word.now }
    ensures within { IfSome result (λ bytes. length bytes.now ≤ most_request_bytes) }
{
    if word.is_empty() {
        return None;
    }
    call.decode(word)
}

/// Reads the word behind `raw`: the whole call.
fn parse_raw<'c>(words: &mut Words<'_>, call: &'c mut Buffer) -> Option<&'c [u8]>
    ensures value { option_map (λ bytes. bytes.now) result ≡ raw_call words.old }
    ensures within { IfSome result (λ bytes. length bytes.now ≤ most_request_bytes) }
{
    parse_call(words.last_word()?, call)
}

/// Writes the call that a verb and the words behind it spell.
fn parse_call_of_verb<'c>(
    caller: &Cred,
    timestamp: u64,
    verb: &[u8],
    words: &mut Words<'_>,
    call: &'c mut Buffer,
) -> Option<&'c [u8]>
    requires { call.old ≡ [] }
    ensures value { option_map (λ bytes. bytes.now) result ≡ verb_call caller.now timestamp verb.now words.old }
    ensures within { IfSome result (λ bytes. length bytes.now ≤ most_request_bytes) }
{
    let procedure = procedure_named(verb)?;
    put_header(caller, timestamp, procedure, call)?;
    put_arguments(procedure, words, call)?;
    Some(call.as_slice())
}

/// Reads a verb and the words behind it, which spell the call of that caller under that timestamp.
fn parse_verb<'c>(
    caller: &Cred,
    timestamp: u64,
    words: &mut Words<'_>,
    call: &'c mut Buffer,
) -> Option<&'c [u8]>
    requires { call.old ≡ [] }
    ensures value { option_map (λ bytes. bytes.now) result ≡ call_by_verb caller.now timestamp words.old }
    ensures within { IfSome result (λ bytes. length bytes.now ≤ most_request_bytes) }
{
    let verb = words.next_word()?;
    if verb == b"raw".as_slice() {
        parse_raw(words, call)
    } else {
        parse_call_of_verb(caller, timestamp, verb, words, call)
    }
}

/// Reads the word behind `batch`: `S.UUUUUU`.
fn parse_batch<'c>(alloc: Global, words: &mut Words<'_>) -> Option<Line<'c>>
    ensures { result ≡ batch_line words.old }
{
    let word = words.last_word()?;
    let time = parse_time(word)?;
    Some(Line::Event(TraceEvent::Block(Block::new(alloc, time))))
}

/// Reads the word behind `silent` or `heard`: a replica's number.
fn parse_replica(population: Population, words: &mut Words<'_>) -> Option<u32>
    ensures { result ≡ replica_named population words.old }
{
    let word = words.last_word()?;
    let most_replica = population.replicas() as u64 - 1;
    let replica = parse_number(most_replica, word)?;
    Some(replica as u32)
}

fn parse_silent<'c>(population: Population, words: &mut Words<'_>) -> Option<Line<'c>>
    ensures { result ≡ silent_line population words.old }
{
    let replica = parse_replica(population, words)?;
    Some(Line::Event(TraceEvent::Silent(replica)))
}

fn parse_heard<'c>(population: Population, words: &mut Words<'_>) -> Option<Line<'c>>
    ensures { result ≡ heard_line population words.old }
{
    let replica = parse_replica(population, words)?;
    Some(Line::Event(TraceEvent::Heard(replica)))
}

fn parse_timeout<'c>(words: &Words<'_>) -> Option<Line<'c>>
    ensures { result ≡ timeout_line words.now }
{
    words.end()?;
    Some(Line::Event(TraceEvent::Timeout))
}

/// Reads what stands behind `as`.
fn parse_caller_line<'c>(population: Population, words: &mut Words<'_>) -> Option<Line<'c>>
    ensures { result ≡ caller_line population words.old }
{
    Some(Line::Caller(parse_caller(population, words)?))
}

/// Reads `CLIENT T VERB ..`, whose first word is read already.
fn parse_request<'c>(
    population: Population,
    callers: &Callers,
    client: &[u8],
    words: &mut Words<'_>,
    call: &'c mut Buffer,
) -> Option<Line<'c>>
    requires { call.old ≡ [] }
    ensures { result ≡ request_line population callers.now client.now words.old }
{
    let timestamp = words.next_word()?;
    let most_client = population.clients() as u64 - 1;
    let client = parse_number(most_client, client)? as u32;
    let timestamp = parse_number(u64::MAX, timestamp)?;
    let caller = callers.get(client)?;
    let call = parse_verb(caller, timestamp, words, call)?;
    Some(Line::Request(RequestText::new(client, timestamp, call)))
}

/// Reads a line that is neither empty nor a comment, where these are the clients' callers. The bytes of a call are written in that buffer.
#[tactic(auto, unfolding(crate::specs::Lines::line_spelled))]
pub(crate) fn parse_line<'c>(
    alloc: Global,
    population: Population,
    callers: &Callers,
    text: &[u8],
    call: &'c mut Buffer,
) -> Option<Line<'c>>
    ensures { result ≡ line_spelled population callers.now text.now }
{
    let mut words = Words::new(text, b' ');
    let first = words.next_word()?;
    if first == b"batch".as_slice() {
        parse_batch(alloc, &mut words)
    } else if first == b"silent".as_slice() {
        parse_silent(population, &mut words)
    } else if first == b"heard".as_slice() {
        parse_heard(population, &mut words)
    } else if first == b"timeout".as_slice() {
        parse_timeout(&words)
    } else if first == b"as".as_slice() {
        parse_caller_line(population, &mut words)
    } else {
        call.clear();
        parse_request(population, callers, first, &mut words, call)
    }
}
