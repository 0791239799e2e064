//! A relay as a filter's machine: what it answers by itself, and what it reserves before it tells a request.
use crate::stores::Store;
use bfs_auth::{Keys, Principal};
use bfs_codec::decode;
use bfs_filter::{ServeError, serve};
use bfs_frames::Limits;
use bfs_messages::Message;
use bfs_relaying::{AHEAD, Reserving};
use bfs_testing::asserts::compared;
use bfs_testing::same;
use bfs_testing::words::ROOT_REQUEST;
use std::alloc::{AllocError, Global};
use std::sync::Wait;
use std::test::Fail;
use std::thread::Threads;

// what is reserved where a life begins
const FIRST: u64 = 1_000;

// a turn of NULL under the ticket 5, and of MNT of `/` under the ticket 6; and the answers (RFC 1094 2.2.1 and appendix A; RFC 5531 section 9)
const OWN: &str = "000000010000000000000002\
    0b000000300000000000000005\
    000000130000000000000002000186a3000000020000000000000000000000000000000000000000\
    0b000000380000000000000006\
    000000110000000000000002000186a50000000100000001\
    00000000000000000000000000000000000000012f000000";

const OWN_ANSWERS: &str = "00000002\
    0400000000000000050c00000020\
    0000000000000005000000130000000100000000000000000000000000000000\
    0400000000000000060c00000044\
    0000000000000006000000110000000100000000000000000000000000000000\
    000000004246533200000001000000020000000000000000000000000000000000000000";

// a turn of one call, without its message
const CALL: &str = "0000000100000000000000010b000000500000000000000007";

// one parcel, to replica 0, a request: up to its length
const ASKING: &str = "0000000101000000000000000001";

fn relay(alloc: Global, full: bool) -> Result<Reserving<Store>, Fail> {
    let mut keys = Vec::new(alloc);
    keys.push(Keys::derive(alloc, b"a secret", Principal::Client(3), 4, 16)?)?;
    let store = Store {
        number: FIRST,
        full,
    };
    Ok(Reserving::of_keys(alloc, 1, keys, store)?)
}

fn serves<R: Threads + Wait + Sync>(
    rt: &R,
    alloc: Global,
    relay: &mut Reserving<Store>,
    turns: &[u8],
    writer: &mut Vec<u8>,
) -> Result<(), ServeError> {
    let mut reader = turns;
    serve(alloc, rt, relay, &Limits::new(), &mut reader, writer)
}

fn words_of(alloc: Global, ended: Result<(), ServeError>) -> Result<String, AllocError> {
    match ended {
        Ok(()) => String::from_str(alloc, "the end"),
        Err(error) => format!(in alloc; "{error}"),
    }
}

// how it ends, and what is written in hexadecimal
fn served<R: Threads + Wait + Sync>(
    rt: &R,
    alloc: Global,
    relay: &mut Reserving<Store>,
    turns: &str,
) -> Result<(String, String), Fail> {
    let input = hex::decode(alloc, turns)?;
    let mut writer = Vec::new(alloc);
    let ended = serves(rt, alloc, relay, input.as_slice(), &mut writer);
    Ok((words_of(alloc, ended)?, hex::encode(alloc, &writer)?))
}

// the timestamp of a request in hexadecimal
fn timestamp_in(alloc: Global, text: &str) -> Result<u64, Fail> {
    let text = hex::decode(alloc, text)?;
    match &decode(alloc, text.as_slice())?.message {
        Message::Request(request) => Ok(request.timestamp()),
        _ => Err("a request".into()),
    }
}

// the timestamp of the request that leaves behind the own answers
fn timestamp_behind_own(alloc: Global, written: &str) -> Result<u64, Fail> {
    let front = format!(in alloc; "{OWN_ANSWERS}{ASKING}")?;
    let rest = written
        .strip_prefix(front.as_str())
        .ok_or("another answer")?;
    timestamp_in(alloc, rest.get(8..).ok_or("a length")?)
}

fn leaves<R: Threads + Wait + Sync>(
    rt: &R,
    alloc: Global,
    relay: &mut Reserving<Store>,
) -> Result<u64, Fail> {
    let turns = format!(in alloc; "{OWN}{CALL}{ROOT_REQUEST}")?;
    let (ended, written) = served(rt, alloc, relay, turns.as_str())?;
    compared(ended.as_str(), "the end")?;
    timestamp_behind_own(alloc, written.as_str())
}

#[test]
fn a_request_leaves_once_its_timestamp_is_reserved(rt: HostRuntime) -> Result<(), Fail> {
    let mut relay = relay(rt.alloc(), false)?;
    same!(rt; leaves(&rt, rt.alloc(), &mut relay)?, FIRST);
    same!(rt; relay.reserved(), FIRST + 1 + AHEAD);
    Ok(())
}

fn is_stopped<R: Threads + Wait + Sync>(
    rt: &R,
    alloc: Global,
    relay: &mut Reserving<Store>,
) -> Result<(), Fail> {
    let turns = format!(in alloc; "{OWN}{CALL}{ROOT_REQUEST}{OWN}")?;
    let (ended, written) = served(rt, alloc, relay, turns.as_str())?;
    compared(
        ended.as_str(),
        "what is to be kept cannot be written: no storage space",
    )?;
    compared(written.as_str(), OWN_ANSWERS)?;
    Ok(())
}

#[test]
fn nothing_leaves_of_a_turn_whose_timestamps_cannot_be_reserved(
    rt: HostRuntime,
) -> Result<(), Fail> {
    let mut relay = relay(rt.alloc(), true)?;
    is_stopped(&rt, rt.alloc(), &mut relay)?;
    same!(rt; relay.reserved(), FIRST);
    Ok(())
}
