//! Requests that are sent again.
use crate::run::{FIRST, call_frame, is_request, only_one, relay_of, turn, turn_with};
use crate::script::Step::{Calls, Nothing};
use crate::script::Told::{Again, Request};
use crate::script::{Step, plays};
use bfs_frames::To;
use bfs_relay::Relay;
use bfs_testing::words::{ROOT_REQUEST, same_bytes};
use bfs_testing::{holds, same};
use std::alloc::Global;
use std::process::Abort;
use std::test::Fail;
use std::thread::Threads;

// the bytes of the request that a call leads to
fn first_text<R: Threads + Sync>(
    rt: &R,
    alloc: Global,
    relay: &mut Relay,
) -> Result<Vec<u8>, Fail> {
    let message = hex::decode(alloc, ROOT_REQUEST)?;
    let frame = call_frame(alloc, 7, message.as_slice())?;
    let told = turn_with(rt, alloc, relay, 10, frame)?;
    Ok(Vec::from_slice(alloc, only_one(&told)?.frame.payload.as_slice())?)
}

// whether the request with these bytes is sent in a turn without frames, and nothing else
fn is_sent_again<R: Threads + Sync + Abort>(
    rt: &R,
    alloc: Global,
    relay: &mut Relay,
    seconds: u32,
    text: &[u8],
) -> Result<bool, Fail> {
    let told = turn(rt, relay, seconds, Vec::new(alloc))?;
    if told.is_empty() {
        return Ok(false);
    }
    let again = only_one(&told)?;
    holds!(rt; is_request(alloc, again, To::Replicas, 0, FIRST)?);
    same_bytes(alloc, again.frame.payload.as_slice(), text)?;
    Ok(true)
}

fn is_sent_again_in_time<R: Threads + Sync + Abort>(
    rt: &R,
    alloc: Global,
    relay: &mut Relay,
) -> Result<(), Fail> {
    let text = first_text(rt, alloc, relay)?;
    for seconds in 10u32..35 {
        let wanted = [11, 13, 17, 25, 33].contains(&seconds);
        let again = is_sent_again(rt, alloc, relay, seconds, text.as_slice())?;
        same!(rt; (seconds, again), (seconds, wanted));
    }
    Ok(())
}

#[test]
fn a_request_is_sent_again_after_1_2_4_8_and_8_seconds(rt: HostRuntime) -> Result<(), Fail> {
    let mut relay = relay_of(rt.alloc(), 2)?;
    is_sent_again_in_time(&rt, rt.alloc(), &mut relay)
}

static SET_BACK: [Step; 5] = [
    Calls(1_000, 7, 1, &[Request(0, FIRST)]),
    Nothing(1_000, &[]),
    Nothing(500, &[Again(0, FIRST)]),
    Nothing(501, &[]),
    Nothing(502, &[Again(0, FIRST)]),
];

#[test]
fn a_clock_that_is_set_back_delays_nothing(rt: HostRuntime) -> Result<(), Fail> {
    plays(&rt, rt.alloc(), 1, &SET_BACK)
}
