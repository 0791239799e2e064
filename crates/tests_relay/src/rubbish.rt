//! Frames that a relay passes over.
use crate::run::{FIRST, call_frame, count_told, frame_of, relay_of, reply_frame};
use bfs_frames::Kind;
use bfs_relay::Relay;
use bfs_testing::same;
use bfs_testing::words::ROOT_REQUEST;
use bfs_types::MOST_REQUEST_BYTES;
use std::alloc::Global;
use std::process::Abort;
use std::test::Fail;
use std::thread::Threads;

static TOO_LONG: [u8; MOST_REQUEST_BYTES + 9] = [0; MOST_REQUEST_BYTES + 9];

static KINDS: &[Kind] = &[
    Kind::Request,
    Kind::Order,
    Kind::ViewChange,
    Kind::NewView,
    Kind::Reply,
    Kind::Status,
    Kind::AskState,
    Kind::State,
    Kind::AskReport,
    Kind::Report,
    Kind::Call,
    Kind::Answer,
    Kind::Log,
];

// nothing is told in a turn of a frame of each kind but that one
fn passes_over<R: Threads + Sync + Abort>(
    rt: &R,
    alloc: Global,
    relay: &mut Relay,
    payload: &[u8],
    but: Option<Kind>,
) -> Result<(), Fail> {
    for kind in KINDS {
        if but != Some(*kind) {
            let frame = frame_of(alloc, *kind, payload)?;
            same!(rt; (*kind, count_told(rt, alloc, relay, frame)?), (*kind, 0));
        }
    }
    Ok(())
}

fn passes_rubbish_over<R: Threads + Sync + Abort>(
    rt: &R,
    alloc: Global,
    relay: &mut Relay,
) -> Result<(), Fail> {
    passes_over(rt, alloc, relay, b"", None)?;
    passes_over(rt, alloc, relay, b"7 bytes", None)?;
    passes_over(rt, alloc, relay, b"a ticket and then rubbish", None)?;
    passes_over(rt, alloc, relay, &TOO_LONG, None)
}

#[test]
fn rubbish_is_passed_over(rt: HostRuntime) -> Result<(), Fail> {
    let mut relay = relay_of(rt.alloc(), 1)?;
    passes_rubbish_over(&rt, rt.alloc(), &mut relay)
}

// a whole call, and a whole reply
fn passes_messages_over<R: Threads + Sync + Abort>(
    rt: &R,
    alloc: Global,
    relay: &mut Relay,
) -> Result<(), Fail> {
    let message = hex::decode(alloc, ROOT_REQUEST)?;
    let call = call_frame(alloc, 7, message.as_slice())?;
    passes_over(rt, alloc, relay, call.payload.as_slice(), Some(Kind::Call))?;
    let reply = reply_frame(alloc, 0, (0, FIRST), b"right")?;
    passes_over(rt, alloc, relay, reply.payload.as_slice(), None)
}

#[test]
fn frames_of_other_kinds_are_passed_over(rt: HostRuntime) -> Result<(), Fail> {
    let mut relay = relay_of(rt.alloc(), 1)?;
    passes_messages_over(&rt, rt.alloc(), &mut relay)
}
