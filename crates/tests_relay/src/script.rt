//! What comes to a relay and what it tells, turn after turn, as tables. The proof of a test that tells it by calls takes many times as long.
use crate::run::{
    RIGHT, call_frame, is_answer, is_dropped, is_request, relay_of, reply_frame, turn,
};
use bfs_frames::{Frame, Parcel, To};
use bfs_relay::Relay;
use bfs_testing::asserts::compared;
use bfs_testing::words::ROOT_REQUEST;
use std::alloc::Global;
use std::test::Fail;
use std::thread::Threads;

/// What is told, and whom.
#[derive(Clone, Copy)]
pub enum Told {
    /// Replica 0, a request for the root's attributes, of that client and timestamp.
    Request(u32, u64),
    /// All replicas, the same.
    Again(u32, u64),
    /// The caller with that ticket, that the result is `RIGHT`.
    Answer(u64),
    /// The operator, that calls are dropped.
    Dropped,
}

/// What comes in a turn at that second, and what is told then; or what is to hold.
#[derive(Clone, Copy)]
pub enum Step {
    /// Calls for the root's attributes come: the first one's ticket, and how many.
    Calls(u32, u64, usize, &'static [Told]),
    /// Replies of these replicas come, to the request of a client and a timestamp.
    Replies(u32, &'static [u32], (u32, u64), &'static [u8], &'static [Told]),
    /// Nothing comes.
    Nothing(u32, &'static [Told]),
    /// So many calls wait.
    Waiting(usize),
    /// The timestamp that no request has reached yet.
    Next(u64),
}

fn calls(alloc: Global, first: u64, count: usize) -> Result<Vec<Frame>, Fail> {
    let message = hex::decode(alloc, ROOT_REQUEST)?;
    let mut frames = Vec::new(alloc);
    for number in 0..count {
        let ticket = first.saturating_add(number as u64);
        frames.push(call_frame(alloc, ticket, message.as_slice())?)?;
    }
    Ok(frames)
}

fn replies(
    alloc: Global,
    senders: &[u32],
    request: (u32, u64),
    bytes: &[u8],
) -> Result<Vec<Frame>, Fail> {
    let mut frames = Vec::new(alloc);
    for sender in senders {
        frames.push(reply_frame(alloc, *sender, request, bytes)?)?;
    }
    Ok(frames)
}

fn is_told(alloc: Global, parcel: &Parcel, told: Told) -> Result<bool, Fail> {
    match told {
        Told::Request(client, timestamp) => {
            is_request(alloc, parcel, To::Replica(0), client, timestamp)
        }
        Told::Again(client, timestamp) => {
            is_request(alloc, parcel, To::Replicas, client, timestamp)
        }
        Told::Answer(ticket) => is_answer(alloc, parcel, ticket, RIGHT),
        Told::Dropped => Ok(is_dropped(parcel)),
    }
}

fn are_told(alloc: Global, parcels: &[Parcel], told: &[Told]) -> Result<bool, Fail> {
    if parcels.len() != told.len() {
        return Ok(false);
    }
    for (parcel, one) in parcels.iter().zip(told) {
        if !is_told(alloc, parcel, *one)? {
            return Ok(false);
        }
    }
    Ok(true)
}

// whether these are told in a turn of these frames
fn tells<R: Threads + Sync>(
    rt: &R,
    alloc: Global,
    relay: &mut Relay,
    seconds: u32,
    frames: Vec<Frame>,
    told: &[Told],
) -> Result<bool, Fail> {
    let parcels = turn(rt, relay, seconds, frames)?;
    are_told(alloc, &parcels, told)
}

// whether it comes as it is told
fn happens<R: Threads + Sync>(
    rt: &R,
    alloc: Global,
    relay: &mut Relay,
    step: Step,
) -> Result<bool, Fail> {
    match step {
        Step::Calls(seconds, first, count, told) => {
            tells(rt, alloc, relay, seconds, calls(alloc, first, count)?, told)
        }
        Step::Replies(seconds, senders, request, bytes, told) => {
            let frames = replies(alloc, senders, request, bytes)?;
            tells(rt, alloc, relay, seconds, frames, told)
        }
        Step::Nothing(seconds, told) => { tells(rt, alloc, relay, seconds, Vec::new(alloc), told) }
        Step::Waiting(wanted) => Ok(relay.waiting() == wanted),
        Step::Next(wanted) => Ok(relay.next_timestamp() == wanted),
    }
}

// the place of the first step that does not come as it is told
fn first_wrong<R: Threads + Sync>(
    rt: &R,
    alloc: Global,
    relay: &mut Relay,
    steps: &[Step],
) -> Result<Option<usize>, Fail> {
    for (place, step) in steps.iter().enumerate() {
        if !happens(rt, alloc, relay, *step)? {
            return Ok(Some(place));
        }
    }
    Ok(None)
}

/// It all comes as it is told at this relay.
pub fn plays_at<R: Threads + Sync>(
    rt: &R,
    alloc: Global,
    relay: &mut Relay,
    steps: &[Step],
) -> Result<(), Fail> {
    compared(first_wrong(rt, alloc, relay, steps)?, None)?;
    Ok(())
}

/// It all comes as it is told at a relay that speaks for so many clients.
pub fn plays<R: Threads + Sync>(
    rt: &R,
    alloc: Global,
    clients: u32,
    steps: &[Step],
) -> Result<(), Fail> {
    let mut relay = relay_of(alloc, clients)?;
    plays_at(rt, alloc, &mut relay, steps)
}
