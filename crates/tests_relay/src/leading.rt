//! Whom a relay asks first: the primary of the view that f + 1 replicas have reached.
use crate::run::{FIRST, RIGHT, call_frame, relay_of, reply_frame_by, turn};
use bfs_frames::{Frame, Parcel, To};
use bfs_relay::Relay;
use bfs_testing::asserts::compared;
use bfs_testing::words::ROOT_REQUEST;
use std::alloc::Global;
use std::test::Fail;
use std::thread::Threads;

/// The replies to one request, each with its sender, its signer and its view, and which replica is asked next.
#[derive(Clone, Copy)]
struct Round {
    replies: &'static [(u32, u32, u64)],
    next: u32,
}

static ROUNDS: [Round; 5] = [
    // one replica alone tells a later view
    Round {
        replies: &[(0, 0, 0), (3, 3, 5)],
        next: 0,
    },
    // three tell 5 or more, one of them 6
    Round {
        replies: &[(1, 1, 5), (2, 2, 6)],
        next: 1,
    },
    // they come late
    Round {
        replies: &[(1, 1, 2), (2, 2, 3)],
        next: 1,
    },
    // the first two are signed by others
    Round {
        replies: &[(0, 1, 7), (2, 3, 7), (2, 2, 6), (3, 3, 6)],
        next: 2,
    },
    Round {
        replies: &[(0, 0, 7), (1, 1, 7)],
        next: 3,
    },
];

fn calls(alloc: Global, count: usize) -> Result<Vec<Frame>, Fail> {
    let message = hex::decode(alloc, ROOT_REQUEST)?;
    let mut frames = Vec::new(alloc);
    for number in 0..count {
        frames.push(call_frame(alloc, number as u64, message.as_slice())?)?;
    }
    Ok(frames)
}

fn replies(alloc: Global, round: Round, timestamp: u64) -> Result<Vec<Frame>, Fail> {
    let mut frames = Vec::new(alloc);
    for (sender, signer, view) in round.replies {
        let names = (*sender, *signer);
        frames.push(reply_frame_by(alloc, names, *view, (0, timestamp), RIGHT)?)?;
    }
    Ok(frames)
}

// whether the last of what is told goes to that replica
fn is_asked<R: Threads + Sync>(
    rt: &R,
    relay: &mut Relay,
    frames: Vec<Frame>,
    replica: u32,
) -> Result<bool, Fail> {
    let told = turn(rt, relay, 1, frames)?;
    Ok(goes_to(told.last(), To::Replica(replica)))
}

fn goes_to(parcel: Option<&Parcel>, to: To) -> bool {
    match parcel {
        Some(parcel) => parcel.to == to,
        None => false,
    }
}

// the place of the first round behind which another replica is asked
fn first_wrong<R: Threads + Sync>(
    rt: &R,
    alloc: Global,
    relay: &mut Relay,
) -> Result<Option<usize>, Fail> {
    if !is_asked(rt, relay, calls(alloc, 1 + ROUNDS.len())?, 0)? {
        return Ok(Some(0));
    }
    for (place, round) in ROUNDS.iter().enumerate() {
        let timestamp = FIRST.saturating_add(place as u64);
        if !is_asked(rt, relay, replies(alloc, *round, timestamp)?, round.next)? {
            return Ok(Some(place));
        }
    }
    Ok(None)
}

#[test]
fn the_primary_of_the_view_that_is_reached_is_asked(rt: HostRuntime) -> Result<(), Fail> {
    let mut relay = relay_of(rt.alloc(), 1)?;
    compared(first_wrong(&rt, rt.alloc(), &mut relay)?, None)?;
    Ok(())
}
