//! Calls that wait for a client, and calls that are dropped.
use crate::run::{FIRST, RIGHT};
use crate::script::Step::{Calls, Replies};
use crate::script::Told::{Again, Answer, Dropped, Request};
use crate::script::{Step, plays};
use bfs_relay::MOST_WAITING;
use std::test::Fail;

static IN_ORDER: [Step; 4] = [
    Calls(1, 10, 4, &[Request(0, FIRST), Request(1, FIRST)]),
    // the second client is free first, and begins the third call
    Replies(
        1,
        &[0, 1],
        (1, FIRST),
        RIGHT,
        &[Answer(11), Request(1, FIRST + 1)],
    ),
    Replies(
        1,
        &[0, 1],
        (1, FIRST + 1),
        RIGHT,
        &[Answer(12), Request(1, FIRST + 2)],
    ),
    Replies(1, &[0, 1], (0, FIRST), RIGHT, &[Answer(10)]),
];

#[test]
fn calls_wait_for_a_client_in_their_order(rt: HostRuntime) -> Result<(), Fail> {
    plays(&rt, rt.alloc(), 2, &IN_ORDER)
}

static DROPPED: [Step; 5] = [
    Calls(5, 0, 1 + MOST_WAITING, &[Request(0, FIRST)]),
    // three are dropped, and the operator is told once
    Calls(5, 5_000, 3, &[Dropped]),
    // again a second later, when the first request is sent again too
    Calls(6, 6_000, 2, &[Dropped, Again(0, FIRST)]),
    // there is room for one as soon as one has begun
    Replies(
        6,
        &[0, 1],
        (0, FIRST),
        RIGHT,
        &[Answer(0), Request(0, FIRST + 1)],
    ),
    Calls(6, 7_000, 1, &[]),
];

#[test]
fn calls_are_dropped_where_too_many_wait(rt: HostRuntime) -> Result<(), Fail> {
    plays(&rt, rt.alloc(), 1, &DROPPED)
}
