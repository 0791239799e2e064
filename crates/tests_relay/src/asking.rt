//! A call that the replicas answer: the request that is signed for it, and the replies that settle it.
use crate::run::{FIRST, RIGHT};
use crate::script::Step::{Calls, Next, Replies};
use crate::script::Told::{Answer, Request};
use crate::script::{Step, plays};
use std::test::Fail;

static SETTLED: [Step; 9] = [
    Calls(1, 7, 1, &[Request(0, FIRST)]),
    Next(FIRST + 1),
    Replies(1, &[0], (0, FIRST), RIGHT, &[]),
    // of the same replica again, of a liar, to another request, and to another client
    Replies(1, &[0], (0, FIRST), RIGHT, &[]),
    Replies(1, &[1], (0, FIRST), b"other", &[]),
    Replies(1, &[2], (0, FIRST + 1), RIGHT, &[]),
    Replies(1, &[2], (1, FIRST), RIGHT, &[]),
    Replies(1, &[3], (0, FIRST), RIGHT, &[Answer(7)]),
    // the last one comes too late
    Replies(1, &[2], (0, FIRST), RIGHT, &[]),
];

#[test]
fn a_result_that_two_replicas_sent_is_answered(rt: HostRuntime) -> Result<(), Fail> {
    plays(&rt, rt.alloc(), 1, &SETTLED)
}

static EMPTY: [Step; 6] = [
    Calls(1, 7, 1, &[Request(0, FIRST)]),
    Next(FIRST + 1),
    Replies(1, &[0], (0, FIRST), b"", &[]),
    Replies(1, &[1], (0, FIRST), b"", &[]),
    // the next call begins at once
    Calls(1, 8, 1, &[Request(0, FIRST + 1)]),
    Next(FIRST + 2),
];

#[test]
fn an_empty_result_frees_the_client_and_is_not_answered(rt: HostRuntime) -> Result<(), Fail> {
    plays(&rt, rt.alloc(), 1, &EMPTY)
}
