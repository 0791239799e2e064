//! Calls are answered, also where the primary is silent, where requests have no room, and behind a state that was fetched.
use crate::script::Step::{Agree, Answered, Ask, HasExecuted, IsAnswered, Play, Stands, Told};
use crate::script::{Step, plays};
use crate::world::{ALL, BACKUPS, ONE, TERMS, THREE};
use bfs_service::Terms;
use std::test::Fail;

static A_CALL: [Step; 6] = [
    Ask(3, 7),
    Play(0, ALL, 4),
    IsAnswered(0),
    Stands(0, (0, 1, 0)),
    Stands(3, (0, 1, 0)),
    Agree(0, 3),
];

#[test]
fn a_call_is_answered(rt: HostRuntime) -> Result<(), Fail> {
    plays(&rt, rt.alloc(), TERMS, &A_CALL)
}

static REPEATED: [Step; 4] = [
    Answered(ALL, 7, 8, 1),
    Answered(ALL, 7, 8, 1),
    // an older one never
    Answered(ALL, 6, 7, 0),
    // and nothing is ordered for it
    Stands(1, (0, 1, 0)),
];

#[test]
fn a_call_that_is_repeated_is_answered_again(rt: HostRuntime) -> Result<(), Fail> {
    plays(&rt, rt.alloc(), TERMS, &REPEATED)
}

// each replica gets the request twice in one turn, and then again
static COPIES: [Step; 10] = [
    Ask(3, 7),
    Ask(3, 7),
    Play(0, BACKUPS, 1),
    Stands(1, (0, 0, 1)),
    Ask(3, 7),
    Play(0, BACKUPS, 1),
    Stands(1, (0, 0, 1)),
    Ask(3, 7),
    Play(0, ALL, 4),
    Stands(1, (0, 1, 0)),
];

#[test]
fn no_copy_waits(rt: HostRuntime) -> Result<(), Fail> {
    plays(&rt, rt.alloc(), TERMS, &COPIES)
}

// a request that comes late to one replica alone: it doesn't wait, and that replica gives its reply again
static LATE: [Step; 7] = [
    Answered(ALL, 7, 8, 1),
    Ask(0, 7),
    Play(0, ONE, 1),
    Stands(1, (0, 1, 0)),
    Told(1, 0),
    // and it asks for no other view
    Play(9_000, ONE, 2),
    Told(1, 0),
];

#[test]
fn a_late_request_is_answered_again(rt: HostRuntime) -> Result<(), Fail> {
    plays(&rt, rt.alloc(), TERMS, &LATE)
}

static SILENT_PRIMARY: [Step; 7] = [
    Ask(3, 7),
    Play(1_000, BACKUPS, 4),
    Play(2_900, BACKUPS, 4),
    Stands(1, (0, 0, 1)),
    Play(3_000, BACKUPS, 8),
    Stands(1, (1, 1, 0)),
    IsAnswered(0),
];

#[test]
fn the_next_primary_answers(rt: HostRuntime) -> Result<(), Fail> {
    plays(&rt, rt.alloc(), TERMS, &SILENT_PRIMARY)
}

// one call fits in a batch, and another has to wait
const SMALL: Terms = Terms {
    patience: 2_000_000,
    most_batch_bytes: 400,
    most_state_bytes: 10_000_000,
};

static WITHOUT_ROOM: [Step; 8] = [
    Ask(3, 7),
    Ask(4, 7),
    Play(0, ALL, 1),
    Stands(0, (0, 0, 1)),
    Play(0, ALL, 8),
    Stands(0, (0, 2, 0)),
    IsAnswered(0),
    IsAnswered(1),
];

#[test]
fn requests_without_room_wait(rt: HostRuntime) -> Result<(), Fail> {
    plays(&rt, rt.alloc(), SMALL, &WITHOUT_ROOM)
}

static FETCHED: [Step; 9] = [
    Answered(THREE, 1, 31, 30),
    Stands(3, (0, 0, 0)),
    // it has executed nothing, so it asks at once, and gets what is stable
    Answered(ALL, 31, 33, 2),
    HasExecuted(3, 16),
    // behind for long enough, it asks again
    Play(400, ALL, 8),
    HasExecuted(3, 32),
    Agree(0, 3),
    Answered(ALL, 33, 35, 2),
    HasExecuted(3, 34),
];

#[test]
fn one_that_was_away_fetches_a_state(rt: HostRuntime) -> Result<(), Fail> {
    plays(&rt, rt.alloc(), TERMS, &FETCHED)
}
