//! Which results are accepted: those of one replica more than may be faulty.
use crate::run::clients;
use crate::signed::signed_reply;
use bfs_clients::{Clients, Tally};
use bfs_messages::{Message, Signed};
use bfs_testing::holds;
use bfs_types::Memory;
use std::alloc::Global;
use std::process::Abort;
use std::test::Fail;

const RIGHT: &[u8] = b"right";

const WRONG: &[u8] = b"wrong";

// the sender and the result of a reply, and then how many are counted, and which result is accepted
type Row = (u32, &'static [u8], usize, Option<&'static [u8]>);

static WHERE_ONE_MAY_FAIL: &[Row] = &[
    (3, WRONG, 1, None),
    (0, RIGHT, 2, None),
    // a replica counts once, with its first reply
    (3, RIGHT, 2, None),
    (0, RIGHT, 2, None),
    (1, RIGHT, 3, Some(RIGHT)),
    (1, WRONG, 3, Some(RIGHT)),
    (2, RIGHT, 4, Some(RIGHT)),
];

static WHERE_NONE_FAILS: &[Row] = &[
    (2, b"", 1, Some(b"")),
    // the first one stays
    (1, RIGHT, 2, Some(b"")),
    (0, RIGHT, 3, Some(b"")),
];

static WHERE_ALL_DIFFER: &[Row] = &[
    (0, b"", 1, None),
    (1, b"right", 2, None),
    (2, b"righ", 3, None),
    (3, b"rights", 4, None),
];

static WHERE_ALL_MAY_FAIL: &[Row] = &[
    (0, RIGHT, 1, None),
    (1, RIGHT, 2, None),
    (2, RIGHT, 3, None),
    (3, RIGHT, 4, None),
];

/// Adds a message. No test needs what the contract says of it.
pub fn add(tally: &mut Tally, clients: &Clients, signed: &Signed<Message>) -> Result<(), Memory> {
    tally.add(clients, signed)
}

/// Whether so many replies are counted, and that result is accepted, or none.
pub fn has(tally: &Tally, replies: usize, accepted: Option<&[u8]>) -> bool {
    tally.result() == accepted && tally.replies() == replies
}

// a client's tally while those replies come
fn comes_to(rt: &impl Abort, alloc: Global, f: u32, rows: &[Row]) -> Result<(), Fail> {
    let clients = clients(alloc, 16)?;
    let mut tally = Tally::new(alloc, f, 2, 7);
    holds!(rt; has(&tally, 0, None));
    for (sender, bytes, replies, accepted) in rows {
        let signed = signed_reply(alloc, *sender, (2, 7), 2, *bytes)?;
        add(&mut tally, &clients, &signed)?;
        holds!(rt; has(&tally, *replies, *accepted));
    }
    Ok(())
}

#[test]
fn a_result_of_two_replicas_is_accepted_where_one_may_fail(rt: HostRuntime) -> Result<(), Fail> {
    comes_to(&rt, rt.alloc(), 1, WHERE_ONE_MAY_FAIL)
}

#[test]
fn one_reply_is_enough_where_none_fails(rt: HostRuntime) -> Result<(), Fail> {
    comes_to(&rt, rt.alloc(), 0, WHERE_NONE_FAILS)
}

#[test]
fn different_results_are_not_added_up(rt: HostRuntime) -> Result<(), Fail> {
    comes_to(&rt, rt.alloc(), 1, WHERE_ALL_DIFFER)?;
    comes_to(&rt, rt.alloc(), 4, WHERE_ALL_MAY_FAIL)
}
