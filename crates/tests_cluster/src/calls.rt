//! Calls of clients: what is sent, and what comes back, where one of four replicas may be faulty.
use crate::run::two_clients;
use crate::signed::{keys_of_replica, signed_reply};
use bfs_clients::{Call, Clients};
use bfs_messages::{Message, Request, is_signed};
use bfs_testing::{holds, same};
use bfs_types::{MOST_REQUEST_BYTES, Memory};
use std::alloc::Global;
use std::process::Abort;
use std::test::Fail;

static LONGEST: [u8; MOST_REQUEST_BYTES] = [9; MOST_REQUEST_BYTES];

// the call of client 1 with the timestamp 7
fn begun(alloc: Global, clients: &Clients, bytes: &[u8]) -> Result<Call, Fail> {
    if bytes.len() > MOST_REQUEST_BYTES {
        return Err("a call that is too long".into());
    }
    Ok(clients.call(1, 7, bytes)?.ok_or("a client")?)
}

fn says(rt: &impl Abort, request: &Request, bytes: &[u8]) -> Result<(), Fail> {
    same!(rt; (request.client(), request.timestamp()), (1, 7));
    holds!(rt; request.call() == bytes);
    Ok(())
}

fn is_sent(rt: &impl Abort, alloc: Global, bytes: &[u8]) -> Result<(), Fail> {
    let clients = two_clients(alloc)?;
    let call = begun(alloc, &clients, bytes)?;
    for replica in 0u32..4 {
        holds!(rt; is_signed(&keys_of_replica(alloc, replica)?, &call.request));
    }
    same!(rt; (call.tally.client(), call.tally.timestamp(), call.tally.replies()), (1, 7, 0));
    match &call.request.message {
        Message::Request(request) => says(rt, request, bytes),
        _ => Err("a request".into()),
    }
}

#[test]
fn a_call_is_a_request_that_each_replica_finds_signed(rt: HostRuntime) -> Result<(), Fail> {
    is_sent(&rt, rt.alloc(), b"a call")?;
    is_sent(&rt, rt.alloc(), b"")?;
    is_sent(&rt, rt.alloc(), &LONGEST)
}

fn is_none(clients: &Clients, client: u32) -> Result<bool, Memory> {
    Ok(clients.call(client, 7, b"a call")?.is_none())
}

#[test]
fn there_is_no_call_of_a_client_that_there_is_not(rt: HostRuntime) -> Result<(), Fail> {
    let clients = two_clients(rt.alloc())?;
    holds!(rt; !is_none(&clients, 1)?);
    holds!(rt; is_none(&clients, 2)?);
    Ok(())
}

const RIGHT: &[u8] = b"right";

const OTHER: &[u8] = b"other";

// the sender of a reply, the client and the timestamp of the request, for which client it is hashed, and the result; then how many
// replies the call has counted, and whether it has a result
type Row = (u32, (u32, u64), u32, &'static [u8], usize, bool);

static ROWS: &[Row] = &[
    (0, (1, 7), 1, RIGHT, 1, false),
    // to another client, and to another request
    (1, (0, 7), 0, RIGHT, 1, false),
    (1, (1, 6), 1, RIGHT, 1, false),
    (1, (1, 8), 1, RIGHT, 1, false),
    // of the same replica again
    (0, (1, 7), 1, RIGHT, 1, false),
    // forged: hashed for another client
    (1, (1, 7), 0, RIGHT, 1, false),
    (2, (1, 7), 1, OTHER, 2, false),
    (3, (1, 7), 1, RIGHT, 3, true),
    (1, (1, 7), 1, OTHER, 4, true),
];

fn take(clients: &Clients, call: &mut Call, alloc: Global, row: &Row) -> Result<(), Fail> {
    let (sender, request, receiver, bytes, _, _) = row;
    let signed = signed_reply(alloc, *sender, *request, *receiver, *bytes)?;
    Ok(call.tally.add(clients, &signed)?)
}

#[test]
fn a_call_has_the_result_that_two_replicas_sent(rt: HostRuntime) -> Result<(), Fail> {
    let alloc = rt.alloc();
    let clients = two_clients(alloc)?;
    let mut call = begun(alloc, &clients, b"a call")?;
    for row in ROWS {
        take(&clients, &mut call, alloc, row)?;
        same!(rt; (call.tally.replies(), !call.tally.waits()), (row.4, row.5));
    }
    holds!(rt; call.tally.result() == Some(RIGHT));
    Ok(())
}
