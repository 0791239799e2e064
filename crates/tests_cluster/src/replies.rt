//! Replies to several requests of two clients, where one of four replicas may be faulty.
use crate::run::two_clients;
use crate::signed::signed_reply;
use bfs_clients::{Clients, Tallies, Tally};
use bfs_messages::{Message, Signed};
use bfs_testing::{holds, same};
use bfs_types::Memory;
use std::alloc::Global;
use std::test::Fail;
use std::thread::Threads;

// adds a message: no test needs what the contract says of it
fn add(tallies: &mut Tallies, clients: &Clients, signed: &Signed<Message>) -> Result<(), Memory> {
    tallies.add(clients, signed)
}

fn add_all(
    rt: &(impl Threads + Sync),
    tallies: &mut Tallies,
    clients: &Clients,
    messages: &[Signed<Message>],
) -> Result<(), Memory> {
    tallies.add_all(rt, clients, messages)
}

fn are_signed(
    rt: &(impl Threads + Sync),
    clients: &Clients,
    messages: &[Signed<Message>],
) -> Result<Vec<bool>, Memory> {
    clients.are_signed(rt, messages)
}

// the same, where it was told before which messages are signed
fn add_checked(
    rt: &(impl Threads + Sync),
    tallies: &mut Tallies,
    clients: &Clients,
    messages: &[Signed<Message>],
) -> Result<(), Memory> {
    let passes = clients.are_signed(rt, messages)?;
    tallies.add_checked(clients, messages, &passes)
}

// tallies of four requests, one of them of a client that there isn't
fn begun(alloc: Global) -> Result<Tallies, Memory> {
    let mut tallies = Tallies::new(alloc);
    tallies.push(Tally::new(alloc, 1, 0, 7))?;
    tallies.push(Tally::new(alloc, 1, 0, 8))?;
    tallies.push(Tally::new(alloc, 1, 1, 7))?;
    tallies.push(Tally::new(alloc, 1, 2, 7))?;
    Ok(tallies)
}

// whether that result is accepted by the tally at that index, or none
fn has(tallies: &Tallies, index: usize, accepted: Option<&[u8]>) -> bool {
    match (
        tallies.as_slice().get(index).and_then(Tally::result),
        accepted,
    ) {
        (None, None) => true,
        (Some(given), Some(wanted)) => given == wanted,
        _ => false,
    }
}

const RIGHT: &[u8] = b"right";

const OTHER: &[u8] = b"other";

// the sender of a reply, the client and the timestamp of the request, for which client it is hashed, and the result; then what is
// accepted as the result of the request 7 of client 0
type Row = (u32, (u32, u64), u32, &'static [u8], Option<&'static [u8]>);

static ROWS: &[Row] = &[
    (0, (0, 7), 0, RIGHT, None),
    // to another request, to another client, and to a request that none sent
    (1, (0, 8), 0, RIGHT, None),
    (1, (1, 7), 1, RIGHT, None),
    (1, (0, 9), 0, RIGHT, None),
    // hashed for another client
    (1, (0, 7), 1, RIGHT, None),
    // of another result
    (2, (0, 7), 0, OTHER, None),
    // of the same replica again
    (0, (0, 7), 0, RIGHT, None),
    (3, (0, 7), 0, RIGHT, Some(RIGHT)),
    (1, (0, 7), 0, OTHER, Some(RIGHT)),
    // to a client that there isn't
    (0, (2, 7), 1, RIGHT, Some(RIGHT)),
    (1, (2, 7), 1, RIGHT, Some(RIGHT)),
];

#[test]
fn two_replicas_agree_on_the_result_of_one_request(rt: HostRuntime) -> Result<(), Fail> {
    let alloc = rt.alloc();
    let clients = two_clients(alloc)?;
    let mut tallies = begun(alloc)?;
    for (sender, request, receiver, bytes, accepted) in ROWS {
        let signed = signed_reply(alloc, *sender, *request, *receiver, *bytes)?;
        add(&mut tallies, &clients, &signed)?;
        holds!(rt; has(&tallies, 0, *accepted));
    }
    holds!(rt; has(&tallies, 1, None));
    holds!(rt; has(&tallies, 2, None));
    holds!(rt; has(&tallies, 3, None));
    Ok(())
}

// in this order they come to a result of the request 8, and to none of the request 7
fn four_replies(alloc: Global) -> Result<Vec<Signed<Message>>, Fail> {
    let mut replies = Vec::new(alloc);
    replies.push(signed_reply(alloc, 2, (0, 8), 0, OTHER)?)?;
    replies.push(signed_reply(alloc, 3, (0, 8), 0, RIGHT)?)?;
    replies.push(signed_reply(alloc, 3, (0, 7), 0, RIGHT)?)?;
    replies.push(signed_reply(alloc, 1, (0, 8), 0, RIGHT)?)?;
    Ok(replies)
}

#[test]
fn many_replies_are_counted_one_after_another(rt: HostRuntime) -> Result<(), Fail> {
    let alloc = rt.alloc();
    let clients = two_clients(alloc)?;
    let mut tallies = begun(alloc)?;
    add_all(&rt, &mut tallies, &clients, &four_replies(alloc)?)?;
    holds!(rt; has(&tallies, 1, Some(RIGHT)));
    holds!(rt; has(&tallies, 0, None));
    Ok(())
}

#[test]
fn replies_that_are_checked_are_counted_so_too(rt: HostRuntime) -> Result<(), Fail> {
    let alloc = rt.alloc();
    let clients = two_clients(alloc)?;
    let mut tallies = begun(alloc)?;
    add_checked(&rt, &mut tallies, &clients, &four_replies(alloc)?)?;
    holds!(rt; has(&tallies, 1, Some(RIGHT)));
    holds!(rt; has(&tallies, 0, None));
    Ok(())
}

#[test]
fn which_replies_are_signed(rt: HostRuntime) -> Result<(), Fail> {
    let alloc = rt.alloc();
    let clients = two_clients(alloc)?;
    let mut messages = Vec::new(alloc);
    messages.push(signed_reply(alloc, 0, (1, 7), 1, RIGHT)?)?;
    // hashed for another client, and to one that there isn't
    messages.push(signed_reply(alloc, 0, (1, 7), 0, RIGHT)?)?;
    messages.push(signed_reply(alloc, 0, (2, 7), 1, RIGHT)?)?;
    messages.push(signed_reply(alloc, 3, (0, 9), 0, OTHER)?)?;
    let given = are_signed(&rt, &clients, messages.as_slice())?;
    same!(rt; given.as_slice(), &[true, false, false, true]);
    Ok(())
}
