//! Clients that call, and the results that f + 1 replicas tell them.
use crate::world::{Up, World, settings};
use bfs_clients::{Call, Clients, Tally};
use bfs_codec::{decode, encode};
use bfs_frames::Kind;
use bfs_types::Memory;
use std::alloc::Global;
use std::sync::Wait;
use std::test::Fail;
use std::thread::Threads;

// GETATTR of the root (RFC 1094 section 2.2.2)
const GETATTR: &[u8; 72] =
    b"\0\0\0\x01\0\0\0\0\0\0\0\x02\0\x01\x86\xa3\0\0\0\x02\0\0\0\x01\0\0\0\0\0\0\0\0\0\0\0\0\0\0\0\0BFS2\0\0\0\x01\0\0\0\x02\0\0\0\0\0\0\0\0\0\0\0\0\0\0\0\0\0\0\0\0";

// how a reply to a call that was accepted begins (RFC 5531 section 9)
const ACCEPTED: &[u8; 12] = b"\0\0\0\x01\0\0\0\x01\0\0\0\0";

fn clients(alloc: Global) -> Result<Clients, Fail> {
    Ok(Clients::new(alloc, &settings(alloc)?)?)
}

fn call_of(clients: &Clients, client: u32, timestamp: u64) -> Result<Call, Fail> {
    Ok(clients.call(client, timestamp, GETATTR)?.ok_or("a client")?)
}

/// A client of that number asks all replicas for the attributes of the root.
pub fn ask(alloc: Global, world: &mut World, client: u32, timestamp: u64) -> Result<Call, Fail> {
    let call = call_of(&clients(alloc)?, client, timestamp)?;
    let text = encode(alloc, &call.request)?;
    world.send(Kind::Request, text.as_slice())?;
    Ok(call)
}

fn tally_one(
    alloc: Global,
    clients: &Clients,
    tally: &mut Tally,
    reply: &[u8],
) -> Result<(), Memory> {
    match decode(alloc, reply) {
        Ok(signed) => tally.add(clients, &signed),
        Err(_) => Ok(()),
    }
}

fn is_accepted(tally: &Tally) -> bool {
    match tally.result() {
        Some(result) => result.starts_with(ACCEPTED),
        None => false,
    }
}

/// Whether what clients were told gives the call a result that begins as one that was accepted does.
pub fn is_answered(alloc: Global, world: &World, call: &mut Call) -> Result<bool, Fail> {
    let clients = clients(alloc)?;
    for reply in &world.replies {
        tally_one(alloc, &clients, &mut call.tally, reply.as_slice())?;
    }
    Ok(is_accepted(&call.tally))
}

fn is_asked_and_answered<R: Threads + Wait + Sync>(
    rt: &R,
    alloc: Global,
    world: &mut World,
    up: &Up,
    timestamp: u64,
) -> Result<bool, Fail> {
    let mut call = ask(alloc, world, 0, timestamp)?;
    world.play(rt, 0, up, 8)?;
    let answered = is_answered(alloc, world, &mut call)?;
    world.replies.clear();
    Ok(answered)
}

/// Client 0 asks so many times, with timestamps behind one another, each once the one before is answered. How many were.
pub fn answered_of<R: Threads + Wait + Sync>(
    rt: &R,
    alloc: Global,
    world: &mut World,
    up: &Up,
    timestamps: std::ops::Range<u64>,
) -> Result<u32, Fail> {
    let mut answered = 0u32;
    for timestamp in timestamps {
        if is_asked_and_answered(rt, alloc, world, up, timestamp)? {
            answered = answered.saturating_add(1);
        }
    }
    Ok(answered)
}
