//! Four replicas of the file service, of which one may be faulty, and a client: only bytes go between them. docs/CLUSTER.md says more.
#![tactic(auto)]

use anyhow::{Context, Error};
use bfs_clients::{Call, Clients, Tally};
use bfs_codec::{decode, encode};
use bfs_messages::{Message, Signed};
use bfs_node::{Executor, NoGate, Node, NodeError, Receivers, receivers_of};
use bfs_settings::{Settings, parse_settings};
use bfs_types::Time;
use std::alloc::{AllocGlobal, Global};
use std::collections::VecDeque;
use std::sync::Wait;
use std::thread::Threads;

const CONFIGURATION: &[u8] = b"f = 1\nclients = 2\nsecret = \"6120736563726574\"\n";

// GETATTR of the root (RFC 1094 section 2.2.2)
const CALL: &[u8; 72] =
    b"\0\0\0\x01\0\0\0\0\0\0\0\x02\0\x01\x86\xa3\0\0\0\x02\0\0\0\x01\0\0\0\0\0\0\0\0\0\0\0\0\0\0\0\0BFS2\0\0\0\x01\0\0\0\x02\0\0\0\0\0\0\0\0\0\0\0\0\0\0\0\0\0\0\0\0";

fn main(rt: HostRuntime) -> Result<(), Error> {
    let alloc = rt.alloc();
    let settings = parse_settings(alloc, CONFIGURATION)?;
    let clients = Clients::new(alloc, &settings)?;
    let mut nodes = nodes_of(alloc, &settings)?;
    let result = answer(&rt, &clients, &mut nodes)?;
    println!(rt; "{}", hex::encode(alloc, result)?)?;
    Ok(())
}

fn nodes_of(alloc: Global, settings: &Settings) -> Result<Vec<Node>, Error> {
    let mut nodes = Vec::new(alloc);
    for number in 0..settings.replicas() {
        nodes.push(Node::of_settings(alloc, settings, number)?)?;
    }
    Ok(nodes)
}

// Client 1 sends a request to all replicas, and the primary proposes what waits: what f + 1 replicas reply.
fn answer<R: AllocGlobal + Threads + Wait + Sync>(
    rt: &R,
    clients: &Clients,
    nodes: &mut [Node],
) -> Result<Vec<u8>, Error> {
    let Call { request, mut tally } = clients.call(1, 7, CALL)?.context("a client")?;
    settle(rt, clients, nodes, request, &mut tally)?;
    let primary = nodes.first_mut().context("a primary")?;
    let proposal = propose(primary, Time::new(1, 0).context("a time")?)?;
    settle(rt, clients, nodes, proposal, &mut tally)?;
    let result = tally.result().context("f + 1 equal replies")?;
    Ok(result.to_vec(rt.alloc())?)
}

fn propose(primary: &mut Node, time: Time) -> Result<Signed<Message>, NodeError> {
    primary.propose(time)
}

// Brings a message to those to whom it goes, and what they send then, until nothing is on its way.
fn settle<R: AllocGlobal + Threads + Wait + Sync>(
    rt: &R,
    clients: &Clients,
    nodes: &mut [Node],
    first: Signed<Message>,
    tally: &mut Tally,
) -> Result<(), Error> {
    let mut on_their_way = VecDeque::new(rt.alloc());
    on_their_way.push_back(first)?;
    for _ in rt.forever() {
        let Some(signed) = on_their_way.pop_front() else {
            return Ok(())
        };
        let bytes = encode(rt.alloc(), &signed)?;
        if let Receivers::Client(_) = receivers_of(&signed.message) {
            tally.add(clients, &decode(rt.alloc(), &bytes)?)?;
            continue;
        }
        bring(rt, nodes, &bytes, &mut on_their_way)?;
    }
    unreachable!()
}

// Brings bytes to all replicas, which send further messages.
fn bring<R: AllocGlobal + Threads + Wait + Sync>(
    rt: &R,
    nodes: &mut [Node],
    bytes: &[u8],
    on_their_way: &mut VecDeque<Signed<Message>>,
) -> Result<(), Error> {
    for node in nodes.iter_mut() {
        on_their_way.extend(hear(rt, node, bytes)?)?;
        on_their_way.extend(advance(rt, node)?)?;
    }
    Ok(())
}

// What a replica sends as bytes come to it.
fn hear<R: AllocGlobal + Threads + Sync>(
    rt: &R,
    node: &mut Node,
    bytes: &[u8],
) -> Result<Vec<Signed<Message>>, NodeError> {
    match node.deliver(rt, bytes) {
        Ok(sent) => Ok(sent),
        Err(NodeError::Memory) => Err(NodeError::Memory),
        Err(_) => Ok(Vec::new(rt.alloc())), // forged, too early or there already, as its own messages are
    }
}

// What it sends as it executes what is committed.
fn advance<R: Threads + Wait + Sync>(
    rt: &R,
    node: &mut Node,
) -> Result<Vec<Signed<Message>>, NodeError> {
    node.advance(rt, Executor::serial(), &NoGate)
}
