//! One replica, and what only these tests do to it.
use crate::gates::NoRoom;
use bfs_auth::Keys;
use bfs_codec::encode;
use bfs_messages::{Message, OrderMessage, Signed};
use bfs_node::{Engine, Executor, Node, Workers};
use bfs_testing_nodes::calls::{Said, propose, time_out};
use bfs_testing_nodes::members::Members;
use bfs_types::{MOST_CLIENTS, Memory};
use std::alloc::Global;
use std::sync::Wait;
use std::thread::Threads;

pub const CLIENTS: u32 = 16;

/// 3f + 1 replicas, and their clients.
pub fn members(f: u32) -> Members {
    Members {
        f,
        clients: CLIENTS,
    }
}

/// What a replica sends as it advances.
#[derive(Clone, Copy, Debug, PartialEq, Eq)]
pub enum Kind {
    Reply,
    Checkpoint,
    Other,
}

/// The replica with these keys.
pub fn replica_with(alloc: Global, keys: Keys) -> Result<Node, Memory> {
    match keys.replica_of() {
        Some(_) if keys.clients() <= MOST_CLIENTS as usize => Node::new(alloc, keys),
        _ => Err(Memory),
    }
}

/// Replica 3 of four, which begins with a text, where there are so many clients; or the number of the refusal.
pub fn replica_from(alloc: Global, clients: u32, text: &[u8]) -> Result<Node, u32> {
    let members = Members { f: 1, clients };
    let keys = members.keys_of(alloc, 3).map_err(|_| 40u32)?;
    match keys.replica_of() {
        Some(_) if keys.clients() <= MOST_CLIENTS as usize => {
            Node::from_text(alloc, keys, text).map_err(|error| error.code())
        }
        _ => Err(40),
    }
}

/// What a replica takes itself for: f, its number, and how many clients there are.
pub fn place_of(node: &Node) -> (u32, u32, u32) {
    (node.f(), node.number(), node.clients())
}

fn put(alloc: Global, bytes: &mut Vec<u8>, signed: &Signed<Message>) -> Result<(), Memory> {
    Ok(bytes.extend_from_slice(&encode(alloc, signed)?)?)
}

/// The bytes of all that it sends where it proposes, if it may, and then leaves its view.
pub fn said_first(alloc: Global, node: &mut Node) -> Result<Vec<u8>, Memory> {
    let mut bytes = Vec::new(alloc);
    if let Ok(signed) = propose(node, 1) {
        put(alloc, &mut bytes, &signed)?;
    }
    if let Ok(sent) = time_out(node) {
        for signed in &sent {
            put(alloc, &mut bytes, signed)?;
        }
    }
    Ok(bytes)
}

// an engine whose gate finds no memory for any request
fn without_room() -> Executor {
    Executor {
        workers: Workers::one(),
        engine: Some(Engine::Levels),
    }
}

/// It executes the next batch, and finds no memory for the requests in it.
pub fn execute_without_room<R: Threads + Wait + Sync>(rt: &R, node: &mut Node) -> Said {
    Said::of_some(&node.execute_ready(rt, without_room(), &NoRoom))
}

/// It executes all that is committed, but finds no memory for any request.
pub fn advance_without_room<R: Threads + Wait + Sync>(rt: &R, node: &mut Node) -> Said {
    Said::of_all(&node.advance(rt, without_room(), &NoRoom))
}

fn kind_of(signed: &Signed<Message>) -> Kind {
    match signed.message {
        Message::Reply(_) => Kind::Reply,
        Message::Order(OrderMessage::Checkpoint(_)) => Kind::Checkpoint,
        _ => Kind::Other,
    }
}

/// Whether these are sent, in this order.
pub fn are_of(sent: &[Signed<Message>], wanted: &[Kind]) -> bool {
    for (place, signed) in sent.iter().enumerate() {
        if wanted.get(place) != Some(&kind_of(signed)) {
            return false;
        }
    }
    sent.len() == wanted.len()
}

/// Whether a batch may be executed.
pub fn is_ready(node: &Node) -> bool {
    node.is_ready() && node.is_live()
}

/// Whether others have gone on.
pub fn is_behind(node: &Node) -> bool {
    node.is_behind()
}

/// The number of its last stable checkpoint, and that of its stable snapshot.
pub fn stable_numbers(node: &Node) -> (u64, Option<u64>) {
    let snapshot = match node.stable() {
        Some(stable) => Some(stable.checkpoint.number()),
        None => None,
    };
    (node.stable_number(), snapshot)
}
