//! A replica that is saved, restored, and compared with what it was.
use bfs_auth::Keys;
use bfs_node::{Node, SavedError};
use bfs_testing_nodes::calls::digest_of;
use bfs_testing_nodes::members::Members;
use bfs_testing_nodes::snapshots::{stable_of, told_of};
use bfs_types::{MOST_CLIENTS, Memory};
use std::alloc::Global;
use std::thread::Threads;

/// Four replicas, and two clients.
pub const MEMBERS: Members = Members { f: 1, clients: 2 };

/// The replica that these bytes are saved of, with keys of a replica.
pub fn restored<R: Threads + Sync>(
    rt: &R,
    alloc: Global,
    keys: Keys,
    bytes: &[u8],
) -> Result<Node, SavedError> {
    match keys.replica_of() {
        Some(_) if keys.clients() <= MOST_CLIENTS as usize => {
            Node::restored(rt, alloc, keys, bytes)
        }
        _ => Err(SavedError::Memory),
    }
}

/// The number by which these bytes are refused, if they are.
pub fn refusal<R: Threads + Sync>(
    rt: &R,
    alloc: Global,
    members: Members,
    me: u32,
    bytes: &[u8],
) -> Result<Option<u32>, Memory> {
    match restored(rt, alloc, members.keys_of(alloc, me)?, bytes) {
        Ok(_) => Ok(None),
        Err(SavedError::Memory) => Err(Memory),
        Err(error) => Ok(Some(error.code())),
    }
}

// What shows of a replica, in numbers.
#[derive(Clone, Copy, PartialEq, Eq)]
struct Shown {
    members: (u32, u32, u32),
    views: (u64, u64, Option<u64>),
    marks: (u64, u64, u32),
    flags: (bool, bool, bool),
    digest: Option<[u8; 32]>,
    stable: Option<(usize, [u8; 32])>,
}

fn seen_of<R: Threads + Sync>(rt: &R, node: &Node) -> Shown {
    Shown {
        members: (node.f(), node.number(), node.clients()),
        views: (node.view(), node.view_asked(), node.view_to_follow()),
        marks: (node.stable_number(), node.last_executed(), node.pending()),
        flags: (node.leads(), node.is_behind(), node.is_live()),
        digest: digest_of(rt, node).ok(),
        stable: stable_of(node),
    }
}

// Whether both have told the same of a number.
fn told_alike(alloc: Global, one: &Node, other: &Node, number: u64) -> Result<bool, Memory> {
    match (told_of(alloc, one, number)?, told_of(alloc, other, number)?) {
        (Some(one), Some(other)) => Ok(
            one.text.as_slice() == other.text.as_slice()
                && one.digest == other.digest
                && one.checkpoints.len() == other.checkpoints.len(),
        ),
        (None, None) => Ok(true),
        _ => Ok(false),
    }
}

/// Whether nothing shows a difference between them, and both have the same text.
pub fn are_alike<R: Threads + Sync>(
    rt: &R,
    alloc: Global,
    one: &Node,
    other: &Node,
) -> Result<bool, Memory> {
    let above = one.stable_number().saturating_add(16);
    Ok(
        seen_of(rt, one) == seen_of(rt, other)
            && told_alike(alloc, one, other, one.stable_number())?
            && told_alike(alloc, one, other, above)?
            && one.save()?.as_slice() == other.save()?.as_slice(),
    )
}
