//! The text of a replica's stable snapshot, and other texts.
use crate::replica::members;
use bfs_node::{Node, NodeError};
use bfs_testing_nodes::calls::{checkpoint, digest_of, execute, propose};
use bfs_testing_nodes::snapshots::snapshot_of;
use bfs_types::Memory;
use std::alloc::Global;
use std::sync::Wait;
use std::thread::Threads;

/// What a replica is to begin with, or to adopt.
#[derive(Clone, Copy)]
pub enum Text {
    /// The snapshot's text.
    Right,
    /// The snapshot's text with another byte at a place.
    But(usize, u8),
    /// The word 1.
    Word,
}

// behind 16 clients without a reply
const FILES: usize = 4 + 16 * 4;

// behind the header of the file system
const ROOT: usize = FILES + 28;

/// The version before, which a replica doesn't take: the last byte of the second word.
pub const EARLIER_VERSION: Text = Text::But(FILES + 7, 1);

/// A version that there is not.
pub const LATER_VERSION: Text = Text::But(FILES + 7, 3);

/// The last byte of the root's fourth word.
pub const ANOTHER_LINK: Text = Text::But(ROOT + 15, 3);

/// The last byte of the root's fifth word.
pub const ANOTHER_OWNER: Text = Text::But(ROOT + 19, 1);

/// The text of the stable snapshot, and its digest.
#[derive(Drop)]
pub struct Snapshot {
    pub text: Vec<u8>,
    pub digest: [u8; 32],
}

// 16 batches without requests, and a checkpoint
fn execute_sixteen<R: Threads + Wait + Sync>(rt: &R, node: &mut Node) -> Result<(), NodeError> {
    for _ in 0u32..16 {
        propose(node, 1)?;
        execute(rt, node)?;
    }
    checkpoint(rt, node)?;
    Ok(())
}

fn stable_in<R: Threads + Sync>(rt: &R, alloc: Global, node: &Node) -> Result<Snapshot, Memory> {
    let stable = snapshot_of(alloc, node)?;
    match (stable, digest_of(rt, node)) {
        (Some(stable), Ok(digest)) => Ok(Snapshot {
            text: stable.text,
            digest,
        }),
        _ => Err(Memory),
    }
}

/// That of a replica which has executed 16 batches without requests.
pub fn of_sixteen_batches<R: Threads + Wait + Sync>(
    rt: &R,
    alloc: Global,
) -> Result<Snapshot, Memory> {
    let mut node = members(0).replica(alloc, 0)?;
    execute_sixteen(rt, &mut node).map_err(|_| Memory)?;
    stable_in(rt, alloc, &node)
}

fn copy_of(alloc: Global, text: &[u8]) -> Result<Vec<u8>, Memory> {
    Ok(text.to_vec(alloc)?)
}

fn with_another_byte(
    alloc: Global,
    text: &[u8],
    place: usize,
    byte: u8,
) -> Result<Vec<u8>, Memory> {
    let mut changed = copy_of(alloc, text)?;
    if let Some(one) = changed.get_mut(place) {
        *one = byte;
    }
    Ok(changed)
}

impl Snapshot {
    /// The bytes of a text.
    pub fn bytes(&self, alloc: Global, text: Text) -> Result<Vec<u8>, Memory> {
        let right = self.text.as_slice();
        match text {
            Text::Right => copy_of(alloc, right),
            Text::But(place, byte) => with_another_byte(alloc, right, place, byte),
            Text::Word => copy_of(alloc, &[0, 0, 0, 1]),
        }
    }
}
