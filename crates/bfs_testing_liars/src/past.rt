//! What was sent, as liars read it again.
use crate::heads::Head;
use crate::sets::Set;
use crate::world::World;
use bfs_codec::decode;
use bfs_messages::{Checkpoint, Message, OrderMessage, PrePrepare, Signed, ViewChange, Vote};
use bfs_types::Memory;
use std::alloc::Global;

pub(crate) fn has_sender(prepares: &[Signed<Vote>], sender: u32) -> bool {
    for signed in prepares {
        if signed.message.sender() == sender {
            return true;
        }
    }
    false
}

fn is_on(head: &Head, kind: u32, on: &Vote) -> bool {
    head.kind == kind
        && head.view == on.view()
        && head.number == on.number()
        && head.digest == *on.digest()
}

/// The message that bytes spell.
pub fn read(alloc: Global, bytes: &[u8]) -> Result<Signed<Message>, Memory> {
    match decode(alloc, bytes) {
        Ok(signed) => Ok(signed),
        Err(_) => Err(Memory),
    }
}

fn proposal_in(signed: Signed<Message>) -> Option<Signed<PrePrepare>> {
    let Signed { message, auth } = signed;
    match message {
        Message::Order(OrderMessage::PrePrepare(message)) => Some(Signed { message, auth }),
        _ => None,
    }
}

fn prepare_in(signed: Signed<Message>) -> Option<Signed<Vote>> {
    let Signed { message, auth } = signed;
    match &message {
        Message::Order(OrderMessage::Prepare(vote)) => Some(Signed {
            message: *vote,
            auth,
        }),
        _ => None,
    }
}

fn checkpoint_in(signed: Signed<Message>) -> Option<Signed<Checkpoint>> {
    let Signed { message, auth } = signed;
    match &message {
        Message::Order(OrderMessage::Checkpoint(checkpoint)) => Some(Signed {
            message: *checkpoint,
            auth,
        }),
        _ => None,
    }
}

fn change_in(signed: Signed<Message>) -> Option<Signed<ViewChange>> {
    let Signed { message, auth } = signed;
    match message {
        Message::ViewChange(message) => Some(Signed { message, auth }),
        _ => None,
    }
}

// the PRE-PREPARE of that sender
pub(crate) fn proposal_on(world: &World, on: &Vote) -> Result<Option<Signed<PrePrepare>>, Memory> {
    for sent in &world.sent {
        if is_on(&sent.head, 2, on) && sent.head.sender == on.sender() {
            return Ok(proposal_in(read(world.alloc, &sent.bytes)?));
        }
    }
    Ok(None)
}

// one of each sender
pub(crate) fn prepares_on(world: &World, on: &Vote) -> Result<Vec<Signed<Vote>>, Memory> {
    let mut prepares = Vec::new(world.alloc);
    for sent in &world.sent {
        if is_on(&sent.head, 3, on) && !has_sender(&prepares, sent.head.sender) {
            if let Some(prepare) = prepare_in(read(world.alloc, &sent.bytes)?) {
                prepares.push(prepare)?;
            }
        }
    }
    Ok(prepares)
}

// one of each sender, whatever it tells
pub(crate) fn checkpoints_of(
    world: &World,
    number: u64,
) -> Result<Vec<Signed<Checkpoint>>, Memory> {
    let mut checkpoints = Vec::new(world.alloc);
    let mut seen = Set(0);
    for sent in &world.sent {
        let sender = sent.head.sender as usize;
        if sent.head.kind == 5 && sent.head.number == number && !seen.has(sender) {
            seen = seen.with(sender);
            if let Some(checkpoint) = checkpoint_in(read(world.alloc, &sent.bytes)?) {
                checkpoints.push(checkpoint)?;
            }
        }
    }
    Ok(checkpoints)
}

/// A VIEW-CHANGE of a liar with those of others for its view, of at most 2f senders, which those that are preferred come first of.
pub fn changes_with(
    world: &World,
    own: Signed<ViewChange>,
    preferred: Set,
) -> Result<Vec<Signed<ViewChange>>, Memory> {
    let mut seen = Set::of(own.message.sender() as usize);
    let view = own.message.view();
    let mut changes = Vec::new(world.alloc);
    changes.push(own)?;
    seen = add_changes(world, view, preferred, seen, &mut changes)?;
    add_changes(world, view, Set::ALL, seen, &mut changes)?;
    Ok(changes)
}

// those of some senders who have none there yet, and who has then
fn add_changes(
    world: &World,
    view: u64,
    of: Set,
    mut seen: Set,
    changes: &mut Vec<Signed<ViewChange>>,
) -> Result<Set, Memory> {
    let quorum = world.nodes.len() / 3 * 2 + 1;
    for sent in &world.sent {
        let sender = sent.head.sender as usize;
        let is_due = sent.head.kind == 6 && sent.head.view == view && of.has(sender);
        if is_due && !seen.has(sender) && changes.len() < quorum {
            seen = seen.with(sender);
            if let Some(change) = change_in(read(world.alloc, &sent.bytes)?) {
                changes.push(change)?;
            }
        }
    }
    Ok(seen)
}
