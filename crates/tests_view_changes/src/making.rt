//! What a replica makes of its log.
ghost use Rattle.std.specs.Prelude.{◌<◌, ◌^◌};

use crate::parts::{Batch, Told, keys_of, proposal};
use bfs_messages::{OrderMessage, Signed, ViewChange, Vote, sign_order};
use bfs_order::Order;
use bfs_pending::PendingRequests;
use bfs_testing::asserts::compared;
use bfs_types::Memory;
use bfs_view_change::{make_view_change, valid_view_change};
use std::alloc::Global;
use std::test::Fail;
use std::thread::Threads;

/// What comes to replica 1.
#[derive(Clone, Copy)]
enum Event {
    /// The primary's PRE-PREPARE for a number of view 0.
    Proposed(u64),
    /// The PREPARE of replica 2 for it.
    Prepared(u64),
    /// A CHECKPOINT.
    Told(Told),
}

fn proposal_for(alloc: Global, number: u64) -> Result<Signed<OrderMessage>, Memory> {
    Ok(proposal(alloc, 0, 0, number, Batch::At(5))?.into_order())
}

fn prepare_for(alloc: Global, number: u64) -> Result<Signed<OrderMessage>, Memory> {
    let proposal = proposal(alloc, 0, 0, number, Batch::At(5))?;
    let digest = *proposal.message.vote().digest();
    let vote = Vote::new(2, 0, number % (1 << 63), digest);
    sign_order(alloc, &keys_of(alloc, 2)?, OrderMessage::Prepare(vote))
}

impl Event {
    fn message(self, alloc: Global) -> Result<Signed<OrderMessage>, Memory> {
        match self {
            Event::Proposed(number) => proposal_for(alloc, number),
            Event::Prepared(number) => prepare_for(alloc, number),
            Event::Told(one) => one.checkpoint(alloc)?.to_order(alloc),
        }
    }
}

fn takes<R: Threads + Sync>(
    rt: &R,
    alloc: Global,
    order: &mut Order,
    event: Event,
) -> Result<bool, Memory> {
    let signed = event.message(alloc)?;
    let none = PendingRequests::new(alloc);
    Ok(
        order
            .on_message(rt, &keys_of(alloc, 1)?, &none, signed)
            .is_ok(),
    )
}

fn takes_all<R: Threads + Sync>(
    rt: &R,
    alloc: Global,
    order: &mut Order,
    events: &[Event],
) -> Result<bool, Memory> {
    for event in events {
        if !takes(rt, alloc, order, *event)? {
            return Ok(false);
        }
    }
    Ok(true)
}

// the VIEW-CHANGE for view 1 that it makes then, if it takes them all
fn made<R: Threads + Sync>(
    rt: &R,
    alloc: Global,
    events: &[Event],
) -> Result<Option<Signed<ViewChange>>, Memory> {
    let mut order = Order::new(alloc, 1, 1);
    if !takes_all(rt, alloc, &mut order, events)? {
        return Ok(None);
    }
    Ok(Some(make_view_change(alloc, &order, &keys_of(alloc, 1)?, 1)?))
}

/// What a VIEW-CHANGE of replica 1 for view 1 says: its stable number, how many CHECKPOINTs it has, and of its certificates the numbers and
/// how many PREPAREs they have.
struct Says(u64, usize, &'static [(u64, usize)]);

fn certificate_at(change: &ViewChange, place: usize) -> (u64, usize) {
    match change.certificates().get(place) {
        None => (0, 0),
        Some(certificate) => (
            certificate.proposal().message.vote().number(),
            certificate.prepares().len(),
        ),
    }
}

fn has_certificates(change: &ViewChange, wanted: &[(u64, usize)]) -> bool {
    for (place, one) in wanted.iter().enumerate() {
        if certificate_at(change, place) != *one {
            return false;
        }
    }
    change.certificates().len() == wanted.len()
}

fn does_say(change: &ViewChange, wanted: &Says) -> bool {
    let Says(stable, checkpoints, certificates) = wanted;
    change.sender() == 1
        && change.view() == 1
        && change.stable() == *stable
        && change.checkpoints().len() == *checkpoints
        && has_certificates(change, *certificates)
}

fn is_valid_for(alloc: Global, replica: u32, change: &Signed<ViewChange>) -> Result<bool, Memory> {
    Ok(valid_view_change(&keys_of(alloc, replica)?, change))
}

// whether it says that, and is valid for this replica and for another one
fn is_right(alloc: Global, change: &Signed<ViewChange>, wanted: &Says) -> Result<bool, Memory> {
    Ok(
        does_say(&change.message, wanted)
            && is_valid_for(alloc, 1, change)?
            && is_valid_for(alloc, 3, change)?,
    )
}

fn makes<R: Threads + Sync>(
    rt: &R,
    alloc: Global,
    events: &[Event],
    wanted: &Says,
) -> Result<bool, Memory> {
    match made(rt, alloc, events)? {
        Some(change) => is_right(alloc, &change, wanted),
        None => Ok(false),
    }
}

static PREPARED: [Event; 5] = [
    Event::Proposed(3),
    Event::Prepared(3),
    Event::Proposed(2),
    Event::Proposed(1),
    Event::Prepared(1),
];

static OF_PREPARED: Says = Says(0, 0, &[(1, 2), (3, 2)]);

#[test]
fn what_is_prepared_is_taken_into_the_view(rt: HostRuntime) -> Result<(), Fail> {
    compared(makes(&rt, rt.alloc(), &PREPARED, &OF_PREPARED)?, true)?;
    Ok(())
}

static STABLE: [Event; 7] = [
    Event::Proposed(16),
    Event::Prepared(16),
    Event::Proposed(17),
    Event::Prepared(17),
    Event::Told(Told(0, 16)),
    Event::Told(Told(2, 16)),
    Event::Told(Told(3, 16)),
];

static OF_STABLE: Says = Says(16, 3, &[(17, 2)]);

#[test]
fn the_stable_number_comes_with_its_checkpoints(rt: HostRuntime) -> Result<(), Fail> {
    compared(makes(&rt, rt.alloc(), &STABLE, &OF_STABLE)?, true)?;
    Ok(())
}
