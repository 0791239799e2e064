//! Which lies are told, to whom, and when.
use crate::draws::{any_of, below, happens, some};
use crate::liars::{Liar, as_message, batch_of, spoiled};
use crate::past::changes_with;
use crate::sets::Set;
use crate::world::World;
use bfs_messages::{Message, OrderMessage, OrderedBatch, Signed, ViewChange, Vote};
use bfs_testing::generated::Generator;
use bfs_testing_nodes::members::Members;
use bfs_types::Memory;
use std::alloc::Global;
use std::sync::Arc;

/// Those that lie.
#[derive(Drop)]
pub struct Lying {
    pub liars: Vec<Liar>,
}

impl Lying {
    pub fn new(alloc: Global, members: Members, of: Set) -> Result<Lying, Memory> {
        let mut liars = Vec::new(alloc);
        for number in 0..32u32 {
            if of.has(number as usize) {
                liars.push(Liar::new(alloc, members, number)?)?;
            }
        }
        Ok(Lying { liars })
    }

    /// The one of that number.
    pub fn of(&self, number: usize) -> Option<&Liar> {
        for liar in &self.liars {
            if liar.number as usize == number {
                return Some(liar);
            }
        }
        None
    }

    /// Any of them.
    pub fn any(&self, draws: &mut Generator) -> Option<&Liar> {
        let place = any_of(draws, self.liars.len());
        self.liars.get(place)
    }
}

/// A message of a liar goes to some, now and then with entries that are wrong for some.
pub fn tell(
    world: &mut World,
    draws: &mut Generator,
    signed: Signed<Message>,
    to: Set,
) -> Result<(), Memory> {
    if happens(draws, 10) {
        let signed = spoiled(world.alloc, signed, some(draws))?;
        return world.put(&signed, to, true);
    }
    world.put(&signed, to, true)
}

/// All liars vote for a batch, with some replicas.
pub fn vote(
    world: &mut World,
    draws: &mut Generator,
    lying: &Lying,
    on: &Vote,
    to: Set,
) -> Result<(), Memory> {
    for liar in &lying.liars {
        let prepare = liar.prepare(liar.number, on)?;
        tell(world, draws, prepare, to)?;
        let commit = liar.commit(liar.number, on)?;
        tell(world, draws, commit, to)?;
    }
    Ok(())
}

// one of those that were proposed last
fn proposed(world: &World, draws: &mut Generator) -> Option<Vote> {
    let back = any_of(draws, world.proposed.len().min(6)).saturating_add(1);
    let place = world.proposed.len().checked_sub(back)?;
    Some(*world.proposed.get(place)?)
}

// the liars vote for what was proposed
fn support(world: &mut World, draws: &mut Generator, lying: &Lying) -> Result<(), Memory> {
    for _ in 0u32..3 {
        let to = some(draws);
        if let Some(on) = proposed(world, draws) {
            vote(world, draws, lying, &on, to)?;
        }
    }
    Ok(())
}

// a liar votes in another one's name
fn forge(world: &mut World, draws: &mut Generator, lying: &Lying) -> Result<(), Memory> {
    let other = below(draws, 3 * (world.members.f % 11) + 1);
    let (Some(liar), Some(on)) = (lying.any(draws), proposed(world, draws)) else {
        return Ok(());
    };
    let prepare = liar.prepare(other, &on)?;
    tell(world, draws, prepare, Set::ALL)?;
    let commit = liar.commit(other, &on)?;
    tell(world, draws, commit, Set::ALL)
}

// a batch without requests for a number goes to some, and the liars vote for it with them
fn propose(
    world: &mut World,
    draws: &mut Generator,
    lying: &Lying,
    liar: &Liar,
    at: (u64, u64),
    to: Set,
) -> Result<(), Memory> {
    let second = if happens(draws, 20) { 0 } else { world.tick() };
    let batch = batch_of(world.alloc, second)?;
    propose_batch(world, draws, lying, liar, at, &batch, to)
}

/// A batch for a view and number goes to some, and the liars vote for it with them.
pub fn propose_batch(
    world: &mut World,
    draws: &mut Generator,
    lying: &Lying,
    liar: &Liar,
    (view, number): (u64, u64),
    batch: &Arc<OrderedBatch>,
    to: Set,
) -> Result<(), Memory> {
    let proposal = liar.proposal(view, number, batch)?;
    let on = match &proposal.message {
        Message::Order(OrderMessage::PrePrepare(proposal)) => *proposal.vote(),
        _ => return Ok(()),
    };
    tell(world, draws, proposal, to)?;
    vote(world, draws, lying, &on, to)
}

/// A number that is next for a replica, or near it.
pub fn number_near(world: &World, draws: &mut Generator, one: usize) -> u64 {
    let last = world.last(one);
    match below(draws, 4) {
        0 => last.saturating_add(2),
        1 => last,
        _ => last.saturating_add(1),
    }
}

// the primary proposes two batches for a number
fn equivocate(world: &mut World, draws: &mut Generator, lying: &Lying) -> Result<(), Memory> {
    let one = any_of(draws, world.nodes.len());
    let view = world.view(one);
    let number = number_near(world, draws, one);
    let Some(liar) = lying.of(world.primary(view)) else {
        return support(world, draws, lying);
    };
    let to = some(draws);
    let others = others_or_any(draws, to);
    propose(world, draws, lying, liar, (view, number), to)?;
    propose(world, draws, lying, liar, (view, number), others)
}

/// The others, or any, so that some hear both of two lies.
pub fn others_or_any(draws: &mut Generator, to: Set) -> Set {
    if happens(draws, 50) {
        to.others()
    } else {
        some(draws)
    }
}

// what a liar proposed last, or another one of those that were proposed
fn to_certify(world: &World, draws: &mut Generator, liar: &Liar) -> Option<Vote> {
    if happens(draws, 60) {
        for vote in world.proposed.iter().rev() {
            if vote.sender() == liar.number {
                return Some(*vote);
            }
        }
    }
    proposed(world, draws)
}

// what a liar says in a view change
fn change(
    world: &World,
    draws: &mut Generator,
    liar: &Liar,
    view: u64,
) -> Result<Signed<ViewChange>, Memory> {
    match below(draws, 8) {
        0..=3 => liar.bare_change(view),
        4 => liar.change_behind(world, view, 16),
        _ => {
            let is_forged = happens(draws, 30);
            let Some(on) = to_certify(world, draws, liar) else {
                return liar.bare_change(view);
            };
            match liar.certificate(world, &on, is_forged)? {
                Some(certificate) => liar.change_with(view, certificate),
                None => liar.bare_change(view),
            }
        }
    }
}

// the view above the one that some replica has asked for, or the next one that a liar leads
fn next_view(world: &World, draws: &mut Generator) -> u64 {
    let view = world.asked(any_of(draws, world.nodes.len()));
    if happens(draws, 50) {
        for ahead in 1..world.nodes.len() as u64 % 32 {
            let led = view.saturating_add(ahead);
            if world.liars.has(world.primary(led)) {
                return led;
            }
        }
    }
    view.saturating_add(1)
}

// liars leave for a view, and tell some one thing and some another
fn ask_for(
    world: &mut World,
    draws: &mut Generator,
    lying: &Lying,
    view: u64,
) -> Result<(), Memory> {
    for liar in &lying.liars {
        let to = some(draws);
        let first = change(world, draws, liar, view)?;
        tell(world, draws, as_message(first), to)?;
        let second = change(world, draws, liar, view)?;
        tell(world, draws, as_message(second), to.others())?;
    }
    Ok(())
}

// a NEW-VIEW goes to some
fn begin(
    world: &mut World,
    draws: &mut Generator,
    liar: &Liar,
    view: u64,
    to: Set,
) -> Result<(), Memory> {
    let own = change(world, draws, liar, view)?;
    let changes = changes_with(world, own, some(draws))?;
    if happens(draws, 60) {
        return match liar.right_view(view, &changes)? {
            Some(new) => tell(world, draws, new, to),
            None => Ok(()),
        };
    }
    let one = any_of(draws, world.nodes.len());
    let (behind, count) = (world.last(one), below(draws, 4) as u64);
    let second = if happens(draws, 50) { 0 } else { world.tick() };
    let new = liar.wrong_view(view, changes, behind, count, second)?;
    tell(world, draws, new, to)
}

// replicas leave for a view; a liar that leads it begins it in two ways
fn change_view(world: &mut World, draws: &mut Generator, lying: &Lying) -> Result<(), Memory> {
    let view = next_view(world, draws);
    world.leave(some(draws), view)?;
    ask_for(world, draws, lying, view)?;
    let Some(liar) = lying.of(world.primary(view)) else {
        return Ok(());
    };
    let to = some(draws);
    begin(world, draws, liar, view, to)?;
    begin(world, draws, liar, view, to.others())
}

// a liar tells a checkpoint that was not reached, or another one's before it is there
fn tell_checkpoint(world: &mut World, draws: &mut Generator, lying: &Lying) -> Result<(), Memory> {
    let number = if happens(draws, 50) { 16 } else { 32 };
    let Some(liar) = lying.any(draws) else {
        return Ok(());
    };
    let mut digest = [7; 32];
    for sent in &world.sent {
        if sent.head.kind == 5 && sent.head.number == number {
            digest = sent.head.digest;
        }
    }
    let checkpoint = liar.checkpoint(number, digest)?;
    let to = some(draws);
    tell(world, draws, checkpoint, to)
}

/// A lie is told.
pub fn lie(world: &mut World, draws: &mut Generator, lying: &Lying) -> Result<(), Memory> {
    match below(draws, 12) {
        0..=4 => equivocate(world, draws, lying),
        5..=6 => support(world, draws, lying),
        7 => forge(world, draws, lying),
        8 => tell_checkpoint(world, draws, lying),
        _ => change_view(world, draws, lying),
    }
}
