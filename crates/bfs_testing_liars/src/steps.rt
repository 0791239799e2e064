//! Steps of schedules: what happens to replicas, drawn at random.
use crate::draws::{any_of, happens, some};
use crate::sets::Set;
use crate::world::{Flight, World};
use bfs_testing::generated::Generator;
use bfs_types::Memory;
use std::sync::Wait;
use std::thread::Threads;

// the most deliveries of a round, for each replica
const DELIVERIES: usize = 24;

/// All that is on its way comes to those that hear, in any order, some of it twice, and some of it is lost.
pub fn exchange<R: Threads + Wait + Sync>(
    rt: &R,
    world: &mut World,
    draws: &mut Generator,
    hear: Set,
    loss: u32,
) -> Result<(), Memory> {
    exchange_some(rt, world, draws, hear, loss, DELIVERIES)
}

/// At most so much for each replica of what is on its way.
pub fn exchange_some<R: Threads + Wait + Sync>(
    rt: &R,
    world: &mut World,
    draws: &mut Generator,
    hear: Set,
    loss: u32,
    most: usize,
) -> Result<(), Memory> {
    for _ in 0..most.saturating_mul(world.nodes.len()) {
        let place = any_of(draws, world.on_their_way.len());
        if place >= world.on_their_way.len() {
            return execute_all(rt, world, hear);
        }
        let flight = world.on_their_way[place];
        if !happens(draws, 6) {
            world.on_their_way.swap_remove(place);
        }
        if hear.has(flight.to) {
            if !happens(draws, loss) {
                arrive(rt, world, draws, flight)?;
            }
        } else if happens(draws, 50) {
            world.on_their_way.push(flight)?;
        }
    }
    execute_all(rt, world, hear)
}

fn arrive<R: Threads + Wait + Sync>(
    rt: &R,
    world: &mut World,
    draws: &mut Generator,
    flight: Flight,
) -> Result<(), Memory> {
    world.deliver(rt, flight)?;
    if happens(draws, 30) {
        world.execute(rt, flight.to)?;
    }
    Ok(())
}

// each of them executes all that is next
fn execute_all<R: Threads + Wait + Sync>(rt: &R, world: &mut World, of: Set) -> Result<(), Memory> {
    for number in 0..world.nodes.len() {
        if of.has(number) {
            execute_at(rt, world, number)?;
        }
    }
    Ok(())
}

fn execute_at<R: Threads + Wait + Sync>(
    rt: &R,
    world: &mut World,
    number: usize,
) -> Result<(), Memory> {
    for _ in 0u32..8 {
        if !world.execute(rt, number)? {
            return Ok(());
        }
    }
    Ok(())
}

/// They leave for the view above those that they have asked for.
pub fn leave(world: &mut World, of: Set) -> Result<(), Memory> {
    let mut view = 0u64;
    for number in 0..world.nodes.len() {
        if of.has(number) {
            view = view.max(world.asked(number));
        }
    }
    world.leave(of, view.saturating_add(1))
}

/// The primary of some replica's view proposes.
pub fn propose(world: &mut World, draws: &mut Generator) -> Result<(), Memory> {
    let one = any_of(draws, world.nodes.len());
    let primary = world.primary(world.view(one));
    world.propose(primary)
}

/// Messages that were sent once come again.
pub fn repeat(world: &mut World, draws: &mut Generator) -> Result<(), Memory> {
    for _ in 0u32..4 {
        let which = any_of(draws, world.sent.len());
        let to = some(draws);
        if which < world.sent.len() {
            world.repeat(which, to)?;
        }
    }
    Ok(())
}

/// All messages of a kind that were sent once come again to some, those for a number alone, or all at 0.
pub fn repeat_kind(world: &mut World, kind: u32, number: u64, to: Set) -> Result<(), Memory> {
    for which in 0..world.sent.len() {
        if let Some(sent) = world.sent.get(which) {
            if sent.head.kind == kind && (number == 0 || sent.head.number == number) {
                world.repeat(which, to)?;
            }
        }
    }
    Ok(())
}

/// Each adopts the stable snapshot of another one that is ahead.
pub fn adopt<R: Threads + Sync>(
    rt: &R,
    world: &mut World,
    draws: &mut Generator,
) -> Result<(), Memory> {
    for number in 0..world.nodes.len() {
        let other = any_of(draws, world.nodes.len());
        world.adopt(rt, number, other)?;
    }
    Ok(())
}
