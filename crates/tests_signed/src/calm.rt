//! What replicas do that hear one another: they execute what is committed, and give one another again what was lost.
use bfs_messages::{Message, Signed};
use bfs_node::{Lag, Node};
use bfs_replies::Class;
use bfs_testing_liars::sets::Set;
use bfs_testing_liars::world::World;
use bfs_types::Memory;
use std::sync::Wait;
use std::thread::Threads;

/// Whether a replica has executed a client's request of that timestamp, or a later one.
pub fn has_executed(node: &Node, client: u32, timestamp: u64) -> bool {
    !matches!(node.classify(client, timestamp), Class::New)
}

/// How many of these have.
pub fn count_executed(world: &World, of: Set, client: u32, timestamp: u64) -> u32 {
    let mut count = 0u32;
    for (number, node) in world.nodes.iter().enumerate() {
        if of.has(number) && has_executed(node, client, timestamp) {
            count = count.saturating_add(1);
        }
    }
    count
}

/// The view above those that these have asked for.
pub fn next_view(world: &World, of: Set) -> u64 {
    let mut view = 0;
    for number in 0..4 {
        if of.has(number) {
            view = world.asked(number).max(view);
        }
    }
    view.saturating_add(1)
}

/// Each of these executes the next batch, if there is one.
pub fn execute<R: Threads + Wait + Sync>(rt: &R, world: &mut World, of: Set) -> Result<(), Memory> {
    for number in 0..4 {
        if of.has(number) {
            world.execute(rt, number)?;
        }
    }
    Ok(())
}

// what a replica gives again to another one
fn resent(node: &Node, other: &Node) -> Result<Vec<Signed<Message>>, Memory> {
    node.resend(Lag {
        view: other.view(),
        last: other.last_executed(),
        stable: other.stable_number(),
    })
}

fn resend_to(world: &mut World, from: usize, to: usize) -> Result<(), Memory> {
    let (Some(node), Some(other)) = (world.nodes.get(from), world.nodes.get(to)) else {
        return Ok(());
    };
    for signed in &resent(node, other)? {
        world.put(signed, Set::of(to), false)?;
    }
    Ok(())
}

/// Each of these gives the others again what they lack.
pub fn resend(world: &mut World, among: Set) -> Result<(), Memory> {
    for from in 0..4 {
        for to in 0..4 {
            if from != to && among.has(from) && among.has(to) {
                resend_to(world, from, to)?;
            }
        }
    }
    Ok(())
}
