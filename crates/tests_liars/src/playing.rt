//! Schedules: what happens to replicas, drawn at random, and the same for a seed each time.
use bfs_testing::generated::Generator;
use bfs_testing_liars::checks::Seen;
use bfs_testing_liars::draws::{any_of, below, draws_of, happens, hearing, liars_among, some};
use bfs_testing_liars::lies::{Lying, lie};
use bfs_testing_liars::sets::Set;
use bfs_testing_liars::steps::{adopt, exchange, leave, propose, repeat, repeat_kind};
use bfs_testing_liars::world::World;
use bfs_testing_nodes::members::{Members, request, request_message};
use bfs_types::Memory;
use std::alloc::Global;
use std::sync::Wait;
use std::thread::Threads;

const CLIENTS: u32 = 2;

const ROUNDS: u32 = 8;

/// 3f + 1 replicas, and their clients.
pub fn members(f: u32) -> Members {
    Members {
        f,
        clients: CLIENTS,
    }
}

// a client asks some, or all
fn ask(world: &mut World, draws: &mut Generator) -> Result<(), Memory> {
    let call = draws.request(world.alloc)?;
    let to = if happens(draws, 70) {
        Set::ALL
    } else {
        some(draws)
    };
    let (client, timestamp) = (below(draws, CLIENTS), world.tick());
    let request = request(world.alloc, client, timestamp as u64, &call)?;
    let signed = world.members.request(world.alloc, client, request)?;
    world.put(&request_message(signed), to, false)
}

fn act<R: Threads + Wait + Sync>(
    rt: &R,
    world: &mut World,
    draws: &mut Generator,
    lying: &Lying,
    hear: Set,
) -> Result<(), Memory> {
    match below(draws, 20) {
        0..=1 => ask(world, draws),
        2..=6 => propose(world, draws),
        7..=13 => lie(world, draws, lying),
        14..=15 => leave(world, hear),
        16 => leave(world, some(draws)),
        17 => adopt(rt, world, draws),
        18 => repeat(world, draws),
        _ => repeat_kind(world, 5, 16, hear),
    }
}

fn round<R: Threads + Wait + Sync>(
    rt: &R,
    world: &mut World,
    draws: &mut Generator,
    lying: &Lying,
) -> Result<(), Memory> {
    let hear = hearing(draws, world.nodes.len());
    for _ in 0..below(draws, 3).saturating_add(1) {
        act(rt, world, draws, lying, hear)?;
    }
    let loss = below(draws, 3).saturating_mul(10);
    exchange(rt, world, draws, hear, loss)
}

/// Numbers are ordered in view 0 that some hear of.
pub fn run_up<R: Threads + Wait + Sync>(
    rt: &R,
    world: &mut World,
    draws: &mut Generator,
    hear: Set,
    count: u32,
) -> Result<(), Memory> {
    for _ in 0..count {
        world.propose(0)?;
        exchange(rt, world, draws, hear, 0)?;
    }
    Ok(())
}

/// Plays the schedule of a seed over 3f + 1 replicas. None where it came to something wrong, else what came about.
pub fn play<R: Threads + Wait + Sync>(
    rt: &R,
    alloc: Global,
    f: u32,
    seed: u64,
) -> Result<Option<Seen>, Memory> {
    let mut draws = draws_of(seed);
    let liars = liars_among(&mut draws, f);
    let lying = Lying::new(alloc, members(f), liars)?;
    let mut world = World::new(alloc, members(f), liars)?;
    rounds(rt, &mut world, &mut draws, &lying)?;
    if world.record.is_wrong() {
        Ok(None)
    } else {
        Ok(Some(world.record.seen()))
    }
}

// CHECKPOINTs that are old come again, and two numbers are ordered in the next view
fn hear_old_checkpoints<R: Threads + Wait + Sync>(
    rt: &R,
    world: &mut World,
    draws: &mut Generator,
) -> Result<(), Memory> {
    repeat_kind(world, 5, 16, Set::ALL)?;
    exchange(rt, world, draws, Set::ALL, 0)?;
    end(rt, world, draws)?;
    propose(world, draws)?;
    exchange(rt, world, draws, Set::ALL, 0)
}

// now and then behind so many numbers that checkpoints become stable, of which one replica hears the first alone
fn begin<R: Threads + Wait + Sync>(
    rt: &R,
    world: &mut World,
    draws: &mut Generator,
) -> Result<(), Memory> {
    let hear = Set::of(any_of(draws, world.nodes.len())).others();
    match below(draws, 16) {
        0 => {
            run_up(rt, world, draws, Set::ALL, 17)?;
            run_up(rt, world, draws, hear, 16)?;
            hear_old_checkpoints(rt, world, draws)
        }
        1 => run_up(rt, world, draws, hear, 17),
        _ => Ok(()),
    }
}

// all hear one another again
fn end<R: Threads + Wait + Sync>(
    rt: &R,
    world: &mut World,
    draws: &mut Generator,
) -> Result<(), Memory> {
    leave(world, Set::ALL)?;
    exchange(rt, world, draws, Set::ALL, 0)?;
    propose(world, draws)?;
    exchange(rt, world, draws, Set::ALL, 0)
}

fn rounds<R: Threads + Wait + Sync>(
    rt: &R,
    world: &mut World,
    draws: &mut Generator,
    lying: &Lying,
) -> Result<(), Memory> {
    begin(rt, world, draws)?;
    for _ in 0..ROUNDS {
        round(rt, world, draws, lying)?;
    }
    end(rt, world, draws)
}

/// Plays the schedules of so many seeds from one on. The first that came to something wrong, and what came about in all before.
pub fn play_all<R: Threads + Wait + Sync>(
    rt: &R,
    alloc: Global,
    f: u32,
    first: u64,
    count: u64,
) -> Result<(Option<u64>, Seen), Memory> {
    let mut seen = Seen::NOTHING;
    for ahead in 0..count {
        let seed = first.wrapping_add(ahead);
        match play(rt, alloc, f, seed)? {
            Some(more) => seen = seen.and(more),
            None => return Ok((Some(seed), seen)),
        }
    }
    Ok((None, seen))
}
