//! Schedules: what happens to replicas and clients, drawn at random, and the same for a seed each time.
use crate::crowd::{Crowd, members};
use crate::judging::{Wrong, judge};
use crate::lies::{equivocate, tell_wrongly};
use crate::seen::Seen;
use bfs_testing::generated::Generator;
use bfs_testing::numbers::{CREATE, GETATTR, LOOKUP, MKDIR, READ, READDIR, REMOVE, WRITE};
use bfs_testing_liars::draws::{any_of, below, draws_of, happens, hearing, liars_among, some};
use bfs_testing_liars::lies::{Lying, lie};
use bfs_testing_liars::sets::Set;
use bfs_testing_liars::steps::{adopt, exchange_some, leave, propose, repeat};
use bfs_testing_liars::world::World;
use bfs_types::Memory;
use std::alloc::Global;
use std::sync::Wait;
use std::thread::Threads;

const ROUNDS: u32 = 3;

const PROCEDURES: &[u32] = &[
    CREATE, CREATE, MKDIR, WRITE, WRITE, READ, REMOVE, LOOKUP, GETATTR, READDIR,
];

// clients ask, one primary proposes, what is on its way comes, and clients hear
fn turn<R: Threads + Wait + Sync>(
    rt: &R,
    world: &mut World,
    draws: &mut Generator,
    crowd: &mut Crowd,
    hear: Set,
    loss: u32,
) -> Result<(), Memory> {
    crowd.ask_all(world, draws, 60)?;
    exchange_some(rt, world, draws, hear, loss, 4)?;
    if happens(draws, 60) {
        propose(world, draws)?;
    }
    exchange_some(rt, world, draws, hear, loss, 12)?;
    crowd.hear_all(world, draws, loss)
}

fn act<R: Threads + Wait + Sync>(
    rt: &R,
    world: &mut World,
    draws: &mut Generator,
    lying: &Lying,
    crowd: &mut Crowd,
    hear: Set,
) -> Result<(), Memory> {
    match below(draws, 20) {
        0..=4 => crowd.lie(world, draws),
        5..=8 => lie(world, draws, lying),
        9..=12 => equivocate(world, draws, lying),
        13..=15 => tell_wrongly(world, draws, lying, &crowd.correct),
        16..=17 => leave(world, hear),
        18 => adopt(rt, world, draws),
        _ => repeat(world, draws),
    }
}

fn round<R: Threads + Wait + Sync>(
    rt: &R,
    world: &mut World,
    draws: &mut Generator,
    lying: &Lying,
    crowd: &mut Crowd,
) -> Result<(), Memory> {
    let hear = hearing(draws, world.nodes.len());
    let loss = below(draws, 3).saturating_mul(10);
    for _ in 0u32..3 {
        act(rt, world, draws, lying, crowd, hear)?;
        turn(rt, world, draws, crowd, hear, loss)?;
    }
    Ok(())
}

// now and then behind so many numbers that a checkpoint becomes stable, of which one replica hears nothing, until it adopts it
fn begin<R: Threads + Wait + Sync>(
    rt: &R,
    world: &mut World,
    draws: &mut Generator,
    crowd: &mut Crowd,
) -> Result<(), Memory> {
    if !happens(draws, 10) {
        return Ok(());
    }
    let hear = Set::of(any_of(draws, world.nodes.len())).others();
    for _ in 0u32..17 {
        crowd.ask_all(world, draws, 20)?;
        exchange_some(rt, world, draws, hear, 0, 6)?;
        world.propose(0)?;
        exchange_some(rt, world, draws, hear, 0, 24)?;
        crowd.hear_all(world, draws, 0)?;
    }
    if happens(draws, 80) {
        adopt(rt, world, draws)?;
    }
    Ok(())
}

// all hear one another again, over some views
fn end<R: Threads + Wait + Sync>(
    rt: &R,
    world: &mut World,
    draws: &mut Generator,
    crowd: &mut Crowd,
) -> Result<(), Memory> {
    for _ in 0u32..2 {
        leave(world, Set::ALL)?;
        exchange_some(rt, world, draws, Set::ALL, 0, 48)?;
        crowd.ask_all(world, draws, 100)?;
        exchange_some(rt, world, draws, Set::ALL, 0, 24)?;
        propose(world, draws)?;
        exchange_some(rt, world, draws, Set::ALL, 0, 48)?;
        crowd.hear_all(world, draws, 0)?;
    }
    Ok(())
}

fn rounds<R: Threads + Wait + Sync>(
    rt: &R,
    world: &mut World,
    draws: &mut Generator,
    lying: &Lying,
    crowd: &mut Crowd,
) -> Result<(), Memory> {
    begin(rt, world, draws, crowd)?;
    for _ in 0..ROUNDS {
        round(rt, world, draws, lying, crowd)?;
    }
    end(rt, world, draws, crowd)
}

// what came about, or what is wrong
fn verdict<R: Threads + Sync>(
    rt: &R,
    alloc: Global,
    world: &World,
    crowd: &Crowd,
) -> Result<Result<Seen, Wrong>, Memory> {
    let (server, wrong) = judge(rt, alloc, world, &crowd.correct)?;
    if let Some(wrong) = wrong {
        return Ok(Err(wrong));
    }
    let seen = world.record.seen();
    Ok(Ok(Seen {
        accepted: (crowd.correct.book.accepted.len() % 1_000) as u32,
        views: seen.views,
        adoptions: seen.adoptions,
        lies: seen.lies,
        lies_of_clients: crowd.lies,
        wrong_results: crowd.wrong_results,
        repeated: server.repeated,
        contested: server.contested,
        late: server.late,
    }))
}

/// Plays the schedule of a seed over 3f + 1 replicas: what came about, or what is wrong.
pub fn play<R: Threads + Wait + Sync>(
    rt: &R,
    alloc: Global,
    f: u32,
    seed: u64,
) -> Result<Result<Seen, Wrong>, Memory> {
    let mut draws = draws_of(seed);
    draws.procedures = PROCEDURES;
    let liars = liars_among(&mut draws, f);
    let lying = Lying::new(alloc, members(f), liars)?;
    let mut crowd = Crowd::new(alloc, f)?;
    let mut world = World::new(alloc, members(f), liars)?;
    rounds(rt, &mut world, &mut draws, &lying, &mut crowd)?;
    verdict(rt, alloc, &world, &crowd)
}

/// Plays the schedules of so many seeds from one on. The first that came to something wrong, and what came about in all before.
pub fn play_all<R: Threads + Wait + Sync>(
    rt: &R,
    alloc: Global,
    f: u32,
    first: u64,
    count: u64,
) -> Result<(Option<(u64, Wrong)>, Seen), Memory> {
    let mut seen = Seen::NOTHING;
    for ahead in 0..count {
        let seed = first.wrapping_add(ahead);
        match play(rt, alloc, f, seed)? {
            Ok(more) => seen = seen.and(more),
            Err(wrong) => return Ok((Some((seed, wrong)), seen)),
        }
    }
    Ok((None, seen))
}
