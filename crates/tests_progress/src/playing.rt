//! Schedules: what fails for a while, drawn at random, and the same for a seed each time; and how long it takes behind that until all is executed.
use crate::asking::{Asking, taking_part};
use crate::world::{CLIENTS, Chances, World};
use bfs_testing_liars::draws::{any_of, below, draws_of, happens, hearing, some};
use bfs_testing_liars::sets::Set;
use std::alloc::Global;
use std::sync::Wait;
use std::test::Fail;
use std::thread::Threads;

// for how many ticks something fails
const TROUBLE: u32 = 60;

// how many ticks all may take behind that
const MOST_TICKS: u32 = 1_200;

// how many ticks a client waits before it sends again
const AGAIN: u32 = 10;

// how many ticks go by behind the faults before a client asks for something new: one that has left its view alone needs others that wait, too
const ANEW: u32 = 50;

fn count(set: Set) -> u32 {
    set.0.count_ones()
}

// at most f are silent for good
fn silence_one(world: &mut World) {
    let number = any_of(&mut world.draws, world.replicas.len());
    let silent = Set(world.up.with(number).0 ^ Set::of(number).0);
    if world.up.has(number) && count(silent.others()) <= world.f {
        world.up = silent;
    }
}

// a clock goes ahead by up to four seconds, or is set back
fn shift_clock(world: &mut World) {
    let number = any_of(&mut world.draws, world.ahead.len());
    let step = below(&mut world.draws, 4_000);
    let is_back = happens(&mut world.draws, 20);
    if let Some(ahead) = world.ahead.get_mut(number) {
        *ahead = if is_back {
            0
        } else {
            ahead.saturating_add(step)
        };
    }
}

// how much is lost, doubled and late for a while
fn change_chances(world: &mut World) {
    world.chances = Chances {
        lost: below(&mut world.draws, 4).saturating_mul(15),
        again: below(&mut world.draws, 3).saturating_mul(5),
        late: below(&mut world.draws, 4).saturating_mul(20),
    };
}

fn trouble(world: &mut World) {
    match below(&mut world.draws, 100) {
        0 => silence_one(world),
        1..=4 => shift_clock(world),
        5..=9 => change_chances(world),
        10..=13 => world.hear = hearing(&mut world.draws, world.replicas.len()),
        14..=17 => world.hear = Set::ALL,
        _ => {}
    }
}

// a client asks, or sends again
fn call(world: &mut World, asking: &mut Asking, number: u32) -> Result<(), Fail> {
    let client = number as usize;
    let to = if happens(&mut world.draws, 80) {
        Set::ALL
    } else {
        some(&mut world.draws)
    };
    if asking.is_answered(world, client) {
        if happens(&mut world.draws, 40) {
            asking.ask(world, client, to)?;
        }
    } else if world.tick % AGAIN == number {
        asking.repeat(world, client, to)?;
    }
    Ok(())
}

fn call_all(world: &mut World, asking: &mut Asking) -> Result<(), Fail> {
    for number in 0..CLIENTS {
        call(world, asking, number)?;
    }
    Ok(())
}

/// Client 0 asks so often, each time once it is answered, and what is told to some others is lost.
pub fn run_up<R: Threads + Wait + Sync>(
    rt: &R,
    world: &mut World,
    asking: &mut Asking,
    hear: Set,
    times: u32,
) -> Result<(), Fail> {
    world.hear = hear;
    for _ in 0..times {
        ask_once(rt, world, asking)?;
    }
    world.hear = Set::ALL;
    Ok(())
}

// at most eight ticks are given to it
fn ask_once<R: Threads + Wait + Sync>(
    rt: &R,
    world: &mut World,
    asking: &mut Asking,
) -> Result<(), Fail> {
    asking.ask(world, 0, Set::ALL)?;
    for _ in 0..8u32 {
        world.play(rt)?;
        if asking.is_answered(world, 0) {
            break;
        }
    }
    Ok(())
}

// now and then a checkpoint or two are made that one replica hears nothing of
fn begin<R: Threads + Wait + Sync>(
    rt: &R,
    world: &mut World,
    asking: &mut Asking,
) -> Result<(), Fail> {
    let hear = Set::of(any_of(&mut world.draws, world.replicas.len())).others();
    match below(&mut world.draws, 12) {
        0 => run_up(rt, world, asking, hear, 33),
        1 => run_up(rt, world, asking, hear, 17),
        2 => run_up(rt, world, asking, Set::ALL, 15),
        _ => Ok(()),
    }
}

fn suffer<R: Threads + Wait + Sync>(
    rt: &R,
    world: &mut World,
    asking: &mut Asking,
) -> Result<(), Fail> {
    change_chances(world);
    for _ in 0..TROUBLE {
        trouble(world);
        call_all(world, asking)?;
        world.play(rt)?;
    }
    world.chances = Chances::NONE;
    world.hear = Set::ALL;
    Ok(())
}

/// Whether 2f + 1 replicas take part, and each of them has executed all.
pub fn is_done(world: &World, asking: &Asking) -> bool {
    let done = asking.done(world);
    done == taking_part(world) && count(done) > world.f.saturating_mul(2)
}

// clients send again, and now and then client 0 asks for something new
fn go_on(world: &mut World, asking: &mut Asking, ticks: u32) -> Result<(), Fail> {
    if ticks % AGAIN == 0 {
        asking.repeat_all(world)?;
    }
    if ticks % ANEW == 0 && asking.is_answered(world, 0) {
        asking.ask(world, 0, Set::ALL)?;
    }
    Ok(())
}

/// Plays on while nothing fails, and clients ask. After how many ticks all is executed, if it is.
pub fn recover<R: Threads + Wait + Sync>(
    rt: &R,
    world: &mut World,
    asking: &mut Asking,
) -> Result<Option<u32>, Fail> {
    for ticks in 0..MOST_TICKS {
        go_on(world, asking, ticks)?;
        world.play(rt)?;
        if is_done(world, asking) {
            return Ok(Some(ticks));
        }
    }
    Ok(None)
}

/// Plays the schedule of a seed over 3f + 1 replicas. How many ticks it took behind the last fault until all was executed, if it came to that.
pub fn play<R: Threads + Wait + Sync>(
    rt: &R,
    alloc: Global,
    f: u32,
    seed: u64,
) -> Result<Option<u32>, Fail> {
    let mut world = World::new(alloc, f, draws_of(seed))?;
    let mut asking = Asking::new(alloc, f)?;
    begin(rt, &mut world, &mut asking)?;
    suffer(rt, &mut world, &mut asking)?;
    recover(rt, &mut world, &mut asking)
}

/// Plays the schedules of so many seeds from one on. The first that is stuck, and the most ticks that one before it took.
pub fn play_all<R: Threads + Wait + Sync>(
    rt: &R,
    alloc: Global,
    f: u32,
    first: u64,
    times: u64,
) -> Result<(Option<u64>, u32), Fail> {
    let mut most = 0u32;
    for ahead in 0..times {
        let seed = first.wrapping_add(ahead);
        match play(rt, alloc, f, seed)? {
            Some(ticks) => most = most.max(ticks),
            None => return Ok((Some(seed), most)),
        }
    }
    Ok((None, most))
}
