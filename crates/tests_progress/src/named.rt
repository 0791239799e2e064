//! Schedules with names.
use crate::asking::Asking;
use crate::playing::{recover, run_up};
use crate::world::{Loss, World};
use bfs_testing::same;
use bfs_testing_liars::draws::draws_of;
use bfs_testing_liars::sets::Set;
use std::alloc::Global;
use std::sync::Wait;
use std::test::Fail;
use std::thread::Threads;

// with what the texts of messages begin
const COMMIT: u32 = 4;

const CHECKPOINT: u32 = 5;

/// What happens.
#[derive(Clone, Copy)]
enum Event {
    /// Of messages that begin with a tag, and are of a number, the first so many that come to these are lost.
    Lose(u32, u64, Set, u32),
    /// Client 0 asks so often, one thing after another.
    Ask(u32),
    /// The same, while frames come to these alone.
    AskAmong(Set, u32),
    /// A request comes to these alone, and its client waits.
    AskOf(Set),
    /// What was asked last comes to these once more.
    Repeat(Set),
    /// A replica's clock goes ahead by so many milliseconds.
    Hurry(usize, u32),
    /// A replica is silent from now on.
    Silence(usize),
    /// So many ticks go by.
    Play(u32),
    /// All is executed within so many ticks by those who take part.
    Recovers(u32),
    /// A replica is in that view, and has executed that number last.
    Stands(usize, u64, u64),
    /// The stable number of a replica.
    HasStable(usize, u64),
}

fn lose(world: &mut World, loss: Loss) -> Result<bool, Fail> {
    world.losses.push(loss)?;
    Ok(true)
}

fn hurry(world: &mut World, number: usize, millis: u32) -> bool {
    match world.ahead.get_mut(number) {
        Some(ahead) => {
            *ahead = ahead.saturating_add(millis);
            true
        }
        None => false,
    }
}

fn silence(world: &mut World, number: usize) -> bool {
    world.up = Set(world.up.with(number).0 ^ Set::of(number).0);
    true
}

fn go_by<R: Threads + Wait + Sync>(rt: &R, world: &mut World, ticks: u32) -> Result<bool, Fail> {
    for _ in 0..ticks {
        world.play(rt)?;
    }
    Ok(true)
}

fn recovers<R: Threads + Wait + Sync>(
    rt: &R,
    world: &mut World,
    asking: &mut Asking,
    most: u32,
) -> Result<bool, Fail> {
    match recover(rt, world, asking)? {
        Some(ticks) => Ok(ticks <= most),
        None => Ok(false),
    }
}

fn stands(world: &World, number: usize, view: u64, last: u64) -> bool {
    match world.node(number) {
        Some(node) => node.view() == view && node.last_executed() == last,
        None => false,
    }
}

fn has_stable(world: &World, number: usize, stable: u64) -> bool {
    match world.node(number) {
        Some(node) => node.stable_number() == stable,
        None => false,
    }
}

fn ask_often<R: Threads + Wait + Sync>(
    rt: &R,
    world: &mut World,
    asking: &mut Asking,
    hear: Set,
    times: u32,
) -> Result<bool, Fail> {
    run_up(rt, world, asking, hear, times)?;
    Ok(true)
}

fn ask_of(world: &mut World, asking: &mut Asking, to: Set) -> Result<bool, Fail> {
    asking.ask(world, 0, to)?;
    Ok(true)
}

fn repeat(world: &mut World, asking: &Asking, to: Set) -> Result<bool, Fail> {
    asking.repeat(world, 0, to)?;
    Ok(true)
}

// whether it comes as it is told
fn happens<R: Threads + Wait + Sync>(
    rt: &R,
    world: &mut World,
    asking: &mut Asking,
    event: Event,
) -> Result<bool, Fail> {
    match event {
        Event::Lose(tag, number, to, left) => lose(
            world,
            Loss {
                tag,
                number,
                to,
                left,
            },
        ),
        Event::Ask(times) => ask_often(rt, world, asking, Set::ALL, times),
        Event::AskAmong(hear, times) => ask_often(rt, world, asking, hear, times),
        Event::AskOf(to) => ask_of(world, asking, to),
        Event::Repeat(to) => repeat(world, asking, to),
        Event::Hurry(number, millis) => Ok(hurry(world, number, millis)),
        Event::Silence(number) => Ok(silence(world, number)),
        Event::Play(ticks) => go_by(rt, world, ticks),
        Event::Recovers(most) => recovers(rt, world, asking, most),
        Event::Stands(number, view, last) => Ok(stands(world, number, view, last)),
        Event::HasStable(number, stable) => Ok(has_stable(world, number, stable)),
    }
}

// the place of the first event that does not come as it is told
fn first_wrong<R: Threads + Wait + Sync>(
    rt: &R,
    alloc: Global,
    events: &[Event],
) -> Result<Option<usize>, Fail> {
    let mut world = World::new(alloc, 1, draws_of(1))?;
    let mut asking = Asking::new(alloc, 1)?;
    for (place, event) in events.iter().enumerate() {
        if !happens(rt, &mut world, &mut asking, *event)? {
            return Ok(Some(place));
        }
    }
    Ok(None)
}

const NOBODY: Set = Set(0);

// two COMMITs are lost, so that one replica has too few
fn a_commit_to(number: usize) -> [Event; 5] {
    [
        Event::Lose(COMMIT, 0, Set::of(number), 2),
        Event::Ask(1),
        Event::Stands(number, 0, 0),
        // nobody asks again
        Event::Play(10),
        Event::Stands(number, 0, 1),
    ]
}

fn wrong_to_any<R: Threads + Wait + Sync>(rt: &R, alloc: Global) -> Result<Option<usize>, Fail> {
    for number in 0..4usize {
        if first_wrong(rt, alloc, &a_commit_to(number))?.is_some() {
            return Ok(Some(number));
        }
    }
    Ok(None)
}

#[test]
fn commits_to_one_are_lost(rt: HostRuntime) -> Result<(), Fail> {
    same!(rt; wrong_to_any(&rt, rt.alloc())?, None);
    Ok(())
}

static CHECKPOINTS: [Event; 10] = [
    Event::Lose(CHECKPOINT, 16, Set::ALL, 12),
    Event::Lose(CHECKPOINT, 32, Set::ALL, 12),
    Event::Ask(16),
    Event::HasStable(1, 0),
    Event::Play(20),
    Event::HasStable(1, 16),
    Event::Ask(16),
    Event::Play(20),
    Event::HasStable(0, 32),
    Event::HasStable(3, 32),
];

#[test]
fn checkpoints_are_lost_once(rt: HostRuntime) -> Result<(), Fail> {
    same!(rt; first_wrong(&rt, rt.alloc(), &CHECKPOINTS)?, None);
    Ok(())
}

// replica 2 alone has the checkpoint as stable when the primary is silent
static BEHIND_A_CHECKPOINT: [Event; 11] = [
    Event::Lose(CHECKPOINT, 16, Set(0b1011), 60),
    Event::Ask(16),
    Event::Play(2),
    Event::HasStable(2, 16),
    Event::HasStable(1, 0),
    Event::HasStable(3, 0),
    Event::Silence(0),
    Event::AskOf(Set::ALL),
    Event::Recovers(100),
    Event::Stands(1, 1, 17),
    Event::Stands(3, 1, 17),
];

#[test]
fn a_view_begins_behind_a_checkpoint_that_one_has(rt: HostRuntime) -> Result<(), Fail> {
    same!(rt; first_wrong(&rt, rt.alloc(), &BEHIND_A_CHECKPOINT)?, None);
    Ok(())
}

const EXECUTING: Set = Set(0b0111);

// replica 2 tells its CHECKPOINT to the one alone that lags, and is silent then: what the others have told is adopted, and they are shown that it is stable
static TOLD: [Event; 13] = [
    Event::AskAmong(EXECUTING, 15),
    Event::Lose(CHECKPOINT, 16, Set(0b0011), 4),
    Event::Ask(1),
    Event::Silence(2),
    Event::Play(1),
    Event::Stands(3, 0, 0),
    Event::HasStable(3, 16),
    Event::HasStable(0, 0),
    Event::Play(20),
    Event::Stands(3, 0, 16),
    Event::HasStable(0, 16),
    Event::HasStable(1, 16),
    Event::Recovers(20),
];

#[test]
fn what_was_told_is_adopted(rt: HostRuntime) -> Result<(), Fail> {
    same!(rt; first_wrong(&rt, rt.alloc(), &TOLD)?, None);
    Ok(())
}

// replica 2 tells its CHECKPOINT to the primary alone, and is silent then: replica 3 adopts, and has none of its own that replica 1 could wait for
static SHOWN: [Event; 13] = [
    Event::AskAmong(EXECUTING, 15),
    Event::Lose(CHECKPOINT, 16, Set(0b1010), 4),
    Event::Ask(1),
    Event::Silence(2),
    Event::Play(1),
    Event::HasStable(0, 16),
    Event::HasStable(1, 0),
    Event::Stands(3, 0, 0),
    Event::Play(20),
    Event::Stands(3, 0, 16),
    Event::HasStable(3, 16),
    Event::HasStable(1, 16),
    Event::Recovers(20),
];

#[test]
fn one_settles_what_it_is_shown(rt: HostRuntime) -> Result<(), Fail> {
    same!(rt; first_wrong(&rt, rt.alloc(), &SHOWN)?, None);
    Ok(())
}

// replica 3 leaves alone, and comes back with the next state; then the primary is silent, and it votes again
static ALONE: [Event; 12] = [
    Event::AskOf(Set(0b1000)),
    Event::Play(2),
    Event::Hurry(3, 3_000),
    Event::Play(4),
    Event::Ask(33),
    Event::Play(20),
    Event::Stands(0, 0, 33),
    Event::Stands(3, 0, 32),
    Event::Silence(0),
    Event::AskOf(Set::ALL),
    Event::Recovers(200),
    Event::Stands(3, 1, 34),
];

#[test]
fn one_times_out_alone(rt: HostRuntime) -> Result<(), Fail> {
    same!(rt; first_wrong(&rt, rt.alloc(), &ALONE)?, None);
    Ok(())
}

static LATE: [Event; 8] = [
    Event::Ask(3),
    Event::Play(2),
    Event::Repeat(Set(0b1000)),
    Event::Play(60),
    Event::Stands(3, 0, 3),
    Event::AskOf(NOBODY),
    Event::Recovers(20),
    Event::Stands(3, 0, 4),
];

#[test]
fn a_request_comes_late_once_more(rt: HostRuntime) -> Result<(), Fail> {
    same!(rt; first_wrong(&rt, rt.alloc(), &LATE)?, None);
    Ok(())
}
