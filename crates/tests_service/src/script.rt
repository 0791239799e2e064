//! What happens to four replicas and their clients, step after step, as tables. The proof of a test that tells it by calls takes many times as long.
use crate::calls::{answered_of, ask, is_answered};
use crate::world::{Up, World};
use bfs_clients::Call;
use bfs_frames::Kind;
use bfs_service::Terms;
use bfs_testing::asserts::compared;
use std::alloc::Global;
use std::sync::Wait;
use std::test::Fail;
use std::thread::Threads;

/// What happens, or what is to hold.
#[derive(Clone, Copy)]
pub enum Step {
    /// A client asks, with a timestamp.
    Ask(u32, u64),
    /// At that time in milliseconds these replicas are up, for so many rounds.
    Play(u32, Up, u32),
    /// Where these are up, client 0 asks with the timestamps from the first to below the second, and so many of its calls are answered.
    Answered(Up, u64, u64, u32),
    /// The call of that place among those that were asked is answered.
    IsAnswered(usize),
    /// A replica stands so.
    Stands(usize, (u64, u64, usize)),
    /// A replica has executed that number last.
    HasExecuted(usize, u64),
    /// Two replicas have one digest.
    Agree(usize, usize),
    /// Frames come to each that are no messages: of each kind, with each front of these bytes.
    Rubbish(&'static [u8]),
    /// Each is asked for its report.
    AskReport,
    /// The process of a replica ends, and the next one begins as the node that there was when something was told last.
    Restarts(u32),
    /// The folder of a replica has so many records behind the saved one.
    Records(usize, usize),
    /// So much was told to clients and to operators.
    Told(usize, usize),
    /// The first note to operators begins so, and has so many bytes.
    Note(&'static [u8], usize),
}

fn is_call_answered(
    alloc: Global,
    world: &World,
    calls: &mut [Call],
    place: usize,
) -> Result<bool, Fail> {
    match calls.get_mut(place) {
        Some(call) => is_answered(alloc, world, call),
        None => Ok(false),
    }
}

fn agree<R: Threads + Sync>(rt: &R, world: &World, one: usize, other: usize) -> Result<bool, Fail> {
    Ok(world.digest(rt, one)? == world.digest(rt, other)?)
}

fn is_noted(world: &World, front: &[u8], length: usize) -> bool {
    match world.notes.first() {
        Some(note) => note.starts_with(front) && note.len() == length,
        None => false,
    }
}

// whether it comes as it is told
fn happens<R: Threads + Wait + Sync>(
    rt: &R,
    alloc: Global,
    world: &mut World,
    calls: &mut Vec<Call>,
    step: Step,
) -> Result<bool, Fail> {
    match step {
        Step::Ask(client, timestamp) => calls.push(ask(alloc, world, client, timestamp)?)?,
        Step::Play(millis, up, rounds) => world.play(rt, millis, &up, rounds)?,
        Step::Rubbish(bytes) => world.send_rubbish(bytes)?,
        Step::AskReport => world.send(Kind::AskReport, b"")?,
        _ => return holds(rt, alloc, world, calls, step),
    }
    Ok(true)
}

fn holds<R: Threads + Wait + Sync>(
    rt: &R,
    alloc: Global,
    world: &mut World,
    calls: &mut [Call],
    step: Step,
) -> Result<bool, Fail> {
    match step {
        Step::Answered(up, first, end, wanted) => {
            Ok(answered_of(rt, alloc, world, &up, first..end)? == wanted)
        }
        Step::IsAnswered(place) => is_call_answered(alloc, world, calls, place),
        Step::Stands(number, wanted) => Ok(world.standing(number) == wanted),
        Step::HasExecuted(number, wanted) => Ok(world.standing(number).1 == wanted),
        Step::Agree(one, other) => agree(rt, world, one, other),
        Step::Told(replies, notes) => {
            Ok((world.replies.len(), world.notes.len()) == (replies, notes))
        }
        Step::Note(front, length) => Ok(is_noted(world, front, length)),
        Step::Restarts(number) => world.restart(rt, number),
        Step::Records(number, wanted) => Ok(world.records(number)? == wanted),
        _ => Ok(false),
    }
}

// the place of the first step that does not come as it is told
fn first_wrong<R: Threads + Wait + Sync>(
    rt: &R,
    alloc: Global,
    world: &mut World,
    steps: &[Step],
) -> Result<Option<usize>, Fail> {
    let mut calls = Vec::new(alloc);
    for (place, step) in steps.iter().enumerate() {
        if !happens(rt, alloc, world, &mut calls, *step)? {
            return Ok(Some(place));
        }
    }
    Ok(None)
}

/// It all comes as it is told, where they serve on these terms.
pub fn plays<R: Threads + Wait + Sync>(
    rt: &R,
    alloc: Global,
    terms: Terms,
    steps: &[Step],
) -> Result<(), Fail> {
    let mut world = World::new(alloc, terms, u32::MAX)?;
    compared(first_wrong(rt, alloc, &mut world, steps)?, None)?;
    Ok(())
}
