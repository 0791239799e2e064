//! Worked schedules among four replicas that don't lie: a request that is sent twice, two calls of one timestamp, and a request that comes behind a later one.
use crate::correct::Correct;
use crate::crowd::members;
use crate::faulty::signed_by;
use crate::judging::judge;
use bfs_messages::{Message, Signed};
use bfs_testing::generated::Generator;
use bfs_testing::numbers::{CREATE, LOOKUP};
use bfs_testing::same;
use bfs_testing::words::{A, B, ROOT, UNSET, request};
use bfs_testing_liars::draws::draws_of;
use bfs_testing_liars::past::read;
use bfs_testing_liars::sets::Set;
use bfs_testing_liars::steps::exchange_some;
use bfs_testing_liars::world::World;
use bfs_types::Memory;
use std::alloc::Global;
use std::sync::Wait;
use std::test::Fail;
use std::thread::Threads;

/// What is called, with the number that the reply to it begins with.
#[derive(Clone, Copy)]
enum Call {
    Create(u32, &'static [u32]),
    Look(u32, &'static [u32]),
}

/// What a client does, or what comes of it.
#[derive(Clone, Copy)]
enum Step {
    /// It signs a call with a timestamp, and sends it to these.
    Send(u32, u64, Call, Set),
    /// The request of that place among all comes again to all.
    Again(usize),
    /// All comes that is on its way, replica 0 proposes what waits, and all execute it.
    Order,
    /// What the client accepts for the timestamp of the replies to the last order: the number of the call, and the status.
    Accepts(u32, u64, Option<(u32, u32)>),
    /// So many requests have taken effect, and all is as it should be.
    Effects(usize),
}

static SENT_TWICE: [Step; 7] = [
    Step::Send(0, 1, Call::Create(7, A), Set::ALL),
    Step::Order,
    Step::Accepts(0, 1, Some((7, 0))),
    Step::Again(0),
    Step::Order,
    Step::Accepts(0, 1, Some((7, 0))),
    Step::Effects(1),
];

static TWO_OF_ONE_TIMESTAMP: [Step; 14] = [
    Step::Send(4, 1, Call::Create(7, A), Set(0b0001)),
    Step::Send(4, 1, Call::Create(8, B), Set(0b1110)),
    Step::Order,
    Step::Accepts(4, 1, Some((7, 0))),
    Step::Again(1),
    Step::Order,
    Step::Accepts(4, 1, Some((7, 0))),
    Step::Send(0, 1, Call::Look(9, A), Set::ALL),
    Step::Order,
    Step::Accepts(0, 1, Some((9, 0))),
    Step::Send(0, 2, Call::Look(10, B), Set::ALL),
    Step::Order,
    Step::Accepts(0, 2, Some((10, 2))),
    Step::Effects(3),
];

static BEHIND_A_LATER_ONE: [Step; 13] = [
    Step::Send(0, 2, Call::Create(8, B), Set::ALL),
    Step::Order,
    Step::Accepts(0, 2, Some((8, 0))),
    Step::Send(0, 1, Call::Create(7, A), Set::ALL),
    Step::Order,
    Step::Accepts(0, 1, None),
    Step::Again(1),
    Step::Order,
    Step::Accepts(0, 1, None),
    Step::Send(1, 1, Call::Look(9, A), Set::ALL),
    Step::Order,
    Step::Accepts(1, 1, Some((9, 2))),
    Step::Effects(2),
];

/// Four replicas, and what they have told clients since the last order.
#[derive(Drop)]
struct Stage {
    world: World,
    draws: Generator,
    clients: Correct,
    heard: Vec<Signed<Message>>,
}

fn call_of(alloc: Global, call: Call) -> Result<Vec<u8>, Memory> {
    match call {
        Call::Create(number, name) => request(alloc, number, CREATE, &[ROOT, name, UNSET]),
        Call::Look(number, name) => request(alloc, number, LOOKUP, &[ROOT, name]),
    }
}

// the place of a request among all that was sent
fn place_of(world: &World, request: usize) -> Option<usize> {
    let mut requests = 0usize;
    for (which, sent) in world.sent.iter().enumerate() {
        if sent.head.kind == 1 {
            if requests == request {
                return Some(which);
            }
            requests = requests.saturating_add(1);
        }
    }
    None
}

// what clients were told since the last time
fn told(world: &mut World) -> Result<Vec<Signed<Message>>, Memory> {
    let mut messages = Vec::new(world.alloc);
    for sent in &world.replies {
        messages.push(read(world.alloc, &sent.bytes)?)?;
    }
    world.replies.clear();
    Ok(messages)
}

fn order<R: Threads + Wait + Sync>(rt: &R, stage: &mut Stage) -> Result<(), Memory> {
    let world = &mut stage.world;
    exchange_some(rt, world, &mut stage.draws, Set::ALL, 0, 100)?;
    world.propose(0)?;
    exchange_some(rt, world, &mut stage.draws, Set::ALL, 0, 100)?;
    stage.heard = told(world)?;
    Ok(())
}

// the number of the call and the status that a reply tells
fn words_of(reply: Option<Vec<u8>>) -> Option<(u32, u32)> {
    let reply = reply?;
    Some((word_at(&reply, 0)?, word_at(&reply, 24)?))
}

fn word_at(bytes: &[u8], place: usize) -> Option<u32> {
    let mut word = 0u32;
    for ahead in 0..4usize {
        let byte = bytes.get(place.checked_add(ahead)?)?;
        word = word.wrapping_mul(256).wrapping_add(*byte as u32);
    }
    Some(word)
}

fn accepted(stage: &Stage, client: u32, timestamp: u64) -> Result<Option<(u32, u32)>, Memory> {
    let result = stage
        .clients
        .result_of(stage.world.alloc, client, timestamp, &stage.heard)?;
    Ok(words_of(result))
}

fn has_effects<R: Threads + Sync>(rt: &R, stage: &Stage, wanted: usize) -> Result<bool, Memory> {
    let (server, wrong) = judge(rt, stage.world.alloc, &stage.world, &stage.clients)?;
    Ok(server.effects.len() == wanted && wrong.is_none())
}

// whether it comes as it is told
fn happens<R: Threads + Wait + Sync>(
    rt: &R,
    stage: &mut Stage,
    step: Step,
) -> Result<bool, Memory> {
    match step {
        Step::Send(client, timestamp, call, to) => {
            let call = call_of(stage.world.alloc, call)?;
            let signed = signed_by(&stage.world, client, client, timestamp, &call)?;
            stage.world.put(&signed, to, false)?;
        }
        Step::Again(request) => {
            let which = place_of(&stage.world, request).ok_or(Memory)?;
            stage.world.repeat(which, Set::ALL)?;
        }
        Step::Order => order(rt, stage)?,
        Step::Accepts(client, timestamp, wanted) => {
            return Ok(accepted(stage, client, timestamp)? == wanted);
        }
        Step::Effects(wanted) => return has_effects(rt, stage, wanted),
    }
    Ok(true)
}

fn new_stage(alloc: Global) -> Result<Stage, Memory> {
    Ok(Stage {
        world: World::new(alloc, members(1), Set(0))?,
        draws: draws_of(1),
        clients: Correct::new(alloc, members(1), 0)?,
        heard: Vec::new(alloc),
    })
}

// the place of the first step that does not come as it is told
fn first_wrong<R: Threads + Wait + Sync>(
    rt: &R,
    alloc: Global,
    steps: &[Step],
) -> Result<Option<usize>, Memory> {
    let mut stage = new_stage(alloc)?;
    play(rt, &mut stage, steps)
}

fn play<R: Threads + Wait + Sync>(
    rt: &R,
    stage: &mut Stage,
    steps: &[Step],
) -> Result<Option<usize>, Memory> {
    for (place, step) in steps.iter().enumerate() {
        if !happens(rt, stage, *step)? {
            return Ok(Some(place));
        }
    }
    Ok(None)
}

#[test]
fn a_request_that_is_sent_twice_makes_one_file_and_gives_one_result(
    rt: HostRuntime,
) -> Result<(), Fail> {
    same!(rt; first_wrong(&rt, rt.alloc(), &SENT_TWICE)?, None);
    Ok(())
}

#[test]
fn of_two_calls_of_one_timestamp_one_takes_effect_and_both_get_its_reply(
    rt: HostRuntime,
) -> Result<(), Fail> {
    same!(rt; first_wrong(&rt, rt.alloc(), &TWO_OF_ONE_TIMESTAMP)?, None);
    Ok(())
}

#[test]
fn what_comes_behind_a_later_request_of_its_client_takes_no_effect(
    rt: HostRuntime,
) -> Result<(), Fail> {
    same!(rt; first_wrong(&rt, rt.alloc(), &BEHIND_A_LATER_ONE)?, None);
    Ok(())
}
