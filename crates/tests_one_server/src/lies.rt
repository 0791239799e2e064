//! What replicas that lie do to clients: they propose requests that were executed before, or that nobody signed, and tell wrong results.
use crate::correct::Correct;
use crate::faulty::{call, request_from};
use bfs_messages::{Message, OrderedBatch, Request, Signed};
use bfs_testing::generated::Generator;
use bfs_testing_liars::draws::{any_of, below, happens, some};
use bfs_testing_liars::lies::{Lying, number_near, others_or_any, propose_batch};
use bfs_testing_liars::past::read;
use bfs_testing_liars::world::World;
use bfs_testing_nodes::members::request;
use bfs_types::{Memory, Time};
use std::sync::Arc;

fn request_in(signed: Signed<Message>) -> Option<Signed<Request>> {
    let Signed { message, auth } = signed;
    match message {
        Message::Request(message) => Some(Signed { message, auth }),
        _ => None,
    }
}

// one that was sent
fn any_request(world: &World, draws: &mut Generator) -> Result<Option<Signed<Request>>, Memory> {
    let first = any_of(draws, world.sent.len());
    let Some(which) = request_from(world, first) else {
        return Ok(None);
    };
    match world.sent.get(which) {
        Some(sent) => Ok(request_in(read(world.alloc, &sent.bytes)?)),
        None => Ok(None),
    }
}

// with another call, and the keyed hashes of the one that was signed
fn forged(
    world: &mut World,
    draws: &mut Generator,
    signed: Signed<Request>,
) -> Result<Signed<Request>, Memory> {
    let Signed { message, auth } = signed;
    let call = call(world, draws)?;
    let timestamp = message.timestamp().saturating_add(below(draws, 2) as u64);
    let message = request(world.alloc, message.client(), timestamp, &call)?;
    Ok(Signed { message, auth })
}

// of requests that were sent, in any order, some of them more than once, and now and then of one that was not
fn any_batch(world: &mut World, draws: &mut Generator) -> Result<Arc<OrderedBatch>, Memory> {
    let mut requests = Vec::new(world.alloc);
    for _ in 0..below(draws, 4).saturating_add(1) {
        match any_request(world, draws)? {
            Some(signed) if happens(draws, 8) => requests.push(forged(world, draws, signed)?)?,
            Some(signed) => requests.push(signed)?,
            None => {}
        }
    }
    let time = Time::new(world.tick(), 0).unwrap_or(Time::epoch());
    if requests.len() > 4 {
        return Err(Memory);
    }
    Ok(Arc::new(world.alloc, OrderedBatch::new(time, requests))?)
}

/// The primary, if it lies, proposes two batches of requests for a number.
pub fn equivocate(world: &mut World, draws: &mut Generator, lying: &Lying) -> Result<(), Memory> {
    let one = any_of(draws, world.nodes.len());
    let view = world.view(one);
    let number = number_near(world, draws, one);
    let Some(liar) = lying.of(world.primary(view)) else {
        return Ok(());
    };
    let to = some(draws);
    let others = others_or_any(draws, to);
    for to in [to, others] {
        let batch = any_batch(world, draws)?;
        propose_batch(world, draws, lying, liar, (view, number), &batch, to)?;
    }
    Ok(())
}

// some bytes, or what the client accepted last of all
fn wrong_result(
    world: &World,
    draws: &mut Generator,
    correct: &Correct,
) -> Result<Vec<u8>, Memory> {
    if happens(draws, 50) {
        if let Some(accepted) = correct.book.accepted.last() {
            return Ok(accepted.result.as_slice().to_vec(world.alloc)?);
        }
    }
    Ok(draws.request(world.alloc)?)
}

/// All liars tell a correct client one wrong result, now and then in another one's name.
pub fn tell_wrongly(
    world: &mut World,
    draws: &mut Generator,
    lying: &Lying,
    correct: &Correct,
) -> Result<(), Memory> {
    let client = any_of(draws, correct.count());
    let timestamp = correct.timestamp(client);
    let bytes = wrong_result(world, draws, correct)?;
    for liar in &lying.liars {
        let sender = if happens(draws, 20) {
            any_of(draws, world.nodes.len())
        } else {
            liar.number as usize
        };
        let reply = liar.reply(
            (sender % 32) as u32,
            (client % 32) as u32,
            timestamp,
            &bytes,
        )?;
        world.put_reply(&reply, true)?;
    }
    Ok(())
}
