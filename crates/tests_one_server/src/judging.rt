//! What is checked behind a schedule: replicas that don't lie are one server, and correct clients have seen it.
use crate::book::{Accepted, Asked, Book};
use crate::correct::Correct;
use crate::server::Server;
use bfs_testing_liars::world::World;
use bfs_types::Memory;
use std::alloc::Global;
use std::thread::Threads;

/// What is wrong, with a number, or with a client and its timestamp.
#[derive(Clone, Copy, Debug, PartialEq, Eq)]
pub enum Wrong {
    /// Two replicas came to different things.
    Differ,
    /// No replica executed a number that one has passed.
    Missing(u64),
    /// The state behind a number isn't that of the server.
    State(u64),
    /// Two requests of one client and timestamp took effect.
    Twice(u32, u64),
    /// Its client has not signed what took effect.
    Unsigned(u32, u64),
    /// A replica told what isn't the reply of the request's effect.
    Answer(u32, u64),
    /// A client accepted what isn't the reply of its request's effect.
    Accepted(u32, u64),
    /// A request took effect before one whose result had been accepted before it was signed.
    Early(u32, u64),
}

/// The server that has executed what replicas that don't lie have executed, and what is wrong.
pub fn judge<R: Threads + Sync>(
    rt: &R,
    alloc: Global,
    world: &World,
    correct: &Correct,
) -> Result<(Server, Option<Wrong>), Memory> {
    let mut server = Server::new(alloc, world.members.clients)?;
    let wrong = serve_all(rt, &mut server, world)?;
    let wrong = wrong
        .or(wrong_effect(&server, correct))
        .or(wrong_answer(&server, world))
        .or(wrong_result(&server, &correct.book))
        .or(early(&server, &correct.book));
    Ok((server, wrong))
}

// the greatest number that a replica that doesn't lie has come to
fn last_number(world: &World) -> u64 {
    let mut last = 0u64;
    for number in 0..world.nodes.len() {
        if !world.liars.has(number) {
            last = last.max(world.last(number));
        }
    }
    last
}

fn serve_all<R: Threads + Sync>(
    rt: &R,
    server: &mut Server,
    world: &World,
) -> Result<Option<Wrong>, Memory> {
    if world.record.is_wrong() {
        return Ok(Some(Wrong::Differ));
    }
    for number in 0..last_number(world) {
        let number = number.saturating_add(1);
        if let Some(wrong) = serve(rt, server, world, number)? {
            return Ok(Some(wrong));
        }
    }
    Ok(None)
}

fn serve<R: Threads + Sync>(
    rt: &R,
    server: &mut Server,
    world: &World,
    number: u64,
) -> Result<Option<Wrong>, Memory> {
    let Some(digest) = world.record.batch_at(number) else {
        return Ok(Some(Wrong::Missing(number)));
    };
    let Some(batch) = world.batches.of(&digest) else {
        return Ok(Some(Wrong::Missing(number)));
    };
    server.apply(batch)?;
    if world.record.digest_at(number) == Some(server.digest(rt)?) {
        Ok(None)
    } else {
        Ok(Some(Wrong::State(number)))
    }
}

fn wrong_effect(server: &Server, correct: &Correct) -> Option<Wrong> {
    for (place, effect) in server.effects.iter().enumerate() {
        let (client, timestamp) = (effect.client, effect.timestamp);
        if server.place_of(client, timestamp) != Some(place) {
            return Some(Wrong::Twice(client, timestamp));
        }
        let is_correct = (client as usize) < correct.count();
        if is_correct && !correct.book.has_asked(client, timestamp, &effect.call) {
            return Some(Wrong::Unsigned(client, timestamp));
        }
    }
    None
}

// whether the request took effect with that reply
fn has_replied(server: &Server, client: u32, timestamp: u64, reply: &[u8]) -> bool {
    let Some(place) = server.place_of(client, timestamp) else {
        return false;
    };
    match server.effects.get(place) {
        Some(effect) => effect.reply.as_slice() == reply,
        None => false,
    }
}

fn wrong_answer(server: &Server, world: &World) -> Option<Wrong> {
    for answer in world.record.answers() {
        if !has_replied(server, answer.client, answer.timestamp, &answer.result) {
            return Some(Wrong::Answer(answer.client, answer.timestamp));
        }
    }
    None
}

fn wrong_result(server: &Server, book: &Book) -> Option<Wrong> {
    for accepted in &book.accepted {
        let (client, timestamp) = (accepted.client, accepted.timestamp);
        if !has_replied(server, client, timestamp, &accepted.result) {
            return Some(Wrong::Accepted(client, timestamp));
        }
    }
    None
}

// whether what was accepted is of an effect before that place
fn stands_before(server: &Server, accepted: &Accepted, place: usize) -> bool {
    match server.place_of(accepted.client, accepted.timestamp) {
        Some(before) => before < place,
        None => false,
    }
}

fn early(server: &Server, book: &Book) -> Option<Wrong> {
    for asked in &book.asked {
        if let Some(place) = server.place_of(asked.client, asked.timestamp) {
            if !stands_behind(server, book, asked, place) {
                return Some(Wrong::Early(asked.client, asked.timestamp));
            }
        }
    }
    None
}

// whether a request that took effect at that place did so behind all that had been accepted before it was signed
fn stands_behind(server: &Server, book: &Book, asked: &Asked, place: usize) -> bool {
    for (number, accepted) in book.accepted.iter().enumerate() {
        if number < asked.accepted_before && !stands_before(server, accepted, place) {
            return false;
        }
    }
    true
}
