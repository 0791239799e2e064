//! Clients that lie: under their own names, by their own keys, and under others' names.
use crate::correct::Correct;
use bfs_messages::{Message, Signed};
use bfs_testing::generated::Generator;
use bfs_testing_liars::draws::{any_of, below, happens, some};
use bfs_testing_liars::liars::spoiled;
use bfs_testing_liars::lies::others_or_any;
use bfs_testing_liars::sets::Set;
use bfs_testing_liars::world::World;
use bfs_testing_nodes::members::{request, request_message};
use bfs_types::Memory;

/// A client that lies, and the timestamp by which it goes.
#[derive(Clone, Copy)]
pub struct Faulty {
    number: u32,
    timestamp: u64,
}

/// A call with a number of its own, so that the reply tells which call it answers.
pub fn call(world: &mut World, draws: &mut Generator) -> Result<Vec<u8>, Memory> {
    let mut call = draws.request(world.alloc)?;
    let number = world.tick().to_be_bytes();
    for place in 0..4usize {
        if let Some(byte) = call.get_mut(place) {
            *byte = number[place];
        }
    }
    Ok(call)
}

/// A request in a client's name that another one, or itself, has signed.
pub fn signed_by(
    world: &World,
    signer: u32,
    client: u32,
    timestamp: u64,
    call: &[u8],
) -> Result<Signed<Message>, Memory> {
    let request = request(world.alloc, client, timestamp, call)?;
    let signed = world.members.request(world.alloc, signer, request)?;
    Ok(request_message(signed))
}

/// Requests that were sent once come again to some, whoever sent them.
pub fn repeat_requests(world: &mut World, draws: &mut Generator) -> Result<(), Memory> {
    for _ in 0u32..3 {
        let first = any_of(draws, world.sent.len());
        let to = some(draws);
        if let Some(which) = request_from(world, first) {
            world.repeat(which, to)?;
        }
    }
    Ok(())
}

/// The place of the first request among what was sent from a place on.
pub fn request_from(world: &World, first: usize) -> Option<usize> {
    for which in first..world.sent.len() {
        match world.sent.get(which) {
            Some(sent) if sent.head.kind == 1 => return Some(which),
            _ => {}
        }
    }
    None
}

impl Faulty {
    pub fn new(number: u32) -> Faulty {
        Faulty {
            number,
            timestamp: 0,
        }
    }

    fn sign(&self, world: &World, timestamp: u64, call: &[u8]) -> Result<Signed<Message>, Memory> {
        signed_by(world, self.number, self.number, timestamp, call)
    }

    // two calls with one timestamp, for different replicas
    fn sign_two(&mut self, world: &mut World, draws: &mut Generator) -> Result<(), Memory> {
        self.timestamp = self.timestamp.saturating_add(1);
        let to = if happens(draws, 40) {
            Set::ALL
        } else {
            some(draws)
        };
        let others = others_or_any(draws, to);
        for to in [to, others] {
            let call = call(world, draws)?;
            let signed = self.sign(world, self.timestamp, &call)?;
            world.put(&signed, to, true)?;
        }
        Ok(())
    }

    // a timestamp that came before, or one that is far away
    fn other_timestamp(&self, draws: &mut Generator) -> u64 {
        match below(draws, 16) {
            0 => u64::MAX.saturating_sub(below(draws, 2) as u64),
            1 => 1 << 63,
            2..=8 => self.timestamp.saturating_add(below(draws, 4) as u64),
            _ => self.timestamp.saturating_sub(below(draws, 4) as u64),
        }
    }

    fn sign_out_of_order(
        &mut self,
        world: &mut World,
        draws: &mut Generator,
    ) -> Result<(), Memory> {
        let call = call(world, draws)?;
        let signed = self.sign(world, self.other_timestamp(draws), &call)?;
        world.put(&signed, some(draws), true)
    }

    // with entries that are wrong for some
    fn sign_wrongly(&mut self, world: &mut World, draws: &mut Generator) -> Result<(), Memory> {
        self.timestamp = self.timestamp.saturating_add(1);
        let call = call(world, draws)?;
        let signed = self.sign(world, self.timestamp, &call)?;
        let signed = spoiled(world.alloc, signed, some(draws))?;
        world.put(&signed, Set::ALL, true)
    }

    // in the name of a client that does not lie
    fn sign_as_another(
        &mut self,
        world: &mut World,
        draws: &mut Generator,
        correct: &Correct,
    ) -> Result<(), Memory> {
        let other = below(draws, self.number);
        let timestamp = correct.timestamp(other as usize).saturating_add(1);
        let call = call(world, draws)?;
        let signed = signed_by(world, self.number, other, timestamp, &call)?;
        world.put(&signed, Set::ALL, true)
    }

    /// A lie is told.
    pub fn lie(
        &mut self,
        world: &mut World,
        draws: &mut Generator,
        correct: &Correct,
    ) -> Result<(), Memory> {
        match below(draws, 10) {
            0..=4 => self.sign_two(world, draws),
            5..=6 => self.sign_out_of_order(world, draws),
            7 => self.sign_as_another(world, draws, correct),
            8 if happens(draws, 20) => self.sign_wrongly(world, draws),
            _ => repeat_requests(world, draws),
        }
    }
}
