//! Four replicas that sign, of which one lies, and two clients that sign, of which one lies: what happens to them while messages are lost, and how they go on once none is.
use crate::calm::{count_executed, execute, next_view, resend};
use crate::keys::{Known, MEMBERS};
use crate::voices::{Form, Voice};
use bfs_auth::Principal;
use bfs_messages::Message;
use bfs_testing::generated::Generator;
use bfs_testing_liars::draws::{any_of, below, happens, hearing, some};
use bfs_testing_liars::liars::Liar;
use bfs_testing_liars::lies::{Lying, lie};
use bfs_testing_liars::past::read;
use bfs_testing_liars::sets::Set;
use bfs_testing_liars::steps::{adopt, exchange, leave, propose, repeat};
use bfs_testing_liars::world::{Flight, World};
use bfs_testing_nodes::members::{null_request, request};
use bfs_types::Memory;
use std::alloc::Global;
use std::sync::Wait;
use std::thread::Threads;

// rounds in which messages are lost
const ROUNDS: u32 = 5;

// how many numbers come before a checkpoint
const NUMBERS: u32 = 16;

// the last number that is proposed in such rounds: keys sign votes for numbers up to 29
const LAST: u64 = 24;

// the most rounds in which messages come and batches are executed
const SETTLING: u32 = 12;

// the most messages that come in such a round
const MESSAGES: u32 = 1_000;

/// A schedule under way.
#[derive(Drop)]
pub struct Play {
    pub world: World,
    pub lying: Lying,
    /// The replica that lies.
    pub replica: Voice,
    // the client that lies, and the one that doesn't
    liar: Voice,
    client: Voice,
    // of what the client that doesn't lie asks for
    timestamp: u32,
    // whether lies go on once no message is lost
    is_lasting: bool,
}

// the replicas that lie, with keys that sign
fn lying_of(alloc: Global, known: &Known, liar: u32) -> Result<Lying, Memory> {
    let mut liars = Vec::new(alloc);
    liars.push(Liar::with_keys(alloc, liar, known.signing(alloc, liar)?))?;
    Ok(Lying { liars })
}

fn first_of(liars: Set) -> u32 {
    liars.0.trailing_zeros() % 4
}

// what is on its way to others than these is lost
fn lose_others(world: &mut World, to: Set) -> Result<(), Memory> {
    let mut left = Vec::new(world.alloc);
    for flight in &world.on_their_way {
        if to.has(flight.to) {
            left.push(*flight)?;
        }
    }
    world.on_their_way = left;
    Ok(())
}

/// In which form a liar sends a copy: half of them as it does where it doesn't lie.
pub fn form(draws: &mut Generator) -> Form {
    match below(draws, 8) {
        0..=3 => Form::Own,
        4..=5 => Form::Changed,
        6 => Form::OfAnother,
        _ => Form::HashesFor(any_of(draws, 4)),
    }
}

impl Play {
    /// Replicas that have done nothing.
    pub fn new(alloc: Global, known: &Known, liars: Set, is_lasting: bool) -> Result<Play, Memory> {
        let liar = first_of(liars);
        let mut world = World::new(alloc, MEMBERS, liars)?;
        world.nodes = known.replicas(alloc)?;
        Ok(Play {
            world,
            lying: lying_of(alloc, known, liar)?,
            replica: Voice::new(alloc, known, Principal::Replica(liar))?,
            liar: Voice::new(alloc, known, Principal::Client(1))?,
            client: Voice::new(alloc, known, Principal::Client(0))?,
            timestamp: 1,
            is_lasting,
        })
    }

    // those that don't lie
    fn correct(&self) -> Set {
        self.world.liars.others()
    }

    // how many that don't lie have executed what the client asks for
    fn count_executed(&self) -> u32 {
        count_executed(&self.world, self.correct(), 0, self.timestamp as u64)
    }

    // the client asks for something new once f + 1 have told it a result, and else once more
    fn ask(&mut self, to: Set) -> Result<(), Memory> {
        if self.count_executed() > 1 {
            self.timestamp = self.timestamp.saturating_add(1);
        }
        let text = Message::Request(null_request(self.world.alloc, 0, self.timestamp)?);
        let signed = self.client.say(text, Form::Own)?;
        self.world.put(&signed, to, false)
    }

    /// The other client asks each in a form of its own, for one thing or each for another one, with a timestamp that may be of an earlier request.
    pub fn ask_wrongly(&mut self, draws: &mut Generator) -> Result<(), Memory> {
        let timestamp = self.world.tick().saturating_sub(below(draws, 3)) as u64;
        let is_one = happens(draws, 50);
        let mut call = draws.request(self.world.alloc)?;
        for receiver in 0..4 {
            if !is_one {
                call = draws.request(self.world.alloc)?;
            }
            let text = request(self.world.alloc, 1, timestamp, &call)?;
            let signed = self.liar.say(Message::Request(text), form(draws))?;
            self.world.put(&signed, Set::of(receiver), true)?;
        }
        Ok(())
    }

    fn is_lie(&self, flight: Flight) -> bool {
        match self.world.sent.get(flight.which) {
            Some(sent) => sent.is_lie && sent.head.kind != 1,
            None => false,
        }
    }

    // the same text takes its place, in a form for its receiver
    fn vary(&mut self, draws: &mut Generator, place: usize, flight: Flight) -> Result<(), Memory> {
        let Some(sent) = self.world.sent.get(flight.which) else {
            return Ok(());
        };
        let text = read(self.world.alloc, &sent.bytes)?.message;
        let signed = self.replica.say(text, form(draws))?;
        self.world.put(&signed, Set::of(flight.to), true)?;
        if place < self.world.on_their_way.len() {
            self.world.on_their_way.swap_remove(place);
        }
        Ok(())
    }

    // what a replica lies goes to its receivers, to some in forms of their own
    fn lie(&mut self, draws: &mut Generator) -> Result<(), Memory> {
        let before = self.world.on_their_way.len();
        lie(&mut self.world, draws, &self.lying)?;
        for place in before..self.world.on_their_way.len() {
            let Some(flight) = self.world.on_their_way.get(place).copied() else {
                return Ok(());
            };
            if self.is_lie(flight) && happens(draws, 40) {
                self.vary(draws, place, flight)?;
            }
        }
        Ok(())
    }

    fn is_early(&self) -> bool {
        for on in &self.world.proposed {
            if LAST <= on.number() {
                return false;
            }
        }
        true
    }

    fn act<R: Threads + Wait + Sync>(
        &mut self,
        rt: &R,
        draws: &mut Generator,
        hear: Set,
    ) -> Result<(), Memory> {
        match below(draws, 20) {
            0..=2 => self.ask(hear),
            3..=5 => self.ask_wrongly(draws),
            6..=9 if self.is_early() => propose(&mut self.world, draws),
            10..=14 => self.lie(draws),
            15..=16 => leave(&mut self.world, hear),
            17 => leave(&mut self.world, some(draws)),
            18 => adopt(rt, &mut self.world, draws),
            _ => repeat(&mut self.world, draws),
        }
    }

    fn round<R: Threads + Wait + Sync>(
        &mut self,
        rt: &R,
        draws: &mut Generator,
    ) -> Result<(), Memory> {
        let hear = hearing(draws, 4);
        for _ in 0..below(draws, 3).saturating_add(1) {
            self.act(rt, draws, hear)?;
        }
        let loss = below(draws, 3).saturating_mul(10);
        exchange(rt, &mut self.world, draws, hear, loss)
    }

    // one of those that don't lie
    fn any_correct(&self, draws: &mut Generator) -> usize {
        let number = any_of(draws, 4);
        if self.correct().has(number) {
            number
        } else {
            number.wrapping_add(1) % 4
        }
    }

    // Numbers are ordered up to a checkpoint, and one that doesn't lie hears nothing of them: behind it that can only adopt what the others have.
    fn run_up<R: Threads + Wait + Sync>(
        &mut self,
        rt: &R,
        draws: &mut Generator,
    ) -> Result<(), Memory> {
        let hear = Set::of(self.any_correct(draws)).others();
        for _ in 0..NUMBERS {
            self.world.propose(0)?;
            exchange(rt, &mut self.world, draws, hear, 0)?;
        }
        lose_others(&mut self.world, hear)
    }

    /// Rounds in which messages are lost, repeated and late, and replicas leave views for nothing.
    pub fn suffer<R: Threads + Wait + Sync>(
        &mut self,
        rt: &R,
        draws: &mut Generator,
    ) -> Result<(), Memory> {
        if happens(draws, 50) {
            self.run_up(rt, draws)?;
        }
        for _ in 0..ROUNDS {
            self.round(rt, draws)?;
        }
        Ok(())
    }

    // first come, first served, to those that don't lie
    fn hand_over<R: Threads + Sync>(&mut self, rt: &R) -> Result<(), Memory> {
        for _ in 0..MESSAGES {
            if self.world.on_their_way.is_empty() {
                return Ok(());
            }
            let flight = self.world.on_their_way.remove(0);
            if self.correct().has(flight.to) {
                self.world.deliver(rt, flight)?;
            }
        }
        Ok(())
    }

    fn settle<R: Threads + Wait + Sync>(&mut self, rt: &R) -> Result<(), Memory> {
        for _ in 0..SETTLING {
            self.hand_over(rt)?;
            let correct = self.correct();
            execute(rt, &mut self.world, correct)?;
        }
        self.hand_over(rt)
    }

    // each gives the others what they lack, and adopts what they have
    fn come_up<R: Threads + Wait + Sync>(&mut self, rt: &R) -> Result<(), Memory> {
        let correct = self.correct();
        resend(&mut self.world, correct)?;
        self.settle(rt)?;
        for number in 0..4 {
            for from in 0..4 {
                if correct.has(number) && correct.has(from) {
                    self.world.adopt(rt, number, from)?;
                }
            }
        }
        self.settle(rt)
    }

    fn lie_on(&mut self, draws: &mut Generator, view: u64) -> Result<(), Memory> {
        if self.is_lasting {
            self.lie_in(draws, view)?;
        }
        Ok(())
    }

    // those that don't lie leave for the next view, and its primary proposes what the client asks for
    fn change_view<R: Threads + Wait + Sync>(
        &mut self,
        rt: &R,
        draws: &mut Generator,
    ) -> Result<(), Memory> {
        let view = next_view(&self.world, self.correct());
        let correct = self.correct();
        self.world.leave(correct, view)?;
        self.lie_on(draws, view)?;
        self.settle(rt)?;
        self.come_up(rt)?;
        self.lie_on(draws, view)?;
        let primary = self.world.primary(view);
        if correct.has(primary) {
            self.world.propose(primary)?;
        }
        self.lie_on(draws, view)?;
        self.settle(rt)
    }

    /// No message is lost any more. Whether all that don't lie have executed what the client asks for, in two views more.
    pub fn goes_on<R: Threads + Wait + Sync>(
        &mut self,
        rt: &R,
        draws: &mut Generator,
    ) -> Result<bool, Memory> {
        self.settle(rt)?;
        self.come_up(rt)?;
        self.ask(Set::ALL)?;
        for _ in 0u32..2 {
            self.change_view(rt, draws)?;
            if self.count_executed() == 3 {
                return Ok(true);
            }
        }
        Ok(false)
    }
}
