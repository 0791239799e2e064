//! The clients of a schedule, those that do as they should and those that lie, and what comes to them.
use crate::correct::Correct;
use crate::faulty::{Faulty, call};
use bfs_testing::generated::Generator;
use bfs_testing_liars::draws::{any_of, happens, some};
use bfs_testing_liars::past::read;
use bfs_testing_liars::sets::Set;
use bfs_testing_liars::world::World;
use bfs_testing_nodes::members::Members;
use bfs_types::Memory;
use std::alloc::Global;

const CORRECT: u32 = 3;

const FAULTY: u32 = 2;

/// 3f + 1 replicas, and their clients.
pub fn members(f: u32) -> Members {
    Members {
        f,
        clients: CORRECT + FAULTY,
    }
}

/// All clients, of whom those that lie come last.
#[derive(Drop)]
pub struct Crowd {
    pub correct: Correct,
    faulty: Vec<Faulty>,
    /// How many lies clients have told.
    pub lies: u32,
    /// How many wrong results have come to clients.
    pub wrong_results: u32,
}

impl Crowd {
    pub fn new(alloc: Global, f: u32) -> Result<Crowd, Memory> {
        let mut faulty = Vec::new(alloc);
        for number in CORRECT..CORRECT + FAULTY {
            faulty.push(Faulty::new(number))?;
        }
        Ok(Crowd {
            correct: Correct::new(alloc, members(f), CORRECT)?,
            faulty,
            lies: 0,
            wrong_results: 0,
        })
    }

    /// A client that does not lie asks all, or some, or asks once more.
    fn ask(
        &mut self,
        world: &mut World,
        draws: &mut Generator,
        number: usize,
    ) -> Result<(), Memory> {
        let to = if happens(draws, 70) {
            Set::ALL
        } else {
            some(draws)
        };
        if self.correct.waits(number) {
            return self.correct.ask_again(world, number, to);
        }
        let call = call(world, draws)?;
        self.correct.ask(world, number, &call, to)
    }

    /// Each client asks so often among a hundred times.
    pub fn ask_all(
        &mut self,
        world: &mut World,
        draws: &mut Generator,
        percent: u32,
    ) -> Result<(), Memory> {
        for number in 0..self.correct.count() {
            if happens(draws, percent) {
                self.ask(world, draws, number)?;
            }
        }
        Ok(())
    }

    /// One of those that lie does.
    pub fn lie(&mut self, world: &mut World, draws: &mut Generator) -> Result<(), Memory> {
        let place = any_of(draws, self.faulty.len());
        if let Some(faulty) = self.faulty.get_mut(place) {
            self.lies = self.lies.saturating_add(1);
            faulty.lie(world, draws, &self.correct)?;
        }
        Ok(())
    }

    /// What clients were told comes to them, in any order, some of it twice, and some of it is lost.
    pub fn hear_all(
        &mut self,
        world: &mut World,
        draws: &mut Generator,
        loss: u32,
    ) -> Result<(), Memory> {
        for _ in 0u32..1_000 {
            let place = any_of(draws, world.replies.len());
            if place >= world.replies.len() {
                return Ok(());
            }
            if !happens(draws, loss) {
                self.hear(world, place)?;
            }
            if !happens(draws, 6) {
                world.replies.swap_remove(place);
            }
        }
        Ok(())
    }

    fn hear(&mut self, world: &World, place: usize) -> Result<(), Memory> {
        let Some(sent) = world.replies.get(place) else {
            return Ok(());
        };
        if sent.is_lie {
            self.wrong_results = self.wrong_results.saturating_add(1);
        }
        self.correct.hear(&read(world.alloc, &sent.bytes)?)
    }
}
