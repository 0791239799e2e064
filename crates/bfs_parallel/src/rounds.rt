ghost use Rattle.std.specs.Prelude.{◌<◌, ◌≤◌};

use crate::engine::Engine;
use bfs_serial::Batch;
use bfs_workers::Workers;

// how many bytes the requests of a level have together where it gets threads, and those of a batch in which such are looked for
const LONG: usize = 4 << 20;

// how many workers gain by the threads of such a level: with one beside the calling thread, what splitting and merging take is lost
const MANY_WORKERS: u32 = 3;

// how many requests are planned before it is known whether planning those behind them is worth its time
const FIRST: usize = 16;

// behind requests that were planned and got no threads, so many times as many are executed unplanned, and each time so many times more
const PAUSE: usize = 4;

/// Which requests of a batch are planned together, and which levels get threads: those that have bytes enough to pay for them, or, where
/// the gate asks for threads, all of two requests and more. What a READ gives doesn't count: its reply is allocated by one thread and freed
/// by another, which takes what the threads gain. Where no level can get threads, nothing is planned.
#[derive(Clone, Copy, Debug)]
pub(crate) struct Rounds {
    /// Which requests are executed at one time.
    pub(crate) engine: Engine,
    workers: Workers,
    // whether the gate asks for threads
    asked: bool,
    // whether any level of the batch may get threads
    plans: bool,
    // how many requests are executed one after another before any are planned, and how many the next time
    pause: usize,
    next_pause: usize,
}

impl Rounds {
    /// Those of a batch.
    pub(crate) fn new(workers: Workers, engine: Engine, batch: &Batch, asked: bool) -> Rounds {
        let pays = workers.count() >= MANY_WORKERS && bytes_of(batch) >= LONG;
        Rounds {
            engine,
            workers,
            asked,
            plans: batch.len() > 1 && workers.count() > 1 && (asked || pays),
            pause: 0,
            next_pause: FIRST * PAUSE,
        }
    }

    /// How many of the requests that are left are executed one after another before any are planned.
    pub(crate) fn unplanned(&mut self, left: usize) -> usize
        ensures { result ≤ left }
    {
        if !self.plans {
            return left;
        }
        let count = self.pause.min(left);
        self.pause = 0;
        count
    }

    /// The place behind the requests that are planned at first, of so many that the batch has: at least one from that place on.
    pub(crate) fn end(&self, place: usize, count: usize) -> usize
        requires { place < count }
        ensures { place < result }
    {
        if self.asked {
            count
        } else {
            count.min(place.saturating_add(FIRST))
        }
    }

    /// Whether, by the levels at which the first requests stand, they are planned again with all behind them: half of them are at the lowest.
    pub(crate) fn goes_on(&self, level_of: &[u32]) -> bool {
        let lowest = level_of.iter().filter(|level| **level == 0).count();
        !self.asked && level_of.len() >= FIRST && lowest >= FIRST / 2
    }

    /// The requests that were planned get no threads, so some more are executed without being planned.
    pub(crate) fn put_off(&mut self) {
        if !self.asked {
            self.pause = self.next_pause;
            self.next_pause = self.next_pause.saturating_mul(PAUSE);
        }
    }

    /// Whether one of these levels gets threads.
    pub(crate) fn start(&self, batch: &Batch, levels: &[Vec<u32>]) -> bool {
        levels.iter().any(|numbers| self.workers_for(batch, numbers.as_slice()).count() > 1)
    }

    /// The workers of the level with the requests of these numbers: all of them, or the calling thread alone.
    pub(crate) fn workers_for(&self, batch: &Batch, numbers: &[u32]) -> Workers {
        if numbers.len() > 1 && (self.asked || bytes_at(batch, numbers) >= LONG) {
            self.workers
        } else {
            Workers::one()
        }
    }
}

fn bytes_of(batch: &Batch) -> usize {
    let mut bytes: usize = 0;
    for request in batch.requests() {
        bytes = bytes.saturating_add(request.as_slice().len());
    }
    bytes
}

// of the requests of these numbers
fn bytes_at(batch: &Batch, numbers: &[u32]) -> usize {
    let mut bytes: usize = 0;
    for number in numbers {
        if let Some(request) = batch.requests().get(*number as usize) {
            bytes = bytes.saturating_add(request.as_slice().len());
        }
    }
    bytes
}
