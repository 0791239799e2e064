//! Gates that ask for threads: some hold jobs back until others have come so far, or count them.
ghost use Rattle.std.specs.Prelude.{⊤};

use bfs_handover::{Done, Job, run_job};
use bfs_testing::meetings::Meeting;
use bfs_tree::Tree;
use bfs_types::Memory;
use bfs_workers::Gate;
use std::alloc::Global;
use std::sync::atomic::{AtomicU64, Ordering};

/// Runs jobs, and asks for threads however short they are.
#[derive(Clone, Copy, Debug)]
pub struct AsksForThreads;

impl Gate for AsksForThreads {
    ghost ran = { λ _ _. ⊤ };

    fn run(&self, alloc: Global, tree: &Tree, job: Job<'_>) -> Result<Done, Memory> {
        run_job(alloc, tree, job)
    }
}

/// Holds the job of one number back until those of others have their results.
#[derive(Drop)]
pub struct OneAfterOthers {
    pub one: u32,
    pub others: &'static [u32],
    /// Of the others.
    pub done: Meeting,
}

impl OneAfterOthers {
    /// Where none of them is done.
    pub fn new(one: u32, others: &'static [u32]) -> OneAfterOthers {
        let done = Meeting::of(others.len() as u64);
        OneAfterOthers { one, others, done }
    }
}

impl Gate for OneAfterOthers {
    ghost ran = { λ _ _. ⊤ };

    fn run(&self, alloc: Global, tree: &Tree, job: Job<'_>) -> Result<Done, Memory> {
        let number = job.number;
        if number == self.one {
            self.done.wait();
        }
        let done = run_job(alloc, tree, job)?;
        if self.others.contains(&number) {
            self.done.come();
        }
        Ok(done)
    }
}

/// Holds each job back until all have come.
#[derive(Drop)]
pub struct AllAtOnce {
    /// Of all.
    pub all: Meeting,
}

impl Gate for AllAtOnce {
    ghost ran = { λ _ _. ⊤ };

    fn run(&self, alloc: Global, tree: &Tree, job: Job<'_>) -> Result<Done, Memory> {
        self.all.come();
        self.all.wait();
        run_job(alloc, tree, job)
    }
}

/// Counts how often the job of each number is run.
#[derive(Drop)]
pub struct Counts {
    runs: Vec<AtomicU64>,
}

impl Counts {
    /// Of the numbers below that one.
    pub fn of(alloc: Global, count: u32) -> Result<Counts, Memory> {
        let mut runs = Vec::new(alloc);
        for _ in 0..count {
            runs.push(AtomicU64::new(0))?;
        }
        Ok(Counts { runs })
    }

    /// Whether each job was run once.
    pub fn are_one_each(&self) -> bool {
        self.runs
            .iter()
            .all(|runs| runs.load(Ordering::SeqCst) == 1)
    }

    /// Whether each job of the numbers below that one was run once, and none of the others.
    pub fn are_one_each_below(&self, count: usize) -> bool {
        self.runs.iter().enumerate().all(|(number, runs)| {
            let wanted = (number < count) as u64;
            runs.load(Ordering::SeqCst) == wanted
        })
    }
}

impl Gate for Counts {
    ghost ran = { λ _ _. ⊤ };

    fn run(&self, alloc: Global, tree: &Tree, job: Job<'_>) -> Result<Done, Memory> {
        if let Some(runs) = self.runs.get(job.number as usize) {
            runs.fetch_add(1, Ordering::SeqCst);
        }
        run_job(alloc, tree, job)
    }
}
