ghost use Rattle.std.specs.Prelude.{◌≡◌, ◌≤◌};
ghost use Rattle.std.specs.Option.{SomeIff};
ghost use Rattle.bfs_workers.specs.Workers.{most_workers};

use std::marker::Model;

/// How many workers there can be.
pub const MOST_WORKERS: u32 = 64;

/// How many workers run the jobs: 1 to `MOST_WORKERS`.
#[derive(Clone, Copy, Debug, PartialEq, Eq)]
pub struct Workers {
    count: u32,
}

impl Model for Workers {
    ghost use Rattle.std.specs.Prelude.{ℕ, ◌≤◌};
    ghost use Rattle.bfs_workers.specs.Workers.{most_workers};

    ghost Value = { ℕ };

    ghost view = { λ workers. workers.count };

    ghost invariant = { λ workers. (1 ≤ workers.count) × (workers.count ≤ most_workers) };

    ghost inverse = { λ count. record { count = count } };
}

impl Workers {
    /// So many workers, or `None` if there can't be so many.
    pub fn new(count: u32) -> Option<Workers>
        ensures { SomeIff result ((1 ≤ count) × (count ≤ most_workers)) count }
    {
        if (1..=MOST_WORKERS).contains(&count) {
            Some(Workers { count })
        } else {
            None
        }
    }

    /// The calling thread alone.
    pub fn one() -> Workers
        ensures { result ≡ 1 }
    {
        Workers { count: 1 }
    }

    /// How many they are.
    pub fn count(self) -> u32
        ensures value { result ≡ self }
        ensures least { 1 ≤ result }
        ensures most { result ≤ most_workers }
    {
        self.count
    }
}
