ghost use Rattle.std.specs.Prelude.{◌≡◌};
ghost use Rattle.bfs_policy.specs.Telling as model;

use crate::facts::Standing;
use crate::times::is_past;

// the least time between two times, where it has moved, and where it hasn't, in microseconds
const MOVED: u64 = 100_000;

const STILL: u64 = 1_000_000;

/// What it has told the others of where it stands, and when.
#[derive(Clone, Copy)]
pub(crate) struct Telling {
    pub(crate) told: Standing,
    pub(crate) at: Option<u64>,
}

impl Telling {
    /// Nothing was told.
    pub(crate) fn new() -> Telling
        ensures { result ≡ model.nothing_told }
    {
        Telling {
            told: Standing {
                view: 0,
                asked: 0,
                last: 0,
                stable: 0,
            },
            at: None,
        }
    }

    /// Whether it is to tell where it stands; then it has told it.
    pub(crate) fn look(&mut self, own: Standing, now: u64) -> bool
        ensures now { self.new ≡ model.telling_after own now self.old }
        ensures due { result ≡ model.is_telling_due own now self.old }
    {
        let time = if self.told.is_like(own) { STILL } else { MOVED };
        if !is_past(self.at, time, now) {
            return false;
        }
        *self = Telling {
            told: own,
            at: Some(now),
        };
        true
    }
}
