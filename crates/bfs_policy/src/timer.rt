ghost use Rattle.std.specs.Prelude.{◌≡◌};
ghost use Rattle.bfs_policy.specs.Timers as model;

use crate::facts::Standing;
use crate::times::{has_lasted, since_when};

// the longest that a request waits before the next view is asked for, in microseconds
const MOST_PATIENCE: u64 = 60_000_000;

/// How long a request waits before the next view is asked for, and since when one does. Times are in microseconds.
#[derive(Clone, Copy)]
pub(crate) struct Timer {
    pub(crate) least: u64,
    pub(crate) patience: u64,
    pub(crate) since: Option<u64>,
    // where it stood when it looked last
    pub(crate) seen: Standing,
}

impl Timer {
    /// Nothing waits yet.
    pub(crate) fn new(patience: u64) -> Timer
        ensures { result ≡ model.new_timer patience }
    {
        let least = patience.min(MOST_PATIENCE);
        Timer {
            least,
            patience: least,
            since: None,
            seen: Standing {
                view: 0,
                asked: 0,
                last: 0,
                stable: 0,
            },
        }
    }

    /// Looks where it stands, and whether something waits.
    pub(crate) fn look(&mut self, own: Standing, waits: bool, now: u64)
        ensures { self.new ≡ model.timer_after own waits now self.old }
    {
        let since = self.waited(own);
        self.patience = self.patience_at(own);
        self.since = since_when(since, waits, now);
        self.seen = own;
    }

    fn waited(&self, own: Standing) -> Option<u64>
        ensures { result ≡ model.waited_after self.now own }
    {
        if self.has_executed(own) || self.has_asked(own) || self.seen.view < own.view {
            None
        } else {
            self.since
        }
    }

    fn patience_at(&self, own: Standing) -> u64
        ensures { result ≡ model.patience_after self.now own }
    {
        if self.has_executed(own) {
            self.least
        } else if self.has_asked(own) {
            self.patience.saturating_mul(2).min(MOST_PATIENCE)
        } else {
            self.patience
        }
    }

    /// Whether something was executed since it looked last.
    pub(crate) fn has_executed(&self, own: Standing) -> bool
        ensures { result ≡ model.has_executed self.now own }
    {
        self.seen.last < own.last
    }

    fn has_asked(&self, own: Standing) -> bool
        ensures { result ≡ model.has_asked self.now own }
    {
        self.seen.asked < own.asked
    }

    /// Whether a request has waited too long.
    pub(crate) fn is_late(&self, now: u64) -> bool
        ensures { result ≡ model.is_late now self.now }
    {
        has_lasted(self.since, self.patience, now)
    }
}
