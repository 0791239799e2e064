//! Where threads wait for one another, but not for ever.

use std::sync::atomic::{AtomicU64, Ordering};
use std::thread;

/// Those who wait go on once so many have come, or in vain after 10,000,000 turns. Of what threads do to it no contract speaks.
#[derive(Drop)]
pub struct Meeting {
    awaited: u64,
    come: AtomicU64,
    missed: AtomicU64,
}

impl Meeting {
    /// Where so many are awaited.
    pub fn of(awaited: u64) -> Meeting {
        Meeting {
            awaited,
            come: AtomicU64::new(0),
            missed: AtomicU64::new(0),
        }
    }

    /// One more has come.
    pub fn come(&self) {
        self.come.fetch_add(1, Ordering::SeqCst);
    }

    /// Waits until all have come.
    pub fn wait(&self) {
        for _ in 0..10_000_000 {
            if self.come.load(Ordering::SeqCst) >= self.awaited {
                return;
            }
            thread::yield_now();
        }
        self.missed.store(1, Ordering::SeqCst);
    }

    /// Whether nobody has waited in vain.
    pub fn took_place(&self) -> bool {
        self.missed.load(Ordering::SeqCst) == 0
    }
}
