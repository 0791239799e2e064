ghost use Rattle.std.specs.Prelude.{◌≤◌, ◌≡◌, ℕ, OnOk};

use std::io;

/// A place that keeps a number over ends of the process.
pub trait Reserve {
    // the number that is kept
    ghost kept: { Self → ℕ };

    /// The number that is kept.
    fn reserved(&self) -> u64
        ensures { result ≡ kept self.now };

    /// Keeps that number, or a larger one. It outlives the process once this gives `Ok`; after an `Err` either it or the one before does.
    fn reserve(&mut self, next: u64) -> io::Result<()>
        ensures ok { OnOk result (next ≤ kept self.new) }
        ensures grows { kept self.old ≤ kept self.new };
}
