ghost use Rattle.std.specs.Prelude.{◌≡◌, ◌⊎◌, OnErr, OnOk};
ghost use Rattle.bfs_journal.specs.Records.{IsBody};
ghost use Rattle.bfs_recovery.specs.Holding.{Held, saved_as, with_body};

use std::io;

/// A place that keeps a replica over ends of the process: the text of a saved one, and a journal of what it did since. Where the process ends within a call, the
/// place holds what it held before the call, or what it is to hold behind it.
pub trait Folder {
    // what it holds
    ghost kept: { Self → Held };

    /// Puts a record with that body behind the others. It outlives the process once this gives `Ok`; after an `Err` it may or may not.
    fn append(&mut self, body: &[u8]) -> io::Result<()>
        requires { IsBody body.now }
        ensures ok { OnOk result (kept self.new ≡ with_body (kept self.old) body.now) }
        ensures err { OnErr result ((kept self.new ≡ kept self.old) ⊎ (kept self.new ≡ with_body (kept self.old) body.now)) };

    /// Puts the text of a saved replica in the place of all that is held, and begins a journal anew. It outlives the process once this gives `Ok`; after an `Err`
    /// either it or what was held does.
    fn replace(&mut self, text: &[u8]) -> io::Result<()>
        ensures ok { OnOk result (kept self.new ≡ saved_as text.now) }
        ensures err { OnErr result ((kept self.new ≡ kept self.old) ⊎ (kept self.new ≡ saved_as text.now)) };
}
