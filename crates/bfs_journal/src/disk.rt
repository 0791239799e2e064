// A file that grows, as a journal sees it: what it has, and what a crash may leave.
ghost use Rattle.std.specs.Prelude.{◌≡◌, List, ℕ, Option, IfSome, OnOk};
ghost use Rattle.std.specs.Io.KnownBytes.{Appends};
ghost use Rattle.bfs_journal.specs.Disk.{Elapses, Follows, Grown, Only};

use std::io;

/// A file that grows. Of a file of an operating system nothing is known: there `seen` is `None`, and a crash may leave anything.
pub trait Disk {
    // its bytes, where they are known
    ghost seen: { Self → Option (List ℕ) };

    // what a crash at this moment may leave
    ghost may_leave: { Self → List ℕ → Type 0 };

    // the moment, as a number that doesn't fall
    ghost moment: { Self → ℕ };

    // what a crash at some moment from that one on might have left
    ghost left_since: { Self → ℕ → List ℕ → Type 0 };

    /// Writes behind what is there. Until a sync a crash may leave any front of it.
    fn append(&mut self, bytes: &[u8]) -> io::Result<()>
        ensures written { OnOk result (Appends (seen self.old) (seen self.new) bytes.now) }
        ensures crash { Follows (Grown bytes.now) (may_leave self.old) (may_leave self.new) }
        ensures time { Elapses (moment self.old) (moment self.new) (left_since self.old) (left_since self.new) (may_leave self.new) };

    /// Once it has returned `Ok`, a crash leaves what is there.
    fn sync(&mut self) -> io::Result<()>
        ensures durable { OnOk result (IfSome (seen self.old) (Only (may_leave self.new))) }
        ensures seen { seen self.new ≡ seen self.old }
        ensures crash { (c : List ℕ) → may_leave self.new c → may_leave self.old c }
        ensures time { Elapses (moment self.old) (moment self.new) (left_since self.old) (left_since self.new) (may_leave self.new) };

    // since this moment there is no other
    ghost only_now: { (disk : Self) (c : List ℕ) → left_since disk (moment disk) c → may_leave disk c };
}
