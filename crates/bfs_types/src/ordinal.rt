ghost use Rattle.std.specs.Prelude.{◌≡◌, ◌<◌, ◌≤◌, ◌↔◌, IsTrue};
ghost use Rattle.std.specs.Option.{SomeIff};
ghost use Rattle.bfs_model.specs.Server.Tree.{first_ordinal, spent_ordinal};
ghost use Rattle.bfs_model.specs.Server.Serial.{ordinal_after};

use crate::file_id::FileId;
use std::marker::Model;

/// The number of an executed request, which is also the fileid of the inode that the request creates. It rises by one with
/// each request up to 4,294,967,296, where all fileids are spent, and stays there.
#[derive(Clone, Copy, Debug, PartialEq, Eq, PartialOrd, Ord)]
pub struct Ordinal(u64);

impl Model for Ordinal {
    ghost use Rattle.std.specs.Prelude.{ℕ, ◌≤◌};
    ghost use Rattle.bfs_model.specs.Server.Tree.{spent_ordinal};

    ghost Value = { ℕ };

    ghost view = { λ ordinal. ordinal.0 };

    ghost invariant = { λ ordinal. ordinal.0 ≤ spent_ordinal };

    ghost inverse = { λ number. record { 0 = number } };
}

// where all fileids are spent, since a fileid is a word of 32 bits
const SPENT: u64 = 4_294_967_296;

impl Ordinal {
    /// The ordinal of that number, or `None` if the number is above 4,294,967,296.
    pub fn new(number: u64) -> Option<Ordinal>
        ensures { SomeIff result (number ≤ spent_ordinal) number }
    {
        if number <= SPENT {
            Some(Ordinal(number))
        } else {
            None
        }
    }

    /// The ordinal of a file system's first request.
    pub fn first() -> Ordinal
        ensures { result ≡ first_ordinal }
    {
        Ordinal(3)
    }

    /// The ordinal as a number.
    pub fn number(self) -> u64
        ensures value { result ≡ self }
        ensures at_most_spent { result ≤ spent_ordinal }
    {
        self.0
    }

    /// Whether all fileids are spent, so that nothing more can be created.
    pub fn is_spent(self) -> bool
        ensures { IsTrue result ↔ (self ≡ spent_ordinal) }
    {
        self.0 == SPENT
    }

    /// The ordinal that many requests later. Once all fileids are spent it stays.
    pub fn after(self, count: u64) -> Ordinal
        ensures { result ≡ ordinal_after self count }
    {
        Ordinal(self.0.saturating_add(count).min(SPENT))
    }

    /// The ordinal of the next request.
    pub fn next(self) -> Ordinal
        ensures { result ≡ ordinal_after self 1 }
    {
        self.after(1)
    }

    /// The fileid of the inode that the request of this ordinal creates, or `None` if all fileids are spent.
    pub fn file_id(self) -> Option<FileId>
        ensures { SomeIff result (self < spent_ordinal) self }
    {
        if self.0 < SPENT {
            Some(FileId::new(self.0 as u32))
        } else {
            None
        }
    }
}
