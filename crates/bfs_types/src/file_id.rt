ghost use Rattle.std.specs.Prelude.{◌≡◌};
ghost use Rattle.bfs_model.specs.Server.Tree.{root_id};

use std::marker::Model;

/// The number of an inode (RFC 1094 section 2.3.5, fileid). No other inode of the file system has it or ever had it.
#[derive(Clone, Copy, Debug, PartialEq, Eq, PartialOrd, Ord)]
pub struct FileId(u32);

impl Model for FileId {
    ghost use Rattle.std.specs.Prelude.{ℕ};

    ghost Value = { ℕ };

    ghost view = { λ id. id.0 };

    ghost inverse = { λ number. record { 0 = number } };
}

impl FileId {
    /// The fileid of that number.
    pub fn new(number: u32) -> FileId
        ensures { result ≡ number }
    {
        FileId(number)
    }

    /// The fileid of the root directory.
    pub fn root() -> FileId
        ensures { result ≡ root_id }
    {
        FileId(2)
    }

    /// The number, as it stands in a file handle and in attributes.
    pub fn number(self) -> u32
        ensures { result ≡ self }
    {
        self.0
    }
}
