ghost use Rattle.std.specs.Prelude.{◌≡◌};
ghost use Rattle.bfs_model.specs.Bytes.Replies.{status_number};
ghost use Rattle.bfs_wire.specs.Replies.{status_seen};

/// Why a procedure is not done (RFC 1094 section 2.3.1, stat).
#[derive(Clone, Copy, Debug, PartialEq, Eq)]
pub enum Status {
    /// This may not be done, or only by the owner.
    Perm,
    /// There is no such file or directory.
    NoEnt,
    /// The permissions don't let the caller do this.
    Acces,
    /// The name is taken.
    Exist,
    /// A directory is required, and this is none.
    NotDir,
    /// This is a directory, and none may be here.
    IsDir,
    /// The file would be too large.
    FBig,
    /// Nothing more can be stored.
    NoSpc,
    /// The directory has entries.
    NotEmpty,
    /// The handle leads to no inode: the inode is gone, or the handle is not one of this file system.
    Stale,
}

impl Status {
    /// The number that spells it (RFC 1094 section 2.3.1).
    pub fn number(self) -> u32
        ensures { result ≡ status_number (status_seen self) }
    {
        match self {
            Status::Perm => 1,
            Status::NoEnt => 2,
            Status::Acces => 13,
            Status::Exist => 17,
            Status::NotDir => 20,
            Status::IsDir => 21,
            Status::FBig => 27,
            Status::NoSpc => 28,
            Status::NotEmpty => 66,
            Status::Stale => 70,
        }
    }
}
