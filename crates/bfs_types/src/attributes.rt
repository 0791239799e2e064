use crate::file_id::FileId;
use crate::time::Time;
use std::marker::Model;

/// The types of inodes (RFC 1094 section 2.3.2, ftype).
#[derive(Clone, Copy, Debug, PartialEq, Eq)]
pub enum FileType {
    /// A file, which holds bytes.
    Regular,
    /// A directory, which holds entries.
    Directory,
    /// A symbolic link, which holds a path.
    SymbolicLink,
}

/// The attributes of an inode (RFC 1094 section 2.3.5, fattr), without those that are the same for each inode or follow from
/// these: the blocksize, rdev, the number of blocks and the fsid.
#[derive(Clone, Copy, Debug, PartialEq, Eq)]
pub struct Attributes {
    /// Whether it is a file, a directory or a symbolic link.
    pub file_type: FileType,
    /// The twelve low bits of the mode.
    pub permissions: u32,
    /// The number of hard links.
    pub links: u32,
    /// The number of the user who owns it.
    pub uid: u32,
    /// The number of the group that owns it.
    pub gid: u32,
    /// In bytes.
    pub size: u32,
    /// Its own number.
    pub fileid: FileId,
    /// When it was last read.
    pub atime: Time,
    /// When what it holds last changed.
    pub mtime: Time,
    /// When the inode last changed.
    pub ctime: Time,
}

impl Model for Attributes {
    ghost use Rattle.std.specs.Prelude.{◌≤◌};
    ghost use Rattle.bfs_types.specs.declared.limits.TheConstants.{MOST_PERMISSIONS};
    ghost use Rattle.bfs_model.specs.Bytes.Attributes as model;

    ghost Value = { model.Attributes };

    ghost use Rattle.bfs_types.specs.Attributes.{seen, unseen, unseen-seen};

    ghost view = { seen };

    ghost invariant = { λ attributes. attributes.permissions ≤ MOST_PERMISSIONS };

    ghost inverse = { unseen };

    ghost inverse_ok = { λ attributes h. unseen-seen attributes };
}
