ghost use Rattle.std.specs.Prelude.{◌≡◌};
ghost use Rattle.bfs_model.specs.Server.Changes.{time_given};

use crate::time::Time;
use std::marker::Model;

/// A time as a call sets it, in its two words. Microseconds of 1,000,000 or more mean the time of the batch.
#[derive(Clone, Copy, Debug, PartialEq, Eq)]
pub struct SetTime {
    /// The whole seconds since the beginning of 1970.
    pub seconds: u32,
    /// The microseconds after the whole seconds.
    pub useconds: u32,
}

impl Model for SetTime {
    ghost use Rattle.bfs_model.specs.Server.Tree as model;

    ghost Value = { model.Time };

    ghost view = { λ time. record { seconds = time.seconds; useconds = time.useconds } };

    ghost inverse = { λ time. record { seconds = time.seconds; useconds = time.useconds } };
}

impl SetTime {
    /// The time that a call of a batch sets, where `now` is the time of the batch.
    pub fn given(self, now: Time) -> Time
        ensures { result ≡ time_given now self }
    {
        Time::new(self.seconds, self.useconds).unwrap_or(now)
    }
}

/// The attributes that a call sets (RFC 1094 section 2.3.6, sattr). `None` is not set.
#[derive(Clone, Copy, Debug, PartialEq, Eq)]
pub struct Settings {
    /// Its twelve low bits are the permissions; the others are not read.
    pub mode: Option<u32>,
    /// The number of the user who is to own the inode.
    pub uid: Option<u32>,
    /// The number of the group that is to own the inode.
    pub gid: Option<u32>,
    /// Of a file, in bytes.
    pub size: Option<u32>,
    /// When the inode was last read.
    pub atime: Option<SetTime>,
    /// When what the inode holds last changed.
    pub mtime: Option<SetTime>,
}

impl Model for Settings {
    ghost use Rattle.bfs_model.specs.Bytes.Arguments as model;

    ghost Value = { model.Settings };

    ghost view = { λ s. record { mode = s.mode; uid = s.uid; gid = s.gid; size = s.size; atime = s.atime; mtime = s.mtime } };

    ghost inverse = { λ s. record { mode = s.mode; uid = s.uid; gid = s.gid; size = s.size; atime = s.atime; mtime = s.mtime } };
}
