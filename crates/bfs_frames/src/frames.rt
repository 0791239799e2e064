ghost use Rattle.std.specs.Prelude.{◌≡◌};
ghost use Rattle.bfs_frames.specs.Frames.{microseconds};

use crate::kind::Kind;
use bfs_types::Time;

/// One thing that is told: its kind, and the bytes that this kind says what to make of.
#[derive(Debug, Drop)]
pub struct Frame {
    pub kind: Kind,
    pub payload: Vec<u8>,
}

/// All that came to a process since its last turn, and when it was gathered.
#[derive(Debug, Drop)]
pub struct Turn {
    pub time: Time,
    /// In the order in which they came.
    pub frames: Vec<Frame>,
}

impl Turn {
    /// The time when it was gathered, in microseconds since 1970.
    pub fn microseconds(&self) -> u64
        ensures { result ≡ microseconds self.now.time }
    {
        u64::from(self.time.seconds()) * 1_000_000 + u64::from(self.time.useconds())
    }
}
