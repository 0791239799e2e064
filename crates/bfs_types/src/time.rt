ghost use Rattle.std.specs.Prelude.{◌≡◌, ◌<◌};
ghost use Rattle.std.specs.Option.{SomeIff};
ghost use Rattle.bfs_model.specs.Server.Stored.{IsTime};
ghost use Rattle.bfs_model.specs.Server.Tree as model;
ghost use Rattle.bfs_model.specs.Server.Serial.{is_after, next_microsecond, effective_time};

use std::marker::Model;

/// Seconds and microseconds since the beginning of 1970 (RFC 1094 section 2.3.4, timeval). The microseconds are below
/// 1,000,000.
#[derive(Clone, Copy, Debug, PartialEq, Eq, PartialOrd, Ord)]
pub struct Time {
    seconds: u32,
    useconds: u32,
}

impl Model for Time {
    ghost use Rattle.std.specs.Prelude.{◌<◌};
    ghost use Rattle.bfs_model.specs.Server.Tree as model;

    ghost Value = { model.Time };

    ghost view = { λ time. record { seconds = time.seconds; useconds = time.useconds } };

    ghost invariant = { λ time. time.useconds < 1000000 };

    ghost inverse = { λ time. record { seconds = time.seconds; useconds = time.useconds } };
}

impl Time {
    /// That time, or `None` if the microseconds are 1,000,000 or more.
    pub fn new(seconds: u32, useconds: u32) -> Option<Time>
        ensures { SomeIff result (useconds < 1000000) (record { seconds = seconds; useconds = useconds }) }
    {
        if useconds < 1_000_000 {
            Some(Time { seconds, useconds })
        } else {
            None
        }
    }

    /// The beginning of 1970, which is the last time of a new file system.
    pub fn epoch() -> Time
        ensures { result ≡ model.epoch }
    {
        Time {
            seconds: 0,
            useconds: 0,
        }
    }

    /// The whole seconds since the beginning of 1970.
    pub fn seconds(self) -> u32
        ensures { result ≡ self.seconds }
    {
        self.seconds
    }

    /// The microseconds after the whole seconds.
    pub fn useconds(self) -> u32
        ensures value { result ≡ self.useconds }
        ensures below_a_second { result < 1000000 }
    {
        self.useconds
    }

    /// Its seconds and microseconds are words of 32 bits, and there are fewer than 1,000,000 microseconds. The body does nothing:
    /// what is said is its contract.
    pub fn is_in_range(self)
        ensures { IsTime self }
    {
        let _ = self.seconds;
    }

    /// Whether it is later than the other.
    pub fn is_after(self, other: Time) -> bool
        ensures { result ≡ is_after self other }
    {
        self.seconds > other.seconds
            || (self.seconds == other.seconds && self.useconds > other.useconds)
    }

    /// The time of a batch for which this time was proposed, where `last` is the time of the batch before: this time if it is
    /// later, else one microsecond after the last. The latest time of a timeval, 4294967295 s and 999999 us, stays.
    pub fn effective_after(self, last: Time) -> Time
        ensures { result ≡ effective_time last self }
    {
        if self.is_after(last) {
            self
        } else {
            last.next_microsecond()
        }
    }

    fn next_microsecond(self) -> Time
        ensures { result ≡ next_microsecond self }
    {
        if self.useconds < 999_999 {
            Time {
                seconds: self.seconds,
                useconds: self.useconds + 1,
            }
        } else if self.seconds < u32::MAX {
            Time {
                seconds: self.seconds + 1,
                useconds: 0,
            }
        } else {
            self
        }
    }
}
