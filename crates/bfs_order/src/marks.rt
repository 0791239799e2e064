// The numbers of a replica, by which it is put together again.
ghost use Rattle.std.specs.Prelude.{◌≡◌};
ghost use Rattle.bfs_order.specs.Inside.Bounds.{IsBounded};
ghost use Rattle.bfs_order.specs.Replica.Marks.{marks_of, state_with};

use crate::order::Order;
use bfs_log::Log;
use std::alloc::Global;

/// What one replica knows of the order in numbers; beside them stands its log.
#[derive(Clone, Copy, Debug, PartialEq, Eq)]
pub struct Marks {
    /// How many replicas may be faulty.
    pub f: u32,
    /// Its own number among them.
    pub me: u32,
    /// The view last entered.
    pub view: u64,
    /// The view last asked for.
    pub asked: u64,
    /// The low mark: the number of the stable checkpoint.
    pub low: u64,
    /// The number that the view begins behind.
    pub min_s: u64,
    /// The greatest number of what was handed over when the view was entered.
    pub handed: u64,
    /// The number last executed.
    pub last: u64,
}

impl Order {
    /// Its numbers, by which and by its log `with_marks` puts it together again.
    pub fn marks(&self) -> Marks
        ensures value { result ≡ marks_of self.now }
        ensures bounded { IsBounded self.now }
    {
        Marks {
            f: self.f,
            me: self.me,
            view: self.view,
            asked: self.asked,
            low: self.low,
            min_s: self.min_s,
            handed: self.handed,
            last: self.last,
        }
    }

    /// The log of its messages.
    pub fn whole_log(&self) -> &Log
        ensures { result.now ≡ self.now.log }
    {
        &self.log
    }

    /// The replica that knows these numbers, and has accepted just the messages of that log. Views, the low mark and the number last executed
    /// are at most `MOST_NUMBER`.
    pub fn with_marks(alloc: Global, marks: Marks, log: Log) -> Order
        requires { IsBounded (state_with marks log) }
        ensures { result ≡ state_with marks log }
    {
        Order {
            alloc,
            f: marks.f,
            me: marks.me,
            view: marks.view,
            asked: marks.asked,
            low: marks.low,
            min_s: marks.min_s,
            handed: marks.handed,
            last: marks.last,
            log,
        }
    }
}
