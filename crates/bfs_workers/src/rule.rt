//! The rule of the queue from which workers draw jobs.
ghost use Rattle.std.specs.Prelude.{⊤};
ghost use Rattle.bfs_workers.specs.Rule.{KnowsAll, PutOne, TookOne};

use bfs_handover::Job;
use crossbeam_queue::protocol::{Join, Lesson, Outcome, Protocol, Split};
use crossbeam_queue::{Pass, RuledArrayQueue};
use std::collections::LinkedList;

// what was put when a pass was given out, what was taken by it, and its parts of the right to put: no value of it is made
pub(crate) struct Account<'a> {
    pub(crate) parts: u32,
    pub(crate) put: LinkedList<Job<'a>>,
    pub(crate) taken: LinkedList<Job<'a>>,
}

pub(crate) struct EachOnce;

impl<'a> Protocol<Job<'a>, Account<'a>> for EachOnce {
    ghost use Rattle.std.specs.Prelude.{[]};
    ghost use Rattle.bfs_workers.specs.Rule.{Balanced, account, all_parts};

    ghost holds = { Balanced };

    ghost first = { account all_parts [] [] };
}

// a pass for a worker
pub(crate) struct OneMore;

impl<'a> Split<Account<'a>> for OneMore {
    ghost use Rattle.std.specs.Prelude.{◌-◌, []};
    ghost use Rattle.bfs_workers.specs.Rule.{account};

    ghost left = { λ pass. account (pass.parts - 1) pass.put pass.taken };

    ghost right = { λ pass. account 1 pass.put [] };
}

impl<'a> Join<Account<'a>> for OneMore {
    ghost use Rattle.std.specs.Prelude.{◌+◌, ◌++◌, []};
    ghost use Rattle.bfs_workers.specs.Rule.{account};

    ghost both = { λ pass other. account (pass.parts + other.parts) pass.put (pass.taken ++ other.taken) };

    ghost spent = { account 0 [] [] };
}

pub(crate) struct Puts;

impl<'a> Outcome<Job<'a>, Account<'a>> for Puts {
    ghost then = { PutOne };
}

impl<'a> Lesson<Job<'a>, Account<'a>> for Puts {
    ghost fact = { λ _ _. ⊤ };
}

pub(crate) struct Takes;

impl<'a> Outcome<Job<'a>, Account<'a>> for Takes {
    ghost then = { TookOne };
}

impl<'a> Lesson<Job<'a>, Account<'a>> for Takes {
    ghost fact = { KnowsAll };
}

pub(crate) type JobQueue<'a> = RuledArrayQueue<Job<'a>, Account<'a>, EachOnce>;

pub(crate) type JobPass<'a> = Pass<Job<'a>, Account<'a>>;

// a pass with its queue
#[derive(Drop)]
pub(crate) struct Seat<'q, 'a> {
    pub(crate) queue: &'q JobQueue<'a>,
    pub(crate) pass: JobPass<'a>,
}
