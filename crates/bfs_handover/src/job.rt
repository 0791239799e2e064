ghost use Rattle.std.specs.Prelude.{IfOk};
ghost use Rattle.bfs_handover.specs.Jobs.{CanRun, IsDone};

use crate::loans::Loans;
use crate::share::Share;
use bfs_procs::answer;
use bfs_tree::Tree;
use bfs_types::{Memory, Ordinal, Time};
use std::alloc::Global;

/// A request of a batch, with the inodes that it writes.
#[derive(Debug, Drop)]
pub struct Job<'a> {
    /// The number of the request in its batch, from 0 on.
    pub number: u32,
    /// The bytes of the request, which the batch keeps.
    pub request: &'a [u8],
    /// The ordinal of the request.
    pub ordinal: Ordinal,
    /// The effective time of the batch.
    pub time: Time,
    /// The inodes that the request writes.
    pub inodes: Loans,
}

/// What came of a job.
#[derive(Debug, Drop)]
pub struct Done {
    /// The number of the request in its batch.
    pub number: u32,
    /// The bytes of the reply, none if the request can't be answered.
    pub reply: Vec<u8>,
    /// The inodes that the job was handed, as its request left them.
    pub inodes: Loans,
}

/// Answers the request of a job on the inodes that are at home and its own. `Memory` if memory runs out; the job's inodes are then
/// lost.
pub fn run_job(alloc: Global, tree: &Tree, job: Job) -> Result<Done, Memory>
    requires { CanRun tree.now job }
    ensures { IfOk result (λ done. IsDone tree.now job.entry done) }
{
    let Job {
        number,
        request,
        ordinal,
        time,
        inodes,
    } = job;
    let mut share = Share::new(alloc, tree, inodes);
    let reply = answer(alloc, &mut share, ordinal, time, request)?;
    Ok(Done {
        number,
        reply,
        inodes: share.into_loans(),
    })
}
