ghost use Rattle.std.specs.Prelude.{ℕ, ◌<◌, [], List, ⊤, IfOk, IsTrue, get_or, length};
ghost use Rattle.bfs_model.specs.Server.WellFormed.{IsWellFormed};
ghost use Rattle.bfs_tree.specs.Tree.{at_home, reach_of};
ghost use Rattle.bfs_handover.specs.Jobs.{CanRun};
ghost use Rattle.bfs_workers.specs.Answered.{IsAnswered};
ghost use Rattle.bfs_workers.specs.Results.{Gives};

use bfs_footprint::touch_of;
use bfs_handover::{Done, Job, merge_one, run_job, split_request};
use bfs_levels::Part;
use bfs_serial::answer_next;
use bfs_tree::Tree;
use bfs_types::Memory;
use std::alloc::Global;

/// By which requests are answered, and by it alone, so that it sees each of them begin and end: as jobs, or one alone on the whole tree.
pub trait Gate {
    // what it promises of the number and the reply of each request that it runs, and no other call does
    ghost ran: { ℕ → List ℕ → Type 0 };

    /// The result of `run_job`. `Memory` if memory runs out: the job's inodes are lost then.
    fn run(&self, alloc: Global, tree: &Tree, job: Job<'_>) -> Result<Done, Memory>
        requires { CanRun tree.now job }
        ensures { IfOk result (λ done. Gives ran tree.now job.entry done) };

    /// Executes the first of the part's requests on the whole tree, and gives its reply. It is split off as a job, run by the gate and
    /// brought home; one that may touch any inode is answered in place. `Memory` if memory runs out; the tree may then not be whole.
    fn answer_one(&self, alloc: Global, tree: &mut Tree, part: &Part<'_>) -> Result<Vec<u8>, Memory>
        requires whole { IsTrue ((reach_of tree.old).whole) }
        requires formed { IsWellFormed (record { tree = at_home tree.old; next_ordinal = part.now.ordinal; last_time = part.now.time }) }
        requires within { part.now.first < length part.now.batch.now.requests }
        ensures { IfOk result (λ reply. IsAnswered ran tree.old tree.new part.now.first part.now.ordinal part.now.time (get_or part.now.batch.now.requests part.now.first []) reply.items) }
    {
        let place = part.first;
        let count = part.batch.len();
        prove!(place < count);
        let request = part.batch.request(place);
        let footprint = touch_of(tree, part.ordinal, part.time, request).footprint;
        if footprint.is_whole() {
            return answer_next(alloc, tree, part.ordinal, part.time, request);
        }
        let footprints = [footprint];
        let number = place as u32;
        let job = split_request(alloc, tree, part, &footprints, number)?;
        let done = self.run(alloc, tree, job)?;
        Ok(merge_one(tree, done).bytes)
    }

    /// Whether it asks for threads also where requests are too short to pay for them. Only where threads are started depends on it.
    fn asks_for_threads(&self) -> bool {
        true
    }
}

/// A gate that only runs the jobs, and answers one request in place.
#[derive(Clone, Copy, Debug)]
pub struct NoGate;

impl Gate for NoGate {
    ghost ran = { λ _ _. ⊤ };

    fn run(&self, alloc: Global, tree: &Tree, job: Job<'_>) -> Result<Done, Memory> {
        run_job(alloc, tree, job)
    }

    fn answer_one(
        &self,
        alloc: Global,
        tree: &mut Tree,
        part: &Part<'_>,
    ) -> Result<Vec<u8>, Memory> {
        let request = part.batch.request(part.first);
        answer_next(alloc, tree, part.ordinal, part.time, request)
    }

    fn asks_for_threads(&self) -> bool {
        false
    }
}
