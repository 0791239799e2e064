ghost use Rattle.std.specs.Prelude.{IfOk};
ghost use Rattle.std.specs.List.{All, AllZip};
ghost use Rattle.bfs_handover.specs.Jobs.{CanRun};
ghost use Rattle.bfs_workers.specs.Results.{Gives};

use crate::gate::Gate;
use bfs_handover::{Done, Job};
use bfs_tree::Tree;
use bfs_types::Memory;
use std::alloc::Global;

/// Runs the jobs one after another in the calling thread, and gives their results in the order of the jobs. `Memory` if memory
/// runs out: the jobs behind are not run then, and the inodes of all jobs are lost.
#[tactic(auto, using(std::proofs::lemmas::Slice::Zip::all_zipped_more))]
pub fn run_here<G: Gate>(
    alloc: Global,
    tree: &Tree,
    jobs: Vec<Job<'_>>,
    gate: &G,
) -> Result<Vec<Done>, Memory>
    requires { All (CanRun tree.now) jobs.items }
    ensures { IfOk result (λ dones. AllZip (Gives G.ran tree.now) jobs.entry.items dones.items) }
{
    let mut dones = Vec::with_capacity(alloc, jobs.len())?;
    for job in jobs {
        dones.push_reserved(gate.run(alloc, tree, job)?);
    }
    Ok(dones)
}
