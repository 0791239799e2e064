ghost use Rattle.std.specs.Prelude.{List, IsPermutation};
ghost use Rattle.bfs_tree.specs.Slots.{Slots};
ghost use Rattle.bfs_handover.specs.declared.job.Job.{Job};
ghost use Rattle.bfs_handover.specs.declared.job.Done.{Done};
ghost use Rattle.bfs_handover.specs.Merging.{numbers_in};
ghost use Rattle.bfs_workers.specs.Laws.{numbers_of};
ghost use Rattle.bfs_workers.specs.Results.{EachOnce};

use crate::gate::Gate;

/// Where each job has its result once, the results have the numbers of the jobs, each as often.
pub fn each_number_once<G: Gate>()
    ensures { (tree : Slots) (jobs : List Job) (dones : List Done) → EachOnce G.ran tree jobs dones → IsPermutation (numbers_of jobs) (numbers_in dones) }
{}
