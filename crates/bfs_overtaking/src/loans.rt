ghost use Rattle.std.specs.Prelude.{◌≡◌, IfOk};
ghost use Rattle.bfs_model.specs.Server.Footprints.{IsFreshFor, footprint_of};
ghost use Rattle.bfs_model.specs.Server.Serial.{answer as model_answer};
ghost use Rattle.bfs_model.specs.Server.Shares.{moved_for};
ghost use Rattle.bfs_footprint.specs.Seen.{footprint_seen};
ghost use Rattle.bfs_tree.specs.Reach.{Knows};
ghost use Rattle.bfs_tree.specs.Tree.{at_home, reach_of};
ghost use Rattle.bfs_handover.specs.Jobs.{CanRun};
ghost use Rattle.bfs_handover.specs.Moves.{AreOwned};
ghost use Rattle.bfs_overtaking.specs.Inside.Lent.{AreLentOut, IsCarriedOut, IsOutFor};

use bfs_footprint::Footprint;
use bfs_handover::{Job, Loan, Loans, merge_one, run_job};
use bfs_procs::answer;
use bfs_tree::Tree;
use bfs_types::{FileId, Memory};
use std::alloc::Global;

// Lends out of the tree what a call of that footprint writes.
pub(crate) fn lend(alloc: Global, tree: &mut Tree, footprint: &Footprint) -> Result<Loans, Memory>
    requires { AreOwned tree.old (moved_for (footprint_seen footprint.now)) }
    ensures { IfOk result (λ loans. AreLentOut tree.old tree.new (moved_for (footprint_seen footprint.now)) loans) }
{
    match footprint {
        Footprint::Known { writes, .. } => lend_each(alloc, tree, writes.as_slice()),
        Footprint::Whole => lend_each(alloc, tree, &[]),
    }
}

// Lends out what has these fileids. One may stand there twice.
fn lend_each(alloc: Global, tree: &mut Tree, ids: &[FileId]) -> Result<Loans, Memory>
    requires { AreOwned tree.old ids.now }
    ensures { IfOk result (λ loans. AreLentOut tree.old tree.new ids.now loans) }
{
    let mut loans = Loans::new(alloc);
    for id in ids {
        if !loans.owns(*id) {
            tree.reserve(*id)?;
            let inode = tree.lend_out(*id);
            loans.push(Loan { id: *id, inode })?;
        }
    }
    Ok(loans)
}

// Carries out a call that may touch any inode, on the whole tree.
pub(crate) fn carry_out_alone(alloc: Global, tree: &mut Tree, job: Job) -> Result<Vec<u8>, Memory>
    requires known { Knows (reach_of tree.old) (footprint_of (at_home tree.old) job.ordinal job.time job.request.now) }
    requires fresh { IsFreshFor (at_home tree.old) job.ordinal (footprint_of (at_home tree.old) job.ordinal job.time job.request.now) }
    ensures done { IfOk result (λ reply. (at_home tree.new, reply.items) ≡ model_answer (at_home tree.old) job.entry.ordinal job.entry.time job.entry.request.now) }
    ensures reach { reach_of tree.new ≡ reach_of tree.old }
{
    answer(alloc, tree, job.ordinal, job.time, job.request)
}

// Carries out a call on what it was lent, and brings that home.
pub(crate) fn carry_out(alloc: Global, tree: &mut Tree, job: Job) -> Result<Vec<u8>, Memory>
    requires can_run { CanRun tree.old job }
    requires out { IsOutFor tree.old job }
    ensures { IfOk result (λ reply. IsCarriedOut tree.old tree.new job.entry reply.items) }
{
    let done = run_job(alloc, tree, job)?;
    Ok(merge_one(tree, done).bytes)
}
