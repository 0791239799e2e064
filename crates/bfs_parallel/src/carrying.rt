ghost use Rattle.std.specs.Prelude.{IfOk, IsTrue};
ghost use Rattle.std.specs.List.{All};
ghost use Rattle.std.specs.List.Sorted.{IsPermutation, IsStrictlyIncreasing};
ghost use Rattle.bfs_model.specs.Server.Groups.{AreDisjoint};
ghost use Rattle.bfs_handover.specs.Laws.Carrying.{AreCarriedOut};
ghost use Rattle.bfs_handover.specs.Merging.{AreOut, IsMerged, numbers_in};
ghost use Rattle.bfs_handover.specs.Splitting.{CanBeSplit, IsFoundOn, footprints_for, part_with};
ghost use Rattle.bfs_tree.specs.Tree.{at_home, reach_of};
ghost use Rattle.bfs_parallel.specs.Parts.{IsCarriedOut};

use crate::means::Means;
use bfs_footprint::Footprint;
use bfs_handover::{Done, MergeError, NumberedReply, merge, merge_one, split_part, split_request};
use bfs_levels::Part;
use bfs_tree::Tree;
use bfs_types::Memory;
use bfs_workers::{Gate, Workers, run_queue};
use std::alloc::Global;
use std::sync::Wait;
use std::thread::Threads;

/// Carries out the requests of these numbers, each on its share of the tree, and gives their replies in the order of the numbers. The
/// footprints are of the part's requests. `Memory` if memory runs out; the tree may then not be whole.
pub(crate) fn carry_out<R: Threads + Wait + Sync, G: Gate + Sync>(
    means: &Means<'_, R, G>,
    tree: &mut Tree,
    part: &Part<'_>,
    footprints: &[Footprint],
    numbers: &[u32],
    workers: Workers,
) -> Result<Vec<NumberedReply>, Memory>
    requires whole { IsTrue ((reach_of tree.old).whole) }
    requires footprints { All (IsFoundOn (at_home tree.old) (part_with part.now footprints.now)) numbers.now }
    requires numbers { All (CanBeSplit (at_home tree.old) (part_with part.now footprints.now)) numbers.now }
    requires disjoint { AreDisjoint (footprints_for (part_with part.now footprints.now) numbers.now) }
    requires rising { IsStrictlyIncreasing numbers.now }
    ensures done { IfOk result (λ replies. AreCarriedOut (at_home tree.old) (at_home tree.new) (part_with part.now footprints.now) numbers.now replies.items) }
    ensures whole { IfOk result (λ _. IsTrue ((reach_of tree.new).whole)) }
    ensures ran { IfOk result (λ replies. All (λ reply. G.ran reply.number reply.bytes.items) replies.items) }
{
    if numbers.len() == 1 {
        let number = numbers[0];
        let mut replies = Vec::with_capacity(means.alloc, 1)?;
        let reply = carry_one(means.alloc, tree, part, footprints, number, means.gate)?;
        replies.push_reserved(reply);
        return Ok(replies);
    }
    let jobs = split_part(means.alloc, tree, part, footprints, numbers)?;
    let dones = run_queue(means.rt, means.alloc, workers, tree, jobs, means.gate)?;
    merge_all(means.alloc, tree, numbers, dones)
}

// carries out the request of that number alone, on the calling thread: what is done of a list of one number, with less memory
fn carry_one<G: Gate>(
    alloc: Global,
    tree: &mut Tree,
    part: &Part<'_>,
    footprints: &[Footprint],
    number: u32,
    gate: &G,
) -> Result<NumberedReply, Memory>
    requires whole { IsTrue ((reach_of tree.old).whole) }
    requires footprint { IsFoundOn (at_home tree.old) (part_with part.now footprints.now) number }
    requires number { CanBeSplit (at_home tree.old) (part_with part.now footprints.now) number }
    ensures { IfOk result (λ reply. IsCarriedOut G.ran tree.old tree.new (part_with part.now footprints.now) number reply) }
{
    let job = split_request(alloc, tree, part, footprints, number)?;
    let done = gate.run(alloc, tree, job)?;
    Ok(merge_one(tree, done))
}

// brings the results home, of which each number has one, and gives their replies
fn merge_all(
    alloc: Global,
    tree: &mut Tree,
    numbers: &[u32],
    dones: Vec<Done>,
) -> Result<Vec<NumberedReply>, Memory>
    requires rising { IsStrictlyIncreasing numbers.now }
    requires each { IsPermutation numbers.now (numbers_in dones.items) }
    requires out { AreOut tree.old dones.items }
    ensures { IfOk result (λ merged. IsMerged tree.old tree.new numbers.now dones.items merged.items) }
{
    match merge(alloc, tree, numbers, dones) {
        Ok(merged) => Ok(merged),
        Err(refused) => match refused {
            MergeError::Memory => Err(Memory),
            MergeError::Stranger | MergeError::Double | MergeError::Missing => unreachable!(),
        },
    }
}
