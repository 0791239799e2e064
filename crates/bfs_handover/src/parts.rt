ghost use Rattle.std.specs.Prelude.{◌≡◌, ◌≤◌, [], ◌∷◌, All, IfOk, IsTrue, OnErr, length, map, vec_capacity};
ghost use Rattle.bfs_model.specs.Server.Groups.{AreDisjoint};
ghost use Rattle.bfs_model.specs.Server.Shares.{moved_for};
ghost use Rattle.bfs_footprint.specs.Seen.{footprint_seen};
ghost use Rattle.bfs_tree.specs.Tree.{at_home, lent, reach_of};
ghost use Rattle.bfs_handover.specs.Loans.{ids_of};
ghost use Rattle.bfs_handover.specs.Moves.{AreLent, AreOwned, brought_home, lent_out};
ghost use Rattle.bfs_handover.specs.Splitting.{CanBeSplit, IsFoundOn, IsSplit, footprint_for, footprints_for, part_of, part_with};
ghost use Rattle.bfs_handover.specs.Inside.Taking.{AreJobs, AreOnce, IsTaken, IsWithin, all_ids, all_loans};

use crate::job::Job;
use crate::moves::{bring, take};
use bfs_footprint::{FileIds, Footprint};
use bfs_levels::Part;
use bfs_serial::Batch;
use bfs_tree::Tree;
use bfs_types::{Memory, Ordinal, Time};
use std::alloc::Global;

/// Takes out of the tree what the requests of these numbers write, and makes a job of each. The footprints are of the batch's requests
/// from the place `first` on, of which the first has that ordinal; those of these numbers are as the inodes of the tree are, and none
/// of them conflicts with another. `Memory` if memory runs out; the tree is then whole, and its inodes are those before.
pub fn split<'a>(
    alloc: Global,
    tree: &mut Tree,
    batch: &'a Batch,
    ordinal: Ordinal,
    time: Time,
    first: usize,
    footprints: &[Footprint],
    numbers: &[u32],
) -> Result<Vec<Job<'a>>, Memory>
    requires whole { IsTrue ((reach_of tree.old).whole) }
    requires footprints { All (IsFoundOn (at_home tree.old) (part_of first ordinal time batch.now.requests (map footprint_seen footprints.now))) numbers.now }
    requires numbers { All (CanBeSplit (at_home tree.old) (part_of first ordinal time batch.now.requests (map footprint_seen footprints.now))) numbers.now }
    requires disjoint { AreDisjoint (footprints_for (part_of first ordinal time batch.now.requests (map footprint_seen footprints.now)) numbers.now) }
    ensures split { IfOk result (λ jobs. IsSplit tree.old tree.new (part_of first ordinal time batch.now.requests (map footprint_seen footprints.now)) numbers.now jobs.items) }
    ensures whole { OnErr result (IsTrue ((reach_of tree.new).whole)) }
    ensures home { OnErr result (at_home tree.new ≡ at_home tree.old) }
{
    let part = Part {
        batch,
        first,
        ordinal,
        time,
    };
    split_part(alloc, tree, &part, footprints, numbers)
}

/// Takes out of the tree what the requests of these numbers write, and makes a job of each. The footprints are of the part's requests;
/// those of these numbers are as the inodes of the tree are, and none of them conflicts with another. `Memory` if memory runs out; the
/// tree is then whole, and its inodes are those before.
pub fn split_part<'a>(
    alloc: Global,
    tree: &mut Tree,
    part: &Part<'a>,
    footprints: &[Footprint],
    numbers: &[u32],
) -> Result<Vec<Job<'a>>, Memory>
    requires whole { IsTrue ((reach_of tree.old).whole) }
    requires footprints { All (IsFoundOn (at_home tree.old) (part_with part.now footprints.now)) numbers.now }
    requires numbers { All (CanBeSplit (at_home tree.old) (part_with part.now footprints.now)) numbers.now }
    requires disjoint { AreDisjoint (footprints_for (part_with part.now footprints.now) numbers.now) }
    ensures split { IfOk result (λ jobs. IsSplit tree.old tree.new (part_with part.now footprints.now) numbers.now jobs.items) }
    ensures whole { OnErr result (IsTrue ((reach_of tree.new).whole)) }
    ensures home { OnErr result (at_home tree.new ≡ at_home tree.old) }
{
    let room = Vec::with_capacity(alloc, numbers.len())?;
    take_all(alloc, tree, part, footprints, numbers, room)
}

/// Takes out of the tree what the request of that number writes, and makes a job of it: what `split_part` does for this number alone,
/// with less memory.
pub fn split_request<'a>(
    alloc: Global,
    tree: &mut Tree,
    part: &Part<'a>,
    footprints: &[Footprint],
    number: u32,
) -> Result<Job<'a>, Memory>
    requires whole { IsTrue ((reach_of tree.old).whole) }
    requires footprint { IsFoundOn (at_home tree.old) (part_with part.now footprints.now) number }
    requires number { CanBeSplit (at_home tree.old) (part_with part.now footprints.now) number }
    ensures split { IfOk result (λ job. IsSplit tree.old tree.new (part_with part.now footprints.now) (number ∷ []) (job ∷ [])) }
    ensures whole { OnErr result (IsTrue ((reach_of tree.new).whole)) }
    ensures home { OnErr result (at_home tree.new ≡ at_home tree.old) }
{
    take_one(alloc, tree, part, footprints, number)
}

// Makes a job of each of these numbers, in a vector that has room for them. If memory runs out, what was taken out for the first of them
// comes home.
fn take_all<'a>(
    alloc: Global,
    tree: &mut Tree,
    part: &Part<'a>,
    footprints: &[Footprint],
    numbers: &[u32],
    room: Vec<Job<'a>>,
) -> Result<Vec<Job<'a>>, Memory>
    requires whole { IsTrue ((reach_of tree.old).whole) }
    requires within { All (IsWithin (length part.now.batch.now.requests) (part_with part.now footprints.now)) numbers.now }
    requires disjoint { AreDisjoint (footprints_for (part_with part.now footprints.now) numbers.now) }
    requires empty { room.items ≡ [] }
    requires room { length numbers.now ≤ vec_capacity room }
    ensures jobs { IfOk result (λ jobs. AreJobs (part_with part.now footprints.now) numbers.now jobs.items tree.old) }
    ensures out { IfOk result (λ jobs. tree.new ≡ lent_out (all_ids jobs.items) tree.old) }
    ensures home { OnErr result (at_home tree.new ≡ at_home tree.old) }
    ensures lent { OnErr result (lent tree.new ≡ lent tree.old) }
{
    let mut jobs = room;
    for number in numbers {
        match take_one(alloc, tree, part, footprints, *number) {
            Ok(job) => jobs.push_reserved(job),
            Err(Memory) => {
                bring_back(tree, jobs);
                return Err(Memory);
            }
        }
    }
    Ok(jobs)
}

// Takes out of the tree what the request of that number writes, and makes a job of it. If memory runs out, what is at home and what is lent
// out stays.
fn take_one<'a>(
    alloc: Global,
    tree: &mut Tree,
    part: &Part<'a>,
    footprints: &[Footprint],
    number: u32,
) -> Result<Job<'a>, Memory>
    requires within { IsWithin (length part.now.batch.now.requests) (part_with part.now footprints.now) number }
    requires owned { AreOwned tree.old (moved_for (footprint_for (part_with part.now footprints.now) number)) }
    ensures job { IfOk result (λ job. IsTaken (part_with part.now footprints.now) number tree.old job) }
    ensures out { IfOk result (λ job. tree.new ≡ lent_out (ids_of job.inodes) tree.old) }
    ensures home { OnErr result (at_home tree.new ≡ at_home tree.old) }
    ensures lent { OnErr result (lent tree.new ≡ lent tree.old) }
{
    let place = number as usize - part.first;
    let ids = written(&footprints[place]);
    let inodes = take(alloc, tree, ids.as_slice())?;
    Ok(Job {
        number,
        request: part.request(number as usize),
        ordinal: part.ordinal_of(number as usize),
        time: part.time,
        inodes,
    })
}

// Brings home what was taken out for these jobs.
fn bring_back(tree: &mut Tree, jobs: Vec<Job<'_>>)
    requires { AreLent tree.old (all_loans jobs.items) }
    ensures { tree.new ≡ brought_home (all_loans jobs.entry.items) tree.old }
{
    for job in jobs {
        bring(tree, job.inodes);
    }
}

// The fileids that are written, each once.
fn written(footprint: &Footprint) -> FileIds
    ensures { AreOnce result (moved_for (footprint_seen footprint.now)) }
{
    match footprint {
        Footprint::Known { writes, .. } => distinct(writes),
        Footprint::Whole => FileIds::none(),
    }
}

// These fileids, each once: there are four at most, so each is looked for among those before it.
fn distinct(ids: &FileIds) -> FileIds
    ensures { AreOnce result ids.now }
{
    let mut once = FileIds::none();
    for id in ids.as_slice() {
        if !once.has(*id) {
            once = once.and(*id);
        }
    }
    once
}
