//! WRITEs to files of a tree, planned as one run, split off it and run on what stays.
ghost use Rattle.std.specs.Prelude.{◌≡◌, IfOk, IsTrue};
ghost use Rattle.std.specs.List.{list_any, range_with_len};
ghost use Rattle.bfs_model.specs.Server.Conflicts as model_conflicts;
ghost use Rattle.bfs_model.specs.Server.WellFormed.{IsWellFormed};
ghost use Rattle.bfs_footprint.specs.Seen.{footprint_seen};
ghost use Rattle.bfs_serial.specs.Parts.{file_system_of};
ghost use Rattle.bfs_tree.specs.Tree.{at_home, reach_of};
ghost use Rattle.bfs_handover.specs.Merging.{AreOut};
ghost use Rattle.tests_jobs.specs.Split.{AreSplit, IsRun};

use bfs_footprint::Footprint;
use bfs_handover::{Done, Job, split};
use bfs_levels::runs;
use bfs_serial::{Batch, FileSystem, execute_serial};
use bfs_testing::asserts::compared;
use bfs_testing::numbers::{CREATE, OK, WRITE};
use bfs_testing::steps::Step;
use bfs_testing::words::{A, B, FOURTH, ROOT, THIRD, UNSET};
use bfs_testing::{attributes, holds, same};
use bfs_tree::{Store, Tree};
use bfs_types::{FileId, Memory, Ordinal, Time};
use bfs_workers::{NoGate, run_here};
use std::alloc::Global;
use std::test::Fail;

static MADE: &[Step] = &[
    Step(CREATE, &[ROOT, A, UNSET], &[]),
    Step(CREATE, &[ROOT, B, UNSET], &[]),
];

/// The WRITEs, with xids from 1 on, and what they are to get.
pub(crate) static WRITTEN: &[Step] = &[
    Step(WRITE, &[THIRD, BYTE], &[OK, A_WRITTEN]),
    Step(WRITE, &[FOURTH, BYTE], &[OK, B_WRITTEN]),
];

// an `a` at offset 0
const BYTE: &[u32] = &[0, 0, 0, 1, 0x61000000];

const A_WRITTEN: &[u32] = attributes!(file 3, links 1, size 1, blocks 1, times 1 1 1);

const B_WRITTEN: &[u32] = attributes!(file 4, links 1, size 1, blocks 1, times 1 1 1);

/// The batch of these calls, at one second.
pub(crate) fn batch_of(alloc: Global, steps: &[Step]) -> Result<Batch, Fail> {
    let mut batch = Batch::new(alloc);
    batch.set_time(Time::new(1, 0).ok_or("a time")?);
    let mut xid = 1;
    for step in steps {
        batch.push(step.request(alloc, xid)?.as_slice())?;
        xid = xid.saturating_add(1);
    }
    Ok(batch)
}

/// The parts of a file system with the files `a`, of fileid 3, and `b`, of fileid 4.
pub(crate) fn made(alloc: Global) -> Result<(Tree, Ordinal, Time), Fail>
    ensures whole { IfOk result (λ parts. IsTrue ((reach_of parts.0).whole)) }
    ensures formed { IfOk result (λ parts. IsWellFormed (file_system_of parts.0 parts.1 parts.2)) }
{
    made_by(alloc, &batch_of(alloc, MADE)?)
}

/// The parts of a file system after that batch.
pub(crate) fn made_by(alloc: Global, batch: &Batch) -> Result<(Tree, Ordinal, Time), Fail>
    ensures whole { IfOk result (λ parts. IsTrue ((reach_of parts.0).whole)) }
    ensures formed { IfOk result (λ parts. IsWellFormed (file_system_of parts.0 parts.1 parts.2)) }
{
    let mut files = FileSystem::new(alloc)?;
    execute_serial(alloc, &mut files, batch)?;
    Ok(files.take_parts().ok_or("parts")?)
}

/// Splits all requests of a batch off a tree, and gives their numbers and their jobs. It fails where they are not one run. If memory runs
/// out, the tree stays as it was made.
pub(crate) fn all_split<'a>(
    alloc: Global,
    tree: &mut Tree,
    batch: &'a Batch,
    ordinal: Ordinal,
    time: Time,
) -> Result<(Vec<u32>, Vec<Job<'a>>), Fail>
    requires whole { IsTrue ((reach_of tree.old).whole) }
    requires formed { IsWellFormed (file_system_of tree.old ordinal time) }
    ensures { IfOk result (λ all. AreSplit tree.old tree.new all.0.items all.1.items) }
{
    let footprints = footprints_of(alloc, tree, batch, ordinal, time)?;
    let numbers = numbers_below(alloc, footprints.len())?;
    let (count, blocks) = (tree.count(), tree.used_blocks());
    match split(
        alloc,
        tree,
        batch,
        ordinal,
        time,
        0,
        footprints.as_slice(),
        numbers.as_slice(),
    ) {
        Ok(jobs) => Ok((numbers, jobs)),
        Err(refused) => {
            is_as_made(tree, count, blocks)?;
            Err(refused.into())
        }
    }
}

// what all requests of a batch touch, which are one run
fn footprints_of(
    alloc: Global,
    tree: &Tree,
    batch: &Batch,
    ordinal: Ordinal,
    time: Time,
) -> Result<Vec<Footprint>, Fail>
    requires { IsTrue ((reach_of tree.now).whole) }
    ensures { IfOk result (λ footprints. IsRun (at_home tree.now) ordinal time batch.now.requests footprints.items) }
{
    let footprints = runs(alloc, tree, ordinal, time, batch, 0)?.footprints;
    if footprints.len() != batch.len() || has_whole(footprints.as_slice()) {
        return Err("requests of which none conflicts with another".into());
    }
    Ok(footprints)
}

fn has_whole(footprints: &[Footprint]) -> bool
    ensures { result ≡ list_any (λ footprint. model_conflicts.is_whole (footprint_seen footprint)) footprints.now }
{
    footprints.iter().any(|footprint| footprint.is_whole())
}

#[tactic(auto, using(crate::proofs::Numbers::one_more))]
fn numbers_below(alloc: Global, count: usize) -> Result<Vec<u32>, Fail>
    ensures { IfOk result (λ numbers. numbers.items ≡ range_with_len 0 count) }
{
    if count > 65_536 {
        return Err("fewer requests".into());
    }
    let mut numbers = Vec::new(alloc);
    for number in 0..count as u32 {
        numbers.push(number)?;
    }
    Ok(numbers)
}

fn is_as_made(tree: &Tree, count: usize, blocks: u64) -> Result<(), Fail> {
    compared(tree.is_whole(), true)?;
    compared(tree.count(), count)?;
    Ok(compared(tree.used_blocks(), blocks)?)
}

/// The results of all requests of a batch, in their order.
pub(crate) fn all_run(
    alloc: Global,
    tree: &mut Tree,
    batch: &Batch,
    ordinal: Ordinal,
    time: Time,
) -> Result<Vec<Done>, Fail>
    requires whole { IsTrue ((reach_of tree.old).whole) }
    requires formed { IsWellFormed (file_system_of tree.old ordinal time) }
    ensures { IfOk result (λ dones. AreOut tree.new dones.items) }
{
    let (numbers, jobs) = all_split(alloc, tree, batch, ordinal, time)?;
    compared(numbers.len(), jobs.len())?;
    compared(tree.is_whole(), jobs.is_empty())?;
    Ok(run_here(alloc, tree, jobs, &NoGate)?)
}

/// The fileids of the inodes that are at home.
pub(crate) fn at_home(alloc: Global, tree: &Tree, ids: &[FileId]) -> Result<bool, Memory> {
    Ok(tree.ids(alloc)?.as_slice() == ids)
}

#[test]
fn splits_off_what_is_written(rt: HostRuntime) -> Result<(), Fail> {
    let alloc = rt.alloc();
    let batch = batch_of(alloc, WRITTEN)?;
    let (mut tree, ordinal, time) = made(alloc)?;
    let (numbers, jobs) = all_split(alloc, &mut tree, &batch, ordinal, time)?;
    holds!(rt; numbers.as_slice() == [0, 1].as_slice());
    same!(rt; jobs.len(), 2);
    let mut number = 0;
    for job in jobs {
        same!(rt; job.number, number);
        holds!(rt; job.time == time);
        holds!(rt; job.inodes.owns(FileId::new(number.saturating_add(3))));
        same!(rt; job.inodes.as_slice().len(), 1);
        number = number.saturating_add(1);
    }
    holds!(rt; !tree.is_whole());
    holds!(rt; at_home(alloc, &tree, &[FileId::root()])?);
    Ok(())
}

#[test]
fn splits_off_nothing(rt: HostRuntime) -> Result<(), Fail> {
    let alloc = rt.alloc();
    let batch = batch_of(alloc, WRITTEN)?;
    let (mut tree, ordinal, time) = made(alloc)?;
    let jobs = split(alloc, &mut tree, &batch, ordinal, time, 0, &[], &[])?;
    holds!(rt; jobs.is_empty());
    is_as_made(&tree, 3, 1)
}
