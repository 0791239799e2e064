//! The runs, groups and levels of worked batches, planned on a file system with the files `a`, of fileid 3, and `b`, of fileid 4.
use bfs_levels::{Group, Part, plan_group, runs};
use bfs_serial::{Batch, FileSystem, execute_serial};
use bfs_testing::asserts::compared;
use bfs_testing::holds;
use bfs_testing::numbers::{CREATE, LOOKUP, READ, REMOVE, STATFS, WRITE};
use bfs_testing::words::{A, B, FOURTH, ROOT, THIRD, UNSET, request};
use bfs_types::{Ordinal, Time};
use std::alloc::Global;
use std::test::Fail;

/// A procedure, and the words of its arguments.
pub(crate) struct Asked(pub(crate) u32, pub(crate) &'static [&'static [u32]]);

fn push(alloc: Global, batch: &mut Batch, asked: &Asked) -> Result<(), Fail> {
    batch.push(request(alloc, 1, asked.0, asked.1)?.as_slice())?;
    Ok(())
}

fn push_all(alloc: Global, batch: &mut Batch, calls: &[Asked]) -> Result<(), Fail> {
    for asked in calls {
        push(alloc, batch, asked)?;
    }
    Ok(())
}

fn batch_of(alloc: Global, second: u32, calls: &[Asked]) -> Result<Batch, Fail> {
    let mut batch = Batch::new(alloc);
    batch.set_time(Time::new(second, 0).ok_or("a time")?);
    push_all(alloc, &mut batch, calls)?;
    Ok(batch)
}

static MAKING: &[Asked] = &[
    Asked(CREATE, &[ROOT, A, UNSET]),
    Asked(CREATE, &[ROOT, B, UNSET]),
];

/// Executes a batch.
pub(crate) fn execute(alloc: Global, files: &mut FileSystem, batch: &Batch) -> Result<(), Fail> {
    execute_serial(alloc, files, batch)?;
    Ok(())
}

/// A new file system on which that batch was executed.
pub(crate) fn with_executed(alloc: Global, calls: &[Asked]) -> Result<FileSystem, Fail> {
    let mut files = FileSystem::new(alloc)?;
    execute(alloc, &mut files, &batch_of(alloc, 1, calls)?)?;
    Ok(files)
}

/// What is planned of a batch, from one of its requests on.
enum Planned {
    /// The run from that place on, and how many it has.
    Run(usize, usize),
    /// The same of those before an end, which comes second.
    RunBefore(usize, usize, usize),
    /// The group from that place on, and its levels.
    Group(usize, &'static [u32]),
    /// The same of those before an end.
    GroupBefore(usize, usize, &'static [u32]),
}

// of the first request behind those that made the files
fn ordinal() -> Ordinal {
    Ordinal::first().after(2)
}

fn part_of(batch: &Batch, first: usize) -> Part<'_> {
    Part {
        batch,
        first,
        ordinal: ordinal(),
        time: batch.time(),
    }
}

/// How many the run from a place on has, under that ordinal.
pub(crate) fn run_length(
    alloc: Global,
    files: &FileSystem,
    ordinal: Ordinal,
    batch: &Batch,
    first: usize,
) -> Result<usize, Fail> {
    let tree = files.tree().ok_or("a live file system")?;
    Ok(runs(alloc, tree, ordinal, batch.time(), batch, first)?.len())
}

fn run_before(alloc: Global, files: &FileSystem, part: &Part, end: usize) -> Result<usize, Fail> {
    let tree = files.tree().ok_or("a live file system")?;
    Ok(part.run_before(alloc, tree, end)?.len())
}

/// The group from a place on, under that ordinal.
pub(crate) fn group_of(
    alloc: Global,
    files: &FileSystem,
    ordinal: Ordinal,
    batch: &Batch,
    first: usize,
) -> Result<Group, Fail> {
    let tree = files.tree().ok_or("a live file system")?;
    Ok(plan_group(alloc, tree, ordinal, batch.time(), batch, first)?)
}

fn group_before(alloc: Global, files: &FileSystem, part: &Part, end: usize) -> Result<Group, Fail> {
    let tree = files.tree().ok_or("a live file system")?;
    Ok(part.group_before(alloc, tree, end)?)
}

/// Whether a group has those levels.
pub(crate) fn has_levels(group: &Group, levels: &[u32]) -> bool {
    group.len() == levels.len() && group.level_of.as_slice() == levels
}

fn is_planned(
    alloc: Global,
    files: &FileSystem,
    batch: &Batch,
    planned: &Planned,
) -> Result<bool, Fail> {
    Ok(match *planned {
        Planned::Run(first, length) => {
            run_length(alloc, files, ordinal(), batch, first)? == length
        }
        Planned::RunBefore(first, end, length) => {
            run_before(alloc, files, &part_of(batch, first), end)? == length
        }
        Planned::Group(first, levels) => {
            has_levels(&group_of(alloc, files, ordinal(), batch, first)?, levels)
        }
        Planned::GroupBefore(first, end, levels) => {
            has_levels(
                &group_before(alloc, files, &part_of(batch, first), end)?,
                levels,
            )
        }
    })
}

// the place of the first that is planned otherwise
fn first_wrong(
    alloc: Global,
    files: &FileSystem,
    batch: &Batch,
    plans: &[Planned],
) -> Result<Option<usize>, Fail> {
    for (place, planned) in plans.iter().enumerate() {
        if !is_planned(alloc, files, batch, planned)? {
            return Ok(Some(place));
        }
    }
    Ok(None)
}

fn are_planned(alloc: Global, batch: &Batch, plans: &[Planned]) -> Result<(), Fail> {
    let files = with_executed(alloc, MAKING)?;
    compared(first_wrong(alloc, &files, batch, plans)?, None)?;
    Ok(())
}

const BYTE: &[u32] = &[0, 0, 0, 1, 0x61000000];

const PLACE: &[u32] = &[0, 8, 0];

static WRITING: &[Asked] = &[
    Asked(WRITE, &[THIRD, BYTE]),
    Asked(READ, &[THIRD, PLACE]),
    Asked(WRITE, &[FOURTH, BYTE]),
    Asked(READ, &[THIRD, PLACE]),
    Asked(WRITE, &[THIRD, BYTE]),
];

static OF_WRITING: &[Planned] = &[
    Planned::Run(0, 1),
    Planned::Run(1, 3),
    Planned::Run(4, 1),
    Planned::Group(0, &[0, 1, 0, 1, 2]),
];

#[test]
fn plans_writes_behind_reads(rt: HostRuntime) -> Result<(), Fail> {
    are_planned(rt.alloc(), &batch_of(rt.alloc(), 2, WRITING)?, OF_WRITING)
}

static BEFORE_AN_END: &[Planned] = &[
    Planned::RunBefore(1, 3, 2),
    Planned::RunBefore(1, 100, 3),
    Planned::RunBefore(3, 3, 0),
    Planned::GroupBefore(0, 3, &[0, 1, 0]),
    Planned::GroupBefore(0, 100, &[0, 1, 0, 1, 2]),
];

#[test]
fn plans_no_further_than_an_end(rt: HostRuntime) -> Result<(), Fail> {
    are_planned(
        rt.alloc(),
        &batch_of(rt.alloc(), 2, WRITING)?,
        BEFORE_AN_END,
    )
}

// those behind so many, or behind all
fn rest_of<'a>(part: &Part<'a>, count: usize) -> Part<'a> {
    part.after(count.min(part.len()))
}

fn has_ordinal(part: &Part, number: usize, ordinal: u64) -> bool {
    part.first <= number && part.ordinal_of(number).number() == ordinal
}

fn has_request(part: &Part, number: usize, request: &[u8]) -> bool {
    part.first <= number && number < part.batch.len() && part.request(number) == request
}

fn request_at(batch: &Batch, place: usize) -> Result<&[u8], Fail> {
    if batch.len() <= place {
        return Err("a request".into());
    }
    Ok(batch.request(place))
}

#[test]
fn plans_the_rest_of_a_batch(rt: HostRuntime) -> Result<(), Fail> {
    let alloc = rt.alloc();
    let batch = batch_of(alloc, 2, WRITING)?;
    let part = part_of(&batch, 0);
    let rest = rest_of(&part, 1);
    holds!(rt; part.len() == 5 && rest.len() == 4 && rest.first == 1);
    holds!(rt; has_ordinal(&part, 3, 8) && has_ordinal(&rest, 3, 8));
    holds!(rt; has_request(&rest, 3, request_at(&batch, 3)?));
    let files = with_executed(alloc, MAKING)?;
    holds!(rt; run_before(alloc, &files, &rest, 3)? == 2);
    holds!(rt; has_levels(&group_before(alloc, &files, &part, 3)?, &[0, 1, 0]));
    Ok(())
}

fn push_reads(alloc: Global, batch: &mut Batch, count: u32) -> Result<(), Fail> {
    for _ in 0..count {
        push(alloc, batch, &WRITING[1])?;
    }
    Ok(())
}

// a WRITE among READs
fn many(alloc: Global) -> Result<Batch, Fail> {
    let mut batch = batch_of(alloc, 2, &[])?;
    push_reads(alloc, &mut batch, 40)?;
    push(alloc, &mut batch, &WRITING[0])?;
    push_reads(alloc, &mut batch, 9)?;
    Ok(batch)
}

static OF_MANY: &[Planned] = &[
    Planned::Run(0, 40),
    Planned::Group(
        0,
        &[
            0, 0, 0, 0, 0, 0, 0, 0, 0, 0, 0, 0, 0, 0, 0, 0, 0, 0, 0, 0, 0, 0, 0, 0, 0, 0, 0, 0, 0,
            0, 0, 0, 0, 0, 0, 0, 0, 0, 0, 0, 1, 2, 2, 2, 2, 2, 2, 2, 2, 2,
        ],
    ),
];

// more calls than a plan has when it makes room for all that are left
#[test]
fn plans_many_calls(rt: HostRuntime) -> Result<(), Fail> {
    are_planned(rt.alloc(), &many(rt.alloc())?, OF_MANY)
}

static REPLACING: &[Asked] = &[
    Asked(REMOVE, &[ROOT, A]),
    Asked(CREATE, &[ROOT, A, UNSET]),
    Asked(LOOKUP, &[ROOT, A]),
    Asked(STATFS, &[ROOT]),
];

static OF_REPLACING: &[Planned] = &[
    Planned::Group(0, &[0, 1]),
    Planned::Group(2, &[0]),
    Planned::Group(3, &[0]),
];

#[test]
fn cuts_before_a_look_up(rt: HostRuntime) -> Result<(), Fail> {
    are_planned(
        rt.alloc(),
        &batch_of(rt.alloc(), 2, REPLACING)?,
        OF_REPLACING,
    )
}
