//! Groups of a batch on the machine, and what is compared.
use bfs_levels::plan_group;
use bfs_overtaking::{Core, CoreError, Event};
use bfs_serial::{Batch, ExecError, FileSystem, Replies, execute_serial};
use bfs_testing::asserts::compared;
use bfs_testing::numbers::CREATE;
use bfs_testing::words::{A, B, C, ROOT, UNSET, request};
use bfs_tree::Tree;
use bfs_types::{Memory, Time};
use std::alloc::Global;
use std::test::Fail;

/// A procedure, and the words of its arguments.
pub(crate) struct Asked(pub(crate) u32, pub(crate) &'static [&'static [u32]]);

fn request_of(alloc: Global, call: &Asked) -> Result<Vec<u8>, Fail> {
    Ok(request(alloc, 1, call.0, call.1)?)
}

fn push_all(alloc: Global, batch: &mut Batch, calls: &[Asked]) -> Result<(), Fail> {
    for call in calls {
        batch.push(request_of(alloc, call)?.as_slice())?;
    }
    Ok(())
}

/// A batch of these calls, at a time in seconds.
pub(crate) fn batch_of(alloc: Global, second: u32, calls: &[Asked]) -> Result<Batch, Fail> {
    let mut batch = Batch::new(alloc);
    batch.set_time(Time::new(second, 0).ok_or("a time")?);
    push_all(alloc, &mut batch, calls)?;
    Ok(batch)
}

static MAKING: &[Asked] = &[
    Asked(CREATE, &[ROOT, A, UNSET]),
    Asked(CREATE, &[ROOT, B, UNSET]),
    Asked(CREATE, &[ROOT, C, UNSET]),
];

/// The replies to a batch that is executed one request after another. No contract says which: a test that is told proves much longer.
pub(crate) fn execute(
    alloc: Global,
    files: &mut FileSystem,
    batch: &Batch,
) -> Result<Replies, ExecError> {
    execute_serial(alloc, files, batch)
}

/// A file system with the files `a`, `b` and `c`, of the fileids 3, 4 and 5.
pub(crate) fn with_files(alloc: Global) -> Result<FileSystem, Fail> {
    let mut files = FileSystem::new(alloc)?;
    let batch = batch_of(alloc, 1, MAKING)?;
    execute(alloc, &mut files, &batch)?;
    Ok(files)
}

fn push_part(part: &mut Batch, batch: &Batch, from: usize, to: usize) -> Result<(), Fail> {
    for place in from..batch.len().min(to) {
        part.push(batch.request(place))?;
    }
    Ok(())
}

/// The requests of a batch from one place to another, as a batch of their own.
pub(crate) fn part_of(alloc: Global, batch: &Batch, from: u32, to: u32) -> Result<Batch, Fail> {
    let mut part = Batch::new(alloc);
    part.set_time(batch.time());
    push_part(&mut part, batch, from as usize, to as usize)?;
    Ok(part)
}

/// The machine of the batch's group that begins with that request, on a file system on which those before it were executed.
pub(crate) fn core_of<'a>(
    alloc: Global,
    files: &mut FileSystem,
    batch: &'a Batch,
    first: u32,
) -> Result<Core<'a>, CoreError> {
    let Some((tree, ordinal, last)) = files.take_parts() else {
        return Err(CoreError::Failed);
    };
    let time = batch.time().effective_after(last);
    let group = plan_group(alloc, &tree, ordinal, time, batch, first as usize)?;
    Ok(Core::new(alloc, tree, group, batch, ordinal, time)?)
}

/// The same, after these events.
pub(crate) fn played<'a>(
    alloc: Global,
    files: &mut FileSystem,
    batch: &'a Batch,
    first: u32,
    events: &[Event],
) -> Result<Core<'a>, CoreError> {
    let Some((tree, ordinal, last)) = files.take_parts() else {
        return Err(CoreError::Failed);
    };
    let time = batch.time().effective_after(last);
    let group = plan_group(alloc, &tree, ordinal, time, batch, first as usize)?;
    Core::play(alloc, tree, group, batch, ordinal, time, events)
}

/// How many calls the batch's first group has.
pub(crate) fn count_of(alloc: Global, files: &mut FileSystem, batch: &Batch) -> Result<u32, Fail> {
    let (tree, ordinal, last) = files.take_parts().ok_or("a live file system")?;
    let time = batch.time().effective_after(last);
    let group = plan_group(alloc, &tree, ordinal, time, batch, 0)?;
    Ok(u32::try_from(group.len())?)
}

// whether a machine has these replies to the requests from that one on
fn has_replies(core: &Core, first: u32, replies: &Replies) -> bool {
    let mut number = first;
    for place in 0..replies.len() {
        if core.reply(number) != Some(replies.get(place)) {
            return false;
        }
        number = number.saturating_add(1);
    }
    true
}

fn shown(alloc: Global, tree: Option<&Tree>) -> Result<String, Memory> {
    Ok(format!(in alloc; "{:?}", tree)?)
}

fn compare_trees(alloc: Global, core: &Core, files: &FileSystem) -> Result<(), Fail> {
    let tree = shown(alloc, core.tree())?;
    let wanted = shown(alloc, files.tree())?;
    Ok(compared(tree.as_str(), wanted.as_str())?)
}

/// Compares a machine, whose calls are so many and all finished, with a file system on which they are executed one after another.
pub(crate) fn compare(
    alloc: Global,
    core: &Core,
    files: &mut FileSystem,
    batch: &Batch,
    first: u32,
    count: u32,
) -> Result<(), Fail> {
    let part = part_of(alloc, batch, first, first.saturating_add(count))?;
    let replies = execute(alloc, files, &part)?;
    compared(replies.len(), count as usize)?;
    compared(core.finished() && has_replies(core, first, &replies), true)?;
    compare_trees(alloc, core, files)
}

/// The machine of a batch's first group, on a file system with the files.
pub(crate) fn first_core(alloc: Global, batch: &Batch) -> Result<Core<'_>, Fail> {
    Ok(core_of(alloc, &mut with_files(alloc)?, batch, 0)?)
}

/// Compares the machine of a batch's first group, of so many calls, which began on a file system with the files.
pub(crate) fn compare_first(
    alloc: Global,
    core: &Core,
    batch: &Batch,
    count: u32,
) -> Result<(), Fail> {
    compare(alloc, core, &mut with_files(alloc)?, batch, 0, count)
}

/// Compares the same as these events make it.
pub(crate) fn compare_played(
    alloc: Global,
    batch: &Batch,
    events: &[Event],
    count: u32,
) -> Result<(), Fail> {
    let core = played(alloc, &mut with_files(alloc)?, batch, 0, events)?;
    compare_first(alloc, &core, batch, count)
}

/// An event happens, or the number of its refusal is given, which is 0 where there is none.
pub(crate) fn happens(core: &mut Core, event: Event) -> u32 {
    let outcome = match event {
        Event::Take(number) => core.take(number),
        Event::Finish(number) => core.finish(number),
    };
    match outcome {
        Ok(()) => 0,
        Err(refused) => refused.code(),
    }
}
