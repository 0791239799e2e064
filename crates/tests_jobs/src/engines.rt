//! That requests of a batch overlap, and that each is run once.
use bfs_parallel::{Engine, execute_parallel};
use bfs_serial::{Batch, FileSystem, Replies, execute_serial};
use bfs_testing::asked::Asked;
use bfs_testing::meetings::Meeting;
use bfs_testing::{holds, same};
use bfs_testing_batches::batches::{batch_of, creates, large_reads, same_replies, writes};
use bfs_testing_batches::engines::ON_THREADS;
use bfs_testing_batches::gates::{AllAtOnce, Counts, OneAfterOthers};
use bfs_workers::{Gate, Workers};
use std::alloc::AllocGlobal;
use std::sync::Wait;
use std::test::Fail;
use std::thread::Threads;

// executes a batch by an engine, on so many files, and compares the replies with those of one request after another
fn overlaps<R: Threads + Wait + AllocGlobal + Sync, G: Gate + Sync>(
    rt: &R,
    engine: Engine,
    workers: u32,
    files: u32,
    batch: &Batch,
    gate: &G,
) -> Result<Replies, Fail> {
    let alloc = rt.alloc();
    let workers = Workers::new(workers).ok_or("workers")?;
    let made = creates(alloc, files)?;
    let mut files = FileSystem::new(alloc)?;
    let mut others = FileSystem::new(alloc)?;
    execute_serial(alloc, &mut files, &made)?;
    execute_serial(alloc, &mut others, &made)?;
    let wanted = execute_serial(alloc, &mut others, batch)?;
    let replies = execute_parallel(rt, alloc, &mut files, batch, workers, engine, gate)?;
    same_replies(&replies, &wanted)?;
    Ok(replies)
}

// whether one request can end after others
fn ends_after<R: Threads + Wait + AllocGlobal + Sync>(
    rt: &R,
    engine: Engine,
    workers: u32,
    files: u32,
    batch: &Batch,
    gate: OneAfterOthers,
) -> Result<bool, Fail> {
    overlaps(rt, engine, workers, files, batch, &gate)?;
    Ok(gate.done.took_place())
}

#[test]
fn second_of_two_writes_ends_first(rt: HostRuntime) -> Result<(), Fail> {
    let batch = writes(rt.alloc(), 2)?;
    for engine in ON_THREADS {
        holds!(rt; ends_after(&rt, *engine, 2, 2, &batch, OneAfterOthers::new(0, &[1]))?);
    }
    Ok(())
}

// two WRITEs to one file and one to another: the last two are a run, the first and the last a level
static WRITES: &[Asked] = &[
    Asked::Write { file: 3, value: 1 },
    Asked::Write { file: 3, value: 2 },
    Asked::Write { file: 4, value: 3 },
];

#[test]
fn third_of_three_writes_ends_before_another(rt: HostRuntime) -> Result<(), Fail> {
    let batch = batch_of(rt.alloc(), 2, WRITES)?;
    for engine in ON_THREADS {
        holds!(rt; ends_after(&rt, *engine, 2, 2, &batch, OneAfterOthers::new(1, &[2]))?);
    }
    // it overtakes the second too, which has to wait for the first
    holds!(rt; ends_after(&rt, Engine::Levels, 2, 2, &batch, OneAfterOthers::new(0, &[2]))?);
    Ok(())
}

// where the gate asks, READs get threads too, though nothing is written
#[test]
fn much_to_read_overlaps(rt: HostRuntime) -> Result<(), Fail> {
    let batch = large_reads(rt.alloc(), 520)?;
    for engine in ON_THREADS {
        holds!(rt; ends_after(&rt, *engine, 3, 1, &batch, OneAfterOthers::new(0, &[519]))?);
    }
    Ok(())
}

#[test]
fn as_many_writes_as_workers_overlap(rt: HostRuntime) -> Result<(), Fail> {
    for engine in ON_THREADS {
        for count in [2, 3, 64] {
            let gate = AllAtOnce {
                all: Meeting::of(count as u64),
            };
            let batch = writes(rt.alloc(), count)?;
            overlaps(&rt, *engine, count, count, &batch, &gate)?;
            holds!(rt; gate.all.took_place());
        }
    }
    Ok(())
}

#[test]
fn each_of_many_writes_is_run_once(rt: HostRuntime) -> Result<(), Fail> {
    let batch = writes(rt.alloc(), 1024)?;
    for engine in ON_THREADS {
        for count in [1, 2, 3, 64] {
            let gate = Counts::of(rt.alloc(), 1024)?;
            let replies = overlaps(&rt, *engine, count, 1024, &batch, &gate)?;
            same!(rt; replies.len(), 1024);
            holds!(rt; gate.are_one_each());
        }
    }
    Ok(())
}
