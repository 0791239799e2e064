//! Generated groups under generated lists of events, with the outcome of the calls one after another.
use crate::groups::{
    batch_of, compare_first, compare_played, count_of, first_core, happens, with_files,
};
use bfs_overtaking::{Core, Event};
use bfs_serial::Batch;
use bfs_testing::asserts::compared;
use bfs_testing::generated::Generator;
use bfs_testing::holds;
use bfs_testing::numbers::{
    CREATE, GETATTR, LINK, MKDIR, READ, READDIR, REMOVE, RENAME, SETATTR, WRITE,
};
use bfs_types::Memory;
use std::alloc::Global;
use std::test::Fail;

// mostly calls on three files, then some that make, link, move or remove names of the root
static PROCEDURES: &[u32] = &[
    WRITE, WRITE, WRITE, WRITE, READ, READ, GETATTR, GETATTR, SETATTR, CREATE, CREATE, LINK, MKDIR,
    READDIR, REMOVE, RENAME,
];

fn generator() -> Generator {
    Generator {
        state: 17,
        procedures: PROCEDURES,
        files: (3, 4),
        dirs: (2, 1),
        names: 6,
        callers: 0,
    }
}

fn push(alloc: Global, generator: &mut Generator, batch: &mut Batch) -> Result<(), Fail> {
    Ok(batch.push(generator.request(alloc)?.as_slice())?)
}

fn push_each(alloc: Global, generator: &mut Generator, batch: &mut Batch) -> Result<(), Fail> {
    for _ in 0..16 {
        push(alloc, generator, batch)?;
    }
    Ok(())
}

fn batch(alloc: Global, generator: &mut Generator) -> Result<Batch, Fail> {
    let mut batch = batch_of(alloc, 2, &[])?;
    push_each(alloc, generator, &mut batch)?;
    Ok(batch)
}

fn tried_event(generator: &mut Generator, count: u32) -> Event {
    let number = generator.next() % count.max(1);
    if generator.next() % 2 == 0 {
        Event::Take(number)
    } else {
        Event::Finish(number)
    }
}

// events tried at random until all calls are finished: those that happened
fn tried(
    alloc: Global,
    generator: &mut Generator,
    core: &mut Core,
    count: u32,
) -> Result<Vec<Event>, Memory> {
    let mut events = Vec::new(alloc);
    for _ in 0..10_000 {
        if core.finished() {
            break;
        }
        let event = tried_event(generator, count);
        if happens(core, event) == 0 {
            events.push(event)?;
        }
    }
    Ok(events)
}

// whether a call is finished after a later one
fn overtakes(events: &[Event]) -> bool {
    let mut last = 0;
    for event in events {
        if let Event::Finish(number) = event {
            if *number < last {
                return true;
            }
            last = *number;
        }
    }
    false
}

// how many calls a group has that is made at random, and whether one of them is finished after a later one
fn compare_generated(alloc: Global, generator: &mut Generator) -> Result<(u32, bool), Fail> {
    let batch = batch(alloc, generator)?;
    let count = count_of(alloc, &mut with_files(alloc)?, &batch)?;
    let mut core = first_core(alloc, &batch)?;
    let events = tried(alloc, generator, &mut core, count)?;
    compared(events.len(), (count as usize).saturating_mul(2))?;
    compare_first(alloc, &core, &batch, count)?;
    compare_played(alloc, &batch, &events, count)?;
    Ok((count, overtakes(&events)))
}

// of so many: how many have calls that overtake others, and how many have six calls and more
fn compare_all(alloc: Global, groups: u32) -> Result<(u32, u32), Fail> {
    let mut generator = generator();
    let mut overtaken = 0u32;
    let mut long = 0u32;
    for _ in 0..groups {
        let (count, overtakes) = compare_generated(alloc, &mut generator)?;
        if overtakes {
            overtaken = overtaken.saturating_add(1);
        }
        if count >= 6 {
            long = long.saturating_add(1);
        }
    }
    Ok((overtaken, long))
}

#[test]
fn generated_events_give_the_replies_of_the_batch_in_order(rt: HostRuntime) -> Result<(), Fail> {
    let (overtaken, long) = compare_all(rt.alloc(), 300)?;
    holds!(rt; overtaken >= 200);
    holds!(rt; long >= 100);
    Ok(())
}
