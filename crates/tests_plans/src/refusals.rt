//! The machine where memory runs out. Nothing is refused in the gate's run of the tests: `.ci/refusals` runs this one with each growth of memory
//! refused in turn.
use crate::groups::{batch_of, compare_first, compare_played, first_core, happens};
use crate::worked_groups::{OVERTAKING, READS_BETWEEN};
use bfs_overtaking::{Core, Event};
use bfs_serial::Batch;
use bfs_testing::same;
use bfs_types::Memory;
use std::alloc::Global;
use std::process::Abort;
use std::test::Fail;

// the number of the first refusal, 0 where there is none
fn first_refusal(core: &mut Core, events: &[Event]) -> u32 {
    for event in events {
        let refusal = happens(core, *event);
        if refusal != 0 {
            return refusal;
        }
    }
    0
}

// whether nothing shows of it any more, and nothing happens on it
fn has_failed(core: &mut Core) -> bool {
    let shows = core.tree().is_some() || core.reply(2).is_some() || core.finished();
    !shows
        && happens(core, Event::Take(0)) == 41
        && happens(core, Event::Finish(0)) == 41
        && happens(core, Event::Take(9)) == 41
}

// where one was refused, the same is right once there is memory
fn is_right(rt: &impl Abort, alloc: Global, core: &mut Core, batch: &Batch) -> Result<(), Fail> {
    match first_refusal(core, OVERTAKING) {
        0 => compare_first(alloc, core, batch, 5),
        refusal => {
            same!(rt; (refusal, has_failed(core)), (40, true));
            compare_played(alloc, batch, OVERTAKING, 5)?;
            Err(Memory.into())
        }
    }
}

#[test]
fn is_right_or_has_failed(rt: HostRuntime) -> Result<(), Fail> {
    let batch = batch_of(rt.alloc(), 2, READS_BETWEEN)?;
    let mut core = first_core(rt.alloc(), &batch)?;
    is_right(&rt, rt.alloc(), &mut core, &batch)
}
