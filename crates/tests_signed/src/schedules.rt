//! Schedules of four replicas that sign, of which one lies, as one of two clients does, in all forms of texts. Messages are lost, and then none is, while the lies end or
//! don't: those that don't lie execute the same, and then what the other client asks for.
use crate::keys::Known;
use crate::playing::Play;
use bfs_testing::same;
use bfs_testing_liars::checks::Seen;
use bfs_testing_liars::draws::{draws_of, happens, liars_among};
use bfs_testing_nodes::said::said_or;
use bfs_types::Memory;
use std::alloc::Global;
use std::rt::Runtime;
use std::sync::Wait;
use std::test::Fail;
use std::thread::Threads;

// how many schedules each of two tests plays, where `BFS_SCHEDULES` doesn't say it; the first seed is 0, or what `BFS_SEED` says
const SCHEDULES: u64 = 10;

// what must come about in them
const LEAST: Seen = Seen {
    numbers: 10,
    views: 20,
    adoptions: 3,
    lies: 20,
};

/// What must not come about.
#[derive(Clone, Copy, Debug, PartialEq, Eq)]
enum Fault {
    /// Two that don't lie have come to different things.
    Differs,
    /// What the client asked for is not executed.
    Stops,
}

// what came about in the schedule of a seed
fn played<R: Threads + Wait + Sync>(
    rt: &R,
    alloc: Global,
    known: &Known,
    seed: u64,
) -> Result<Result<Seen, Fault>, Memory> {
    let mut draws = draws_of(seed);
    let liars = liars_among(&mut draws, 1);
    let is_lasting = happens(&mut draws, 50);
    let mut play = Play::new(alloc, known, liars, is_lasting)?;
    play.suffer(rt, &mut draws)?;
    let goes_on = play.goes_on(rt, &mut draws)?;
    if play.world.record.is_wrong() {
        Ok(Err(Fault::Differs))
    } else if goes_on {
        Ok(Ok(play.world.record.seen()))
    } else {
        Ok(Err(Fault::Stops))
    }
}

// the first of so many seeds from that one on whose schedule came to a fault, and whether enough came about in all
fn judged<R: Threads + Wait + Sync>(
    rt: &R,
    alloc: Global,
    first: u64,
    count: u64,
) -> Result<(Option<(u64, Fault)>, bool), Memory> {
    let known = Known::all(alloc)?;
    let mut seen = Seen::NOTHING;
    for ahead in 0..count {
        let seed = first.wrapping_add(ahead);
        match played(rt, alloc, &known, seed)? {
            Ok(more) => seen = seen.and(more),
            Err(fault) => return Ok((Some((seed, fault)), false)),
        }
    }
    Ok((None, seen.reaches(LEAST)))
}

// those of the test of that number
fn judged_by<R: Runtime + AllocGlobal + Threads + Wait + Sync>(
    rt: &R,
    test: u64,
) -> Result<(Option<(u64, Fault)>, bool), Memory> {
    let count = said_or(rt, "BFS_SCHEDULES", SCHEDULES);
    let first = said_or(rt, "BFS_SEED", 0).wrapping_add(count.wrapping_mul(test));
    judged(rt, rt.alloc(), first, count)
}

#[test]
fn of_the_first_seeds(rt: HostRuntime) -> Result<(), Fail> {
    same!(rt; judged_by(&rt, 0)?, (None, true));
    Ok(())
}

#[test]
fn of_the_next_seeds(rt: HostRuntime) -> Result<(), Fail> {
    same!(rt; judged_by(&rt, 1)?, (None, true));
    Ok(())
}
