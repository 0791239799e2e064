//! No two replicas that don't lie come to different things, in any of many schedules.
use crate::playing::play_all;
use bfs_testing::same;
use bfs_testing_liars::checks::Seen;
use bfs_types::Memory;
use std::alloc::Global;
use std::sync::Wait;
use std::test::Fail;
use std::thread::Threads;

// what must come about in 500 schedules of four replicas, and in 100 of seven
const AMONG_FOUR: Seen = Seen {
    numbers: 1_500,
    views: 1_500,
    adoptions: 10,
    lies: 1_000,
};

const AMONG_SEVEN: Seen = Seen {
    numbers: 300,
    views: 500,
    adoptions: 4,
    lies: 800,
};

/// The first seed of some from that one on whose schedule came to something wrong, and whether enough came about in all.
fn judged<R: Threads + Wait + Sync>(
    rt: &R,
    alloc: Global,
    f: u32,
    first: u64,
) -> Result<(Option<u64>, bool), Memory> {
    let (count, least) = if f == 1 {
        (500, AMONG_FOUR)
    } else {
        (100, AMONG_SEVEN)
    };
    let (wrong, seen) = play_all(rt, alloc, f, first, count)?;
    Ok((wrong, seen.reaches(least)))
}

#[test]
fn seeds_0_to_499_among_four(rt: HostRuntime) -> Result<(), Fail> {
    same!(rt; judged(&rt, rt.alloc(), 1, 0)?, (None, true));
    Ok(())
}

#[test]
fn seeds_500_to_999_among_four(rt: HostRuntime) -> Result<(), Fail> {
    same!(rt; judged(&rt, rt.alloc(), 1, 500)?, (None, true));
    Ok(())
}

#[test]
fn seeds_1000_to_1499_among_four(rt: HostRuntime) -> Result<(), Fail> {
    same!(rt; judged(&rt, rt.alloc(), 1, 1_000)?, (None, true));
    Ok(())
}

#[test]
fn seeds_1500_to_1999_among_four(rt: HostRuntime) -> Result<(), Fail> {
    same!(rt; judged(&rt, rt.alloc(), 1, 1_500)?, (None, true));
    Ok(())
}

#[test]
fn seeds_0_to_99_among_seven(rt: HostRuntime) -> Result<(), Fail> {
    same!(rt; judged(&rt, rt.alloc(), 2, 0)?, (None, true));
    Ok(())
}

#[test]
fn seeds_100_to_199_among_seven(rt: HostRuntime) -> Result<(), Fail> {
    same!(rt; judged(&rt, rt.alloc(), 2, 100)?, (None, true));
    Ok(())
}
