//! Clients see one server in each of many schedules.
use crate::playing::play_all;
use crate::seen::Seen;
use bfs_testing::same;
use std::alloc::Global;
use std::process::Abort;
use std::sync::Wait;
use std::test::Fail;
use std::thread::Threads;

// what must come about in 92 schedules of four replicas, and in 20 of seven
const AMONG_FOUR: Seen = Seen {
    accepted: 250,
    views: 300,
    adoptions: 1,
    lies: 150,
    lies_of_clients: 80,
    wrong_results: 50,
    repeated: 200,
    contested: 8,
    late: 15,
};

const AMONG_SEVEN: Seen = Seen {
    accepted: 25,
    views: 60,
    adoptions: 0,
    lies: 40,
    lies_of_clients: 15,
    wrong_results: 10,
    repeated: 25,
    contested: 0,
    late: 1,
};

// No schedule of 92 seeds from one on comes to something wrong, and enough comes about in all.
fn among_four<R: Abort + Threads + Wait + Sync>(
    rt: &R,
    alloc: Global,
    first: u64,
) -> Result<(), Fail> {
    let (wrong, seen) = play_all(rt, alloc, 1, first, 92)?;
    same!(rt; (wrong, seen.at_most(AMONG_FOUR)), (None, AMONG_FOUR));
    Ok(())
}

// The same of 20 seeds.
fn among_seven<R: Abort + Threads + Wait + Sync>(
    rt: &R,
    alloc: Global,
    first: u64,
) -> Result<(), Fail> {
    let (wrong, seen) = play_all(rt, alloc, 2, first, 20)?;
    same!(rt; (wrong, seen.at_most(AMONG_SEVEN)), (None, AMONG_SEVEN));
    Ok(())
}

#[test]
fn seeds_0_to_91_among_four(rt: HostRuntime) -> Result<(), Fail> {
    among_four(&rt, rt.alloc(), 0)
}

#[test]
fn seeds_92_to_183_among_four(rt: HostRuntime) -> Result<(), Fail> {
    among_four(&rt, rt.alloc(), 92)
}

#[test]
fn seeds_184_to_275_among_four(rt: HostRuntime) -> Result<(), Fail> {
    among_four(&rt, rt.alloc(), 184)
}

#[test]
fn seeds_276_to_367_among_four(rt: HostRuntime) -> Result<(), Fail> {
    among_four(&rt, rt.alloc(), 276)
}

#[test]
fn seeds_368_to_459_among_four(rt: HostRuntime) -> Result<(), Fail> {
    among_four(&rt, rt.alloc(), 368)
}

#[test]
fn seeds_460_to_551_among_four(rt: HostRuntime) -> Result<(), Fail> {
    among_four(&rt, rt.alloc(), 460)
}

#[test]
fn seeds_552_to_643_among_four(rt: HostRuntime) -> Result<(), Fail> {
    among_four(&rt, rt.alloc(), 552)
}

#[test]
fn seeds_644_to_735_among_four(rt: HostRuntime) -> Result<(), Fail> {
    among_four(&rt, rt.alloc(), 644)
}

#[test]
fn seeds_736_to_827_among_four(rt: HostRuntime) -> Result<(), Fail> {
    among_four(&rt, rt.alloc(), 736)
}

#[test]
fn seeds_828_to_919_among_four(rt: HostRuntime) -> Result<(), Fail> {
    among_four(&rt, rt.alloc(), 828)
}

#[test]
fn seeds_0_to_19_among_seven(rt: HostRuntime) -> Result<(), Fail> {
    among_seven(&rt, rt.alloc(), 0)
}

#[test]
fn seeds_20_to_39_among_seven(rt: HostRuntime) -> Result<(), Fail> {
    among_seven(&rt, rt.alloc(), 20)
}

#[test]
fn seeds_40_to_59_among_seven(rt: HostRuntime) -> Result<(), Fail> {
    among_seven(&rt, rt.alloc(), 40)
}

#[test]
fn seeds_60_to_79_among_seven(rt: HostRuntime) -> Result<(), Fail> {
    among_seven(&rt, rt.alloc(), 60)
}
