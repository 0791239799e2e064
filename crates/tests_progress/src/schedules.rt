//! Behind faults all is executed, in each of many schedules.
use crate::playing::play_all;
use bfs_testing::same;
use std::alloc::Global;
use std::sync::Wait;
use std::test::Fail;
use std::thread::Threads;

/// How many schedules of four replicas are played, and a tenth of it of seven.
const SCHEDULES: u64 = 500;

fn first_stuck<R: Threads + Wait + Sync>(
    rt: &R,
    alloc: Global,
    f: u32,
    times: u64,
) -> Result<Option<u64>, Fail> {
    let (stuck, _) = play_all(rt, alloc, f, 0, times)?;
    Ok(stuck)
}

#[test]
fn among_four(rt: HostRuntime) -> Result<(), Fail> {
    same!(rt; first_stuck(&rt, rt.alloc(), 1, SCHEDULES)?, None);
    Ok(())
}

#[test]
fn among_seven(rt: HostRuntime) -> Result<(), Fail> {
    same!(rt; first_stuck(&rt, rt.alloc(), 2, SCHEDULES / 10)?, None);
    Ok(())
}
