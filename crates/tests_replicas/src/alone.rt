//! A replica that is alone executes all that is committed, beyond a checkpoint. Where memory runs out meanwhile, it goes on from where it was, or
//! has failed and adopts the checkpoint of another one.
use crate::replica::{Call, Replica};
use crate::requests::request;
use bfs_testing::same;
use bfs_testing_nodes::calls::Standing;
use bfs_testing_nodes::snapshots::Snapshot;
use bfs_types::Memory;
use std::alloc::Global;
use std::sync::Wait;
use std::test::Fail;
use std::thread::Threads;

fn propose<R: Threads + Wait + Sync>(rt: &R, replica: &mut Replica, count: u32) -> bool {
    for _ in 0..count {
        if replica.does(rt, Call::Propose).is_err() {
            return false;
        }
    }
    true
}

// 15 batches without requests, and two with one
fn order<R: Threads + Wait + Sync>(
    rt: &R,
    replica: &mut Replica,
    request: &[u8],
) -> Result<(), Memory> {
    let ordered = propose(rt, replica, 15)
        && replica.does(rt, Call::Deliver(request)).is_ok()
        && propose(rt, replica, 2);
    if ordered { Ok(()) } else { Err(Memory) }
}

fn ordered<R: Threads + Wait + Sync>(
    rt: &R,
    alloc: Global,
    request: &[u8],
) -> Result<Replica, Memory> {
    let mut replica = Replica::new(rt, alloc, 0, 0)?;
    order(rt, &mut replica, request)?;
    Ok(replica)
}

// one batch behind another, which come to a checkpoint at number 16
fn execute_all<R: Threads + Wait + Sync>(rt: &R, replica: &mut Replica) -> Result<(), Memory> {
    for _ in 0u32..17 {
        if replica.goes_on(rt).is_err() {
            return Err(Memory);
        }
        // refused where none is due
        let _ = replica.does(rt, Call::Checkpoint);
    }
    Ok(())
}

/// A replica that has ordered all, another one that has executed it too, and the snapshot that this one has made stable.
#[derive(Drop)]
struct Two {
    replica: Replica,
    other: Replica,
    snapshot: Snapshot,
}

fn both<R: Threads + Wait + Sync>(rt: &R, alloc: Global) -> Result<Two, Memory> {
    let request = request(alloc, 0, 7)?;
    let mut other = ordered(rt, alloc, &request)?;
    execute_all(rt, &mut other)?;
    let snapshot = other.snapshot()?.ok_or(Memory)?;
    let replica = ordered(rt, alloc, &request)?;
    Ok(Two {
        replica,
        other,
        snapshot,
    })
}

// whether the replica comes to what the other one has come to
fn advances<R: Threads + Wait + Sync>(rt: &R, two: &mut Two) -> bool {
    two.replica.advances(rt, &two.snapshot)
        && two.replica.standing() == Standing(0, 17, 0)
        && two.replica.digest(rt).is_some()
        && two.replica.digest(rt) == two.other.digest(rt)
}

/// What comes before the next test.
#[test]
fn one_has_ordered_what_another_one_has_executed(rt: HostRuntime) -> Result<(), Fail> {
    both(&rt, rt.alloc())?;
    Ok(())
}

#[test]
fn all_that_is_committed_is_executed(rt: HostRuntime) -> Result<(), Fail> {
    let mut two = both(&rt, rt.alloc())?;
    same!(rt; advances(&rt, &mut two), true);
    Ok(())
}
