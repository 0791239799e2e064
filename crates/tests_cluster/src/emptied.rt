//! Where memory runs out a cluster is empty, and no call does anything from then on. Where `.ci/refusals` runs the second test, only what comes
//! behind the first one is refused.
use crate::run::{four_replicas, null_request, run_block, two_clients};
use bfs_cluster::{Cluster, Executor, NoGate};
use bfs_messages::{Message, Signed};
use bfs_testing::same;
use bfs_types::{Memory, Time};
use std::alloc::Global;
use std::sync::Wait;
use std::test::Fail;
use std::thread::Threads;

/// What is done to a cluster.
#[derive(Clone, Copy)]
enum Call {
    SendBlock,
    Settle,
    TimeOut,
    ProposeWaiting,
}

// three leave the view of a silent primary, and the next one proposes what waits
static CALLS: [Call; 6] = [
    Call::SendBlock,
    Call::Settle,
    Call::TimeOut,
    Call::Settle,
    Call::ProposeWaiting,
    Call::Settle,
];

fn does<R: Threads + Wait + Sync>(
    rt: &R,
    cluster: &mut Cluster,
    call: Call,
    requests: &[Signed<Message>],
) -> Result<(), Memory> {
    let time = Time::new(2, 0).unwrap_or(Time::epoch());
    match call {
        Call::SendBlock => cluster.send_block(rt, time, requests),
        Call::Settle => cluster.settle(rt, Executor::serial(), &NoGate),
        Call::TimeOut => cluster.timeout(),
        Call::ProposeWaiting => cluster.propose_waiting(time),
    }
}

// how many replicas are heard; where memory runs out, it is asked again
fn heard<R: Threads + Sync>(rt: &R, cluster: &Cluster) -> Option<usize> {
    match cluster.standings(rt) {
        Ok(all) => Some(all.len()),
        Err(_) => Some(cluster.standings(rt).ok()?.len()),
    }
}

fn is_empty<R: Threads + Sync>(rt: &R, cluster: &mut Cluster) -> bool {
    heard(rt, cluster) == Some(0)
        && cluster.common_view().is_none()
        && cluster.take_replies().is_empty()
        && cluster.take_sent().is_empty()
}

// whatever is done to it
fn stays_empty<R: Threads + Wait + Sync>(
    rt: &R,
    cluster: &mut Cluster,
    requests: &[Signed<Message>],
) -> bool {
    if !is_empty(rt, cluster) {
        return false;
    }
    for call in &CALLS {
        if does(rt, cluster, *call, requests).is_err() || !is_empty(rt, cluster) {
            return false;
        }
    }
    true
}

// whether all is done, or memory runs out, and the cluster is as it must be then
fn goes_on<R: Threads + Wait + Sync>(
    rt: &R,
    cluster: &mut Cluster,
    requests: &[Signed<Message>],
) -> bool {
    for call in &CALLS {
        if does(rt, cluster, *call, requests).is_err() {
            return stays_empty(rt, cluster, requests);
        }
    }
    // four answered the request before, and three this one
    heard(rt, cluster) == Some(3)
        && cluster.common_view() == Some(1)
        && cluster.take_replies().len() == 7
        && !cluster.take_sent().is_empty()
}

// a cluster that has executed a request, whose primary is silent then, and a block with another one
fn before<R: Threads + Wait + Sync>(
    rt: &R,
    alloc: Global,
) -> Result<(Cluster, Vec<Signed<Message>>), Fail> {
    let clients = two_clients(alloc)?;
    let mut block = Vec::new(alloc);
    block.push(null_request(alloc, &clients, 0, 8)?)?;
    let mut cluster = four_replicas(alloc)?;
    cluster.watch();
    run_block(rt, &mut cluster, 1, &[null_request(alloc, &clients, 0, 7)?])?;
    cluster.silence(0);
    Ok((cluster, block))
}

/// What comes before the calls of the next test.
#[test]
fn a_request_is_executed_and_a_primary_is_silent(rt: HostRuntime) -> Result<(), Fail> {
    before(&rt, rt.alloc())?;
    Ok(())
}

#[test]
fn one_without_memory_is_empty(rt: HostRuntime) -> Result<(), Fail> {
    let (mut cluster, block) = before(&rt, rt.alloc())?;
    same!(rt; goes_on(&rt, &mut cluster, &block), true);
    Ok(())
}
