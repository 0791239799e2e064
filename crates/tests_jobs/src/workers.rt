//! That jobs overlap: each test has a gate that holds a job back until another has come so far.
use crate::jobs::{WAYS, Way, calls, each_once, results_of};
use bfs_testing::holds;
use bfs_testing::meetings::Meeting;
use bfs_testing_batches::gates::{AllAtOnce, OneAfterOthers};
use std::test::Fail;

#[test]
fn second_of_two_jobs_ends_first(rt: HostRuntime) -> Result<(), Fail> {
    let alloc = rt.alloc();
    let requests = calls(alloc, 2)?;
    for way in WAYS {
        let gate = OneAfterOthers::new(0, &[1]);
        let dones = results_of(&rt, alloc, *way, 2, requests.as_slice(), &gate)?;
        holds!(rt; gate.done.took_place());
        each_once(alloc, dones.as_slice(), 2)?;
    }
    Ok(())
}

// job 2 would be dealt to the worker that is held back
#[test]
fn a_worker_takes_the_next_job_from_the_queue(rt: HostRuntime) -> Result<(), Fail> {
    let alloc = rt.alloc();
    let requests = calls(alloc, 3)?;
    let gate = OneAfterOthers::new(0, &[1, 2]);
    let dones = results_of(&rt, alloc, Way::Queued, 2, requests.as_slice(), &gate)?;
    holds!(rt; gate.done.took_place());
    each_once(alloc, dones.as_slice(), 3)
}

#[test]
fn as_many_jobs_as_workers_overlap(rt: HostRuntime) -> Result<(), Fail> {
    let alloc = rt.alloc();
    for count in [2, 3, 64] {
        let requests = calls(alloc, count)?;
        for way in WAYS {
            let gate = AllAtOnce {
                all: Meeting::of(count as u64),
            };
            let dones = results_of(&rt, alloc, *way, count, requests.as_slice(), &gate)?;
            holds!(rt; gate.all.took_place());
            each_once(alloc, dones.as_slice(), count)?;
        }
    }
    Ok(())
}
