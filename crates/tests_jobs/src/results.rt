//! That each job has its result once, whatever the number of workers, and which numbers of workers there are.
use crate::jobs::{WAYS, calls, each_once, jobs_of, results_of};
use bfs_testing::{holds, same};
use bfs_tree::Tree;
use bfs_types::Memory;
use bfs_workers::{NoGate, Workers, run_here};
use std::test::Fail;

#[test]
fn each_job_has_its_result_once(rt: HostRuntime) -> Result<(), Fail> {
    let alloc = rt.alloc();
    let requests = calls(alloc, 1024)?;
    for count in [1, 2, 3, 64] {
        for way in WAYS {
            let dones = results_of(&rt, alloc, *way, count, requests.as_slice(), &NoGate)?;
            each_once(alloc, dones.as_slice(), 1024)?;
        }
    }
    Ok(())
}

#[test]
fn jobs_run_here_in_order(rt: HostRuntime) -> Result<(), Fail> {
    let alloc = rt.alloc();
    let tree = Tree::new(alloc)?;
    let requests = calls(alloc, 5)?;
    let jobs = jobs_of(alloc, &tree, requests.as_slice())?;
    let dones = run_here(alloc, &tree, jobs, &NoGate)?;
    each_once(alloc, dones.as_slice(), 5)?;
    let mut number = 0;
    for done in dones {
        same!(rt; done.number, number);
        number = done.number.saturating_add(1);
    }
    Ok(())
}

#[test]
fn no_jobs_have_no_results(rt: HostRuntime) -> Result<(), Fail> {
    let alloc = rt.alloc();
    for way in WAYS {
        let dones = results_of(&rt, alloc, *way, 64, &[], &NoGate)?;
        same!(rt; dones.len(), 0);
    }
    Ok(())
}

#[test]
fn there_are_1_to_64_workers(rt: HostRuntime) {
    holds!(rt; Workers::new(0).is_none());
    holds!(rt; Workers::new(65).is_none());
    for count in [1, 2, 64] {
        holds!(rt; Workers::new(count).map(|workers| workers.count()) == Some(count));
    }
}
