ghost use Rattle.std.specs.Prelude.{◌≡◌, [], ◌<◌, ◌++◌, IfOk, IsPermutation, length};
ghost use Rattle.std.specs.List.{All, AllZip};
ghost use Rattle.std.specs.Thread.{IsSync};
ghost use Rattle.bfs_handover.specs.Jobs.{CanRun};
ghost use Rattle.bfs_workers.specs.Dealt.{jobs_in};
ghost use Rattle.bfs_workers.specs.Results.{CanRunAll, EachOnce, Gives, GivesAll};

use crate::gate::Gate;
use crate::sequence::run_here;
use crate::workers::Workers;
use bfs_handover::{Done, Job};
use bfs_tree::Tree;
use bfs_types::Memory;
use std::alloc::Global;
use std::thread;
use std::thread::Threads;

/// Runs the jobs by the workers, job k by worker k modulo their number, and gives their results in some order. The calling
/// thread is one of the workers, and runs the jobs of those for which no thread can be started. `Memory` if memory runs out:
/// the inodes of all jobs are lost then, and no job is running any more.
pub fn run_split<R: Threads + Sync, G: Gate + Sync>(
    rt: &R,
    alloc: Global,
    workers: Workers,
    tree: &Tree,
    jobs: Vec<Job<'_>>,
    gate: &G,
) -> Result<Vec<Done>, Memory>
    requires { All (CanRun tree.now) jobs.items }
    ensures { IfOk result (λ dones. EachOnce G.ran tree.now jobs.entry.items dones.items) }
{
    let count = (workers.count() as usize).min(jobs.len());
    if count <= 1 {
        return run_here(alloc, tree, jobs, gate);
    }
    let lists = deal(alloc, count, jobs)?;
    run_lists(rt, alloc, tree, lists, gate)
}

// so many lists, with job k in list k modulo their number
fn deal<'a>(alloc: Global, count: usize, jobs: Vec<Job<'a>>) -> Result<Vec<Vec<Job<'a>>>, Memory>
    requires { 0 < count }
    ensures { IfOk result (λ lists. IsPermutation jobs.entry.items (jobs_in lists.items)) }
{
    let mut lists = no_jobs(alloc, count)?;
    let mut turn = 0;
    for job in jobs {
        lists[turn].push(job)?;
        turn += 1;
        if turn == count {
            turn = 0;
        }
    }
    Ok(lists)
}

fn no_jobs<'a>(alloc: Global, count: usize) -> Result<Vec<Vec<Job<'a>>>, Memory>
    ensures count { IfOk result (λ lists. length lists.items ≡ count) }
    ensures empty { IfOk result (λ lists. jobs_in lists.items ≡ []) }
{
    let mut lists = Vec::with_capacity(alloc, count)?;
    for _ in 0..count {
        lists.push_reserved(Vec::new(alloc));
    }
    Ok(lists)
}

#[cycle(lists)]
fn run_lists<R: Threads + Sync, G: Gate + Sync>(
    rt: &R,
    alloc: Global,
    tree: &Tree,
    mut lists: Vec<Vec<Job<'_>>>,
    gate: &G,
) -> Result<Vec<Done>, Memory>
    requires { CanRunAll tree.now (jobs_in lists.items) }
    ensures { IfOk result (λ dones. GivesAll G.ran tree.now (jobs_in lists.entry.items) dones.items) }
{
    let Some(mine) = lists.pop() else {
        return Ok(Vec::new(alloc));
    };
    if lists.is_empty() {
        return run_here(alloc, tree, mine, gate);
    }
    run_both(rt, alloc, tree, mine, lists, gate)
}

// the jobs of the last list in a new thread, and the others in this one
#[cycle(lists)]
fn run_both<R: Threads + Sync, G: Gate + Sync>(
    rt: &R,
    alloc: Global,
    tree: &Tree,
    last: Vec<Job<'_>>,
    others: Vec<Vec<Job<'_>>>,
    gate: &G,
) -> Result<Vec<Done>, Memory>
    requires last { CanRunAll tree.now last.items }
    requires others { CanRunAll tree.now (jobs_in others.items) }
    ensures { IfOk result (λ dones. GivesAll G.ran tree.now (jobs_in others.entry.items ++ last.entry.items) dones.items) }
{
    let (one, rest) = thread::join(
        rt,
        move || -> Result<Vec<Done>, Memory>
            requires { IsSync G.row × CanRunAll tree.now last.items }
            ensures { IfOk result (λ dones. GivesAll G.ran tree.entry.now last.entry.items dones.items) }
        { run_list(alloc, tree, last, gate) },
        move || -> Result<Vec<Done>, Memory>
            requires { IsSync R.row × IsSync G.row × CanRunAll tree.now (jobs_in others.items) }
            ensures { IfOk result (λ dones. GivesAll G.ran tree.entry.now (jobs_in others.entry.items) dones.items) }
        { run_lists(rt, alloc, tree, others, gate) },
    );
    let mut one = one?;
    let mut dones = rest?;
    dones.append(&mut one)?;
    Ok(dones)
}

fn run_list<G: Gate>(
    alloc: Global,
    tree: &Tree,
    list: Vec<Job<'_>>,
    gate: &G,
) -> Result<Vec<Done>, Memory>
    requires { CanRunAll tree.now list.items }
    ensures { IfOk result (λ dones. GivesAll G.ran tree.now list.entry.items dones.items) }
{
    run_here(alloc, tree, list, gate)
}
