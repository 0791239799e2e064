ghost use Rattle.std.specs.Prelude.{◌≡◌, ◌<◌, ◌-◌, ◌++◌, [], IfOk, IsPermutation, length};
ghost use Rattle.std.specs.List.{All};
ghost use Rattle.std.specs.Thread.{IsSync};
ghost use Rattle.crossbeam_queue.specs.Passes.{IsPassOf, ruled_capacity, view};
ghost use Rattle.bfs_handover.specs.Jobs.{CanRun};
ghost use Rattle.bfs_workers.specs.Results.{CanRunAll, EachOnce, GivesAll};
ghost use Rattle.bfs_workers.specs.Rule.{account, all_parts};

use crate::gate::Gate;
use crate::rule::{JobPass, JobQueue, OneMore, Puts, Seat, Takes};
use crate::sequence::run_here;
use crate::workers::Workers;
use bfs_handover::{Done, Job};
use bfs_tree::Tree;
use bfs_types::Memory;
use std::alloc::Global;
use std::sync::Wait;
use std::thread;
use std::thread::Threads;

/// Runs the jobs by the workers, each of which takes the next job from one queue until it finds it empty, and gives their results in some
/// order. The calling thread is one of the workers, and runs what is left where threads can't be started; one worker runs the jobs in
/// their order, without a queue.
/// `Memory` if memory runs out: the inodes of all jobs are lost then, and no job is running any more.
#[tactic(auto, using(crate::proofs::Steps::begins, crate::proofs::Queued::all_drawn))]
pub fn run_queue<R: Threads + Wait + Sync, G: Gate + Sync>(
    rt: &R,
    alloc: Global,
    workers: Workers,
    tree: &Tree,
    jobs: Vec<Job<'_>>,
    gate: &G,
) -> Result<Vec<Done>, Memory>
    requires { All (CanRun tree.now) jobs.items }
    ensures { IfOk result (λ dones. EachOnce G.ran tree.now jobs.entry.items dones.items) }
{
    let count = (workers.count() as usize).min(jobs.len()) as u32;
    if count <= 1 {
        return run_here(alloc, tree, jobs, gate);
    }
    let (queue, pass) = JobQueue::ruled(alloc, jobs.len())?;
    let (pass, back) = fill(rt, alloc, &queue, pass, jobs)?;
    let seat = Seat {
        queue: &queue,
        pass,
    };
    let (pass, dones) = run_workers(rt, alloc, tree, seat, count, gate)?;
    let seat = Seat {
        queue: &queue,
        pass,
    };
    let (_, mut dones) = work(rt, alloc, tree, seat, dones, gate)?;
    let mut last = run_here(alloc, tree, back, gate)?;
    dones.append(&mut last)?;
    Ok(dones)
}

// puts the jobs in the queue, and gives back those for which it has no room
#[tactic(auto, using(crate::proofs::Steps::puts, crate::proofs::Queued::came_back, crate::proofs::Queued::was_put))]
fn fill<'a, R: Wait>(
    rt: &R,
    alloc: Global,
    queue: &JobQueue<'a>,
    mut pass: JobPass<'a>,
    jobs: Vec<Job<'a>>,
) -> Result<(JobPass<'a>, Vec<Job<'a>>), Memory>
    requires pass { IsPassOf queue.now pass × (view pass ≡ account all_parts [] []) }
    ensures pass { IfOk result (λ r. IsPassOf queue.now r.0 × (view r.0 ≡ account all_parts (view r.0).put [])) }
    ensures jobs { IfOk result (λ r. IsPermutation jobs.entry.items ((view r.0).put ++ r.1.items)) }
{
    let mut back = Vec::new(alloc);
    for job in jobs {
        if let Err(job) = queue.push_as::<Puts, R>(rt, &mut pass, job) {
            back.push(job)?;
        }
    }
    Ok((pass, back))
}

// takes jobs and runs them until the queue is found empty
fn work<'a, R: Wait, G: Gate>(
    rt: &R,
    alloc: Global,
    tree: &Tree,
    seat: Seat<'_, 'a>,
    mut dones: Vec<Done>,
    gate: &G,
) -> Result<(JobPass<'a>, Vec<Done>), Memory>
    requires pass { IsPassOf seat.queue.now seat.pass × (0 < (view seat.pass).parts) }
    requires jobs { CanRunAll tree.now (view seat.pass).put }
    requires dones { GivesAll G.ran tree.now (view seat.pass).taken dones.items }
    ensures pass { IfOk result (λ r. IsPassOf seat.entry.queue.now r.0 × (view r.0 ≡ account (view seat.entry.pass).parts (view seat.entry.pass).put (view r.0).taken)) }
    ensures dones { IfOk result (λ r. GivesAll G.ran tree.now (view r.0).taken r.1.items) }
    ensures empty { IfOk result (λ r. (view seat.entry.pass).parts ≡ all_parts → IsPermutation (view r.0).put (view r.0).taken) }
{
    let Seat { queue, mut pass } = seat;
    while let Some(job) = queue.pop_as::<Takes, R>(rt, &mut pass) {
        dones.push(gate.run(alloc, tree, job)?)?;
    }
    Ok((pass, dones))
}

// work by so many threads, of which this one is the last
#[cycle(workers)]
#[tactic(auto, using(crate::proofs::Steps::forks, crate::proofs::Steps::merges))]
fn run_workers<'a, R: Threads + Wait + Sync, G: Gate + Sync>(
    rt: &R,
    alloc: Global,
    tree: &Tree,
    seat: Seat<'_, 'a>,
    count: u32,
    gate: &G,
) -> Result<(JobPass<'a>, Vec<Done>), Memory>
    requires pass { IsPassOf seat.queue.now seat.pass × (count < (view seat.pass).parts) × ((view seat.pass).taken ≡ []) }
    requires jobs { CanRunAll tree.now (view seat.pass).put }
    ensures pass { IfOk result (λ r. IsPassOf seat.entry.queue.now r.0 × (view r.0 ≡ account (view seat.entry.pass).parts (view seat.entry.pass).put (view r.0).taken)) }
    ensures dones { IfOk result (λ r. GivesAll G.ran tree.now (view r.0).taken r.1.items) }
{
    if count <= 1 {
        return work(rt, alloc, tree, seat, Vec::new(alloc), gate);
    }
    let Seat { queue, mut pass } = seat;
    let one = Seat {
        queue,
        pass: queue.another::<OneMore>(&mut pass),
    };
    let others = Seat { queue, pass };
    let (one, others) = thread::join(
        rt,
        move ||
            requires { IsSync R.row × IsSync G.row × IsPassOf one.queue.now one.pass × (view one.pass ≡ account 1 (view one.pass).put []) × CanRunAll tree.now (view one.pass).put }
            ensures pass { IfOk result (λ r. IsPassOf one.entry.queue.now r.0 × (view r.0 ≡ account 1 (view one.entry.pass).put (view r.0).taken)) }
            ensures dones { IfOk result (λ r. GivesAll G.ran tree.entry.now (view r.0).taken r.1.items) }
        { work(rt, alloc, tree, one, Vec::new(alloc), gate) },
        move ||
            requires { IsSync R.row × IsSync G.row × IsPassOf others.queue.now others.pass × (0 < count) × (count - 1 < (view others.pass).parts) × ((view others.pass).taken ≡ []) × CanRunAll tree.now (view others.pass).put }
            ensures pass { IfOk result (λ r. IsPassOf others.entry.queue.now r.0 × (view r.0 ≡ account (view others.entry.pass).parts (view others.entry.pass).put (view r.0).taken)) }
            ensures dones { IfOk result (λ r. GivesAll G.ran tree.entry.now (view r.0).taken r.1.items) }
        { run_workers(rt, alloc, tree, others, count - 1, gate) },
    );
    let (one, mut done) = one?;
    let (mut pass, mut dones) = others?;
    queue.absorb::<OneMore>(&mut pass, one);
    dones.append(&mut done)?;
    Ok((pass, dones))
}
