ghost use Rattle.std.specs.Prelude.{◌≡◌, ◌↔◌, ◌<◌, [], All, Some, None, length, IfOk, IsErrOf, IsSome, OnOk};
ghost use Rattle.std.specs.Option.{ForSome, option_map};
ghost use Rattle.bfs_parallel.specs.Ran.{AllRan};
ghost use Rattle.bfs_serial.specs.Executed as serial;
ghost use Rattle.bfs_outcome.specs.Executed.{ComesTo};
ghost use Rattle.bfs_outcome.specs.Ran.{RanNew};

use crate::answering::answer_all;
use crate::news::new_requests;
use bfs_messages::OrderedBatch;
use bfs_parallel::Executor;
use bfs_replies::{Answer, ReplyTable};
use bfs_serial::{Batch, ExecError, FileSystem, Replies};
use bfs_types::{Memory, Time};
use bfs_workers::Gate;
use std::alloc::Global;
use std::sync::Wait;
use std::thread::Threads;

/// What is left to be done once a batch was executed: replies are to be recorded, by `ReplyTable::record_all`, and to be sent.
#[derive(Debug, Drop)]
pub struct Executed {
    /// To the requests that were new, in their order.
    pub to_record: Vec<Answer>,
    /// To these and to those that came again, in their order.
    pub to_answer: Vec<Answer>,
}

impl Executed {
    pub(crate) fn new(alloc: Global) -> Executed
        ensures to_record { result.to_record.items ≡ [] }
        ensures to_answer { result.to_answer.items ≡ [] }
    {
        Executed {
            to_record: Vec::new(alloc),
            to_answer: Vec::new(alloc),
        }
    }
}

/// By what requests are executed.
#[derive(Drop)]
pub struct Means<'a, R, G> {
    /// What starts threads.
    pub rt: &'a R,
    /// The memory.
    pub alloc: Global,
    /// The workers and the engine.
    pub executor: Executor,
    /// By which requests are run.
    pub gate: &'a G,
}

/// Executes an ordered batch through the table. Its new requests are executed together, as one batch of the file system, and each is run
/// by the gate where there is an engine, but those that `is_alone` names; a repeated one gets the reply that is recorded when its turn
/// comes; others get none. The null request changes nothing. The table stays as it is until what is to be recorded is recorded in it, which
/// takes no memory. `Failed` exactly where the file system had failed before, and it stays so; `Memory` if memory runs out, and then the
/// file system has failed.
#[tactic(auto, using(crate::proofs::Clients::told_to_clients), unfolding(crate::specs::Outcome::outcome, crate::specs::Ran::RanNew))]
pub fn execute_ordered<R: Threads + Wait + Sync, G: Gate + Sync>(
    means: &Means<'_, R, G>,
    files: &mut FileSystem,
    table: &ReplyTable,
    batch: &OrderedBatch,
) -> Result<Executed, ExecError>
    ensures done { IfOk result (λ executed. ComesTo files.old table.now batch.now files.new executed.to_record.items executed.to_answer.items) }
    ensures clients { IfOk result (λ executed. All (λ answer. answer.client < length table.now) executed.to_answer.items) }
    ensures ran { OnOk result (IsSome means.now.executor.engine → ForSome files.old (λ live. RanNew G.ran live table.now batch.now)) }
    ensures failed { IsErrOf result ExecError.Failed ↔ (files.old ≡ None) }
    ensures fails { IsErrOf result ExecError.Memory → files.new ≡ None }
    ensures stays_failed { files.old ≡ None → files.new ≡ None }
{
    if !files.is_live() {
        return Err(ExecError::Failed);
    }
    let Some(time) = batch.time() else {
        return Ok(Executed::new(means.alloc));
    };
    match execute_requests(means, files, table, batch, time) {
        Ok(executed) => Ok(executed),
        Err(Memory) => {
            files.take_parts();
            Err(ExecError::Memory)
        }
    }
}

fn execute_requests<R: Threads + Wait + Sync, G: Gate + Sync>(
    means: &Means<'_, R, G>,
    files: &mut FileSystem,
    table: &ReplyTable,
    batch: &OrderedBatch,
    time: Time,
) -> Result<Executed, Memory>
    requires live { IsSome files.old }
    requires time { option_map (λ requests. requests.time) batch.now ≡ Some time }
    ensures done { IfOk result (λ executed. ComesTo files.old table.now batch.now files.new executed.to_record.items executed.to_answer.items) }
    ensures ran { OnOk result (IsSome means.now.executor.engine → ForSome files.old (λ live. RanNew G.ran live table.now batch.now)) }
{
    files.is_live();
    let requests = batch.requests();
    let news = new_requests(means.alloc, table, time, requests)?;
    let replies = execute(means, files, &news)?;
    answer_all(means.alloc, table, requests, &replies)
}

fn execute<R: Threads + Wait + Sync, G: Gate + Sync>(
    means: &Means<'_, R, G>,
    files: &mut FileSystem,
    batch: &Batch,
) -> Result<Replies, Memory>
    requires { IsSome files.old }
    ensures done { IfOk result (λ replies. serial.Executed files.old batch.now files.new replies) }
    ensures count { IfOk result (λ replies. length replies ≡ length batch.now.requests) }
    ensures ran { IfOk result (λ replies. IsSome means.now.executor.engine → AllRan G.ran 0 batch.now.requests replies) }
{
    let executor = means.executor;
    match executor.execute(means.rt, means.alloc, files, batch, means.gate) {
        Ok(replies) => Ok(replies),
        Err(ExecError::Memory) => Err(Memory),
        Err(ExecError::Failed) => unreachable!(),
    }
}
