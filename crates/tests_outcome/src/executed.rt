//! Ordered batches, executed on a file system through a table of replies by each executor.
use crate::batches::{Round, Told, are_told, batch};
use bfs_messages::OrderedBatch;
use bfs_outcome::{Executed, Gate, Means, execute_ordered};
use bfs_parallel::{Engine, Executor, Workers};
use bfs_replies::ReplyTable;
use bfs_serial::FileSystem;
use std::alloc::Global;
use std::sync::Wait;
use std::test::Fail;
use std::thread::Threads;

/// An engine with so many workers, or one request after another.
pub type By = Option<(Engine, u32)>;

pub static EACH: &[By] = &[
    None,
    Some((Engine::Runs, 1)),
    Some((Engine::Runs, 4)),
    Some((Engine::Levels, 1)),
    Some((Engine::Levels, 4)),
];

fn executor_of(by: By) -> Result<Executor, Fail> {
    let Some((engine, count)) = by else {
        return Ok(Executor::serial());
    };
    let workers = Workers::new(count).ok_or("workers")?;
    Ok(Executor {
        workers,
        engine: Some(engine),
    })
}

/// What a replica executes batches on: its file system, and the last replies to two clients.
#[derive(Drop)]
pub struct Replica {
    alloc: Global,
    pub files: FileSystem,
    table: ReplyTable,
}

impl Replica {
    pub fn new(alloc: Global) -> Result<Replica, Fail> {
        let files = FileSystem::new(alloc)?;
        let table = ReplyTable::new(alloc, 2)?;
        Ok(Replica {
            alloc,
            files,
            table,
        })
    }

    /// What is left to be done once the batch was executed.
    pub fn execute<R: Threads + Wait + Sync, G: Gate + Sync>(
        &mut self,
        rt: &R,
        ordered: &OrderedBatch,
        by: By,
        gate: &G,
    ) -> Result<Executed, Fail> {
        let means = Means {
            rt,
            alloc: self.alloc,
            executor: executor_of(by)?,
            gate,
        };
        Ok(execute_ordered(&means, &mut self.files, &self.table, ordered)?)
    }

    // records the replies, after a look at the answers
    fn finish(&mut self, executed: Executed, told: &[Told]) -> Result<(), Fail> {
        let Executed {
            to_record,
            to_answer,
        } = executed;
        are_told(self.alloc, to_answer.as_slice(), told)?;
        self.table.record_all(to_record);
        Ok(())
    }

    /// Executes the batch of a round, and records the replies. It fails where an answer is not as it is to be.
    pub fn execute_round<R: Threads + Wait + Sync, G: Gate + Sync>(
        &mut self,
        rt: &R,
        round: &Round,
        by: By,
        gate: &G,
    ) -> Result<(), Fail> {
        let (second, asked, told) = *round;
        let ordered = batch(self.alloc, second, asked)?;
        let executed = self.execute(rt, &ordered, by, gate)?;
        self.finish(executed, told)
    }
}
