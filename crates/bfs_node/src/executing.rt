// The next committed batch is executed.
ghost use Rattle.std.specs.Prelude.{◌≡◌, ◌≢◌, ◌↔◌, None, Some, length, IfOk, IfErr, IsErrOf, IsSome, OnOk};
ghost use Rattle.std.specs.Option.{ForSome, option_map};
ghost use Rattle.bfs_order.specs.Replica.Executing.{next_committed};
ghost use Rattle.bfs_outcome.specs.Executed.{ComesTo};
ghost use Rattle.bfs_outcome.specs.Ran.{RanNew};
ghost use Rattle.bfs_replies.specs.Answers.{recorded_all};
ghost use Rattle.bfs_node.specs.Executing.{Runs, after_execution, execution, is_ready, replies_to};
ghost use Rattle.bfs_node.specs.Inside.Finishing.{answers_in, finished_by, with_files};
ghost use Rattle.bfs_node.specs.declared.error.NodeError.TheVariants as error;

use crate::error::NodeError;
use crate::node::Node;
use bfs_messages::{Message, OrderedBatch, Signed};
use bfs_outcome::{Executor, Gate, Means, answers_go_to_clients, execute_ordered};
use bfs_replies::Answer;
use bfs_serial::ExecError;
use bfs_types::Memory;
use std::sync::{Arc, Wait};
use std::thread::Threads;

/// What is left to be done once a batch was executed, by what takes no memory.
#[derive(Drop)]
struct Finished {
    to_record: Vec<Answer>,
    replies: Vec<Signed<Message>>,
}

impl Node {
    /// Whether a batch may be executed: the file system has not failed, and the batch after the one last executed is committed.
    pub fn is_ready(&self) -> bool
        ensures { result ≡ is_ready self.now }
    {
        self.files.is_live() && self.order.next_committed().is_some()
    }

    /// Executes the batch after the one last executed, once it is committed, by the executor and the gate that it is given, and gives the
    /// REPLYs to its clients; none where no batch is next. Where the executor has an engine, each new request is run by the gate, but those
    /// that may touch any inode. Its requests wait no longer. `Failed` where the file system has failed, also
    /// where no batch is next; nothing changes then. `Memory` if memory runs out: then the file system has failed, and nothing else changed.
    pub fn execute_ready<R: Threads + Wait + Sync, G: Gate + Sync>(
        &mut self,
        rt: &R,
        executor: Executor,
        gate: &G,
    ) -> Result<Option<Vec<Signed<Message>>>, NodeError>
        ensures ready { IfOk result (λ sent. option_map (option_map (λ outcome. outcome.sent)) (execution self.old) ≡ Some (option_map (λ messages. messages.items) sent)) }
        ensures now { OnOk result (option_map (after_execution self.old) (execution self.old) ≡ Some self.new) }
        ensures ran { OnOk result (Runs G.ran executor.engine self.old) }
        ensures failed { IsErrOf result error.Failed ↔ (self.old.files ≡ None) }
        ensures errors { IfErr result (λ e. e ≢ error.Memory → e ≡ error.Failed) }
        ensures fails { IsErrOf result error.Memory → self.new ≡ record self.old { files = None } }
        ensures stays { IsErrOf result error.Failed → self.new ≡ self.old }
    {
        if !self.files.is_live() {
            return Err(NodeError::Failed);
        }
        let Some(committed) = self.order.next_committed() else {
            return Ok(None);
        };
        let number = committed.number();
        let Ok(batch) = Arc::try_clone(committed.batch()) else {
            return Err(self.fail());
        };
        match self.execute_batch(rt, executor, gate, &batch) {
            Ok(finished) => {
                // no client comes or goes
                answers_go_to_clients();
                Ok(Some(self.finish(number, &batch, finished)))
            }
            Err(Memory) => Err(self.fail()),
        }
    }

    // Only the file system changes.
    fn execute_batch<R: Threads + Wait + Sync, G: Gate + Sync>(
        &mut self,
        rt: &R,
        executor: Executor,
        gate: &G,
        batch: &OrderedBatch,
    ) -> Result<Finished, Memory>
        requires { IsSome self.old.files }
        ensures done { IfOk result (λ finished. ComesTo self.old.files self.old.table batch.now self.new.files finished.to_record.items (answers_in self.old batch.now)) }
        ensures ran { OnOk result (IsSome executor.engine → ForSome self.old.files (λ live. RanNew G.ran live self.old.table batch.now)) }
        ensures replies { IfOk result (λ finished. finished.replies.items ≡ replies_to self.old.keys self.old.order (answers_in self.old batch.now)) }
        ensures others { with_files self.new None ≡ with_files self.old None }
    {
        let means = Means {
            rt,
            alloc: self.alloc,
            executor,
            gate,
        };
        match execute_ordered(&means, &mut self.files, &self.table, batch) {
            Ok(executed) => Ok(Finished {
                to_record: executed.to_record,
                replies: self.replies_to(rt, &executed.to_answer)?,
            }),
            Err(ExecError::Memory) => Err(Memory),
            Err(ExecError::Failed) => unreachable!(),
        }
    }

    // Its replies are recorded, it counts as executed, and its requests wait no longer. It takes no memory.
    fn finish(
        &mut self,
        number: u64,
        batch: &OrderedBatch,
        finished: Finished,
    ) -> Vec<Signed<Message>>
        requires next { option_map (λ committed. committed.number) (next_committed self.old.order) ≡ Some number }
        requires clients { length (recorded_all self.old.table finished.to_record.items) ≡ length self.old.table }
        ensures now { self.new ≡ finished_by self.old number finished.to_record.items batch.now }
        ensures sent { result.items ≡ finished.replies.items }
    {
        self.table.record_all(finished.to_record);
        self.order.executed(number);
        self.pending.drop_batch(batch);
        finished.replies
    }

    // The file system fails, where memory ran out.
    fn fail(&mut self) -> NodeError
        ensures now { self.new ≡ with_files self.old None }
        ensures error { result ≡ error.Memory }
    {
        self.files.take_parts();
        NodeError::Memory
    }
}
