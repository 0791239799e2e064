// A replica goes on by itself.
ghost use Rattle.std.specs.Prelude.{◌≡◌, ◌≢◌, ◌↔◌, None, IfOk, IfErr, IsErrOf, IsSome, OnErr, OnOk};
ghost use Rattle.std.specs.Option.{option_map};
ghost use Rattle.bfs_node.specs.Advancing.{Acts, Advances, StopsAt, StopsShort, advancing};
ghost use Rattle.bfs_node.specs.Executing.{Runs};
ghost use Rattle.bfs_node.specs.Inside.Acting.{CheckpointsAfter};
ghost use Rattle.bfs_node.specs.declared.error.NodeError.TheVariants as error;

use crate::error::NodeError;
use crate::node::Node;
use bfs_messages::{Message, Signed};
use bfs_outcome::{Executor, Gate};
use bfs_types::Memory;
use std::sync::Wait;
use std::thread::Threads;

impl Node {
    /// Executes all batches that are committed, one after another, as `execute_ready` does each, and makes the checkpoint that is due before
    /// the first and behind each, as `checkpoint` does. It gives all that is to be sent: nothing where no batch is next and no checkpoint due.
    /// To be called behind each call by which a message came or was made. `Failed` exactly where the file system has failed; nothing changes
    /// then. `Memory` if memory runs out: some batches are executed then, and what was to be sent is lost; where that came while a batch was
    /// executed, the file system has failed. A checkpoint for which there was no memory is made by the next call.
    pub fn advance<R: Threads + Wait + Sync, G: Gate + Sync>(
        &mut self,
        rt: &R,
        executor: Executor,
        gate: &G,
    ) -> Result<Vec<Signed<Message>>, NodeError>
        ensures goes { IfOk result (λ sent. Advances (Runs G.ran executor.engine) self.old sent.items self.new) }
        ensures failed { IsErrOf result error.Failed ↔ (self.old.files ≡ None) }
        ensures errors { IfErr result (λ e. e ≢ error.Memory → e ≡ error.Failed) }
        ensures short { IsErrOf result error.Memory → StopsShort self.old self.new }
        ensures stays { IsErrOf result error.Failed → self.new ≡ self.old }
    {
        if !self.files.is_live() {
            return Err(NodeError::Failed);
        }
        let mut sent = Vec::new(self.alloc);
        self.make_due_checkpoint(rt, &mut sent)?;
        for _ in rt.forever() {
            match self.advance_once(rt, &executor, gate)? {
                Some(mut more) => sent.append(&mut more)?,
                None => return Ok(sent),
            }
        }
        unreachable!()
    }

    /// Executes the next committed batch as `execute_ready` does, and makes the checkpoint that is due behind it; `None` where no batch is next.
    /// `Memory` if memory runs out: the file system has failed then, or the batch is executed, and what was to be sent is lost.
    pub fn advance_once<R: Threads + Wait + Sync, G: Gate + Sync>(
        &mut self,
        rt: &R,
        executor: &Executor,
        gate: &G,
    ) -> Result<Option<Vec<Signed<Message>>>, Memory>
        requires { IsSome self.old.files }
        ensures done { IfOk result (λ sent. Acts (advancing self.old) self.old self.new (option_map (λ all. all.items) sent)) }
        ensures runs { OnOk result (Runs G.ran executor.now.engine self.old) }
        ensures live { OnOk result (IsSome self.new.files) }
        ensures err { OnErr result (StopsAt self.old self.new) }
    {
        match self.execute_ready(rt, *executor, gate) {
            Ok(None) => Ok(None),
            Ok(Some(mut sent)) => {
                self.make_due_checkpoint(rt, &mut sent)?;
                Ok(Some(sent))
            }
            Err(NodeError::Memory) => Err(Memory),
            // the file system has not failed
            Err(_) => unreachable!(),
        }
    }

    // Its message is put behind what is sent. Room for it is taken first, so that nothing changes where memory runs out.
    fn make_due_checkpoint<R: Threads + Sync>(
        &mut self,
        rt: &R,
        sent: &mut Vec<Signed<Message>>,
    ) -> Result<(), Memory>
        ensures done { OnOk result (CheckpointsAfter self.old sent.old.items self.new sent.new.items) }
        ensures live { OnOk result (self.new.files ≡ self.old.files) }
        ensures err { OnErr result (self.new ≡ self.old) }
    {
        sent.reserve(1)?;
        match self.checkpoint(rt) {
            Ok(signed) => {
                sent.push_reserved(signed);
                Ok(())
            }
            Err(NodeError::Memory) => Err(Memory),
            // none is due
            Err(_) => Ok(()),
        }
    }
}
