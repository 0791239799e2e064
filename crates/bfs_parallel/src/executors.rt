ghost use Rattle.std.specs.Prelude.{◌≡◌, ◌↔◌, None, length, IfOk, IsErrOf, IsSome};
ghost use Rattle.bfs_parallel.specs.Ran.{AllRan};
ghost use Rattle.bfs_serial.specs.Executed.{Executed};

use crate::engine::Engine;
use crate::executor::execute_parallel;
use bfs_serial::{Batch, ExecError, FileSystem, Replies, execute_serial};
use bfs_workers::{Gate, Workers};
use std::alloc::Global;
use std::sync::Wait;
use std::thread::Threads;

/// What executes batches: workers by an engine, or the calling thread one request after another.
#[derive(Clone, Copy, Debug, PartialEq, Eq)]
pub struct Executor {
    /// The workers that execute the requests of a batch, where there is an engine.
    pub workers: Workers,
    /// Which requests they execute at one time, or `None` where requests are executed one after another.
    pub engine: Option<Engine>,
}

impl Executor {
    /// The calling thread, which executes one request after another.
    pub fn serial() -> Executor
        ensures { result ≡ record { workers = 1; engine = None } }
    {
        Executor {
            workers: Workers::one(),
            engine: None,
        }
    }

    /// Executes the batch's requests, and gives their replies. Each is run by the gate where there is an engine, but those that
    /// `is_alone` names. `Failed` exactly where the file system had failed before, and it stays so; `Memory` if memory runs out, and
    /// then the file system has failed.
    pub fn execute<R: Threads + Wait + Sync, G: Gate + Sync>(
        &self,
        rt: &R,
        alloc: Global,
        files: &mut FileSystem,
        batch: &Batch,
        gate: &G,
    ) -> Result<Replies, ExecError>
        ensures done { IfOk result (λ replies. Executed files.old batch.now files.new replies) }
        ensures count { IfOk result (λ replies. length replies ≡ length batch.now.requests) }
        ensures ran { IfOk result (λ replies. IsSome self.now.engine → AllRan G.ran 0 batch.now.requests replies) }
        ensures failed { IsErrOf result ExecError.Failed ↔ (files.old ≡ None) }
        ensures fails { IsErrOf result ExecError.Memory → files.new ≡ None }
        ensures stays_failed { files.old ≡ None → files.new ≡ None }
    {
        match self.engine {
            Some(engine) => execute_parallel(rt, alloc, files, batch, self.workers, engine, gate),
            None => execute_serial(alloc, files, batch),
        }
    }
}
