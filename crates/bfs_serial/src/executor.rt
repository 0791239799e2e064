ghost use Rattle.std.specs.Prelude.{◌≡◌, ◌≤◌, ◌↔◌, length, IsTrue, IfOk, IsErrOf, Some, None};
ghost use Rattle.bfs_model.specs.Server.Serial as model;
ghost use Rattle.bfs_model.specs.Server.Limits.{most_reply_bytes};
ghost use Rattle.bfs_model.specs.Server.Serial.{execute, inodes_after, ordinal_after, replies_to};
ghost use Rattle.bfs_model.specs.Server.WellFormed.{IsWellFormed};
ghost use Rattle.bfs_serial.specs.Errors.{exec_code_of};
ghost use Rattle.bfs_serial.specs.Executed.{Executed};

use crate::batches::{Batch, Request};
use crate::files::FileSystem;
use crate::replies::Replies;
use bfs_procs::answer;
use bfs_tree::Store;
use bfs_types::{Memory, Ordinal, Time};
use std::alloc::Global;
use thiserror::Error;

/// Why a batch was not executed.
#[derive(Clone, Copy, Debug, PartialEq, Eq, Error)]
pub enum ExecError {
    /// The file system had failed before; nothing was executed.
    #[error("the file system has failed")]
    Failed,
    /// Memory ran out while it was executed, and the file system has failed.
    #[error("out of memory")]
    Memory,
}

impl ExecError {
    /// The number of the refusal.
    pub fn code(self) -> u32
        ensures { result ≡ exec_code_of self }
    {
        match self {
            ExecError::Failed => 41,
            ExecError::Memory => 40,
        }
    }
}

/// Executes the batch's requests one after another, at the batch's effective time, and gives their replies.
#[tactic(auto, unfolding(bfs_model::specs::Server::Serial::execute))]
pub fn execute_serial(
    alloc: Global,
    files: &mut FileSystem,
    batch: &Batch,
) -> Result<Replies, ExecError>
    ensures done { IfOk result (λ replies. Executed files.old batch.now files.new replies) }
    ensures count { IfOk result (λ replies. length replies ≡ length batch.now.requests) }
    ensures failed { IsErrOf result ExecError.Failed ↔ (files.old ≡ None) }
    ensures fails { IsErrOf result ExecError.Memory → files.new ≡ None }
    ensures stays_failed { files.old ≡ None → files.new ≡ None }
{
    let Some((mut tree, next_ordinal, last_time)) = files.take_parts() else {
        return Err(ExecError::Failed);
    };
    let proposed = batch.time();
    proposed.is_in_range();
    let time = proposed.effective_after(last_time);
    match answer_each(alloc, &mut tree, next_ordinal, time, batch.requests()) {
        Ok(replies) => {
            let next_ordinal = next_ordinal.after(batch.len() as u64);
            files.put_parts(tree, next_ordinal, time);
            Ok(replies)
        }
        Err(Memory) => Err(ExecError::Memory),
    }
}

// the replies to the requests, the first of which has that ordinal
fn answer_each<S: Store>(
    alloc: Global,
    store: &mut S,
    first: Ordinal,
    time: Time,
    requests: &[Request],
) -> Result<Replies, Memory>
    requires whole { IsTrue ((S.reach store.old).whole) }
    requires formed { IsWellFormed (record { tree = S.inodes store.old; next_ordinal = first; last_time = time }) }
    ensures inodes { IfOk result (λ _. S.inodes store.new ≡ inodes_after (S.inodes store.old) first time requests.now) }
    ensures replies { IfOk result (λ replies. replies ≡ replies_to (S.inodes store.old) first time requests.now) }
    ensures reach { S.reach store.new ≡ S.reach store.old }
{
    let mut ordinal = first;
    let mut replies = Replies::new(alloc);
    for request in requests {
        let reply = answer_next(alloc, store, ordinal, time, request.as_slice())?;
        replies.push(reply)?;
        ordinal = ordinal.next();
    }
    Ok(replies)
}

/// Carries out the next request of a file system whose inodes are in the store, which is whole, and gives its reply's bytes: at most
/// `MOST_REPLY_BYTES`, none if it can't be answered. It is for executors. `ordinal` is that of the request, and `time` the effective
/// time of its batch; with these the inodes are well formed, and then with the next ordinal. `Memory` if memory runs out; what the
/// inodes are then is unspecified.
#[tactic(auto, using(crate::proofs::Whole::knows_all_touched, bfs_model::proofs::Public::next_is_fresh))]
pub fn answer_next<S: Store>(
    alloc: Global,
    store: &mut S,
    ordinal: Ordinal,
    time: Time,
    request: &[u8],
) -> Result<Vec<u8>, Memory>
    requires whole { IsTrue ((S.reach store.old).whole) }
    requires formed { IsWellFormed (record { tree = S.inodes store.old; next_ordinal = ordinal; last_time = time }) }
    ensures done { IfOk result (λ reply. (S.inodes store.new, reply.items) ≡ model.answer (S.inodes store.old) ordinal time request.now) }
    ensures formed { IfOk result (λ _. IsWellFormed (record { tree = S.inodes store.new; next_ordinal = ordinal_after ordinal 1; last_time = time })) }
    ensures short { IfOk result (λ reply. length reply.items ≤ most_reply_bytes) }
    ensures reach { S.reach store.new ≡ S.reach store.old }
{
    answer(alloc, store, ordinal, time, request)
}
