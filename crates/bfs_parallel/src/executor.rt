ghost use Rattle.std.specs.Prelude.{◌≡◌, ◌≤◌, ◌↔◌, length, IsTrue, IfOk, IsErrOf, Some, None};
ghost use Rattle.bfs_model.specs.Server.Serial.{inodes_after, replies_to};
ghost use Rattle.bfs_model.specs.Server.WellFormed.{IsWellFormed};
ghost use Rattle.bfs_levels.specs.Parts.{requests_in};
ghost use Rattle.bfs_serial.specs.Executed.{Executed};
ghost use Rattle.bfs_tree.specs.Tree.{at_home, reach_of};
ghost use Rattle.bfs_parallel.specs.Ran.{AllRan};

use crate::engine::Engine;
use crate::means::Means;
use crate::parts::execute_part;
use crate::rounds::Rounds;
use bfs_levels::Part;
use bfs_serial::{Batch, ExecError, FileSystem, Replies};
use bfs_tree::Tree;
use bfs_types::Memory;
use bfs_workers::{Gate, Workers};
use std::alloc::Global;
use std::sync::Wait;
use std::thread::Threads;

/// Executes the batch's requests on threads, at the batch's effective time, and gives their replies. Replies and file system are those
/// of executing the requests one after another. Every request but those that `is_alone` names is run by the gate.
#[tactic(auto, unfolding(bfs_model::specs::Server::Serial::execute))]
pub fn execute_parallel<R: Threads + Wait + Sync, G: Gate + Sync>(
    rt: &R,
    alloc: Global,
    files: &mut FileSystem,
    batch: &Batch,
    workers: Workers,
    engine: Engine,
    gate: &G,
) -> Result<Replies, ExecError>
    ensures done { IfOk result (λ replies. Executed files.old batch.now files.new replies) }
    ensures count { IfOk result (λ replies. length replies ≡ length batch.now.requests) }
    ensures ran { IfOk result (λ replies. AllRan G.ran 0 batch.now.requests replies) }
    ensures failed { IsErrOf result ExecError.Failed ↔ (files.old ≡ None) }
    ensures fails { IsErrOf result ExecError.Memory → files.new ≡ None }
    ensures stays_failed { files.old ≡ None → files.new ≡ None }
{
    let Some((mut tree, next_ordinal, last_time)) = files.take_parts() else {
        return Err(ExecError::Failed);
    };
    let proposed = batch.time();
    proposed.is_in_range();
    let time = proposed.effective_after(last_time);
    let rounds = Rounds::new(workers, engine, batch, gate.asks_for_threads());
    let means = Means { rt, alloc, gate };
    let part = Part {
        batch,
        first: 0,
        ordinal: next_ordinal,
        time,
    };
    let replies = execute_in_parts(&means, &mut tree, &part, rounds);
    match replies {
        Ok(replies) => {
            let next_ordinal = next_ordinal.after(batch.requests().len() as u64);
            files.put_parts(tree, next_ordinal, time);
            Ok(replies)
        }
        Err(Memory) => Err(ExecError::Memory),
    }
}

// the replies to the part's requests, as many executed at a time as are planned together
fn execute_in_parts<R: Threads + Wait + Sync, G: Gate + Sync>(
    means: &Means<'_, R, G>,
    tree: &mut Tree,
    part: &Part<'_>,
    rounds: Rounds,
) -> Result<Replies, Memory>
    requires whole { IsTrue ((reach_of tree.old).whole) }
    requires formed { IsWellFormed (record { tree = at_home tree.old; next_ordinal = part.now.ordinal; last_time = part.now.time }) }
    requires start { part.now.first ≡ 0 }
    ensures inodes { IfOk result (λ _. at_home tree.new ≡ inodes_after (at_home tree.old) part.now.ordinal part.now.time (requests_in part.now)) }
    ensures whole { IfOk result (λ _. IsTrue ((reach_of tree.new).whole)) }
    ensures replies { IfOk result (λ replies. replies ≡ replies_to (at_home tree.old) part.now.ordinal part.now.time (requests_in part.now)) }
    ensures ran { IfOk result (λ replies. AllRan G.ran part.now.first (requests_in part.now) replies) }
{
    let mut rounds = rounds;
    let mut replies = Replies::new(means.alloc);
    let mut left = Part { ..*part };
    while left.len() > 0 {
        let count = execute_part(means, tree, &left, &mut rounds, &mut replies)?;
        left = left.after(count);
    }
    Ok(replies)
}
