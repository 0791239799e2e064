// Requests that are executed one after another, by the gate on the calling thread.
ghost use Rattle.std.specs.Prelude.{◌<◌, ◌≤◌, ◌+◌, IfOk, IsTrue, length};
ghost use Rattle.bfs_model.specs.Server.WellFormed.{IsWellFormed};
ghost use Rattle.bfs_tree.specs.Tree.{at_home, reach_of};
ghost use Rattle.bfs_parallel.specs.Parts.{IsPartExecuted};

use bfs_levels::Part;
use bfs_serial::Replies;
use bfs_tree::Tree;
use bfs_types::Memory;
use bfs_workers::Gate;
use std::alloc::Global;

/// Executes the first so many of the part's requests, and puts their replies behind the others. `Memory` if memory runs out; the tree may then
/// not be whole.
pub(crate) fn execute_in_order<G: Gate>(
    alloc: Global,
    tree: &mut Tree,
    part: &Part<'_>,
    count: usize,
    gate: &G,
    replies: &mut Replies,
) -> Result<(), Memory>
    requires whole { IsTrue ((reach_of tree.old).whole) }
    requires formed { IsWellFormed (record { tree = at_home tree.old; next_ordinal = part.now.ordinal; last_time = part.now.time }) }
    requires some { 0 < count }
    requires within { part.now.first + count ≤ length part.now.batch.now.requests }
    ensures { IfOk result (λ _. IsPartExecuted G.ran tree.old tree.new part.now.ordinal part.now.time part.now.batch.now.requests part.now.first count replies.old replies.new) }
{
    for done in 0..count {
        execute_one(alloc, tree, &part.after(done), gate, replies)?;
    }
    Ok(())
}

// the first request of the part
fn execute_one<G: Gate>(
    alloc: Global,
    tree: &mut Tree,
    part: &Part<'_>,
    gate: &G,
    replies: &mut Replies,
) -> Result<(), Memory>
    requires whole { IsTrue ((reach_of tree.old).whole) }
    requires formed { IsWellFormed (record { tree = at_home tree.old; next_ordinal = part.now.ordinal; last_time = part.now.time }) }
    requires within { part.now.first < length part.now.batch.now.requests }
    ensures { IfOk result (λ _. IsPartExecuted G.ran tree.old tree.new part.now.ordinal part.now.time part.now.batch.now.requests part.now.first 1 replies.old replies.new) }
{
    let reply = gate.answer_one(alloc, tree, part)?;
    replies.push(reply)?;
    Ok(())
}
