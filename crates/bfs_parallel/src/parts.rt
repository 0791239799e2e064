// The parts of a batch that are executed one after another: runs, or groups.
ghost use Rattle.std.specs.Prelude.{◌<◌, ◌≡◌, IfOk, IsTrue, length};
ghost use Rattle.bfs_model.specs.Server.WellFormed.{IsWellFormed};
ghost use Rattle.bfs_tree.specs.Tree.{at_home, reach_of};
ghost use Rattle.bfs_parallel.specs.Parts.{IsPartExecuted};

use crate::levels::{LevelledGroup, execute_levels, levels_in};
use crate::means::Means;
use crate::planning::plan;
use crate::requests::execute_in_order;
use crate::rounds::Rounds;
use bfs_levels::Part;
use bfs_serial::Replies;
use bfs_tree::Tree;
use bfs_types::Memory;
use bfs_workers::Gate;
use std::sync::Wait;
use std::thread::Threads;

/// Executes the first of the part's requests: as many as are planned together, or as are left unplanned. It puts their replies behind the
/// others, of which there is one of each request before them, and tells how many they are. `Memory` if memory runs out; the tree may then
/// not be whole.
pub(crate) fn execute_part<R: Threads + Wait + Sync, G: Gate + Sync>(
    means: &Means<'_, R, G>,
    tree: &mut Tree,
    part: &Part<'_>,
    rounds: &mut Rounds,
    replies: &mut Replies,
) -> Result<usize, Memory>
    requires whole { IsTrue ((reach_of tree.old).whole) }
    requires formed { IsWellFormed (record { tree = at_home tree.old; next_ordinal = part.now.ordinal; last_time = part.now.time }) }
    requires more { part.now.first < length part.now.batch.now.requests }
    requires placed { length replies.old ≡ part.now.first }
    ensures { IfOk result (λ count. IsPartExecuted G.ran tree.old tree.new part.now.ordinal part.now.time part.now.batch.now.requests part.now.first count replies.old replies.new) }
{
    let unplanned = rounds.unplanned(part.batch.len() - part.first);
    if unplanned > 0 {
        execute_in_order(means.alloc, tree, part, unplanned, means.gate, replies)?;
        return Ok(unplanned);
    }
    let group = plan(means.alloc, tree, part, rounds)?;
    let count = group.len();
    if count > 1 {
        let levels = levels_in(means.alloc, part.first, group.level_of.as_slice())?;
        if rounds.start(part.batch, levels.as_slice()) {
            let group = LevelledGroup {
                group: &group,
                levels,
            };
            execute_levels(means, tree, part, group, rounds, replies)?;
            return Ok(count);
        }
    }
    rounds.put_off();
    execute_in_order(means.alloc, tree, part, count, means.gate, replies)?;
    Ok(count)
}
