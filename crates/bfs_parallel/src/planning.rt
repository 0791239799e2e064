// Requests that are planned together.
ghost use Rattle.std.specs.Prelude.{◌<◌, ◌≡◌, IfOk, IsTrue, length, replicate};
ghost use Rattle.bfs_model.specs.Server.WellFormed.{IsWellFormed};
ghost use Rattle.bfs_tree.specs.Tree.{at_home, reach_of};
ghost use Rattle.bfs_parallel.specs.Levels.{IsPlanned};

use crate::engine::Engine;
use crate::rounds::Rounds;
use bfs_levels::{Group, Part, Run};
use bfs_tree::Tree;
use bfs_types::Memory;
use std::alloc::Global;

/// What is executed together of the part's requests, from the first on: of a few, or of all where these promise much for threads. A run is a
/// group of which all requests stand at one level.
pub(crate) fn plan(
    alloc: Global,
    tree: &Tree,
    part: &Part<'_>,
    rounds: &Rounds,
) -> Result<Group, Memory>
    requires whole { IsTrue ((reach_of tree.now).whole) }
    requires formed { IsWellFormed (record { tree = at_home tree.now; next_ordinal = part.now.ordinal; last_time = part.now.time }) }
    requires more { part.now.first < length part.now.batch.now.requests }
    ensures { IfOk result (λ group. IsPlanned (at_home tree.now) part.now.ordinal part.now.time part.now.batch.now.requests part.now.first group) }
{
    let count = part.batch.len();
    let end = rounds.end(part.first, count);
    let few = plan_before(alloc, tree, part, end, rounds.engine)?;
    if !rounds.goes_on(&few.level_of) {
        return Ok(few);
    }
    plan_before(alloc, tree, part, count, rounds.engine)
}

// of the requests before that end
fn plan_before(
    alloc: Global,
    tree: &Tree,
    part: &Part<'_>,
    end: usize,
    engine: Engine,
) -> Result<Group, Memory>
    requires whole { IsTrue ((reach_of tree.now).whole) }
    requires formed { IsWellFormed (record { tree = at_home tree.now; next_ordinal = part.now.ordinal; last_time = part.now.time }) }
    requires more { part.now.first < length part.now.batch.now.requests }
    requires before { part.now.first < end }
    ensures { IfOk result (λ group. IsPlanned (at_home tree.now) part.now.ordinal part.now.time part.now.batch.now.requests part.now.first group) }
{
    match engine {
        Engine::Runs => {
            let run = part.run_before(alloc, tree, end)?;
            one_level(alloc, run)
        }
        Engine::Levels => part.group_before(alloc, tree, end),
    }
}

// a run as a group, of which all requests stand at one level
fn one_level(alloc: Global, run: Run) -> Result<Group, Memory>
    ensures first { IfOk result (λ group. group.first ≡ run.first) }
    ensures footprints { IfOk result (λ group. group.footprints ≡ run.footprints) }
    ensures level { IfOk result (λ group. group.level_of.items ≡ replicate (length run.footprints.items) 0) }
{
    let level_of = vec![in alloc; 0; run.len()]?;
    Ok(Group {
        first: run.first,
        footprints: run.footprints,
        level_of,
    })
}
