ghost use Rattle.std.specs.Prelude.{◌≡◌, ◌<◌, ◌≤◌, ◌+◌, ◌++◌, ℕ, [], ◌∷◌, IfOk, IsTrue, List, OnOk, length, map};
ghost use Rattle.std.specs.List.{All};
ghost use Rattle.bfs_model.specs.Server.Limits.{most_reply_bytes};
ghost use Rattle.bfs_footprint.specs.Seen.{footprint_seen};
ghost use Rattle.bfs_tree.specs.Tree.{at_home, reach_of};
ghost use Rattle.bfs_parallel.specs.Levels.{AreInLevels, AreKept, IsGroupOf, all_put, bucket_at};
ghost use Rattle.bfs_parallel.specs.Parts.{IsPartExecuted};

use crate::carrying::carry_out;
use crate::means::Means;
use crate::rounds::Rounds;
use bfs_handover::NumberedReply;
use bfs_levels::{Group, Part};
use bfs_serial::Replies;
use bfs_tree::Tree;
use bfs_types::Memory;
use bfs_workers::Gate;
use std::alloc::Global;
use std::sync::Wait;
use std::thread::Threads;

/// A group, and the numbers of its requests, level after level.
#[derive(Drop)]
pub(crate) struct LevelledGroup<'a> {
    pub(crate) group: &'a Group,
    pub(crate) levels: Vec<Vec<u32>>,
}

/// Executes a group of the part's first requests, level after level, and puts their replies behind the others, where there is one of each
/// request before the part. It is known of each what it touches. `Memory` if memory runs out; the tree may then not be whole.
pub(crate) fn execute_levels<R: Threads + Wait + Sync, G: Gate + Sync>(
    means: &Means<'_, R, G>,
    tree: &mut Tree,
    part: &Part<'_>,
    levelled: LevelledGroup<'_>,
    rounds: &Rounds,
    replies: &mut Replies,
) -> Result<(), Memory>
    requires whole { IsTrue ((reach_of tree.old).whole) }
    requires group { IsGroupOf (at_home tree.old) part.now.first part.now.ordinal part.now.time part.now.batch.now.requests (map footprint_seen levelled.group.now.footprints.items) levelled.group.now.level_of.items }
    requires levels { AreInLevels part.now.first levelled.group.now.level_of.items 0 levelled.levels.items }
    requires some { 0 < length levelled.group.now.footprints.items }
    requires placed { length replies.old ≡ part.now.first }
    ensures { IfOk result (λ _. IsPartExecuted G.ran tree.old tree.new part.now.ordinal part.now.time part.now.batch.now.requests part.now.first (length levelled.entry.group.now.footprints.items) replies.old replies.new) }
{
    let LevelledGroup { group, levels } = levelled;
    replies.add_places(means.alloc, group.len())?;
    for numbers in levels {
        let workers = rounds.workers_for(part.batch, numbers.as_slice());
        let carried = carry_out(
            means,
            tree,
            part,
            group.footprints.as_slice(),
            numbers.as_slice(),
            workers,
        )?;
        put_all(replies, carried);
    }
    Ok(())
}

/// The numbers of requests that stand at these levels, level after level: the first has that number.
pub(crate) fn levels_in(
    alloc: Global,
    first: usize,
    level_of: &[u32],
) -> Result<Vec<Vec<u32>>, Memory>
    requires { first + length level_of.now ≤ 4294967295 }
    ensures { IfOk result (λ levels. AreInLevels first level_of.now 0 levels.items) }
{
    let mut levels = Vec::new(alloc);
    let mut number = first as u32;
    for level in level_of {
        put_number(alloc, &mut levels, *level as usize, number)?;
        number += 1;
    }
    Ok(levels)
}

// puts one number more at its level
fn put_number(
    alloc: Global,
    levels: &mut Vec<Vec<u32>>,
    level: usize,
    number: u32,
) -> Result<(), Memory>
    ensures { OnOk result ((first : ℕ) (before : List ℕ) → AreKept first before levels.old.items → number ≡ first + length before → AreKept first (before ++ level ∷ []) levels.new.items) }
{
    grow(alloc, levels, level)?;
    levels[level].push(number)?;
    Ok(())
}

// until there is that level
fn grow(alloc: Global, levels: &mut Vec<Vec<u32>>, level: usize) -> Result<(), Memory>
    ensures long { OnOk result (level < length levels.new.items) }
    ensures no_shorter { OnOk result (length levels.old.items ≤ length levels.new.items) }
    ensures same { OnOk result ((other : ℕ) → bucket_at levels.new.items other ≡ bucket_at levels.old.items other) }
{
    while levels.len() <= level {
        levels.push(Vec::new(alloc))?;
    }
    Ok(())
}

// puts each reply at the place of its number
fn put_all(replies: &mut Replies, carried: Vec<NumberedReply>)
    requires { All (λ reply. (reply.number < length replies.old) × (length reply.bytes.items ≤ most_reply_bytes)) carried.items }
    ensures { replies.new ≡ all_put carried.items replies.old }
{
    for reply in carried {
        replies.put(reply.number as usize, reply.bytes);
    }
}
