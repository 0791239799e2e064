ghost use Rattle.std.specs.Prelude.{◌≡◌, drop, length, map, take, IfOk, IsTrue};
ghost use Rattle.bfs_model.specs.Server.Groups.{footprints_at};
ghost use Rattle.bfs_tree.specs.Tree.{at_home, reach_of};
ghost use Rattle.bfs_footprint.specs.Seen.{footprint_seen};
ghost use Rattle.bfs_levels.specs.Parts.{footprints_before, group_count};
ghost use Rattle.bfs_levels.specs.Planning.{group_length, levels_of};

use crate::part::Part;
use crate::plans::{Rule, planned};
use bfs_footprint::Footprint;
use bfs_serial::Batch;
use bfs_tree::Tree;
use bfs_types::{Memory, Ordinal, Time};
use std::alloc::Global;

/// Requests of a batch, one behind another, of which none resolves names in a directory that an earlier one writes; or one that
/// may touch all inodes.
#[derive(Debug, Drop)]
pub struct Group {
    /// The place of the first in the batch.
    pub first: usize,
    /// What each reads and writes, as the inodes are before the first.
    pub footprints: Vec<Footprint>,
    /// For each 0, or one more than the highest level of the earlier ones that conflict with it.
    pub level_of: Vec<u32>,
}

impl Group {
    /// How many they are.
    pub fn len(&self) -> usize
        ensures { result ≡ length self.now.footprints.items }
    {
        self.footprints.len()
    }
}

/// The longest group of the batch's requests that begins with the one at that place, which has that ordinal. The tree is whole.
#[tactic(auto, using(crate::proofs::Left::all_before))]
pub fn plan_group(
    alloc: Global,
    tree: &Tree,
    ordinal: Ordinal,
    time: Time,
    batch: &Batch,
    first: usize,
) -> Result<Group, Memory>
    requires whole { IsTrue ((reach_of tree.now).whole) }
    ensures first { IfOk result (λ group. group.first ≡ first) }
    ensures longest { IfOk result (λ group. let requests = drop first batch.now.requests in map footprint_seen group.footprints.items ≡ footprints_at (at_home tree.now) ordinal time (take (group_length (at_home tree.now) ordinal time requests) requests)) }
    ensures count { IfOk result (λ group. length group.footprints.items ≡ group_length (at_home tree.now) ordinal time (drop first batch.now.requests)) }
    ensures levels { IfOk result (λ group. group.level_of.items ≡ levels_of (map footprint_seen group.footprints.items)) }
{
    let part = Part {
        batch,
        first,
        ordinal,
        time,
    };
    part.group_before(alloc, tree, batch.len())
}

impl Part<'_> {
    /// The longest group of its requests before the place `end` that begins with the first. The tree is whole.
    ///
    /// It costs a few look-ups in a map of the inodes that the group touches for each request.
    pub fn group_before(&self, alloc: Global, tree: &Tree, end: usize) -> Result<Group, Memory>
        requires whole { IsTrue ((reach_of tree.now).whole) }
        ensures first { IfOk result (λ group. group.first ≡ self.now.first) }
        ensures longest { IfOk result (λ group. map footprint_seen group.footprints.items ≡ footprints_before (at_home tree.now) self.now end (group_count (at_home tree.now) self.now end)) }
        ensures count { IfOk result (λ group. length group.footprints.items ≡ group_count (at_home tree.now) self.now end) }
        ensures levels { IfOk result (λ group. group.level_of.items ≡ levels_of (map footprint_seen group.footprints.items)) }
    {
        let (footprints, level_of) = planned(alloc, tree, self, end, Rule::Groups)?;
        Ok(Group {
            first: self.first,
            footprints,
            level_of,
        })
    }
}
