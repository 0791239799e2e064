ghost use Rattle.std.specs.Prelude.{◌≡◌, drop, length, map, take, IfOk, IsTrue};
ghost use Rattle.bfs_model.specs.Server.Groups.{footprints_at};
ghost use Rattle.bfs_tree.specs.Tree.{at_home, reach_of};
ghost use Rattle.bfs_footprint.specs.Seen.{footprint_seen};
ghost use Rattle.bfs_levels.specs.Parts.{footprints_before, run_count};
ghost use Rattle.bfs_levels.specs.Planning.{run_length};

use crate::part::Part;
use crate::plans::{Rule, planned};
use bfs_footprint::Footprint;
use bfs_serial::Batch;
use bfs_tree::Tree;
use bfs_types::{Memory, Ordinal, Time};
use std::alloc::Global;

/// Requests of a batch, one behind another, of which none conflicts with another.
#[derive(Debug, Drop)]
pub struct Run {
    /// The place of the first in the batch.
    pub first: usize,
    /// What each reads and writes, as the inodes are before the first.
    pub footprints: Vec<Footprint>,
}

impl Run {
    /// How many they are.
    pub fn len(&self) -> usize
        ensures { result ≡ length self.now.footprints.items }
    {
        self.footprints.len()
    }
}

/// The longest run of the batch's requests that begins with the one at that place, which has that ordinal. The tree is whole.
#[tactic(auto, using(crate::proofs::Left::all_before))]
pub fn runs(
    alloc: Global,
    tree: &Tree,
    ordinal: Ordinal,
    time: Time,
    batch: &Batch,
    first: usize,
) -> Result<Run, Memory>
    requires whole { IsTrue ((reach_of tree.now).whole) }
    ensures first { IfOk result (λ run. run.first ≡ first) }
    ensures longest { IfOk result (λ run. let requests = drop first batch.now.requests in map footprint_seen run.footprints.items ≡ footprints_at (at_home tree.now) ordinal time (take (run_length (at_home tree.now) ordinal time requests) requests)) }
    ensures count { IfOk result (λ run. length run.footprints.items ≡ run_length (at_home tree.now) ordinal time (drop first batch.now.requests)) }
{
    let part = Part {
        batch,
        first,
        ordinal,
        time,
    };
    part.run_before(alloc, tree, batch.len())
}

impl Part<'_> {
    /// The longest run of its requests before the place `end` that begins with the first. The tree is whole.
    pub fn run_before(&self, alloc: Global, tree: &Tree, end: usize) -> Result<Run, Memory>
        requires whole { IsTrue ((reach_of tree.now).whole) }
        ensures first { IfOk result (λ run. run.first ≡ self.now.first) }
        ensures longest { IfOk result (λ run. map footprint_seen run.footprints.items ≡ footprints_before (at_home tree.now) self.now end (run_count (at_home tree.now) self.now end)) }
        ensures count { IfOk result (λ run. length run.footprints.items ≡ run_count (at_home tree.now) self.now end) }
    {
        let (footprints, _) = planned(alloc, tree, self, end, Rule::Runs)?;
        Ok(Run {
            first: self.first,
            footprints,
        })
    }
}
