// Calls planned one after another.
ghost use Rattle.std.specs.Prelude.{◌≡◌, ◌+◌, ◌<◌, ◌^◌, [], ◌∷◌, ◌++◌, length, map, IfOk, IsTrue, OnOk};
ghost use Rattle.bfs_tree.specs.Tree.{at_home, reach_of};
ghost use Rattle.bfs_footprint.specs.Seen.{footprint_seen};
ghost use Rattle.bfs_levels.specs.Planning.{levels_of, level_behind};
ghost use Rattle.bfs_levels.specs.Marking.{levelled};
ghost use Rattle.bfs_levels.specs.Planned.{IsPlan, calls_in, level_joined, planned_count};
ghost use Rattle.bfs_levels.specs.Parts.{footprints_before};
ghost use Rattle.bfs_levels.specs.Touching.{touch_seen};

use crate::marks::Marks;
use crate::part::Part;
use bfs_footprint::{Footprint, Touch, touch_of};
use bfs_tree::Tree;
use bfs_types::Memory;
use std::alloc::Global;

// what is planned
#[derive(Clone, Copy)]
pub(crate) enum Rule {
    Runs,
    Groups,
}

// how many calls a plan has when room is made for all that may follow: a short one takes no more than it needs
const LONG: usize = 32;

// calls with their levels, and the marks of them all
#[derive(Drop)]
pub(crate) struct Plan {
    pub(crate) footprints: Vec<Footprint>,
    pub(crate) level_of: Vec<u32>,
    pub(crate) marks: Marks,
}

impl Plan {
    fn new(alloc: Global) -> Plan
        ensures plan { IsPlan result }
        ensures empty { calls_in result ≡ [] }
    {
        Plan {
            footprints: Vec::new(alloc),
            level_of: Vec::new(alloc),
            marks: Marks::new(alloc),
        }
    }

    // the level of a call that can be in one run, or group, with those that are planned
    fn level(&self, rule: Rule, touch: &Touch) -> Option<u32>
        requires { IsPlan self.now }
        ensures { result ≡ level_joined rule (calls_in self.now) (touch_seen touch.now) }
    {
        let level = self.marks.level(&touch.footprint);
        let parting = match rule {
            Rule::Runs => level,
            Rule::Groups => self.marks.parting(touch),
        };
        (parting == 0).then_some(level)
    }

    // puts one more call behind them
    fn add(&mut self, footprint: Footprint, level: u32) -> Result<(), Memory>
        requires plan { IsPlan self.old }
        requires level { level ≡ level_behind (levelled (calls_in self.old)) (footprint_seen footprint) }
        requires few { length (calls_in self.old) + 1 < 2 ^ 32 }
        ensures plan { OnOk result (IsPlan self.new) }
        ensures calls { OnOk result (calls_in self.new ≡ calls_in self.old ++ footprint_seen footprint ∷ []) }
    {
        self.marks.add(&footprint, level)?;
        self.level_of.push(level)?;
        self.footprints.push(footprint)?;
        Ok(())
    }

    // once they are many, makes room for so many more
    fn make_room(&mut self, more: usize) -> Result<(), Memory>
        requires { IsPlan self.old }
        ensures plan { IsPlan self.new }
        ensures calls { calls_in self.new ≡ calls_in self.old }
    {
        if self.footprints.len() == LONG {
            self.footprints.reserve(more)?;
            self.level_of.reserve(more)?;
            self.marks.reserve(more)?;
        }
        Ok(())
    }
}

// the footprints and the levels of the longest run, or group, of the part's requests before that end that begins with the first
pub(crate) fn planned(
    alloc: Global,
    tree: &Tree,
    part: &Part<'_>,
    end: usize,
    rule: Rule,
) -> Result<(Vec<Footprint>, Vec<u32>), Memory>
    requires whole { IsTrue ((reach_of tree.now).whole) }
    ensures joined { IfOk result (λ plan. map footprint_seen plan.0.items ≡ footprints_before (at_home tree.now) part.now end (planned_count rule (at_home tree.now) part.now end)) }
    ensures count { IfOk result (λ plan. length plan.0.items ≡ planned_count rule (at_home tree.now) part.now end) }
    ensures levels { IfOk result (λ plan. plan.1.items ≡ levels_of (map footprint_seen plan.0.items)) }
{
    let stop = end.min(part.batch.len());
    let mut ordinal = part.ordinal;
    let mut plan = Plan::new(alloc);
    for index in part.first..stop {
        let touch = touch_of(tree, ordinal, part.time, part.batch.request(index));
        let Some(level) = plan.level(rule, &touch) else {
            break;
        };
        plan.make_room(stop - index)?;
        plan.add(touch.footprint, level)?;
        ordinal = ordinal.next();
    }
    Ok((plan.footprints, plan.level_of))
}
