// How high the calls so far stand, by the inodes that they touch.
ghost use Rattle.std.specs.Prelude.{◌≡◌, ℕ, ◌+◌, ◌<◌, ◌≤◌, ◌==◌, ◌^◌, [], ◌∷◌, length, List, OnOk};
ghost use Rattle.bfs_model.specs.Server.Conflicts.{among};
ghost use Rattle.bfs_model.specs.Server.Footprints.{Footprint as ModelFootprint, ids_in};
ghost use Rattle.bfs_footprint.specs.Seen.{footprint_seen};
ghost use Rattle.bfs_levels.specs.Planning.{height, level_behind, parts_groups};
ghost use Rattle.bfs_levels.specs.Touching.{touch_seen};
ghost use Rattle.bfs_levels.specs.Marking.{IsMarked, mark_at, higher, highest_at, no_mark, raised};

use bfs_footprint::{Footprint, Touch};
use bfs_types::{FileId, Memory};
use std::alloc::Global;
use std::collections::HashMap;

// one more than the highest level of a call that writes an inode, and of one that reads or writes it; 0 where none does
#[derive(Clone, Copy, Debug)]
pub(crate) struct Mark {
    pub(crate) written: u32,
    pub(crate) touched: u32,
}

impl Mark {
    fn none() -> Mark
        ensures { result ≡ no_mark }
    {
        Mark {
            written: 0,
            touched: 0,
        }
    }

    fn higher(self, other: Mark) -> Mark
        ensures { result ≡ higher self other }
    {
        Mark {
            written: self.written.max(other.written),
            touched: self.touched.max(other.touched),
        }
    }
}

// the marks of the inodes that the calls so far name, of those that have all inodes, and of all
#[derive(Debug, Drop)]
pub(crate) struct Marks {
    pub(crate) by_id: HashMap<u32, Mark>,
    pub(crate) whole: u32,
    pub(crate) any: u32,
}

impl Marks {
    pub(crate) fn new(alloc: Global) -> Marks
        ensures { IsMarked result [] }
    {
        Marks {
            by_id: HashMap::new(alloc),
            whole: 0,
            any: 0,
        }
    }

    // found by two look-ups for each fileid of the footprint
    pub(crate) fn level(&self, footprint: &Footprint) -> u32
        ensures { (earlier : List (ModelFootprint × ℕ)) → IsMarked self.now earlier → result ≡ level_behind earlier (footprint_seen footprint.now) }
    {
        match footprint {
            Footprint::Known { reads, writes } => {
                let reading = highest_at(&self.by_id, reads.as_slice());
                let writing = highest_at(&self.by_id, writes.as_slice());
                self.whole.max(reading.written).max(writing.touched)
            }
            Footprint::Whole => self.any,
        }
    }

    // one more than the highest level of a call that can't be in one group with this one; 0 where all can
    pub(crate) fn parting(&self, touch: &Touch) -> u32
        ensures { (earlier : List (ModelFootprint × ℕ)) → IsMarked self.now earlier → result ≡ height (λ other. parts_groups other (touch_seen touch.now)) earlier }
    {
        match touch.footprint {
            Footprint::Known { .. } => {
                let first = mark_in(&self.by_id, touch.resolved.first);
                let second = mark_in(&self.by_id, touch.resolved.second);
                self.whole.max(first.written).max(second.written)
            }
            Footprint::Whole => self.any,
        }
    }

    // room for so many fileids more
    pub(crate) fn reserve(&mut self, more: usize) -> Result<(), Memory>
        ensures { (earlier : List (ModelFootprint × ℕ)) → IsMarked self.old earlier → IsMarked self.new earlier }
    {
        self.by_id.reserve(more)?;
        Ok(())
    }

    // puts one more call to those so far, of that level
    pub(crate) fn add(&mut self, footprint: &Footprint, level: u32) -> Result<(), Memory>
        requires { level + 1 < 2 ^ 32 }
        ensures { OnOk result ((earlier : List (ModelFootprint × ℕ)) → level ≤ length earlier → IsMarked self.old earlier → IsMarked self.new ((footprint_seen footprint.now, level) ∷ earlier)) }
    {
        let height = level + 1;
        match footprint {
            Footprint::Known { reads, writes } => {
                let read = Mark {
                    written: 0,
                    touched: height,
                };
                let written = Mark {
                    written: height,
                    touched: height,
                };
                raise(&mut self.by_id, reads.as_slice(), read)?;
                raise(&mut self.by_id, writes.as_slice(), written)?;
            }
            Footprint::Whole => self.whole = self.whole.max(height),
        }
        self.any = self.any.max(height);
        Ok(())
    }
}

fn mark_at(marks: &HashMap<u32, Mark>, id: FileId) -> Mark
    ensures { result ≡ mark_at marks.now id }
{
    match marks.get(&id.number()) {
        Some(mark) => *mark,
        None => Mark::none(),
    }
}

fn mark_in(marks: &HashMap<u32, Mark>, dir: Option<FileId>) -> Mark
    ensures { result ≡ highest_at marks.now no_mark (ids_in dir) }
{
    match dir {
        Some(id) => mark_at(marks, id),
        None => Mark::none(),
    }
}

fn highest_at(marks: &HashMap<u32, Mark>, ids: &[FileId]) -> Mark
    ensures { result ≡ highest_at marks.now no_mark ids.now }
{
    let mut mark = Mark::none();
    for id in ids {
        mark = mark.higher(mark_at(marks, *id));
    }
    mark
}

fn raise(marks: &mut HashMap<u32, Mark>, ids: &[FileId], by: Mark) -> Result<(), Memory>
    ensures { OnOk result ((id : ℕ) → mark_at marks.new id ≡ raised by (among ids.now id) (mark_at marks.old id)) }
{
    for id in ids {
        raise_one(marks, *id, by)?;
    }
    Ok(())
}

#[tactic(auto, using(crate::proofs::Marked::mark_at_inserted))]
fn raise_one(marks: &mut HashMap<u32, Mark>, id: FileId, by: Mark) -> Result<(), Memory>
    ensures { OnOk result ((other : ℕ) → mark_at marks.new other ≡ raised by (id == other) (mark_at marks.old other)) }
{
    let mark = marks.entry(id.number())?.or_insert(Mark::none());
    *mark = mark.higher(by);
    Ok(())
}
