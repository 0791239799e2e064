ghost use Rattle.std.specs.Prelude.{◌≡◌, []};
ghost use Rattle.std.specs.List.{list_any};
ghost use Rattle.bfs_model.specs.Server.Conflicts as model_conflicts;
ghost use Rattle.bfs_model.specs.Server.Footprints as model;
ghost use Rattle.bfs_footprint.specs.Seen.{footprint_seen};

use crate::file_ids::FileIds;
use bfs_types::FileId;

/// The inodes that a call reads and those that it writes, by their fileids. What is written may be read.
#[derive(Debug, Drop)]
pub enum Footprint {
    /// These alone.
    Known { reads: FileIds, writes: FileIds },
    /// Any inode may be read and written.
    Whole,
}

impl Footprint {
    /// That of a call that reads and writes nothing.
    pub fn none() -> Footprint
        ensures { footprint_seen result ≡ model.known [] [] }
    {
        Footprint::Known {
            reads: FileIds::none(),
            writes: FileIds::none(),
        }
    }

    pub(crate) fn of_reads(reads: FileIds) -> Footprint
        ensures { footprint_seen result ≡ model.known reads [] }
    {
        Footprint::Known {
            reads,
            writes: FileIds::none(),
        }
    }

    pub(crate) fn of_writes(writes: FileIds) -> Footprint
        ensures { footprint_seen result ≡ model.known [] writes }
    {
        Footprint::Known {
            reads: FileIds::none(),
            writes,
        }
    }

    /// Whether it has all inodes.
    pub fn is_whole(&self) -> bool
        ensures { result ≡ model_conflicts.is_whole (footprint_seen self.now) }
    {
        matches!(self, Footprint::Whole)
    }

    /// Whether it writes the inode of that fileid.
    pub fn writes(&self, id: FileId) -> bool
        ensures { result ≡ model_conflicts.is_written (footprint_seen self.now) id }
    {
        match self {
            Footprint::Known { writes, .. } => writes.has(id),
            Footprint::Whole => true,
        }
    }

    /// Whether it reads or writes the inode of that fileid.
    pub fn touches(&self, id: FileId) -> bool
        ensures { result ≡ model_conflicts.is_touched (footprint_seen self.now) id }
    {
        match self {
            Footprint::Known { reads, writes } => reads.has(id) || writes.has(id),
            Footprint::Whole => true,
        }
    }
}

/// Whether one of two calls writes what the other reads or writes. Neither footprint has more than four fileids in a list, so each
/// of one is looked for among those of the other.
pub fn conflicts(footprint: &Footprint, other: &Footprint) -> bool
    ensures { result ≡ model_conflicts.conflict (footprint_seen footprint.now) (footprint_seen other.now) }
{
    match footprint {
        Footprint::Known { writes, .. } => match other {
            Footprint::Known { writes: theirs, .. } => {
                touches_any(other, writes.as_slice()) || touches_any(footprint, theirs.as_slice())
            }
            Footprint::Whole => true,
        },
        Footprint::Whole => true,
    }
}

fn touches_any(footprint: &Footprint, ids: &[FileId]) -> bool
    ensures { result ≡ list_any (model_conflicts.is_touched (footprint_seen footprint.now)) ids.now }
{
    ids.iter().any(|id| footprint.touches(*id))
}
