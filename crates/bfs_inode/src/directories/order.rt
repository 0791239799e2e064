// Entries that may be a directory's: they are few, their cookies rise, and their names differ.
ghost use Rattle.std.specs.Prelude.{◌↔◌, IsTrue, IfOk};
ghost use Rattle.std.specs.Option.{SomeIff};
ghost use Rattle.bfs_model.specs.Server.Tree.{spent_ordinal};
ghost use Rattle.bfs_model.specs.Server.WellFormed.{IsRising};
ghost use Rattle.bfs_inode.specs.Directories.{AreEntries};

use crate::directories::{Directory, Entry};
use bfs_types::{FileId, MOST_ENTRIES, Memory};
use std::alloc::Global;

impl Directory {
    /// The directory with these entries, below the one of that fileid. `None` if they can't be a directory's: there are more than
    /// `MOST_ENTRIES`, their cookies don't rise from entry to entry, or two have one name. Each entry costs look-ups in two trees.
    /// `Memory` if memory runs out.
    pub fn from_entries(
        alloc: Global,
        parent: FileId,
        entries: Vec<Entry>,
    ) -> Result<Option<Directory>, Memory>
        ensures { IfOk result (λ made. SomeIff made (AreEntries entries.items) (record { parent = parent; entries = entries.items })) }
    {
        if entries.len() > MOST_ENTRIES || !cookies_rise(&entries) {
            return Ok(None);
        }
        let mut directory = Directory::new(alloc, parent);
        for entry in entries {
            if directory.entry(entry.name.as_slice()).is_some() {
                return Ok(None);
            }
            directory.push(entry.cookie, entry.name, entry.child)?;
        }
        Ok(Some(directory))
    }
}

fn cookies_rise(entries: &[Entry]) -> bool
    ensures { IsTrue result ↔ IsRising 0 entries.now spent_ordinal }
{
    let mut least = 0u64;
    for entry in entries {
        let cookie = entry.cookie as u64;
        if cookie < least {
            return false;
        }
        least = cookie + 1;
    }
    true
}
