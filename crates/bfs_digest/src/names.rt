// How often entries name each inode.
ghost use Rattle.std.specs.Prelude.{◌≡◌, ◌==◌, OnOk, if◌then◌else◌};
ghost use Rattle.std.specs.FinMap.{empty};
ghost use Rattle.bfs_model.specs.Server.Tree.{entries_in};
ghost use Rattle.bfs_model.specs.Server.WellFormed.{times};
ghost use Rattle.bfs_digest.specs.Inside.Names.{counted_at, Adds, AreWithin};

use bfs_inode::{Directory, Inode};
use bfs_types::{FileId, Memory};
use std::alloc::Global;
use std::collections::BTreeMap;
use std::marker::Model;

/// By the numbers of fileids, how many entries name the inode. A count that a word does not hold stays at its largest.
#[derive(Drop)]
pub(crate) struct Names {
    counts: BTreeMap<u32, u32>,
}

impl Model for Names {
    ghost use Rattle.std.specs.FinMap as map;
    ghost use Rattle.std.specs.Coded.{coded_ℕ};
    ghost use Rattle.bfs_digest.specs.Inside.Names.{Counted};

    ghost Value = { Counted };

    ghost coded = { map.code coded_ℕ coded_ℕ };

    ghost use Rattle.bfs_tree.specs.Maps.{map_of};

    ghost view = { λ names. map_of names.counts };
}

impl Names {
    /// No entries yet.
    pub(crate) fn new(alloc: Global) -> Names
        ensures { result ≡ empty }
    {
        Names {
            counts: BTreeMap::new(alloc),
        }
    }

    /// How many entries name it.
    pub(crate) fn count(&self, id: FileId) -> u32
        ensures { result ≡ counted_at self.now id }
    {
        match self.counts.get(&id.number()) {
            Some(count) => *count,
            None => 0,
        }
    }

    /// The entries of an inode more, if it is a directory. `Memory` if memory runs out.
    pub(crate) fn count_all(&mut self, inode: &Inode) -> Result<(), Memory>
        requires { AreWithin self.old }
        ensures { OnOk result (Adds self.old (λ id. times id (entries_in inode.now.body)) self.new) }
    {
        match inode.directory() {
            Some(directory) => self.count_entries(directory),
            None => Ok(()),
        }
    }

    fn count_entries(&mut self, directory: &Directory) -> Result<(), Memory>
        requires { AreWithin self.old }
        ensures { OnOk result (Adds self.old (λ id. times id directory.now.entries) self.new) }
    {
        for entry in directory.iter() {
            self.count_one(entry.child)?;
        }
        Ok(())
    }

    // one entry more, that names the child
    fn count_one(&mut self, child: FileId) -> Result<(), Memory>
        requires { AreWithin self.old }
        ensures { OnOk result (Adds self.old (λ id. if child == id then 1 else 0) self.new) }
    {
        let count = self.count(child);
        self.counts.insert(child.number(), count.saturating_add(1))?;
        Ok(())
    }
}
