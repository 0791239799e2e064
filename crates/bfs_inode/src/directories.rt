ghost use Rattle.std.specs.Prelude.{◌≡◌, ◌≤◌, ◌↔◌, None, [], length, slice_get, is_some, IsTrue};
ghost use Rattle.std.specs.Option.{option_copied};
ghost use Rattle.bfs_model.specs.Server.Directories.{entry_named};
ghost use Rattle.bfs_model.specs.Server.Limits.{most_entries};
ghost use Rattle.bfs_model.specs.Server.Procedures.Names.{child_named};
ghost use Rattle.bfs_model.specs.Server.Tree.{spent_ordinal};
ghost use Rattle.bfs_model.specs.Server.WellFormed.{IsRising, NamesDiffer};

mod changes;
mod entries;
mod index;
mod order;
mod pages;
mod rest;

use bfs_types::{FileId, Name};
pub use entries::Entries;
pub use pages::{Listed, Page};
use std::alloc::Global;
use std::collections::BTreeMap;
use std::marker::Model;

/// A name in a directory (RFC 1094 section 2.2.17).
#[derive(Debug, Drop)]
pub struct Entry {
    /// The number that READDIR goes on behind. The cookies of a directory rise from entry to entry.
    pub cookie: u32,
    /// The name, without the directories above.
    pub name: Name,
    /// The fileid of the inode that it names.
    pub child: FileId,
}

impl Model for Entry {
    ghost use Rattle.bfs_model.specs.Server.Tree as model;

    ghost Value = { model.Entry };

    ghost view = { λ entry. record { cookie = entry.cookie; name = entry.name; child = entry.child } };
}

/// The directory above, and at most `MOST_ENTRIES` entries. `.` and `..` are not among them. The cookies rise from entry to
/// entry, and no two entries have one name.
///
/// The entries stand in a tree by cookie, and their names in another one, so that no call but a walk is linear in the entries, whatever
/// names a client chooses.
#[derive(Debug, Drop)]
pub struct Directory {
    alloc: Global,
    parent: FileId,
    // by cookie
    entries: BTreeMap<u32, Entry>,
    // the cookie of each name
    cookies: BTreeMap<Vec<u8>, u32>,
}

impl Model for Directory {
    ghost use Rattle.std.specs.BTreeMap.{values};
    ghost use Rattle.bfs_model.specs.Server.Tree as model;
    ghost use Rattle.bfs_inode.specs.Directories.{AreEntries, AreIndexed};

    ghost Value = { model.Listing };

    ghost view = { λ directory. record { parent = directory.parent; entries = values directory.entries } };

    ghost invariant = { λ directory. AreEntries (values directory.entries) × AreIndexed directory.entries.entries directory.cookies.entries };
}

impl Directory {
    /// A directory with no entries, below the one of that fileid.
    pub fn new(alloc: Global, parent: FileId) -> Directory
        ensures { result ≡ record { parent = parent; entries = [] } }
    {
        Directory {
            alloc,
            parent,
            entries: BTreeMap::new(alloc),
            cookies: BTreeMap::new(alloc),
        }
    }

    /// The fileid of the directory above. That of the root is the root itself.
    pub fn parent(&self) -> FileId
        ensures { result ≡ self.now.parent }
    {
        self.parent
    }

    /// How many entries there are.
    pub fn len(&self) -> usize
        ensures value { result ≡ length self.now.entries }
        ensures within { result ≤ most_entries }
    {
        self.entries.len()
    }

    /// Whether there are no entries.
    pub fn is_empty(&self) -> bool
        ensures { IsTrue result ↔ (self.now.entries ≡ []) }
    {
        self.entries.is_empty()
    }

    /// The entries by rising cookie.
    pub fn iter(&self) -> Entries<'_>
        ensures value { result ≡ self.now.entries }
        ensures within { length result ≤ most_entries }
    {
        Entries {
            left: self.entries.values(),
        }
    }

    /// There are at most `MOST_ENTRIES` entries, their cookies rise from entry to entry, and no two have one name. The body does
    /// nothing: what is said is its contract.
    pub fn entries_are_in_order(&self)
        ensures few { length self.now.entries ≤ most_entries }
        ensures rising { IsRising 0 self.now.entries spent_ordinal }
        ensures differ { NamesDiffer self.now.entries }
    {
        let _ = &self.entries;
    }

    /// The entry of that name, or `None` if there is none. It costs a look-up in each of two trees.
    pub fn entry(&self, name: &[u8]) -> Option<&Entry>
        ensures { option_copied result ≡ entry_named name.now self.now.entries }
    {
        match self.cookies.get(name) {
            Some(cookie) => self.entries.get(cookie),
            None => None,
        }
    }

    /// Whether there is an entry of that name. It costs a look-up in one tree, and less where the name is behind all names of the
    /// directory in the order of their bytes, as that of a new entry often is.
    pub fn holds(&self, name: &[u8]) -> bool
        ensures { result ≡ is_some (entry_named name.now self.now.entries) }
    {
        !self.is_behind_names(name) && self.cookies.contains_key(name)
    }

    // whether a name is behind all that are there, so that it is none of them
    fn is_behind_names(&self, name: &[u8]) -> bool
        ensures { IsTrue result → entry_named name.now self.now.entries ≡ None }
    {
        match self.cookies.last_key_value() {
            Some((last, _)) => last.as_slice().cmp(name).is_lt(),
            None => true,
        }
    }

    /// The fileid that a name leads to (RFC 1094 section 2.2.5), or `None` if there is no such entry. `.` leads to the directory
    /// itself, whose fileid is given, and `..` to the directory above.
    pub fn child_named(&self, itself: FileId, name: &[u8]) -> Option<FileId>
        ensures { result ≡ child_named itself self.now name.now }
    {
        if name == b".".as_slice() {
            Some(itself)
        } else if name == b"..".as_slice() {
            Some(self.parent)
        } else {
            self.entry(name).map(|entry| entry.child)
        }
    }

    /// The entry at a place, counted from 0 by rising cookie, or `None` if there are not that many. It goes over the entries
    /// before it.
    pub fn at(&self, place: usize) -> Option<&Entry>
        ensures { option_copied result ≡ slice_get self.now.entries place }
    {
        self.iter().nth(place)
    }
}
