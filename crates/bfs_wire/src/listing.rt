// What READDIR lists (RFC 1094 section 2.2.17).
ghost use Rattle.std.specs.Prelude.{◌≡◌, ◌≤◌, [], ◌∷◌, ◌++◌, take, length, false, OnOk, OnErr};
ghost use Rattle.std.specs.List.{flat_map};
ghost use Rattle.bfs_model.specs.Bytes.Items.{boolean};
ghost use Rattle.bfs_model.specs.Server.Limits.{most_name_bytes};
ghost use Rattle.bfs_model.specs.Bytes.Replies.{entry_item};

use bfs_types::{FileId, Memory, Name};
use bfs_xdr::{put_bool, put_opaque, put_u32};
use std::alloc::Global;
use std::marker::Model;

/// An entry of a directory, as READDIR lists it (RFC 1094 section 2.2.17, entry).
#[derive(Debug, Drop)]
pub struct ListedEntry {
    /// The cookie of a further READDIR, which goes on behind this entry.
    pub cookie: u32,
    /// The name, without the directories above; or `.` or `..`.
    pub name: Name,
    /// The inode that it names.
    pub child: FileId,
}

impl Model for ListedEntry {
    ghost use Rattle.bfs_model.specs.Server.Tree as model;

    ghost Value = { model.Entry };

    ghost view = { λ entry. record { cookie = entry.cookie; name = entry.name; child = entry.child } };
}

/// Entries of a directory, in the order in which they are listed.
#[derive(Debug, Drop)]
pub struct ListedEntries {
    entries: Vec<ListedEntry>,
}

impl Model for ListedEntries {
    ghost use Rattle.std.specs.Prelude.{List};
    ghost use Rattle.bfs_model.specs.Server.Tree as model;

    ghost Value = { List model.Entry };

    ghost view = { λ listed. listed.entries.items };
}

impl ListedEntries {
    /// No entries.
    pub fn new(alloc: Global) -> ListedEntries
        ensures { result ≡ [] }
    {
        ListedEntries {
            entries: Vec::new(alloc),
        }
    }

    /// Adds an entry at the end. `Memory` if memory runs out; then nothing changes.
    pub fn push(&mut self, entry: ListedEntry) -> Result<(), Memory>
        ensures ok { OnOk result (self.new ≡ self.old ++ entry ∷ []) }
        ensures err { OnErr result (self.new ≡ self.old) }
    {
        self.entries.push(entry)?;
        Ok(())
    }

    fn as_slice(&self) -> &[ListedEntry]
        ensures { result.now ≡ self.now }
    {
        self.entries.as_slice()
    }
}

// the entries one after another, or some of them behind what was there
pub(crate) fn put_entries(out: &mut Vec<u8>, entries: &ListedEntries) -> Result<(), Memory>
    ensures ok { OnOk result (out.new.items ≡ out.old.items ++ flat_map entry_item entries.now) }
    ensures err { OnErr result (take (length out.old.items) out.new.items ≡ out.old.items) }
{
    put_each(out, entries.as_slice())
}

#[tactic(auto, using(crate::proofs::Fronts::still_in_front))]
fn put_each(out: &mut Vec<u8>, entries: &[ListedEntry]) -> Result<(), Memory>
    ensures ok { OnOk result (out.new.items ≡ out.old.items ++ flat_map entry_item entries.now) }
    ensures err { OnErr result (take (length out.old.items) out.new.items ≡ out.old.items) }
{
    for entry in entries {
        put_entry(out, entry.cookie, entry.name.as_slice(), entry.child)?;
    }
    Ok(())
}

/// Appends an entry, as READDIR lists it (RFC 1094 section 2.2.17), behind the word that says that there is one. `Memory` if
/// memory runs out; then some of it may stand behind what was there.
#[tactic(auto, using(std::proofs::lemmas::List::append_assoc))]
pub fn put_entry(out: &mut Vec<u8>, cookie: u32, name: &[u8], child: FileId) -> Result<(), Memory>
    requires { length name.now ≤ most_name_bytes }
    ensures ok { OnOk result (out.new.items ≡ out.old.items ++ entry_item (record { cookie = cookie; name = name.now; child = child })) }
    ensures err { OnErr result (take (length out.old.items) out.new.items ≡ out.old.items) }
{
    put_bool(out, true)?;
    put_u32(out, child.number())?;
    put_opaque(out, name)?;
    put_u32(out, cookie)
}

/// Appends the word that says that there is no further entry in the list, and whether the entries in front of it are all that the
/// directory has (RFC 1094 section 2.2.17). `Memory` if memory runs out; then some of it may stand behind what was there.
pub fn put_end_of_entries(out: &mut Vec<u8>, all: bool) -> Result<(), Memory>
    ensures ok { OnOk result (out.new.items ≡ out.old.items ++ boolean false ++ boolean all) }
    ensures err { OnErr result (take (length out.old.items) out.new.items ≡ out.old.items) }
{
    put_bool(out, false)?;
    put_bool(out, all)
}
