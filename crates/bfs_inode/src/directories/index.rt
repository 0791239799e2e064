// The two maps of a directory: its entries by cookie, and the cookies of their names.
ghost use Rattle.std.specs.Prelude.{◌≡◌, ◌<◌, None, [], ◌∷◌, ◌++◌, OnOk, OnErr};
ghost use Rattle.std.specs.BTreeMap.{values};
ghost use Rattle.std.specs.List.{All};
ghost use Rattle.bfs_model.specs.Server.Directories.{entry_named, without_name};
ghost use Rattle.bfs_inode.specs.Directories.{AreEntries, AreIndexed};

use crate::directories::Entry;
use bfs_types::Memory;
use std::collections::BTreeMap;

/// Puts an entry behind the others, and its name into the index. Where memory runs out, both are as they were.
pub(super) fn put(
    entries: &mut BTreeMap<u32, Entry>,
    cookies: &mut BTreeMap<Vec<u8>, u32>,
    name: Vec<u8>,
    entry: Entry,
) -> Result<(), Memory>
    requires indexed { AreIndexed entries.old.entries cookies.old.entries }
    requires above { All (λ before. before.cookie < entry.cookie) (values entries.old) }
    requires free { entry_named entry.name (values entries.old) ≡ None }
    requires own { name.items ≡ entry.name }
    ensures ok { OnOk result (values entries.new ≡ values entries.old ++ entry ∷ []) }
    ensures err { OnErr result (values entries.new ≡ values entries.old) }
    ensures indexed { AreIndexed entries.new.entries cookies.new.entries }
{
    let cookie = entry.cookie;
    entries.insert(cookie, entry)?;
    match cookies.insert(name, cookie) {
        Ok(_) => Ok(()),
        Err(refused) => {
            entries.remove(&cookie);
            Err(Memory::from(refused))
        }
    }
}

/// Takes the entry of a name out, and the name out of the index.
pub(super) fn take(
    entries: &mut BTreeMap<u32, Entry>,
    cookies: &mut BTreeMap<Vec<u8>, u32>,
    name: &[u8],
) -> Option<Entry>
    requires ordered { AreEntries (values entries.old) }
    requires indexed { AreIndexed entries.old.entries cookies.old.entries }
    ensures value { result ≡ entry_named name.now (values entries.old) }
    ensures taken { values entries.new ≡ without_name name.now (values entries.old) }
    ensures indexed { AreIndexed entries.new.entries cookies.new.entries }
{
    match cookies.remove(name) {
        Some(cookie) => entries.remove(&cookie),
        None => None,
    }
}
