ghost use Rattle.std.specs.Prelude.{◌≡◌, ◌<◌, ◌≤◌, None, [], ◌∷◌, ◌++◌, length, OnOk, OnErr};
ghost use Rattle.std.specs.List.{All};
ghost use Rattle.bfs_model.specs.Server.Limits.{most_name_bytes, most_entries};
ghost use Rattle.bfs_model.specs.Server.Directories.{entry_named, without_name};

use crate::directories::index::{put, take};
use crate::directories::{Directory, Entry};
use bfs_types::{FileId, Memory, Name};

impl Directory {
    /// Adds an entry behind the others. Its cookie is above theirs, and none of them has its name. `Memory` if memory runs out;
    /// then nothing changes.
    pub fn add(&mut self, cookie: u32, name: &[u8], child: FileId) -> Result<(), Memory>
        requires room { length self.old.entries < most_entries }
        requires above { All (λ entry. entry.cookie < cookie) self.old.entries }
        requires free { entry_named name.now self.old.entries ≡ None }
        requires short { length name.now ≤ most_name_bytes }
        ensures ok { OnOk result (self.new ≡ record self.old { entries = self.old.entries ++ (record { cookie = cookie; name = name.now; child = child }) ∷ [] }) }
        ensures err { OnErr result (self.new ≡ self.old) }
    {
        self.push(cookie, Name::new(self.alloc, name)?, child)
    }

    // an entry behind the others, whose name is there already
    pub(super) fn push(&mut self, cookie: u32, name: Name, child: FileId) -> Result<(), Memory>
        requires room { length self.old.entries < most_entries }
        requires above { All (λ entry. entry.cookie < cookie) self.old.entries }
        requires free { entry_named name self.old.entries ≡ None }
        ensures ok { OnOk result (self.new ≡ record self.old { entries = self.old.entries ++ (record { cookie = cookie; name = name; child = child }) ∷ [] }) }
        ensures err { OnErr result (self.new ≡ self.old) }
    {
        let mut key = Vec::new(self.alloc);
        key.extend_from_slice(name.as_slice())?;
        let entry = Entry {
            cookie,
            name,
            child,
        };
        put(&mut self.entries, &mut self.cookies, key, entry)
    }

    /// Removes the entry of that name and gives it back, or `None` if there is none. The others keep their order.
    pub fn drop_entry(&mut self, name: &[u8]) -> Option<Entry>
        ensures value { result ≡ entry_named name.now self.old.entries }
        ensures dropped { self.new ≡ record self.old { entries = without_name name.now self.old.entries } }
        ensures gone { entry_named name.now self.new.entries ≡ None }
    {
        take(&mut self.entries, &mut self.cookies, name)
    }

    /// Puts it below the directory of that fileid.
    pub fn set_parent(&mut self, parent: FileId)
        ensures { self.new ≡ record self.old { parent = parent } }
    {
        self.parent = parent;
    }
}
