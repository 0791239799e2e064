ghost use Rattle.std.specs.Prelude.{◌≡◌, ◌+◌, ◌<◌, ◌≤◌, None, length, OnOk, OnErr, IsSome};
ghost use Rattle.std.specs.List.{All};
ghost use Rattle.std.specs.Option.{ForSome};
ghost use Rattle.bfs_model.specs.Server.Tree.{entries_in};
ghost use Rattle.bfs_model.specs.Server.Directories.{entry_named};
ghost use Rattle.bfs_model.specs.Server.Limits.{most_name_bytes, most_file_bytes, most_entries, most_links};
ghost use Rattle.bfs_model.specs.Server.Changes.{touched, with_bytes, with_ctime, with_entry, with_link, with_link_less, with_parent, with_settings, without_entry};
ghost use Rattle.bfs_inode.specs.Inodes.{file_in};

use crate::inodes::{Inode, permissions_set, time_set};
use bfs_types::{FileId, Memory, Settings, Time};

impl Inode {
    /// Sets attributes, as SETATTR does (RFC 1094 section 2.2.3). A size is set of a file alone. `Memory` if memory runs out;
    /// then nothing changes.
    pub fn set_attributes(&mut self, now: Time, settings: &Settings) -> Result<(), Memory>
        requires { ForSome settings.now.size (λ size. IsSome (file_in self.old.body) → size ≤ most_file_bytes) }
        ensures ok { OnOk result (self.new ≡ with_settings now settings.now self.old) }
        ensures err { OnErr result (self.new ≡ self.old) }
    {
        if let Some(size) = settings.size {
            self.body.resize(size)?;
            self.mtime = now;
        }
        self.permissions = permissions_set(settings.mode, self.permissions);
        self.uid = settings.uid.unwrap_or(self.uid);
        self.gid = settings.gid.unwrap_or(self.gid);
        self.atime = time_set(now, settings.atime, self.atime);
        self.mtime = time_set(now, settings.mtime, self.mtime);
        self.set_ctime(now);
        Ok(())
    }

    /// Writes bytes into a file from an offset on, as WRITE does (RFC 1094 section 2.2.9). An inode that is no file keeps what it
    /// holds, and its times change all the same. `Memory` if memory runs out; then nothing changes.
    pub fn write(&mut self, now: Time, offset: u32, bytes: &[u8]) -> Result<(), Memory>
        requires { offset + length bytes.now ≤ most_file_bytes }
        ensures ok { OnOk result (self.new ≡ with_bytes now offset bytes.now self.old) }
        ensures err { OnErr result (self.new ≡ self.old) }
    {
        self.body.write(offset, bytes)?;
        self.touch(now);
        Ok(())
    }

    /// Adds an entry to a directory, behind the others. Its cookie is above theirs, and none of them has its name. An inode that
    /// is no directory keeps what it holds, and its times change all the same. `Memory` if memory runs out; then nothing
    /// changes.
    pub fn add_entry(
        &mut self,
        now: Time,
        cookie: u32,
        name: &[u8],
        child: FileId,
    ) -> Result<(), Memory>
        requires room { length (entries_in self.old.body) < most_entries }
        requires above { All (λ entry. entry.cookie < cookie) (entries_in self.old.body) }
        requires free { entry_named name.now (entries_in self.old.body) ≡ None }
        requires short { length name.now ≤ most_name_bytes }
        ensures ok { OnOk result (self.new ≡ with_entry now (record { cookie = cookie; name = name.now; child = child }) self.old) }
        ensures err { OnErr result (self.new ≡ self.old) }
    {
        self.body.add_entry(cookie, name, child)?;
        self.touch(now);
        Ok(())
    }

    /// Counts one more link.
    pub fn add_link(&mut self, now: Time)
        requires { self.old.links < most_links }
        ensures { self.new ≡ with_link now self.old }
    {
        self.links += 1;
        self.set_ctime(now);
    }

    /// Removes the entry of that name from a directory. Without such an entry the inode keeps what it holds, and its times
    /// change all the same.
    pub fn drop_entry(&mut self, now: Time, name: &[u8])
        ensures { self.new ≡ without_entry now name.now self.old }
    {
        self.body.drop_entry(name);
        self.touch(now);
    }

    /// Puts a directory below the one of that fileid. An inode that is no directory does not change.
    pub fn set_parent(&mut self, parent: FileId)
        ensures { self.new ≡ with_parent parent self.old }
    {
        self.body.set_parent(parent);
    }

    /// Counts one link less; no links stay none.
    pub fn lose_link(&mut self, now: Time)
        ensures { self.new ≡ with_link_less now self.old }
    {
        self.links = self.links.saturating_sub(1);
        self.set_ctime(now);
    }

    /// Sets the time at which the inode last changed.
    pub fn set_ctime(&mut self, now: Time)
        ensures { self.new ≡ with_ctime now self.old }
    {
        self.ctime = now;
    }

    // what it holds changed, and so did the inode
    fn touch(&mut self, now: Time)
        ensures { self.new ≡ touched now self.old }
    {
        self.mtime = now;
        self.set_ctime(now);
    }
}
