// What a caller may do at an inode.
ghost use Rattle.std.specs.Prelude.{◌≡◌, ◌==◌, ◌||◌, not, bit_and};
ghost use Rattle.bfs_model.specs.Server.Access as model;
ghost use Rattle.bfs_inode.specs.Access.{class_seen};

use crate::inodes::Inode;
use bfs_types::Cred;

// which part of a mode tells what a caller may do
#[derive(Clone, Copy, Debug, PartialEq, Eq)]
enum Class {
    Owner,
    Group,
    Others,
}

// the bits of a mode (RFC 1094 section 2.3.5)
const READ_BY_OWNER: u32 = 0o400;

const WRITE_BY_OWNER: u32 = 0o200;

const SEARCH_BY_OWNER: u32 = 0o100;

const READ_BY_GROUP: u32 = 0o040;

const WRITE_BY_GROUP: u32 = 0o020;

const SEARCH_BY_GROUP: u32 = 0o010;

const READ_BY_OTHERS: u32 = 0o004;

const WRITE_BY_OTHERS: u32 = 0o002;

const SEARCH_BY_OTHERS: u32 = 0o001;

impl Class {
    fn read_bit(self) -> u32
        ensures { result ≡ model.read_bit (class_seen self) }
    {
        match self {
            Class::Owner => READ_BY_OWNER,
            Class::Group => READ_BY_GROUP,
            Class::Others => READ_BY_OTHERS,
        }
    }

    fn write_bit(self) -> u32
        ensures { result ≡ model.write_bit (class_seen self) }
    {
        match self {
            Class::Owner => WRITE_BY_OWNER,
            Class::Group => WRITE_BY_GROUP,
            Class::Others => WRITE_BY_OTHERS,
        }
    }

    // to execute a file, or to search a directory
    fn search_bit(self) -> u32
        ensures { result ≡ model.search_bit (class_seen self) }
    {
        match self {
            Class::Owner => SEARCH_BY_OWNER,
            Class::Group => SEARCH_BY_GROUP,
            Class::Others => SEARCH_BY_OTHERS,
        }
    }
}

impl Inode {
    /// Whether the caller may read what it holds.
    pub fn may_read(&self, caller: &Cred) -> bool
        ensures { result ≡ model.may_read caller.now self.now }
    {
        self.is_granted(caller, self.class_of(caller).read_bit())
    }

    /// Whether the caller may write what it holds.
    pub fn may_write(&self, caller: &Cred) -> bool
        ensures { result ≡ model.may_write caller.now self.now }
    {
        self.is_granted(caller, self.class_of(caller).write_bit())
    }

    /// Whether the caller may look for names in a directory, or execute a file.
    pub fn may_search(&self, caller: &Cred) -> bool
        ensures { result ≡ model.may_search caller.now self.now }
    {
        self.is_granted(caller, self.class_of(caller).search_bit())
    }

    /// Whether the caller may make, rename and remove entries of a directory.
    pub fn may_change_entries(&self, caller: &Cred) -> bool
        ensures { result ≡ model.may_change_entries caller.now self.now }
    {
        self.may_write(caller) && self.may_search(caller)
    }

    /// Whether READ gives the caller the bytes of a file: to its owner whatever its mode, and to who may execute it.
    pub fn may_read_file(&self, caller: &Cred) -> bool
        ensures { result ≡ model.may_read_file caller.now self.now }
    {
        self.is_owned_by(caller) || self.may_read(caller) || self.may_search(caller)
    }

    /// Whether the caller may change the bytes of a file: its owner may, whatever its mode.
    pub fn may_write_file(&self, caller: &Cred) -> bool
        ensures { result ≡ model.may_write_file caller.now self.now }
    {
        self.is_owned_by(caller) || self.may_write(caller)
    }

    /// Whether the caller may set mode, group and times.
    pub fn may_set(&self, caller: &Cred) -> bool
        ensures { result ≡ model.may_set caller.now self.now }
    {
        caller.is_superuser() || self.is_owned_by(caller)
    }

    fn is_owned_by(&self, caller: &Cred) -> bool
        ensures { result ≡ model.is_owner caller.now self.now }
    {
        caller.uid == self.uid
    }

    // its owner is not asked for the group
    fn class_of(&self, caller: &Cred) -> Class
        ensures { class_seen result ≡ model.class_of caller.now self.now }
    {
        if self.is_owned_by(caller) {
            Class::Owner
        } else if caller.holds(self.gid) {
            Class::Group
        } else {
            Class::Others
        }
    }

    fn is_granted(&self, caller: &Cred, bit: u32) -> bool
        ensures { result ≡ (model.is_superuser caller.now || not (bit_and self.now.permissions bit == 0)) }
    {
        caller.is_superuser() || self.permissions & bit != 0
    }
}
