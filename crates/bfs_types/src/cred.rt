ghost use Rattle.std.specs.Prelude.{◌≡◌};
ghost use Rattle.bfs_model.specs.Server.Access as access;

use crate::gids::Gids;
use std::marker::Model;

/// The caller of a procedure: the numbers of a user and of the groups that the user belongs to.
#[derive(Clone, Copy, Debug, PartialEq, Eq)]
pub struct Cred {
    /// The number of the user.
    pub uid: u32,
    /// The number of the user's own group.
    pub gid: u32,
    /// The numbers of the further groups.
    pub gids: Gids,
}

impl Model for Cred {
    ghost use Rattle.bfs_model.specs.Bytes.Call.{Credential};

    ghost Value = { Credential };

    ghost view = { λ cred. record { uid = cred.uid; gid = cred.gid; gids = cred.gids } };

    ghost inverse = { λ credential. record { uid = credential.uid; gid = credential.gid; gids = credential.gids } };
}

impl Cred {
    /// Whether the caller is uid 0, which passes each test of what a caller may do.
    pub fn is_superuser(&self) -> bool
        ensures { result ≡ access.is_superuser self.now }
    {
        self.uid == 0
    }

    /// Whether the caller belongs to a group.
    pub fn holds(&self, gid: u32) -> bool
        ensures { result ≡ access.holds self.now gid }
    {
        self.gid == gid || self.gids.has(gid)
    }

    /// Whether the caller may make what belongs to a user.
    pub fn may_make_for(&self, uid: u32) -> bool
        ensures { result ≡ access.may_make_for self.now uid }
    {
        self.is_superuser() || self.uid == uid
    }

    /// Whether the caller may give something to a group.
    pub fn may_give_to(&self, gid: u32) -> bool
        ensures { result ≡ access.may_give_to self.now gid }
    {
        self.is_superuser() || self.holds(gid)
    }
}
