ghost use Rattle.std.specs.Prelude.{◌≡◌, [], ◌++◌};
ghost use Rattle.bfs_model.specs.Server.Conflicts as model;
ghost use Rattle.bfs_model.specs.Server.Footprints.{ids_in};
ghost use Rattle.bfs_wire.specs.Calls.{call_seen};

use bfs_types::FileId;
use bfs_wire::NfsCall;

/// The directories, at most two, in which a call finds out which inodes it touches.
#[derive(Clone, Copy, Debug, PartialEq, Eq)]
pub struct ResolvedIn {
    pub first: Option<FileId>,
    pub second: Option<FileId>,
}

impl ResolvedIn {
    /// No directories.
    pub fn nowhere() -> ResolvedIn
        ensures { ids_in result.first ++ ids_in result.second ≡ [] }
    {
        ResolvedIn {
            first: None,
            second: None,
        }
    }
}

/// The directories whose entries tell which inodes a call touches: that of LOOKUP, REMOVE and RMDIR, and both of RENAME.
pub fn resolved_in(call: &NfsCall) -> ResolvedIn
    ensures { ids_in result.first ++ ids_in result.second ≡ model.resolved_in (call_seen call.now) }
{
    match *call {
        NfsCall::LookUp { dir, .. }
        | NfsCall::Remove { dir, .. }
        | NfsCall::RemoveDirectory { dir, .. } => ResolvedIn {
            first: dir,
            second: None,
        },
        NfsCall::Rename { from, to, .. } => ResolvedIn {
            first: from,
            second: to,
        },
        _ => ResolvedIn::nowhere(),
    }
}
