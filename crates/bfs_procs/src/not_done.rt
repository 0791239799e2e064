ghost use Rattle.std.specs.Prelude.{◌≡◌};

use bfs_types::Memory;
use bfs_wire::Status;

/// Why a procedure is not done.
#[derive(Clone, Copy, Debug, PartialEq, Eq)]
pub(crate) enum NotDone {
    /// It is refused, and nothing changes (RFC 1094 section 2.3.1).
    Refused(Status),
    /// Memory ran out.
    Memory,
}

impl From<Status> for NotDone {
    ghost use Rattle.bfs_procs.specs.declared.not_done.NotDone.TheVariants.{Refused};

    ghost from_gives = { λ status not_done. not_done ≡ Refused status };

    fn from(status: Status) -> NotDone {
        NotDone::Refused(status)
    }
}

impl From<Memory> for NotDone {
    ghost use Rattle.bfs_procs.specs.declared.not_done.NotDone.TheVariants as not_done;

    ghost from_gives = { λ _ stop. stop ≡ not_done.Memory };

    fn from(_memory: Memory) -> NotDone {
        NotDone::Memory
    }
}
