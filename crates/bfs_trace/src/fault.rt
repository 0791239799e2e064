ghost use Rattle.std.specs.Prelude.{◌≡◌};

use bfs_types::Memory;
use std::alloc::{AllocError, AllocFailed};

/// Why a line is not read.
#[derive(Clone, Copy)]
pub(crate) enum Fault {
    /// The line breaks the grammar.
    Bad,
    /// Memory ran out.
    Memory,
}

impl From<AllocError> for Fault {
    ghost use Rattle.bfs_trace.specs.declared.fault.Fault.TheVariants as fault;

    ghost from_gives = { λ error given. given ≡ fault.Memory };

    fn from(_error: AllocError) -> Fault {
        Fault::Memory
    }
}

impl<T: Drop> From<AllocFailed<T>> for Fault {
    ghost use Rattle.bfs_trace.specs.declared.fault.Fault.TheVariants as fault;

    ghost from_gives = { λ error given. given ≡ fault.Memory };

    fn from(_error: AllocFailed<T>) -> Fault {
        Fault::Memory
    }
}

impl From<Memory> for Fault {
    ghost use Rattle.bfs_trace.specs.declared.fault.Fault.TheVariants as fault;

    ghost from_gives = { λ error given. given ≡ fault.Memory };

    fn from(_error: Memory) -> Fault {
        Fault::Memory
    }
}
