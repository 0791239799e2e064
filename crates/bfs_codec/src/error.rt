ghost use Rattle.std.specs.Prelude.{◌≡◌};
ghost use Rattle.bfs_codec.specs.Codes.{code_of};
ghost use Rattle.bfs_codec.specs.declared.error.DecodeError.TheVariants as errors;

use bfs_types::Memory;
use bfs_xdr::XdrError;
use std::alloc::{AllocError, AllocFailed};
use thiserror::Error;

/// Why bytes are read as no message.
#[derive(Clone, Copy, Debug, PartialEq, Eq, Error)]
pub enum DecodeError {
    /// They spell none, all of them.
    #[error("the bytes spell no message")]
    Malformed,
    /// Memory ran out.
    #[error("out of memory")]
    Memory,
}

impl DecodeError {
    /// The number of the refusal.
    pub fn code(self) -> u32
        ensures { result ≡ code_of self }
    {
        match self {
            DecodeError::Malformed => 23,
            DecodeError::Memory => 40,
        }
    }
}

/// What is read does not stand there: found out without memory.
#[derive(Clone, Copy)]
pub(crate) struct Malformed;

impl From<XdrError> for Malformed {
    fn from(_error: XdrError) -> Malformed {
        Malformed
    }
}

impl From<Malformed> for DecodeError {
    ghost from_gives = { λ _ e. e ≡ errors.Malformed };

    fn from(_error: Malformed) -> DecodeError {
        DecodeError::Malformed
    }
}

impl From<Memory> for DecodeError {
    ghost from_gives = { λ _ e. e ≡ errors.Memory };

    fn from(_error: Memory) -> DecodeError {
        DecodeError::Memory
    }
}

impl From<AllocError> for DecodeError {
    ghost from_gives = { λ _ e. e ≡ errors.Memory };

    fn from(_error: AllocError) -> DecodeError {
        DecodeError::Memory
    }
}

impl<T: Drop> From<AllocFailed<T>> for DecodeError {
    ghost from_gives = { λ _ e. e ≡ errors.Memory };

    fn from(_error: AllocFailed<T>) -> DecodeError {
        DecodeError::Memory
    }
}
