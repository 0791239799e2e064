ghost use Rattle.std.specs.Prelude.{◌≡◌};
ghost use Rattle.bfs_filter.specs.Errors.{refusal};
ghost use Rattle.bfs_filter.specs.declared.error.ServeError.TheVariants as errors;

use bfs_frames::ReadError;
use bfs_types::Memory;
use std::io;
use thiserror::Error;

/// Why a machine doesn't take a turn.
#[derive(Debug, Drop, Error)]
pub enum TurnError {
    /// Memory ran out.
    #[error("out of memory")]
    Memory,
    /// What has to outlive the process before the turn is answered can't be kept.
    #[error("what is to be kept cannot be written: {0}")]
    Storage(io::Error),
    /// The key that signs what is told is spent: it has no index left.
    #[error("the signing key is spent")]
    Spent,
}

impl From<Memory> for TurnError {
    fn from(_error: Memory) -> TurnError {
        TurnError::Memory
    }
}

impl From<io::Error> for TurnError {
    fn from(error: io::Error) -> TurnError {
        TurnError::Storage(error)
    }
}

/// Why a filter ends before its input does.
#[derive(Debug, Drop, Error)]
pub enum ServeError {
    /// No turn is read: the input ends within one, or can't be read, or its time is none, or memory ran out.
    #[error("{0}")]
    Read(ReadError),
    /// The machine ran out of memory.
    #[error("out of memory")]
    Memory,
    /// The machine can't keep what has to outlive the process.
    #[error("what is to be kept cannot be written: {0}")]
    Storage(io::Error),
    /// The machine's signing key is spent.
    #[error("the signing key is spent")]
    Spent,
    /// The answer can't be written, or not whole.
    #[error("the answer cannot be written: {0}")]
    Write(io::Error),
}

impl From<ReadError> for ServeError {
    ghost from_gives = { λ error given. given ≡ errors.Read error };

    fn from(error: ReadError) -> ServeError {
        ServeError::Read(error)
    }
}

impl From<TurnError> for ServeError {
    ghost from_gives = { λ error given. given ≡ refusal error };

    fn from(error: TurnError) -> ServeError {
        match error {
            TurnError::Memory => ServeError::Memory,
            TurnError::Storage(error) => ServeError::Storage(error),
            TurnError::Spent => ServeError::Spent,
        }
    }
}
