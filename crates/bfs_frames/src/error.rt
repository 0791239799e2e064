ghost use Rattle.std.specs.Prelude.{◌≡◌};
ghost use Rattle.bfs_frames.specs.Errors.{read_error};
ghost use Rattle.bfs_frames.specs.declared.error.InputError.TheVariants as input;

use std::alloc::{AllocError, AllocFailed};
use std::io;
use thiserror::Error;

/// Why no turn is read. The reader may stand within a turn then, so nothing more can be read from it.
#[derive(Debug, Drop, Error)]
pub enum ReadError {
    /// The input ends within a turn.
    #[error("the input ends within a turn")]
    Cut,
    /// The microseconds of a turn's time are 1,000,000 or more.
    #[error("the time of a turn has 1,000,000 microseconds or more")]
    BadTime,
    /// Memory ran out.
    #[error("out of memory")]
    Memory,
    /// The input itself failed.
    #[error("the input cannot be read: {0}")]
    Input(io::Error),
}

/// Why bytes are not read.
#[derive(Debug, Drop)]
pub(crate) enum InputError {
    /// The input ends before them.
    Cut,
    /// Memory ran out.
    Memory,
    /// The input itself failed.
    Failed(io::Error),
}

impl From<InputError> for ReadError {
    ghost from_gives = { λ error given. given ≡ read_error error };

    fn from(error: InputError) -> ReadError {
        match error {
            InputError::Cut => ReadError::Cut,
            InputError::Memory => ReadError::Memory,
            InputError::Failed(error) => ReadError::Input(error),
        }
    }
}

impl From<io::Error> for InputError {
    ghost from_gives = { λ error given. given ≡ input.Failed error };

    fn from(error: io::Error) -> InputError {
        InputError::Failed(error)
    }
}

impl From<AllocError> for InputError {
    ghost from_gives = { λ _ given. given ≡ input.Memory };

    fn from(_error: AllocError) -> InputError {
        InputError::Memory
    }
}

impl<T: Drop> From<AllocFailed<T>> for InputError {
    ghost from_gives = { λ _ given. given ≡ input.Memory };

    fn from(_error: AllocFailed<T>) -> InputError {
        InputError::Memory
    }
}
