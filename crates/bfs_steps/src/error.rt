ghost use Rattle.std.specs.Prelude.{◌≡◌};
ghost use Rattle.bfs_steps.specs.declared.error.ReplayError.TheVariants as errors;

use bfs_codec::DecodeError;
use bfs_types::Memory;
use thiserror::Error;

/// Why steps are not made again. The node is not to be used then.
#[derive(Clone, Copy, Debug, PartialEq, Eq, Error)]
pub enum ReplayError {
    /// The bytes spell no steps, all of them.
    #[error("the bytes spell no steps")]
    Malformed,
    /// Memory ran out.
    #[error("out of memory")]
    Memory,
}

impl From<DecodeError> for ReplayError {
    ghost use Rattle.bfs_steps.specs.Replaying.{of_decoding};

    ghost from_gives = { λ error e. e ≡ of_decoding error };

    fn from(error: DecodeError) -> ReplayError {
        match error {
            DecodeError::Malformed => ReplayError::Malformed,
            DecodeError::Memory => ReplayError::Memory,
        }
    }
}

impl From<Memory> for ReplayError {
    ghost from_gives = { λ _ e. e ≡ errors.Memory };

    fn from(_error: Memory) -> ReplayError {
        ReplayError::Memory
    }
}
