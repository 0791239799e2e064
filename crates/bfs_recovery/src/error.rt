ghost use Rattle.std.specs.Prelude.{◌≡◌};
ghost use Rattle.bfs_recovery.specs.Recovering.{of_replay, of_saved};

use bfs_saving::SavedError;
use bfs_steps::ReplayError;
use thiserror::Error;

/// Why no replica is recovered.
#[derive(Clone, Copy, Debug, PartialEq, Eq, Error)]
pub enum RecoverError {
    /// The saved text is refused: it spells no replica, or is of another version, or of another replica, or of one with other settings.
    #[error("the saved replica cannot be read: {0}")]
    Saved(SavedError),
    /// A record of the journal spells no steps.
    #[error("the journal spells no steps")]
    Malformed,
    /// Memory ran out.
    #[error("out of memory")]
    Memory,
}

impl From<SavedError> for RecoverError {
    ghost from_gives = { λ error given. given ≡ of_saved error };

    fn from(error: SavedError) -> RecoverError {
        match error {
            SavedError::Memory => RecoverError::Memory,
            error => RecoverError::Saved(error),
        }
    }
}

impl From<ReplayError> for RecoverError {
    ghost from_gives = { λ error given. given ≡ of_replay error };

    fn from(error: ReplayError) -> RecoverError {
        match error {
            ReplayError::Malformed => RecoverError::Malformed,
            ReplayError::Memory => RecoverError::Memory,
        }
    }
}
