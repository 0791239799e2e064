ghost use Rattle.std.specs.Prelude.{◌≡◌};
ghost use Rattle.bfs_settings.specs.Errors.{settings_error_code};

use bfs_types::Memory;
use std::alloc::{AllocError, AllocFailed};
use thiserror::Error;

/// Why there are no such settings.
#[derive(Clone, Copy, Debug, PartialEq, Eq, Error)]
pub enum SettingsError {
    /// One of them is out of its range, or a document breaks the rules.
    #[error("bad settings")]
    BadSettings,
    /// Memory ran out.
    #[error("out of memory")]
    Memory,
}

impl SettingsError {
    /// The number of this refusal, apart from those of every other.
    pub fn code(self) -> u32
        ensures { result ≡ settings_error_code self }
    {
        match self {
            SettingsError::BadSettings => 43,
            SettingsError::Memory => 40,
        }
    }
}

impl From<Memory> for SettingsError {
    ghost use Rattle.bfs_settings.specs.declared.error.SettingsError.TheVariants as error;

    ghost from_gives = { λ memory given. given ≡ error.Memory };

    fn from(_error: Memory) -> SettingsError {
        SettingsError::Memory
    }
}

impl<T: Drop> From<AllocFailed<T>> for SettingsError {
    ghost use Rattle.bfs_settings.specs.declared.error.SettingsError.TheVariants as error;

    ghost from_gives = { λ failed given. given ≡ error.Memory };

    fn from(_failed: AllocFailed<T>) -> SettingsError {
        SettingsError::Memory
    }
}

impl From<AllocError> for SettingsError {
    ghost use Rattle.bfs_settings.specs.declared.error.SettingsError.TheVariants as error;

    ghost from_gives = { λ _ given. given ≡ error.Memory };

    fn from(_error: AllocError) -> SettingsError {
        SettingsError::Memory
    }
}
