ghost use Rattle.std.specs.Prelude.{◌≡◌};
ghost use Rattle.bfs_view_change.specs.Changes.Codes.{code_of};
ghost use Rattle.bfs_view_change.specs.declared.error.ViewError.TheVariants as errors;

use bfs_types::Memory;
use thiserror::Error;

/// Why nothing is chosen for a new view, or why a NEW-VIEW is not right.
#[derive(Clone, Copy, Debug, PartialEq, Eq, Error)]
pub enum ViewError {
    /// Its sender is not the primary of its view, or its authenticator is not the sender's.
    #[error("the authenticator is not the primary's")]
    BadAuthenticator,
    /// A VIEW-CHANGE is not valid, or asks for another view.
    #[error("a view change is not valid")]
    BadCertificate,
    /// The VIEW-CHANGEs are of fewer than 2f + 1 replicas.
    #[error("too few replicas change the view")]
    TooFew,
    /// The PRE-PREPAREs are not what the VIEW-CHANGEs choose.
    #[error("the proposals are not what is chosen")]
    WrongChoice,
    /// Memory ran out.
    #[error("out of memory")]
    Memory,
}

impl ViewError {
    /// The number of the refusal.
    pub fn code(self) -> u32
        ensures { result ≡ code_of self }
    {
        match self {
            ViewError::BadAuthenticator => 24,
            ViewError::BadCertificate => 31,
            ViewError::TooFew => 30,
            ViewError::WrongChoice => 32,
            ViewError::Memory => 40,
        }
    }
}

impl From<Memory> for ViewError {
    ghost from_gives = { λ _ e. e ≡ errors.Memory };

    fn from(_error: Memory) -> ViewError {
        ViewError::Memory
    }
}
