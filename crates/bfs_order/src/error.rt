ghost use Rattle.std.specs.Prelude.{◌≡◌};
ghost use Rattle.bfs_order.specs.Replica.Codes.{code_of};
ghost use Rattle.bfs_order.specs.declared.error.OrderError.TheVariants as errors;

use bfs_types::Memory;
use std::alloc::AllocError;
use thiserror::Error;

/// Why a call on the order of one replica is refused. Nothing has changed then.
#[derive(Clone, Copy, Debug, PartialEq, Eq, Error)]
pub enum OrderError {
    /// Its authenticator, or that of a request in its batch, is not the sender's, or the sender is no replica.
    #[error("the authenticator is not the sender's")]
    BadAuthenticator,
    /// It is of another view than the one entered, or a view change is under way.
    #[error("the view is another one")]
    WrongView,
    /// Its number is not between the marks, or no multiple of 16 where it is a CHECKPOINT.
    #[error("the number is outside the marks")]
    OutsideMarks,
    /// A PRE-PREPARE or a proposal is not the primary's.
    #[error("the sender is not the primary")]
    NotPrimary,
    /// The sender has told another digest for the place, or sends a PREPARE as the primary.
    #[error("the message conflicts with another one")]
    Conflicting,
    /// The message is there.
    #[error("the message is there already")]
    AlreadyHave,
    /// The messages are no certificate of a checkpoint.
    #[error("the checkpoint has no certificate")]
    NoCertificate,
    /// Memory ran out.
    #[error("out of memory")]
    Memory,
}

impl OrderError {
    /// The number of the refusal.
    pub fn code(self) -> u32
        ensures { result ≡ code_of self }
    {
        match self {
            OrderError::BadAuthenticator => 24,
            OrderError::WrongView => 25,
            OrderError::OutsideMarks => 26,
            OrderError::NotPrimary => 28,
            OrderError::Conflicting => 27,
            OrderError::AlreadyHave => 29,
            OrderError::NoCertificate => 34,
            OrderError::Memory => 40,
        }
    }
}

impl From<Memory> for OrderError {
    ghost from_gives = { λ _ e. e ≡ errors.Memory };

    fn from(_error: Memory) -> OrderError {
        OrderError::Memory
    }
}

impl From<AllocError> for OrderError {
    ghost from_gives = { λ _ e. e ≡ errors.Memory };

    fn from(_error: AllocError) -> OrderError {
        OrderError::Memory
    }
}
