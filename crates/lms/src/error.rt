use std::alloc::AllocError;
use thiserror::Error;

/// Why nothing was signed.
#[derive(Clone, Copy, Debug, PartialEq, Eq, Error)]
pub enum SignError {
    /// The key has no such index: it is spent.
    #[error("the key has no such index")]
    NoIndex,
    /// Memory ran out.
    #[error("out of memory")]
    Memory,
}

impl From<AllocError> for SignError {
    ghost use Rattle.std.specs.Prelude.{◌≡◌};
    ghost use Rattle.lms.specs.declared.error.SignError.TheVariants as error;

    ghost from_gives = { λ _ given. given ≡ error.Memory };

    fn from(_error: AllocError) -> SignError {
        SignError::Memory
    }
}
