ghost use Rattle.std.specs.Prelude.{◌≡◌};
ghost use Rattle.bfs_digest.specs.Outcomes.{code_of};

use bfs_types::Memory;
use bfs_xdr::XdrError;
use thiserror::Error;

/// Why bytes were not made a file system.
#[derive(Clone, Copy, Debug, PartialEq, Eq, Error)]
pub enum RestoreError {
    /// They are no text: they don't begin as a text does, end too early or too late, have padding other than zeros, or
    /// a number that is out of its range or its order.
    #[error("the bytes spell no file system")]
    Malformed,
    /// They begin as a text of another version.
    #[error("the text is of another version")]
    WrongVersion,
    /// They are the text of a file system that is not well formed.
    #[error("the file system is not well formed")]
    NotWellFormed,
    /// Memory ran out.
    #[error("out of memory")]
    Memory,
}

impl RestoreError {
    /// The number of the refusal.
    pub fn code(self) -> u32
        ensures { result ≡ code_of self }
    {
        match self {
            RestoreError::Malformed => 20,
            RestoreError::NotWellFormed => 21,
            RestoreError::WrongVersion => 22,
            RestoreError::Memory => 40,
        }
    }
}

impl From<Memory> for RestoreError {
    ghost use Rattle.bfs_digest.specs.declared.errors.RestoreError.TheVariants as error;

    ghost from_gives = { λ _ refused. refused ≡ error.Memory };

    fn from(_error: Memory) -> RestoreError {
        RestoreError::Memory
    }
}

/// No text of a file system can be read.
#[derive(Clone, Copy, Debug)]
pub(crate) struct Malformed;

impl From<XdrError> for Malformed {
    fn from(_error: XdrError) -> Malformed {
        Malformed
    }
}
