ghost use Rattle.std.specs.Prelude.{◌≡◌};
ghost use Rattle.bfs_xdr.specs.Faults.{code_of};

use thiserror::Error;

/// Why an item can't be read.
#[derive(Clone, Copy, Debug, PartialEq, Eq, Error)]
pub enum XdrError {
    /// Fewer bytes are left than the item takes, its padding included.
    #[error("the bytes end before the item does")]
    Short,
    /// The length of opaque data or of a string is above the most that is allowed.
    #[error("the data are longer than allowed")]
    TooLong,
    /// A boolean is neither 0 nor 1.
    #[error("a boolean is neither 0 nor 1")]
    BadBool,
    /// A strict reader met padding that isn't zeros.
    #[error("padding is not zeros")]
    BadPadding,
}

impl XdrError {
    /// The number of this refusal, apart from those of every other.
    pub fn code(self) -> u32
        ensures { result ≡ code_of self }
    {
        match self {
            XdrError::Short => 1,
            XdrError::TooLong => 2,
            XdrError::BadBool => 3,
            XdrError::BadPadding => 4,
        }
    }
}
