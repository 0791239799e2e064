ghost use Rattle.std.specs.Prelude.{◌≡◌};

use thiserror::Error;

/// The bytes of a call's arguments are not the arguments of its procedure (RFC 5531 section 9, GARBAGE_ARGS).
#[derive(Clone, Copy, Debug, PartialEq, Eq, Error)]
#[error("the arguments can't be read")]
pub struct GarbageArgs;

impl GarbageArgs {
    /// The number of this error, which no other error of the file system has.
    pub fn code(self) -> u32
        ensures { result ≡ 11 }
    {
        11
    }
}
