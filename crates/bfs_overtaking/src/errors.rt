ghost use Rattle.std.specs.Prelude.{◌≡◌};
ghost use Rattle.bfs_overtaking.specs.Codes.{core_code_of};

use bfs_types::Memory;
use thiserror::Error;

/// Why an event was refused. Nothing has changed then, but by `Memory`: the core has failed from then on.
#[derive(Clone, Copy, Debug, PartialEq, Eq, Error)]
pub enum CoreError {
    /// An earlier call that conflicts with this one is not finished.
    #[error("an earlier call that conflicts is not finished")]
    NotReady,
    /// The call was taken before; it may be finished, too.
    #[error("the call was taken before")]
    Taken,
    /// The call was not taken, or it is finished.
    #[error("the call is not under way")]
    NotTaken,
    /// The group has no call of that number.
    #[error("the group has no call of that number")]
    NoSuchCall,
    /// Memory ran out.
    #[error("out of memory")]
    Memory,
    /// The core had failed before.
    #[error("the core has failed")]
    Failed,
}

impl CoreError {
    /// The number of the refusal.
    pub fn code(self) -> u32
        ensures { result ≡ core_code_of self }
    {
        match self {
            CoreError::NotReady => 14,
            CoreError::Taken => 15,
            CoreError::NotTaken => 16,
            CoreError::NoSuchCall => 17,
            CoreError::Memory => 40,
            CoreError::Failed => 41,
        }
    }
}

impl From<Memory> for CoreError {
    ghost use Rattle.bfs_overtaking.specs.declared.errors.CoreError.TheVariants as error;

    ghost from_gives = { λ _ refused. refused ≡ error.Memory };

    fn from(_memory: Memory) -> CoreError {
        CoreError::Memory
    }
}
