ghost use Rattle.std.specs.Prelude.{◌≡◌};
ghost use Rattle.bfs_saving.specs.Errors.{code_of};

use thiserror::Error;

/// Why bytes are read as no saved replica.
#[derive(Clone, Copy, Debug, PartialEq, Eq, Error)]
pub enum SavedError {
    /// They were cut or changed, or never were the text of a replica.
    #[error("the text spells no replica")]
    Malformed,
    /// The text is of another version.
    #[error("the text is of another version")]
    WrongVersion,
    /// The text is of a replica that knows another number of clients, or of other replicas.
    #[error("the text is of a replica with other settings")]
    OtherSettings,
    /// The text is of a replica of another number.
    #[error("the text is of another replica")]
    OtherReplica,
    /// Memory ran out.
    #[error("out of memory")]
    Memory,
}

impl SavedError {
    /// The number of the refusal.
    pub fn code(self) -> u32
        ensures { result ≡ code_of self }
    {
        match self {
            SavedError::Malformed => 20,
            SavedError::WrongVersion => 22,
            SavedError::OtherSettings => 44,
            SavedError::OtherReplica => 45,
            SavedError::Memory => 40,
        }
    }
}
