use crate::key::Key;
use crate::text::Text;
use bfs_types::Memory;
use std::alloc::AllocFailed;
use thiserror::Error;

/// Why a document describes no deployment. Where there are several reasons the first one is told, in this order: `NotUtf8`, `NotToml`, `UnknownKey`,
/// and then the faults of each key, in the order of `Key`. Of several unknown keys the one that sorts first is told.
#[derive(Debug, Drop, Error)]
pub enum DeploymentError {
    /// It isn't in UTF-8.
    #[error("it isn't in UTF-8")]
    NotUtf8,
    /// It isn't TOML.
    #[error("it isn't TOML")]
    NotToml,
    /// It has a key that there isn't.
    #[error("there is no key {:?}", .0.as_str())]
    UnknownKey(Text),
    /// The table of limits has a key that is no kind of frame.
    #[error("limits: there is no key {:?}", .0.as_str())]
    UnknownLimit(Text),
    /// A key is missing.
    #[error("{0}: it is missing")]
    Missing(Key),
    /// A key's value is of another type than it is to be.
    #[error("{}: it is no {}", .0, .0.wanted())]
    WrongType(Key),
    /// A key's number is below the least one, or above the most.
    #[error("{key}: it is no number from {least} to {most}")]
    OutOfBounds {
        /// The key.
        key: Key,
        /// The least that it may be.
        least: u32,
        /// The most that it may be.
        most: u32,
    },
    /// An array has more or fewer texts than it is to have.
    #[error("{key}: there are to be {count} of them")]
    WrongCount {
        /// The array's key.
        key: Key,
        /// How many there are to be: 3f + 1 replicas, as many signers as clients, and as many signers of replicas as these.
        count: u32,
    },
    /// A text is no public key in hexadecimal digits.
    #[error("{0}: one of them is no public key")]
    NoPublicKey(Key),
    /// Memory ran out.
    #[error("out of memory")]
    Memory,
}

impl From<Memory> for DeploymentError {
    ghost use Rattle.std.specs.Prelude.{◌≡◌};
    ghost use Rattle.bfs_deployment.specs.declared.error.DeploymentError.TheVariants as error;

    ghost from_gives = { λ memory given. given ≡ error.Memory };

    fn from(_error: Memory) -> DeploymentError {
        DeploymentError::Memory
    }
}

impl<T: Drop> From<AllocFailed<T>> for DeploymentError {
    ghost use Rattle.std.specs.Prelude.{◌≡◌};
    ghost use Rattle.bfs_deployment.specs.declared.error.DeploymentError.TheVariants as error;

    ghost from_gives = { λ failed given. given ≡ error.Memory };

    fn from(_failed: AllocFailed<T>) -> DeploymentError {
        DeploymentError::Memory
    }
}
