use std::alloc::AllocError;
use std::io;
use thiserror::Error;

/// Why a record is not known to be on the disk. The process is to end then, and to answer nothing that rests on the record.
#[derive(Debug, Drop, Error)]
pub enum KeepError {
    /// Memory ran out before anything was written.
    #[error("out of memory")]
    Memory,
    /// The disk refused to append or to sync: a crash may leave the record or not, and so may the file as it is read from now on.
    #[error("the journal cannot be written: {0}")]
    Storage(io::Error),
}

impl From<AllocError> for KeepError {
    fn from(_error: AllocError) -> KeepError {
        KeepError::Memory
    }
}

impl From<io::Error> for KeepError {
    fn from(error: io::Error) -> KeepError {
        KeepError::Storage(error)
    }
}
