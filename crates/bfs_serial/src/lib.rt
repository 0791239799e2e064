//! The file system, and batches of requests executed on it one after another.
#![tactic(auto)]

mod batches;
mod executor;
mod files;
mod replies;

pub use batches::{Batch, PushError};
pub use executor::{ExecError, answer_next, execute_serial};
pub use files::FileSystem;
pub use replies::Replies;
