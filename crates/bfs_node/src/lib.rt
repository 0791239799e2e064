//! One replica of the file service: its order of batches, its file system, the last replies to clients, and its checkpoints (OSDI 1999
//! section 4).
#![tactic(auto)]

mod adopting;
mod advancing;
mod changing;
mod checkpoints;
mod delivering;
mod error;
mod executing;
mod forgetting;
mod growing;
mod node;
mod offering;
mod receivers;
mod replying;
mod requests;
mod resending;
mod restoring;
mod saving;
mod settling;
mod telling;

pub use bfs_order::Lag;
pub use bfs_outcome::{Engine, Executor, Gate, MOST_WORKERS, NoGate, Workers};
pub use bfs_replies::Class;
pub use bfs_saving::SavedError;
pub use error::NodeError;
pub use node::Node;
pub use offering::Offered;
pub use receivers::{Receivers, receivers_of};
pub use telling::ToldSnapshot;
