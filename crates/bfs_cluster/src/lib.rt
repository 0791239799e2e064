//! Replicas in one process, among which messages are delivered in the order in which they were sent.
#![tactic(auto)]

mod acts;
mod blocks;
mod catching_up;
mod cluster;
mod laws;
mod replica;
mod side_by_side;
mod standings;
mod stepping;
mod watching;

pub use bfs_node::{Engine, Executor, Gate, NoGate, Workers};
pub use cluster::Cluster;
pub use laws::a_world_settles_once;
pub use standings::Standing;
pub use watching::Sent;
