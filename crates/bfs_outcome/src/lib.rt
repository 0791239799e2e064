//! Ordered batches, executed through the table of the last reply to each client.
#![tactic(auto)]

mod answering;
mod execution;
mod laws;
mod news;

pub use bfs_parallel::{Engine, Executor, Workers};
pub use bfs_workers::{Gate, MOST_WORKERS, NoGate};
pub use execution::{Executed, Means, execute_ordered};
pub use laws::{answers_go_to_clients, equal_replicas_stay_equal, two_passes_come_to_the_outcome};
