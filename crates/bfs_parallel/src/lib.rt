//! Batches executed on threads, with the outcome of executing their requests one after another; and the choice of what executes them.
#![tactic(auto)]

mod carrying;
mod engine;
mod executor;
mod executors;
mod levels;
mod means;
mod parts;
mod planning;
mod requests;
mod rounds;

pub use bfs_workers::Workers;
pub use engine::Engine;
pub use executor::execute_parallel;
pub use executors::Executor;
