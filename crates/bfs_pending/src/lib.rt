//! The requests of clients that wait to be ordered.
#![tactic(auto)]

mod checking;
mod counting;
mod names;
mod waiting;

pub use waiting::PendingRequests;
