//! The clients of a run of replicas: the keys that they sign their requests with, and what they make of the replies.
#![tactic(auto)]

mod checking;
mod clients;
mod counters;
mod signing;
mod tallies;
mod tally;

pub use clients::{Call, Clients};
pub use counters::Counter;
pub use tallies::Tallies;
pub use tally::Tally;
