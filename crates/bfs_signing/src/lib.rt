//! A relay as a filter's machine that signs what it tells replicas: once a turn, all requests of the turn, by an index of its key that is used for nothing else, over
//! all its lives. So a request passes at all replicas or at none.
#![tactic(auto)]

mod indexes;
mod laws;
mod replacing;
mod requests;
mod signing;

pub use laws::{indexes_rise_over_lives, what_leaves_is_signed};
pub use signing::{AHEAD, Signing};
