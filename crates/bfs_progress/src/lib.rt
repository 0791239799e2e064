//! Correct replicas that hear one another go on, from every state that they can come into.
#![tactic(auto)]

pub mod examples;
pub mod laws;
