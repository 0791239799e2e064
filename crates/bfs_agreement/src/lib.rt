//! Replicas that execute a batch for a number agree on it, in one view and across all views.
#![tactic(auto)]

pub mod agreement;
pub mod examples;
pub mod states;
pub mod views;
