//! Clients of the run of a trace see one server.
#![tactic(auto)]

pub mod laws;
