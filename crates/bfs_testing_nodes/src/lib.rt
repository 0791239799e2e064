//! What the tests of replicas share: their keys and requests, replicas, and what is done to them. No call has a contract here: a test that is told what a
//! replica does proves many times as long.
#![tactic(auto)]

pub mod calls;
pub mod hashes;
pub mod members;
pub mod said;
pub mod snapshots;
