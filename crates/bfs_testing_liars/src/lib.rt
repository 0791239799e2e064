//! Replicas of which some lie, bytes on their way between them, what is drawn at random, and what must hold of those that don't lie. No call has a
//! contract here: a test that is told what a replica does proves many times as long.
#![tactic(auto)]

pub mod batches;
pub mod checks;
pub mod deeds;
pub mod draws;
pub mod heads;
pub mod liars;
pub mod lies;
pub mod past;
pub mod sets;
pub mod steps;
pub mod world;
