//! What the tests of batches and jobs share: the engines, batches that are made for them, replies compared, and gates that hold jobs back or count
//! them.
#![tactic(auto)]

pub mod batches;
pub mod engines;
pub mod gates;
