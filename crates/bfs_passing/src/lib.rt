//! Where all replicas and clients sign, what passes at one replica passes at each: so members hear one another.
#![tactic(auto)]

mod below;
pub mod laws;
