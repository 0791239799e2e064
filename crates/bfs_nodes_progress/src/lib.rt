//! Nodes that hear one another go on: they enter a view together, and what is proposed there is committed and executed at each.
#![tactic(auto)]

mod below;
pub mod examples;
pub mod laws;
pub mod living;
