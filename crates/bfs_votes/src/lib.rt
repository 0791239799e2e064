//! What votes of replicas prove: any two quorums meet in a replica that does not lie.
#![tactic(auto)]

pub mod quorums;
