//! Replicas agree: whatever a node does is a list of calls of its order and of its view changes, and these are moves of which agreement is proved.
#![tactic(auto)]

pub mod node_calls;
pub mod order_calls;
pub mod view_calls;
