// Replicas by the calls of their orders.
pub mod laws;
pub mod performing;
