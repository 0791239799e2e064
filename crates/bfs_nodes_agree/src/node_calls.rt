// Whole replicas, by the calls of their nodes and deliveries of bytes.
pub mod laws;
pub mod performing;
