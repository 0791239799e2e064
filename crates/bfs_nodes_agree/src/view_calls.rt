// Replicas by the calls of their orders, and the VIEW-CHANGEs and NEW-VIEWs that they make and take.
pub mod laws;
