//! What waits is executed: from every state that replicas can come into, members have a finite schedule of turns by which they execute it.
#![tactic(auto)]

mod below;
pub mod catching;
pub mod executing;
pub mod marks;
pub mod meeting;
pub mod progress;
pub mod waiting;
pub mod window;
