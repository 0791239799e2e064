//! What one replica knows of the order of batches (PBFT, OSDI 1999 sections 4.2 to 4.4).
#![tactic(auto)]

mod answers;
mod asking;
mod behind;
mod checkpoints;
mod error;
mod executing;
mod installing;
mod laws;
mod marks;
mod order;
mod proposing;
mod refusals;
mod resending;
mod views;

pub use error::OrderError;
pub use laws::{
    a_replica_stays_itself, certificates_make_checkpoints_stable, logs_are_clean,
    numbers_lie_in_the_window, slots_differ, the_stable_checkpoint_has_its_certificate,
    views_are_entered, what_is_executed_has_its_certificate, what_is_resent_is_its_own,
    what_is_sent_says_one_digest,
};
pub use marks::Marks;
pub use order::Order;
pub use resending::Lag;
