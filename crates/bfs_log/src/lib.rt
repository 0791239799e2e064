//! The messages that a replica has accepted: what they tell of a batch or a checkpoint, found without a walk through all of them, and what shows it to others.
#![tactic(auto)]

mod asking;
mod certificates;
mod collecting;
mod committed;
mod copies;
mod counting;
mod headers;
mod logs;
mod places;
mod rows;
mod said;
mod senders;
mod showing;

pub use certificates::{
    StableCheckpoint, does_certify, does_vouch, faults_of, is_stable_shown, vote_in,
};
pub use committed::Committed;
pub use counting::primary_of;
pub use headers::Slot;
pub use logs::Log;
pub use said::Said;
