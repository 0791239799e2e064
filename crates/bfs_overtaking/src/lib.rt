//! The pure machine of a group of calls that overtake each other: each is taken when no earlier one holds it back, and finished later.
#![tactic(auto)]

mod calls;
mod claims;
mod errors;
mod events;
mod laws;
mod loans;
mod machine;
mod running;

pub use errors::CoreError;
pub use events::Event;
pub use laws::{events_are_steps, events_overtake, plans_are_groups, steps_are_accepted};
pub use machine::Core;
