//! The definitions that must be believed, and laws of theirs as the contracts of functions that do nothing.
#![tactic(auto)]

pub mod groups;
pub mod keeping;
pub mod paging;
pub mod procedures;
pub mod replies;
pub mod replies_read;
pub mod soundness;
pub mod spelling;
pub mod stored;
