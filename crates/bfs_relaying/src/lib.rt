//! A relay as a filter's machine, which tells no request whose timestamp isn't reserved: so it signs no timestamp twice over restarts.
#![tactic(auto)]

mod laws;
mod reserve;
mod reserving;

pub use laws::{timestamps_rise_over_lives, what_leaves_has_its_origin};
pub use reserve::Reserve;
pub use reserving::{AHEAD, Reserving};
