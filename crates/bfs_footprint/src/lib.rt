//! The fileids that a call reads and writes, found on the inodes before it, and whether two calls conflict.
#![tactic(auto)]

mod access;
mod calls;
mod file_ids;
mod footprints;
mod requests;
mod resolved;

pub use calls::footprint;
pub use file_ids::FileIds;
pub use footprints::{Footprint, conflicts};
pub use requests::{Touch, touch_of};
pub use resolved::{ResolvedIn, resolved_in};
