//! Journals: records that outlive a crash, as bytes. What was kept is read back after it, whatever the crash left behind that.
#![tactic(auto)]

mod disk;
mod error;
mod keeping;
mod laws;
mod reading;
mod rest;
mod writing;

pub use disk::Disk;
pub use error::KeepError;
pub use keeping::keep;
pub use laws::{
    cuts_are_no_damage, damage_is_told, fronts_are_read, one_reading, recovers_a_front,
    synced_is_read,
};
pub use reading::{Recovered, read_journal};
pub use rest::Rest;
pub use writing::{MOST_BODY_BYTES, put_record};
