//! Which requests of a batch may be executed at one time: runs, groups, and the levels of a group.
#![tactic(auto)]

mod group;
mod laws;
mod marks;
mod part;
mod plans;
mod run;

pub use group::{Group, plan_group};
pub use laws::{groups_are_cut, groups_are_longest, levels_rise, runs_are_longest};
pub use part::Part;
pub use run::{Run, runs};
