//! One replica as a process: what it makes of a turn, as calls of its node of which agreement is proved.
#![tactic(auto)]

mod acting;
mod collecting;
mod delivering;
mod fetching;
mod giving;
mod hearing;
mod laws;
mod notes;
mod proposing;
mod queue;
mod reporting;
mod resending;
mod service;
mod standings;
mod states;
mod telling;
mod terms;

pub use laws::processes_agree;
pub use service::Service;
pub use terms::Terms;
