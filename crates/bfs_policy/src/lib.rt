//! When a replica does what: a pure machine that is told the time and how things stand, and answers what is due. It knows no message and no node, and
//! nothing of safety rests on it (OSDI 1999 section 4.5.2).
#![tactic(auto)]

mod facts;
mod fetching;
mod laws;
mod peers;
mod policy;
mod telling;
mod timer;
mod times;

pub use facts::{Decision, Facts, Leaving, Standing};
pub use laws::{
    execution_ends_patience, patience_is_bounded, the_policy_follows, times_out_only_waiting,
};
pub use policy::Policy;
