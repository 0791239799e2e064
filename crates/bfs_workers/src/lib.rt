//! Jobs run by workers, each in a thread of its own where one can be started.
#![tactic(auto)]

mod gate;
mod laws;
mod queue;
mod rule;
mod sequence;
mod split;
mod workers;

pub use gate::{Gate, NoGate};
pub use laws::each_number_once;
pub use queue::run_queue;
pub use sequence::run_here;
pub use split::run_split;
pub use workers::{MOST_WORKERS, Workers};
