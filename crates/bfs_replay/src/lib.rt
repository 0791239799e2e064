//! What `replay` is asked to do and does: its command line, and the run of a trace.
#![tactic(auto)]

mod blocks;
mod command_line;
mod failure;
mod input;
mod outcome;
mod population;
mod results;
mod run;
mod standings;
mod timeouts;
mod usage;
mod writing;

pub use bfs_outcome::{Engine, Executor, Gate, NoGate, Workers};
pub use bfs_settings::{Settings, SettingsError, default_settings, parse_settings};
pub use bfs_trace::{
    Block, Population, Request, Trace, TraceError, TraceEvent, parse_trace, sent_calls,
};
pub use command_line::options;
pub use failure::Failure;
pub use input::{MOST_TRACE_BYTES, read_input};
pub use outcome::{Outcome, compare};
pub use population::population_of;
pub use run::{ReplayError, run_trace};
pub use usage::{Options, UsageError};
pub use writing::Output;
