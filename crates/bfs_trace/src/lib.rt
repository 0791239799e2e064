//! Traces: what happens to a new file system, event by event, as lines of text tell it.
#![tactic(auto)]

mod buffer;
mod callers;
mod checking;
mod events;
mod fault;
mod header;
mod items;
mod lines;
mod numbers;
mod operands;
mod parser;
mod population;
mod reading;
pub mod sent_calls;
mod texts;
mod times;
mod trace;
mod verbs;
mod words;

pub use events::{Block, Request, TraceEvent};
pub use parser::parse_trace;
pub use population::Population;
pub use trace::{Trace, TraceError};
