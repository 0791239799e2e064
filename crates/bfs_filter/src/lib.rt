//! Filters: processes of the service that own no socket and no clock. A filter reads a turn, has its machine take it, and writes the machine's answer, until
//! its input ends.
#![tactic(auto)]

mod error;
mod machine;
mod output;
mod serving;

pub use error::{ServeError, TurnError};
pub use machine::Machine;
pub use serving::serve;
