//! The last reply to each client, by which a request that comes again gets its reply and is not executed again.
#![tactic(auto)]

mod answers;
mod laws;
mod reading;
mod skipping;
mod tables;
mod texts;
mod timestamps;

pub use answers::Answer;
pub use bfs_types::MOST_CLIENTS;
pub use laws::{tables_are_read_again, tables_were_written};
pub use reading::ReadError;
pub use tables::{Class, RecordError, ReplyTable};
pub use timestamps::Timestamps;
