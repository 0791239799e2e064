//! The calls of NFS version 2, read from bytes, and their results, written as bytes (RFC 1094).
#![tactic(auto)]

mod arguments;
mod call;
mod file_type;
mod garbage;
mod handle;
mod listing;
mod reply;
mod status;

pub use call::{NfsCall, parse_args};
pub use garbage::GarbageArgs;
pub use handle::{handle_bytes, handle_id};
pub use listing::{ListedEntries, ListedEntry, put_end_of_entries, put_entry};
pub use reply::{
    FileBytes, NfsReply, put_contents, put_contents_front, put_done, put_reply, write_reply,
};
pub use status::Status;
