//! The vocabulary that every crate above shares: bytes, fileids, times, ordinals, attributes, credentials, settings, limits,
//! copies, and the error for memory that runs out.
#![tactic(auto)]

mod attributes;
mod bytes;
mod context;
mod copies;
mod cred;
mod file_id;
mod gids;
mod limits;
mod memory;
mod ordinal;
mod procedure;
mod settings;
mod time;

pub use attributes::{Attributes, FileType};
pub use bytes::{Bytes, LinkPath, Name};
pub use context::Context;
pub use copies::{TryClone, copies_of};
pub use cred::Cred;
pub use file_id::FileId;
pub use gids::{Gids, MOST_GIDS};
pub use limits::{
    BLOCK_SIZE, CHECKPOINT_INTERVAL, LOG_SIZE, MOST_CLIENTS, MOST_DATA_BYTES, MOST_ENTRIES,
    MOST_FAULTS, MOST_FILE_BYTES, MOST_LINKS, MOST_NAME_BYTES, MOST_NUMBER, MOST_PATH_BYTES,
    MOST_PERMISSIONS, MOST_REPLICAS, MOST_REPLY_BYTES, MOST_REQUEST_BYTES, MOST_REQUESTS,
    TOTAL_BLOCKS, TRANSFER_SIZE, limits_are_those_of_the_model,
};
pub use memory::Memory;
pub use ordinal::Ordinal;
pub use procedure::Procedure;
pub use settings::{SetTime, Settings};
pub use time::Time;
