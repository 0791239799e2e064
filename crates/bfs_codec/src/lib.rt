//! Messages as bytes (this project's profile, in the items of XDR, RFC 4506): each has one text, which is read back to it, and nothing else
//! is read.
#![tactic(auto)]

mod batches;
mod changes;
mod error;
mod kinds;
mod laws;
mod parts;
mod reader;
mod reading;
mod writing;

pub use error::DecodeError;
pub use laws::{
    batches_with_one_text, message_is_read_again, message_was_written, one_text,
    text_spells_message,
};
pub use reading::decode;
pub use writing::encode;
