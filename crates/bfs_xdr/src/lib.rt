//! The items of XDR (RFC 4506): a reader over bytes, and the one way in which each item is written, or fed to a hasher.
#![tactic(auto)]

mod error;
mod hashing;
mod items;
mod reader;
mod sinks;
mod writer;

pub use error::XdrError;
pub use hashing::{hash_fixed, hash_opaque, hash_u32, hash_u64, hash_words};
pub use reader::Reader;
pub use sinks::Sink;
pub use writer::{put_bool, put_fixed, put_opaque, put_padding, put_u32, put_u64, put_words};
