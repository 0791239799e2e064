//! The text of a file system, read and written, and its digest (FIPS 180-4, SHA-256).
#![tactic(auto)]

mod blocks;
mod digests;
mod errors;
mod formation;
mod freezing;
mod hashes;
mod hashing;
mod headers;
mod inodes;
mod laws;
mod lengths;
mod listings;
mod names;
mod placing;
mod reach;
mod readers;
mod refreshing;
mod restoration;
mod sharing;
mod snapshots;
mod spelling;
mod versions;
mod words;
mod writers;

pub use digests::{digest_parallel, digest_serial};
pub use errors::RestoreError;
pub use freezing::{FrozenFiles, freeze};
pub use laws::{
    a_file_system_has_one_text, a_text_spells_one_file_system, live_files_are_spellable,
    older_texts_are_spellable,
};
pub use restoration::{restore, restore_latest};
pub use snapshots::snapshot;
