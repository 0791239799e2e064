//! Inodes, in memory: files, directories and symbolic links (RFC 1094 section 2.3).
#![tactic(auto)]

mod bodies;
mod directories;
mod frozen;
mod inodes;
mod names;

pub use bfs_blocks::{BLOCK_BYTES, FileBlocks};
pub use bfs_types::{FileId, Time};
pub use bodies::Body;
pub use directories::{Directory, Entries, Entry, Listed, Page};
pub use frozen::{FrozenBody, FrozenInode};
pub use inodes::{Inode, Metadata, RecordDigest};
pub use names::{is_bad_name, is_no_name};
