//! The bytes of a file in blocks. Copies of the file share those that keep their digest, so that a copy costs a pointer a block.
#![tactic(auto)]

mod blocks;
mod copies;
mod files;
mod filling;
mod growing;
mod keeping;
mod pieces;
mod reading;
mod shared;
mod writing;

pub use files::FileBlocks;
pub use growing::BLOCK_BYTES;
pub use pieces::Pieces;
