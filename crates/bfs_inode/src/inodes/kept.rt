// The digests of records, and of the blocks that a file keeps.
ghost use Rattle.std.specs.Prelude.{◌≡◌};
ghost use Rattle.sha2.specs.Sha256.{sha256};
ghost use Rattle.bfs_blocks.specs.Bytes.{block_at};
ghost use Rattle.bfs_inode.specs.Inodes.{bytes_in};

use crate::bodies::Body;
use crate::inodes::Inode;
use bfs_types::{FileId, Memory};
use std::alloc::Global;

/// The SHA-256 (FIPS 180-4) of the record of an inode under a fileid.
#[derive(Clone, Copy, Debug)]
pub struct RecordDigest {
    /// The fileid in the record.
    pub id: FileId,
    /// Of the record's bytes.
    pub digest: [u8; 32],
}

impl Inode {
    /// Keeps the SHA-256 (FIPS 180-4) of the block of that number of a file, until it changes (`FileBlocks::keep_block`). An inode that is no
    /// file stays. `Memory` if memory runs out; then it keeps what it kept.
    pub fn keep_block(
        &mut self,
        alloc: Global,
        number: usize,
        digest: [u8; 32],
    ) -> Result<(), Memory>
        requires { digest ≡ sha256 (block_at (bytes_in self.old.body) number) }
        ensures { self.new ≡ self.old }
    {
        match &mut self.body {
            Body::File(data) => data.keep_block(alloc, number, digest),
            _ => Ok(()),
        }
    }
}
