// The blocks of a file, of which a record that is hashed has the digests.
ghost use Rattle.std.specs.Prelude.{◌≡◌, ◌++◌, List, ℕ, length};
ghost use Rattle.std.specs.List.{All};
ghost use Rattle.sha2.specs.Hashers.{Holds256};
ghost use Rattle.sha2.specs.Sha256.{sha256};
ghost use Rattle.bfs_blocks.specs.Bytes.{block_at, block_count};
ghost use Rattle.bfs_inode.specs.Records.{blocks_text};
ghost use Rattle.bfs_digest.specs.Inside.Hashed.{IsBlockOf};

use bfs_inode::{BLOCK_BYTES, FileBlocks, FileId};
use sha2::{Digest, Sha256};
use std::marker::Model;

/// A block of the file of that fileid, by its number from 0 on.
#[derive(Clone, Copy, PartialEq, Eq)]
pub(crate) struct Block {
    pub(crate) id: FileId,
    pub(crate) number: usize,
}

/// The SHA-256 (FIPS 180-4) of a block.
#[derive(Clone, Copy)]
pub(crate) struct BlockDigest {
    pub(crate) block: Block,
    pub(crate) digest: [u8; 32],
}

/// A file, with digests that were made before, of blocks of it and of other files. Those of its own come first, by rising number.
#[derive(Drop)]
pub(crate) struct File<'a> {
    id: FileId,
    bytes: &'a FileBlocks,
    made: &'a [BlockDigest],
}

impl<'a> Model for File<'a> {
    ghost use Rattle.std.specs.Prelude.{List, ℕ};
    ghost use Rattle.std.specs.List.{All};
    ghost use Rattle.bfs_digest.specs.Inside.Hashed.{IsBlockOf};

    ghost Value = { List ℕ };

    ghost view = { λ file. file.bytes.now };

    ghost invariant = { λ file. All (IsBlockOf file.id file.bytes.now) file.made.now };
}

impl<'a> File<'a> {
    pub(crate) fn new(id: FileId, bytes: &'a FileBlocks, made: &'a [BlockDigest]) -> File<'a>
        requires { All (IsBlockOf id bytes.now) made.now }
        ensures { result ≡ bytes.now }
    {
        File { id, bytes, made }
    }

    /// Feeds the digests of its blocks to a hasher, in order.
    pub(crate) fn hash_blocks(&self, hasher: &mut Sha256)
        ensures { (m : List ℕ) → Holds256 hasher.old m → Holds256 hasher.new (m ++ blocks_text self.now) }
    {
        let mut place = 0;
        for number in 0..block_count(self.bytes) {
            hasher.update(self.digest_at(number, &mut place));
        }
    }

    // of a block, where those that were made of blocks before it are passed
    fn digest_at(&self, number: usize, place: &mut usize) -> [u8; 32]
        ensures { result ≡ sha256 (block_at self.now number) }
    {
        let block = Block {
            id: self.id,
            number,
        };
        match self.made.get(*place) {
            Some(made) if made.block == block => {
                *place += 1;
                made.digest
            }
            _ => self.kept_or_hashed(number),
        }
    }

    fn kept_or_hashed(&self, number: usize) -> [u8; 32]
        ensures { result ≡ sha256 (block_at self.now number) }
    {
        match self.bytes.kept_block(number) {
            Some(digest) => digest,
            None => hash_block(self.bytes, number),
        }
    }
}

/// How many blocks a file has.
pub(crate) fn block_count(bytes: &FileBlocks) -> usize
    ensures { result ≡ block_count (length bytes.now) }
{
    bytes.len().div_ceil(BLOCK_BYTES)
}

/// The digest of a block of a file, by its number from 0 on; behind the last one, that of no bytes.
pub(crate) fn hash_block(bytes: &FileBlocks, number: usize) -> [u8; 32]
    ensures { result ≡ sha256 (block_at bytes.now number) }
{
    Sha256::digest(bytes.block(number))
}
