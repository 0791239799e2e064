// The digests of blocks that are kept, so that what didn't change isn't hashed again.
ghost use Rattle.std.specs.Prelude.{◌≡◌};
ghost use Rattle.sha2.specs.Sha256.{sha256};
ghost use Rattle.bfs_blocks.specs.Blocks.{AreFilled, bytes_of, pieces_of};
ghost use Rattle.bfs_blocks.specs.Bytes.{block_at};

use crate::blocks::Block;
use crate::files::FileBlocks;
use bfs_types::Memory;
use std::alloc::{AllocError, Global};

impl FileBlocks {
    /// Keeps the SHA-256 (FIPS 180-4) of each block until it changes: those that are kept stay, and the other blocks are hashed. Copies
    /// that are made then share all blocks. `Memory` if memory runs out; then some blocks may keep theirs.
    pub fn keep(&mut self, alloc: Global) -> Result<(), Memory>
        ensures { self.new ≡ self.old }
    {
        Ok(keep_all(alloc, &mut self.blocks)?)
    }

    /// Keeps the SHA-256 of the block of that number, from 0 on, until it changes. Copies that are made then share it. Behind the last block
    /// it keeps nothing. `Memory` if memory runs out; then it keeps what it kept.
    pub fn keep_block(
        &mut self,
        alloc: Global,
        number: usize,
        digest: [u8; 32],
    ) -> Result<(), Memory>
        requires { digest ≡ sha256 (block_at self.old number) }
        ensures { self.new ≡ self.old }
    {
        Ok(keep_at(alloc, &mut self.blocks, number, digest)?)
    }
}

fn keep_all(alloc: Global, blocks: &mut [Block]) -> Result<(), AllocError>
    ensures { pieces_of blocks.new ≡ pieces_of blocks.old }
{
    for number in 0..blocks.len() {
        blocks[number].hash(alloc)?;
    }
    Ok(())
}

fn keep_at(
    alloc: Global,
    blocks: &mut [Block],
    number: usize,
    digest: [u8; 32],
) -> Result<(), AllocError>
    requires filled { AreFilled (pieces_of blocks.old) }
    requires digest { digest ≡ sha256 (block_at (bytes_of blocks.old) number) }
    ensures { pieces_of blocks.new ≡ pieces_of blocks.old }
{
    if number < blocks.len() {
        blocks[number].keep(alloc, digest)
    } else {
        Ok(())
    }
}
