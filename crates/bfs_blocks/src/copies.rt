// Copies of a file, which share its blocks.
ghost use Rattle.std.specs.Prelude.{◌≡◌, IfOk};
ghost use Rattle.bfs_blocks.specs.Blocks.{pieces_of};

use crate::blocks::Block;
use crate::files::FileBlocks;
use bfs_types::{Memory, TryClone};
use std::alloc::{AllocError, Global};

impl FileBlocks {
    /// A copy that shares all blocks: those that don't keep their digest are hashed first (`FileBlocks::keep`). `Memory` if memory runs
    /// out.
    pub fn share(&mut self, alloc: Global) -> Result<FileBlocks, Memory>
        ensures stays { self.new ≡ self.old }
        ensures copy { IfOk result (λ copy. copy ≡ self.old) }
    {
        self.keep(alloc)?;
        self.try_clone(alloc)
    }

    fn copy(&self, alloc: Global) -> Result<FileBlocks, AllocError>
        ensures { IfOk result (λ copy. copy ≡ self.now) }
    {
        let blocks = copies(alloc, &self.blocks)?;
        Ok(FileBlocks { blocks })
    }
}

/// A copy costs a pointer a block, and the bytes of the blocks that don't keep their digest (`FileBlocks::keep`).
impl TryClone for FileBlocks {
    fn try_clone(&self, alloc: Global) -> Result<FileBlocks, Memory> {
        Ok(self.copy(alloc)?)
    }
}

/// As `TryClone`.
impl Clone for FileBlocks {
    ghost is_clone = { λ file copy. copy ≡ file };

    fn clone(&self) -> Result<FileBlocks, AllocError> {
        self.copy(*self.blocks.allocator())
    }
}

fn copies(alloc: Global, blocks: &[Block]) -> Result<Vec<Block>, AllocError>
    ensures { IfOk result (λ copies. pieces_of copies.items ≡ pieces_of blocks.now) }
{
    let mut copies = Vec::with_capacity(alloc, blocks.len())?;
    for block in blocks {
        copies.push(block.copy(alloc)?)?;
    }
    Ok(copies)
}
