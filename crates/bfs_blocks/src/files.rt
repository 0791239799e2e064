// The bytes of a file.
ghost use Rattle.std.specs.Prelude.{◌≡◌, ◌+◌, ◌≤◌, length, replicate, IfOk, OnOk, OnErr};
ghost use Rattle.bfs_model.specs.Server.FileBytes.{overwritten, resized};
ghost use Rattle.bfs_model.specs.Server.Limits.{most_file_bytes};

use crate::blocks::Block;
use crate::filling::fill;
use crate::growing::{append, count};
use crate::writing::{resize, write};
use bfs_types::Memory;
use std::alloc::Global;
use std::marker::Model;

/// The bytes of a file: at most `MOST_FILE_BYTES`, in blocks of `BLOCK_BYTES`, of which the last one may have fewer.
///
/// A block may keep its SHA-256 (FIPS 180-4), and copies of the file then share its bytes. Each change of a block drops its digest, and
/// makes bytes of its own where others share them. Contracts see nothing of it.
#[derive(Debug, Drop)]
pub struct FileBlocks {
    pub(crate) blocks: Vec<Block>,
}

impl Model for FileBlocks {
    ghost use Rattle.std.specs.Prelude.{ℕ, List};
    ghost use Rattle.bfs_blocks.specs.Blocks.{AreOfFile, bytes_of};

    ghost Value = { List ℕ };

    ghost view = { λ file. bytes_of file.blocks.items };

    ghost invariant = { λ file. AreOfFile file.blocks.items };
}

impl FileBlocks {
    /// A copy of those bytes. `Memory` if memory runs out.
    pub fn new(alloc: Global, bytes: &[u8]) -> Result<FileBlocks, Memory>
        requires { length bytes.now ≤ most_file_bytes }
        ensures { IfOk result (λ file. file ≡ bytes.now) }
    {
        let mut blocks = Vec::new(alloc);
        append(alloc, &mut blocks, bytes)?;
        Ok(FileBlocks { blocks })
    }

    /// That many zeros. `Memory` if memory runs out.
    pub fn zeros(alloc: Global, size: usize) -> Result<FileBlocks, Memory>
        requires { size ≤ most_file_bytes }
        ensures { IfOk result (λ file. file ≡ replicate size 0) }
    {
        let mut blocks = Vec::new(alloc);
        fill(alloc, &mut blocks, size)?;
        Ok(FileBlocks { blocks })
    }

    /// How many bytes there are.
    pub fn len(&self) -> usize
        ensures value { result ≡ length self.now }
        ensures within { result ≤ most_file_bytes }
    {
        count(&self.blocks)
    }

    /// Makes them that many: drops the bytes behind, which takes no memory, or puts zeros behind. `Memory` if memory runs out; then
    /// nothing changes.
    pub fn resize(&mut self, size: usize) -> Result<(), Memory>
        requires { size ≤ most_file_bytes }
        ensures ok { OnOk result (self.new ≡ resized size self.old) }
        ensures err { OnErr result (self.new ≡ self.old) }
    {
        Ok(resize(&mut self.blocks, size)?)
    }

    /// Writes other bytes over them from an offset on. An offset past the end is filled up to with zeros. Writing no bytes
    /// changes nothing. Of the blocks that copies share, those that are written in part are copied first. It takes some stack for each
    /// block that it writes over. `Memory` if memory runs out; then nothing changes.
    pub fn write(&mut self, offset: usize, written: &[u8]) -> Result<(), Memory>
        requires { offset + length written.now ≤ most_file_bytes }
        ensures ok { OnOk result (self.new ≡ overwritten offset written.now self.old) }
        ensures err { OnErr result (self.new ≡ self.old) }
    {
        Ok(write(&mut self.blocks, offset, written)?)
    }
}
