// The bytes of a file, read block by block.
ghost use Rattle.std.specs.Prelude.{◌≡◌, ◌-◌, ◌%◌, ◌++◌, length, take, drop, IfSome, OnOk, OnErr};
ghost use Rattle.std.specs.List.{concat};
ghost use Rattle.sha2.specs.Sha256.{sha256};
ghost use Rattle.bfs_blocks.specs.Bytes.{block_at, block_bytes, blocks_in};

use crate::files::FileBlocks;
use crate::growing::BLOCK_BYTES;
use crate::pieces::Pieces;
use bfs_types::Memory;
use std::alloc::AllocError;

impl FileBlocks {
    /// The block of that number, from 0 on; behind the last one, no bytes.
    pub fn block(&self, number: usize) -> &[u8]
        ensures { result.now ≡ block_at self.now number }
    {
        match self.blocks.get(number) {
            Some(block) => block.as_slice(),
            None => &[],
        }
    }

    /// The blocks, in order.
    pub fn blocks(&self) -> Pieces<'_>
        ensures blocks { result ≡ blocks_in self.now }
        ensures whole { concat result ≡ self.now }
    {
        Pieces {
            left: self.blocks.iter(),
        }
    }

    /// The SHA-256 (FIPS 180-4) of the block of that number, from 0 on, or `None` if it keeps none. It takes no memory.
    pub fn kept_block(&self, number: usize) -> Option<[u8; 32]>
        ensures { IfSome result (λ digest. digest ≡ sha256 (block_at self.now number)) }
    {
        match self.blocks.get(number) {
            Some(block) => block.digest(),
            None => None,
        }
    }

    /// The bytes from an offset on, up to the end of the block that it is in.
    pub fn piece(&self, offset: usize) -> &[u8]
        ensures { result.now ≡ take (block_bytes - offset % block_bytes) (drop offset self.now) }
    {
        let block = self.block(offset / BLOCK_BYTES);
        let (_, behind) = block.split_at((offset % BLOCK_BYTES).min(block.len()));
        behind
    }

    /// Puts the bytes from an offset on, at most so many, behind others. `Memory` if memory runs out there; then these stay as they were.
    pub fn read(&self, offset: usize, count: usize, out: &mut Vec<u8>) -> Result<(), Memory>
        ensures ok { OnOk result (out.new.items ≡ out.old.items ++ take count (drop offset self.now)) }
        ensures err { OnErr result (out.new.items ≡ out.old.items) }
    {
        let before = out.len();
        let result = self.read_pieces(offset, count, out);
        if result.is_err() {
            out.truncate(before);
        }
        Ok(result?)
    }

    // if memory runs out, some of the bytes may stand there
    fn read_pieces(&self, offset: usize, count: usize, out: &mut Vec<u8>) -> Result<(), AllocError>
        ensures ok { OnOk result (out.new.items ≡ out.old.items ++ take count (drop offset self.now)) }
        ensures err { OnErr result (take (length out.old.items) out.new.items ≡ out.old.items) }
    {
        let mut left = self.len().saturating_sub(offset).min(count);
        let mut at = offset;
        while left > 0 {
            let piece = self.piece(at);
            let (first, _) = piece.split_at(left.min(piece.len()));
            out.extend_from_slice(first)?;
            left -= first.len();
            at += first.len();
        }
        Ok(())
    }
}
