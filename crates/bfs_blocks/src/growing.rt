// Blocks that get more bytes behind, or fewer.
ghost use Rattle.std.specs.Prelude.{◌≡◌, ◌+◌, ◌*◌, ◌<◌, ◌≤◌, ◌++◌, length, take, replicate, IfOk, OnOk, OnErr};
ghost use Rattle.bfs_model.specs.Server.Limits.{most_file_bytes};
ghost use Rattle.bfs_blocks.specs.Blocks.{AreFilled, bytes_in, bytes_of, pieces_of};
ghost use Rattle.bfs_blocks.specs.Bytes.{block_bytes};

use crate::blocks::Block;
use std::alloc::{AllocError, Global};

/// The bytes of a block of a file; its last block may have fewer.
pub const BLOCK_BYTES: usize = 4_096;

/// How many bytes there are.
pub(crate) fn count(blocks: &[Block]) -> usize
    requires filled { AreFilled (pieces_of blocks.now) }
    requires few { length (bytes_of blocks.now) ≤ most_file_bytes }
    ensures { result ≡ length (bytes_of blocks.now) }
{
    match blocks.last() {
        None => 0,
        Some(last) => BLOCK_BYTES * (blocks.len() - 1) + last.len(),
    }
}

/// Puts bytes behind them. If memory runs out, some of the bytes may stand there.
pub(crate) fn append(alloc: Global, blocks: &mut Vec<Block>, bytes: &[u8]) -> Result<(), AllocError>
    requires { AreFilled (pieces_of blocks.old.items) }
    ensures filled { AreFilled (pieces_of blocks.new.items) }
    ensures ok { OnOk result (bytes_of blocks.new.items ≡ bytes_of blocks.old.items ++ bytes.now) }
    ensures err { OnErr result (take (length (bytes_of blocks.old.items)) (bytes_of blocks.new.items) ≡ bytes_of blocks.old.items) }
{
    make_room(blocks, bytes.len())?;
    let mut rest = bytes;
    while !rest.is_empty() {
        let count = append_some(alloc, blocks, rest)?;
        rest = &rest[count..];
    }
    Ok(())
}

/// Makes room for no more than the blocks of so many bytes, where there are none: most files get all their bytes at once, or grow by few.
pub(crate) fn make_room(blocks: &mut Vec<Block>, bytes: usize) -> Result<(), AllocError>
    ensures { blocks.new.items ≡ blocks.old.items }
{
    if blocks.is_empty() {
        blocks.reserve_exact(bytes.div_ceil(BLOCK_BYTES))
    } else {
        Ok(())
    }
}

// as many as fit into the last block, or into a new one
fn append_some(alloc: Global, blocks: &mut Vec<Block>, bytes: &[u8]) -> Result<usize, AllocError>
    requires filled { AreFilled (pieces_of blocks.old.items) }
    requires some { 0 < length bytes.now }
    ensures filled { AreFilled (pieces_of blocks.new.items) }
    ensures some { IfOk result (λ count. (0 < count) × (count ≤ length bytes.now)) }
    ensures ok { IfOk result (λ count. bytes_of blocks.new.items ≡ bytes_of blocks.old.items ++ take count bytes.now) }
    ensures err { OnErr result (bytes_of blocks.new.items ≡ bytes_of blocks.old.items) }
{
    let room = room_in_last(blocks);
    if room == 0 {
        let (first, _) = bytes.split_at(bytes.len().min(BLOCK_BYTES));
        push(blocks, Block::new(alloc, first)?)?;
        Ok(first.len())
    } else {
        let (first, _) = bytes.split_at(bytes.len().min(room));
        extend_last(blocks, first)?;
        Ok(first.len())
    }
}

/// How many bytes the last block has room for.
pub(crate) fn room_in_last(blocks: &[Block]) -> usize
    requires { AreFilled (pieces_of blocks.now) }
    ensures { length (bytes_of blocks.now) + result ≡ block_bytes * length blocks.now }
{
    match blocks.last() {
        None => 0,
        Some(last) => BLOCK_BYTES - last.len(),
    }
}

/// Puts a block behind them, where the last one is full.
pub(crate) fn push(blocks: &mut Vec<Block>, block: Block) -> Result<(), AllocError>
    requires filled { AreFilled (pieces_of blocks.old.items) }
    requires full { length (bytes_of blocks.old.items) ≡ block_bytes * length blocks.old.items }
    requires piece { (0 < length (bytes_in block)) × (length (bytes_in block) ≤ block_bytes) }
    ensures filled { AreFilled (pieces_of blocks.new.items) }
    ensures ok { OnOk result (bytes_of blocks.new.items ≡ bytes_of blocks.old.items ++ bytes_in block) }
    ensures err { OnErr result (bytes_of blocks.new.items ≡ bytes_of blocks.old.items) }
{
    blocks.push(block)?;
    Ok(())
}

/// Puts bytes behind those of the last block, which has room for them.
pub(crate) fn extend_last(blocks: &mut Vec<Block>, bytes: &[u8]) -> Result<(), AllocError>
    requires filled { AreFilled (pieces_of blocks.old.items) }
    requires some { 0 < length blocks.old.items }
    requires room { length (bytes_of blocks.old.items) + length bytes.now ≤ block_bytes * length blocks.old.items }
    ensures filled { AreFilled (pieces_of blocks.new.items) }
    ensures ok { OnOk result (bytes_of blocks.new.items ≡ bytes_of blocks.old.items ++ bytes.now) }
    ensures err { OnErr result (bytes_of blocks.new.items ≡ bytes_of blocks.old.items) }
{
    let last = blocks.len() - 1;
    blocks[last].extend(bytes)
}

/// Cuts off the bytes behind the first so many.
pub(crate) fn cut(blocks: &mut Vec<Block>, size: usize)
    requires filled { AreFilled (pieces_of blocks.old.items) }
    requires within { size ≤ length (bytes_of blocks.old.items) }
    ensures filled { AreFilled (pieces_of blocks.new.items) }
    ensures bytes { bytes_of blocks.new.items ≡ take size (bytes_of blocks.old.items) }
{
    let whole = size / BLOCK_BYTES;
    let rest = size % BLOCK_BYTES;
    if rest == 0 {
        blocks.truncate(whole);
    } else {
        blocks.truncate(whole + 1);
        blocks[whole].cut(rest);
    }
}
