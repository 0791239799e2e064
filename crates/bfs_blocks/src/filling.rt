// Zeros behind the bytes of blocks.
ghost use Rattle.std.specs.Prelude.{◌≡◌, ◌<◌, ◌≤◌, ◌++◌, length, take, replicate, IfOk, OnOk, OnErr};
ghost use Rattle.bfs_blocks.specs.Blocks.{AreFilled, bytes_in, bytes_of, pieces_of};
ghost use Rattle.bfs_blocks.specs.Bytes.{block_bytes};

use crate::blocks::Block;
use crate::growing::{BLOCK_BYTES, extend_last, make_room, push, room_in_last};
use std::alloc::{AllocError, Global};

/// Of so many zeros at once, the blocks share one: it is hashed, which takes longer than filling some blocks.
const FEWEST_SHARED: usize = 32 * BLOCK_BYTES;

/// Puts that many zeros behind them. If memory runs out, some of the zeros may stand there.
pub(crate) fn fill(alloc: Global, blocks: &mut Vec<Block>, count: usize) -> Result<(), AllocError>
    requires { AreFilled (pieces_of blocks.old.items) }
    ensures filled { AreFilled (pieces_of blocks.new.items) }
    ensures ok { OnOk result (bytes_of blocks.new.items ≡ bytes_of blocks.old.items ++ replicate count 0) }
    ensures err { OnErr result (take (length (bytes_of blocks.old.items)) (bytes_of blocks.new.items) ≡ bytes_of blocks.old.items) }
{
    if count == 0 {
        return Ok(());
    }
    make_room(blocks, count)?;
    let mut zeros = Block::zeros(alloc, count.min(BLOCK_BYTES))?;
    if count >= FEWEST_SHARED {
        zeros.hash(alloc)?;
    }
    let mut left = count;
    while left > 0 {
        let filled = fill_some(alloc, blocks, &zeros, left)?;
        left -= filled;
    }
    Ok(())
}

// as many as fit into the last block, or a new one of them; those are at most a block of zeros
fn fill_some(
    alloc: Global,
    blocks: &mut Vec<Block>,
    zeros: &Block,
    left: usize,
) -> Result<usize, AllocError>
    requires filled { AreFilled (pieces_of blocks.old.items) }
    requires some { 0 < left }
    requires zeros { bytes_in zeros.now ≡ replicate (length (bytes_in zeros.now)) 0 }
    requires piece { (0 < length (bytes_in zeros.now)) × (length (bytes_in zeros.now) ≤ block_bytes) }
    ensures filled { AreFilled (pieces_of blocks.new.items) }
    ensures some { IfOk result (λ count. (0 < count) × (count ≤ left)) }
    ensures ok { IfOk result (λ count. bytes_of blocks.new.items ≡ bytes_of blocks.old.items ++ replicate count 0) }
    ensures err { OnErr result (bytes_of blocks.new.items ≡ bytes_of blocks.old.items) }
{
    let most = left.min(zeros.len());
    let room = room_in_last(blocks);
    if room == 0 {
        let mut block = zeros.copy(alloc)?;
        block.cut(most);
        push(blocks, block)?;
        Ok(most)
    } else {
        let (first, _) = zeros.as_slice().split_at(most.min(room));
        extend_last(blocks, first)?;
        Ok(first.len())
    }
}
