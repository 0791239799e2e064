// Bytes written over those of blocks.
ghost use Rattle.std.specs.Prelude.{◌≡◌, ◌+◌, ◌<◌, ◌≤◌, length, take, OnOk, OnErr};
ghost use Rattle.bfs_model.specs.Server.FileBytes.{filled_to, overwritten, resized};
ghost use Rattle.bfs_model.specs.Server.Limits.{most_file_bytes};
ghost use Rattle.bfs_blocks.specs.Blocks.{AreFilled, bytes_of, pieces_of, put_at};
ghost use Rattle.bfs_blocks.specs.Bytes.{block_bytes};

use crate::blocks::Block;
use crate::filling::fill;
use crate::growing::{BLOCK_BYTES, append, count, cut};
use std::alloc::AllocError;

/// As `FileBlocks::write`.
pub(crate) fn write(
    blocks: &mut Vec<Block>,
    offset: usize,
    written: &[u8],
) -> Result<(), AllocError>
    requires filled { AreFilled (pieces_of blocks.old.items) }
    requires few { length (bytes_of blocks.old.items) ≤ most_file_bytes }
    requires end { offset + length written.now ≤ most_file_bytes }
    ensures filled { AreFilled (pieces_of blocks.new.items) }
    ensures ok { OnOk result (bytes_of blocks.new.items ≡ overwritten offset written.now (bytes_of blocks.old.items)) }
    ensures err { OnErr result (bytes_of blocks.new.items ≡ bytes_of blocks.old.items) }
{
    if written.is_empty() {
        return Ok(());
    }
    let before = count(blocks);
    let result = put(blocks, before, offset, written);
    if result.is_err() {
        cut(blocks, before);
    }
    result
}

// of so many bytes; if memory runs out, there may be more behind them
fn put(
    blocks: &mut Vec<Block>,
    before: usize,
    offset: usize,
    written: &[u8],
) -> Result<(), AllocError>
    requires filled { AreFilled (pieces_of blocks.old.items) }
    requires before { before ≡ length (bytes_of blocks.old.items) }
    requires some { 0 < length written.now }
    requires end { offset + length written.now ≤ most_file_bytes }
    ensures filled { AreFilled (pieces_of blocks.new.items) }
    ensures ok { OnOk result (bytes_of blocks.new.items ≡ overwritten offset written.now (bytes_of blocks.old.items)) }
    ensures err { OnErr result (take before (bytes_of blocks.new.items) ≡ bytes_of blocks.old.items) }
{
    let alloc = *blocks.allocator();
    fill(alloc, blocks, offset.saturating_sub(before))?;
    let within = before.saturating_sub(offset).min(written.len());
    let (over, behind) = written.split_at(within);
    append(alloc, blocks, behind)?;
    put_within(blocks, offset, over)
}

fn put_within(blocks: &mut [Block], offset: usize, bytes: &[u8]) -> Result<(), AllocError>
    requires filled { AreFilled (pieces_of blocks.old) }
    requires within { offset + length bytes.now ≤ length (bytes_of blocks.old) }
    ensures filled { AreFilled (pieces_of blocks.new) }
    ensures ok { OnOk result (bytes_of blocks.new ≡ put_at offset bytes.now (bytes_of blocks.old)) }
    ensures err { OnErr result (bytes_of blocks.new ≡ bytes_of blocks.old) }
{
    let first = (offset / BLOCK_BYTES).min(blocks.len());
    put_from(&mut blocks[first..], offset % BLOCK_BYTES, bytes)
}

// From the first block on. The blocks behind it are written first, so that nothing is written where memory runs out.
fn put_from(blocks: &mut [Block], start: usize, bytes: &[u8]) -> Result<(), AllocError>
    requires filled { AreFilled (pieces_of blocks.old) }
    requires start { start < block_bytes }
    requires within { start + length bytes.now ≤ length (bytes_of blocks.old) }
    ensures filled { AreFilled (pieces_of blocks.new) }
    ensures ok { OnOk result (bytes_of blocks.new ≡ put_at start bytes.now (bytes_of blocks.old)) }
    ensures err { OnErr result (bytes_of blocks.new ≡ bytes_of blocks.old) }
{
    if bytes.is_empty() {
        return Ok(());
    }
    let here = bytes.len().min(blocks[0].len() - start);
    let (first, behind) = bytes.split_at(here);
    blocks[0].make_ready(here)?;
    put_from(&mut blocks[1..], 0, behind)?;
    blocks[0].put(start, first);
    Ok(())
}

/// As `FileBlocks::resize`.
pub(crate) fn resize(blocks: &mut Vec<Block>, size: usize) -> Result<(), AllocError>
    requires filled { AreFilled (pieces_of blocks.old.items) }
    requires few { length (bytes_of blocks.old.items) ≤ most_file_bytes }
    ensures filled { AreFilled (pieces_of blocks.new.items) }
    ensures ok { OnOk result (bytes_of blocks.new.items ≡ resized size (bytes_of blocks.old.items)) }
    ensures err { OnErr result (bytes_of blocks.new.items ≡ bytes_of blocks.old.items) }
{
    let before = count(blocks);
    if size <= before {
        cut(blocks, size);
        return Ok(());
    }
    let alloc = *blocks.allocator();
    let result = fill(alloc, blocks, size - before);
    if result.is_err() {
        cut(blocks, before);
    }
    result
}
