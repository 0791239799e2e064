//! Each call, on bytes that were written by hand.
use crate::files::{bytes_made, file_of, has, resize, write};
use bfs_blocks::{BLOCK_BYTES, FileBlocks};
use bfs_testing::{holds, same};
use bfs_types::{Memory, TryClone};
use sha2::{Digest, Sha256};
use std::alloc::Global;
use std::test::Fail;

// one less than a block, a block, one more, and so on
static SIZES: &[usize] = &[0, 1, 4_095, 4_096, 4_097, 8_192, 12_287, 20_000];

fn is_made_of(alloc: Global, size: usize) -> Result<bool, Fail> {
    let bytes = bytes_made(alloc, size)?;
    let file = file_of(alloc, &bytes)?;
    Ok(has(alloc, &file, &bytes)? && file.blocks().count() == size.div_ceil(BLOCK_BYTES))
}

#[test]
fn files_have_their_bytes(rt: HostRuntime) -> Result<(), Fail> {
    for size in SIZES {
        holds!(rt; is_made_of(rt.alloc(), *size)?);
    }
    Ok(())
}

#[test]
fn zeros_are_zeros(rt: HostRuntime) -> Result<(), Fail> {
    let file = FileBlocks::zeros(rt.alloc(), 10_000)?;
    same!(rt; file.len(), 10_000);
    same!(rt; file.block(1), [0; BLOCK_BYTES].as_slice());
    same!(rt; file.block(2).len(), 1_808);
    holds!(rt; file.block(2).iter().all(|byte| *byte == 0));
    Ok(())
}

// an offset, how much is read from there on, and where that ends in a file of 10,000 bytes
static READS: &[(usize, usize, usize)] = &[
    (0, 10, 10),
    (4_090, 8_192, 10_000),
    (4_090, 10, 4_100),
    (9_999, 8_192, 10_000),
    (10_000, 1, 10_000),
    (20_000, 1, 20_000),
    (1, 0, 1),
];

fn reads(
    alloc: Global,
    file: &FileBlocks,
    bytes: &[u8],
    read: &(usize, usize, usize),
) -> Result<bool, Memory> {
    let (offset, count, end) = *read;
    let mut out = b"before".to_vec(alloc)?;
    file.read(offset, count, &mut out)?;
    let wanted = bytes.get(offset..end).unwrap_or(&[]);
    Ok(out.starts_with(b"before") && out.as_slice().get(6..) == Some(wanted))
}

#[test]
fn reads_from_an_offset_on(rt: HostRuntime) -> Result<(), Fail> {
    let bytes = bytes_made(rt.alloc(), 10_000)?;
    let file = file_of(rt.alloc(), &bytes)?;
    for read in READS {
        holds!(rt; reads(rt.alloc(), &file, &bytes, read)?);
    }
    Ok(())
}

// an offset, and how much there is up to the end of its block in a file of 10,000 bytes
static PIECES: &[(usize, usize)] = &[
    (0, 4_096),
    (4_095, 1),
    (4_096, 4_096),
    (8_193, 1_807),
    (9_999, 1),
    (10_000, 0),
    (50_000, 0),
];

#[test]
fn pieces_end_with_their_block(rt: HostRuntime) -> Result<(), Fail> {
    let bytes = bytes_made(rt.alloc(), 10_000)?;
    let file = file_of(rt.alloc(), &bytes)?;
    for (offset, count) in PIECES {
        let behind = bytes.as_slice().get(*offset..).unwrap_or(&[]);
        same!(rt; file.piece(*offset).len(), *count);
        holds!(rt; behind.starts_with(file.piece(*offset)));
    }
    Ok(())
}

#[test]
fn new_sizes_cut_and_fill(rt: HostRuntime) -> Result<(), Fail> {
    let mut file = file_of(rt.alloc(), b"abcdef")?;
    resize(&mut file, 2)?;
    holds!(rt; has(rt.alloc(), &file, b"ab")?);
    resize(&mut file, 4)?;
    holds!(rt; has(rt.alloc(), &file, b"ab\0\0")?);
    resize(&mut file, 0)?;
    holds!(rt; has(rt.alloc(), &file, b"")?);
    resize(&mut file, 100_000)?;
    same!(rt; file.len(), 100_000);
    Ok(())
}

#[test]
fn writes_over_and_behind(rt: HostRuntime) -> Result<(), Fail> {
    let mut file = file_of(rt.alloc(), b"abc")?;
    write(&mut file, 1, b"BCD")?;
    holds!(rt; has(rt.alloc(), &file, b"aBCD")?);
    write(&mut file, 6, b"g")?;
    holds!(rt; has(rt.alloc(), &file, b"aBCD\0\0g")?);
    write(&mut file, 9, b"")?;
    holds!(rt; has(rt.alloc(), &file, b"aBCD\0\0g")?);
    Ok(())
}

// that of "abc" (FIPS 180-4, the example of one block)
const ABC: [u8; 32] = [
    0xba, 0x78, 0x16, 0xbf, 0x8f, 0x01, 0xcf, 0xea, 0x41, 0x41, 0x40, 0xde, 0x5d, 0xae, 0x22, 0x23,
    0xb0, 0x03, 0x61, 0xa3, 0x96, 0x17, 0x7a, 0x9c, 0xb4, 0x10, 0xff, 0x61, 0xf2, 0x00, 0x15, 0xad,
];

#[test]
fn digests_are_kept_until_a_change(rt: HostRuntime) -> Result<(), Fail> {
    let alloc = rt.alloc();
    let mut file = file_of(alloc, b"abc")?;
    same!(rt; file.kept_block(0), None);
    file.keep(alloc)?;
    same!(rt; file.kept_block(0), Some(ABC));
    same!(rt; file.kept_block(1), None);
    let copy = file.try_clone(alloc)?;
    write(&mut file, 0, b"x")?;
    same!(rt; file.kept_block(0), None);
    same!(rt; copy.kept_block(0), Some(ABC));
    Ok(())
}

#[test]
fn other_blocks_keep_theirs(rt: HostRuntime) -> Result<(), Fail> {
    let alloc = rt.alloc();
    let mut file = file_of(alloc, &bytes_made(alloc, 10_000)?)?;
    file.keep(alloc)?;
    write(&mut file, 5_000, b"x")?;
    same!(rt; kept(&file), [true, false, true]);
    resize(&mut file, 9_999)?;
    same!(rt; kept(&file), [true, false, false]);
    Ok(())
}

// whether each of the first three blocks keeps its digest
fn kept(file: &FileBlocks) -> [bool; 3] {
    [
        file.kept_block(0).is_some(),
        file.kept_block(1).is_some(),
        file.kept_block(2).is_some(),
    ]
}

#[test]
fn digests_that_were_made_are_kept(rt: HostRuntime) -> Result<(), Fail> {
    let mut file = file_of(rt.alloc(), b"abc")?;
    let digest = Sha256::digest(file.block(0));
    file.keep_block(rt.alloc(), 0, digest)?;
    same!(rt; file.kept_block(0), Some(ABC));
    Ok(())
}

// for the threads that hash and those that execute
fn can_be_shared<T: Send + Sync>(_value: &T) -> bool {
    true
}

#[test]
fn copies_stay(rt: HostRuntime) -> Result<(), Fail> {
    let alloc = rt.alloc();
    let mut file = file_of(alloc, b"abc")?;
    let mut copy = file.share(alloc)?;
    same!(rt; copy.kept_block(0), Some(ABC));
    let other = copy.clone()?;
    holds!(rt; can_be_shared(&other));
    write(&mut file, 0, b"x")?;
    write(&mut copy, 1, b"yz!")?;
    holds!(rt; has(alloc, &file, b"xbc")?);
    holds!(rt; has(alloc, &copy, b"ayz!")?);
    holds!(rt; has(alloc, &other, b"abc")?);
    Ok(())
}
