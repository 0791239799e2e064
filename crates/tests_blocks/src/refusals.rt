//! Changes where memory runs out. Nothing is refused in the gate's run of the tests: `.ci/refusals` may run this one with each growth of
//! memory refused in turn.
use crate::changes::{Pair, are_right};
use bfs_blocks::FileBlocks;
use bfs_testing::holds;
use bfs_types::Memory;
use std::alloc::Global;
use std::test::Fail;

// how a file is changed: an offset and a length that are written, a new size, or digests that are kept
#[derive(Clone, Copy)]
enum Change {
    Write(usize, usize),
    Resize(usize),
    Keep,
}

static CHANGES: &[Change] = &[
    Change::Write(4_000, 8_192),
    Change::Write(19_990, 100),
    Change::Keep,
    Change::Write(8_192, 4_096),
    Change::Write(30_000, 5_000),
    Change::Resize(12_000),
    Change::Resize(50_000),
    Change::Resize(250_000),
    Change::Write(0, 20_000),
];

fn made(alloc: Global, pair: &mut Pair, change: Change) -> Result<(), Memory> {
    match change {
        Change::Write(offset, length) => {
            let mut written = Vec::new(alloc);
            written.resize(length, 7)?;
            pair.write(offset, &written)
        }
        Change::Resize(size) => pair.resize(size),
        Change::Keep => pair.file.keep(alloc),
    }
}

// of 20,000 bytes, with room for the bytes that come behind them
fn first_pair(alloc: Global) -> Result<Pair, Memory> {
    let mut bytes = Vec::new(alloc);
    bytes.reserve(250_000)?;
    let file = FileBlocks::new(alloc, &[])?;
    let mut pair = Pair { file, bytes };
    pair.write(0, &[1; 20_000])?;
    Ok(pair)
}

#[test]
fn refused_memory_changes_nothing(rt: HostRuntime) -> Result<(), Fail> {
    let alloc = rt.alloc();
    let mut pairs = Vec::new(alloc);
    pairs.push(first_pair(alloc)?)?;
    pairs[0].file.keep(alloc)?;
    let copy = pairs[0].copy(alloc)?;
    pairs.push(copy)?;
    for change in CHANGES {
        let result = made(alloc, &mut pairs[0], *change);
        holds!(rt; are_right(alloc, &pairs)?);
        result?;
    }
    Ok(())
}
