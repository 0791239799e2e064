//! Changes that are drawn at random, of a file and its copies, beside plain vectors of bytes.
use crate::files::has;
use bfs_blocks::FileBlocks;
use bfs_testing::holds;
use bfs_types::{Memory, TryClone};
use std::alloc::Global;
use std::test::Fail;

// the numbers are drawn from the last one
#[derive(Drop)]
struct Draws {
    last: u64,
}

impl Draws {
    fn next(&mut self) -> u64 {
        self.last = self
            .last
            .wrapping_mul(6_364_136_223_846_793_005)
            .wrapping_add(1_442_695_040_888_963_407);
        self.last
    }

    // below a bound; 0 where the bound is 0
    fn below(&mut self, bound: u32) -> usize {
        let drawn = (self.next() >> 40) as u32;
        (drawn % bound.max(1)) as usize
    }

    fn byte(&mut self) -> u8 {
        self.next().to_be_bytes()[0]
    }
}

/// A file, and the bytes that it is to have.
#[derive(Drop)]
pub(crate) struct Pair {
    pub(crate) file: FileBlocks,
    pub(crate) bytes: Vec<u8>,
}

const MOST: usize = 300_000;

impl Pair {
    pub(crate) fn write(&mut self, offset: usize, written: &[u8]) -> Result<(), Memory> {
        if offset > MOST || written.len() > MOST {
            return Ok(());
        }
        self.file.write(offset, written)?;
        write_plain(&mut self.bytes, offset, written)
    }

    pub(crate) fn resize(&mut self, size: usize) -> Result<(), Memory> {
        if size > MOST {
            return Ok(());
        }
        self.file.resize(size)?;
        Ok(self.bytes.resize(size, 0)?)
    }

    pub(crate) fn copy(&self, alloc: Global) -> Result<Pair, Memory> {
        Ok(Pair {
            file: self.file.try_clone(alloc)?,
            bytes: self.bytes.as_slice().to_vec(alloc)?,
        })
    }
}

// byte by byte
fn write_plain(bytes: &mut Vec<u8>, offset: usize, written: &[u8]) -> Result<(), Memory> {
    let mut place = offset;
    if !written.is_empty() {
        for _ in bytes.len()..offset {
            bytes.push(0)?;
        }
    }
    for byte in written {
        if place < bytes.len() {
            bytes[place] = *byte;
        } else {
            bytes.push(*byte)?;
        }
        place = place.saturating_add(1);
    }
    Ok(())
}

// how long what is written is: mostly a few bytes or whole blocks
fn length_drawn(draws: &mut Draws) -> usize {
    match draws.below(4) {
        0 => draws.below(20),
        1 => 4_096,
        2 => 8_192,
        _ => draws.below(9_000),
    }
}

// mostly somewhere, or where a block begins or the bytes end
fn offset_drawn(draws: &mut Draws, end: usize) -> usize {
    match draws.below(3) {
        0 => draws.below(30_000),
        1 => draws.below(8).saturating_mul(4_096),
        _ => end,
    }
}

fn change(alloc: Global, draws: &mut Draws, pair: &mut Pair) -> Result<(), Memory> {
    match draws.below(6) {
        0 => pair.resize(draws.below(30_000)),
        1 => pair.file.keep(alloc),
        _ => {
            let offset = offset_drawn(draws, pair.bytes.len());
            let letter = draws.byte();
            let mut written = Vec::new(alloc);
            written.resize(length_drawn(draws), letter)?;
            pair.write(offset, &written)
        }
    }
}

/// Whether all have their bytes.
pub(crate) fn are_right(alloc: Global, pairs: &[Pair]) -> Result<bool, Memory> {
    for pair in pairs {
        if !has(alloc, &pair.file, &pair.bytes)? {
            return Ok(false);
        }
    }
    Ok(true)
}

// changes one of them, or puts a copy of it beside them
fn step(alloc: Global, draws: &mut Draws, pairs: &mut Vec<Pair>) -> Result<(), Memory> {
    let place = draws.below(4);
    if place >= pairs.len() {
        return Ok(());
    }
    if draws.below(5) == 0 {
        let copy = pairs[place].copy(alloc)?;
        if pairs.len() < 4 {
            pairs.push(copy)?;
        } else {
            pairs[3] = copy;
        }
        Ok(())
    } else {
        change(alloc, draws, &mut pairs[place])
    }
}

#[test]
fn files_and_copies_have_their_bytes(rt: HostRuntime) -> Result<(), Fail> {
    let alloc = rt.alloc();
    let mut draws = Draws { last: 57 };
    let mut pairs = Vec::new(alloc);
    let file = FileBlocks::zeros(alloc, 0)?;
    let bytes = Vec::new(alloc);
    pairs.push(Pair { file, bytes })?;
    for _ in 0..400 {
        step(alloc, &mut draws, &mut pairs)?;
        holds!(rt; are_right(alloc, &pairs)?);
    }
    Ok(())
}
