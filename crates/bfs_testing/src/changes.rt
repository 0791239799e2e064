//! Bytes that are changed at random, and the same each time.
use crate::generated::{drawn, following};
use bfs_types::Memory;
use std::alloc::Global;

/// How bytes were changed.
#[derive(Clone, Copy, Debug, PartialEq, Eq)]
pub enum Change {
    /// Some are missing at the end.
    Cut,
    /// A bit is another one.
    Flip,
    /// A word is one that stands at some limit.
    Word,
    /// A front of the one stands before an end of the other.
    Splice,
    /// Up to eight more stand at the end.
    Lengthen,
}

static CHANGES: [Change; 5] = [
    Change::Cut,
    Change::Flip,
    Change::Word,
    Change::Splice,
    Change::Lengthen,
];

// limits of formats, and their neighbours
static WORDS: [u32; 16] = [
    0,
    1,
    2,
    31,
    32,
    33,
    255,
    256,
    1_024,
    1_025,
    16_385,
    999_999,
    1_000_000,
    0x7fff_ffff,
    0x8000_0000,
    0xffff_ffff,
];

/// What draws the changes.
#[derive(Drop)]
pub struct Changes {
    /// From what the next number is drawn: any number to begin with.
    pub state: u64,
}

impl Changes {
    fn next(&mut self) -> usize {
        self.state = following(self.state);
        drawn(self.state) as usize
    }

    /// Bytes that are made of these, or of these and others, and how they are made.
    pub fn changed(
        &mut self,
        alloc: Global,
        bytes: &[u8],
        others: &[u8],
    ) -> Result<(Change, Vec<u8>), Memory> {
        let place = self.next() % CHANGES.len();
        let change = *CHANGES.get(place).unwrap_or(&Change::Cut);
        let mut changed = Vec::new(alloc);
        match change {
            Change::Cut => changed.extend_from_slice(self.front(bytes))?,
            Change::Splice => {
                changed.extend_from_slice(self.front(bytes))?;
                changed.extend_from_slice(self.end(others))?;
            }
            Change::Flip => {
                changed.extend_from_slice(bytes)?;
                self.flip(changed.as_mut_slice());
            }
            Change::Word => {
                changed.extend_from_slice(bytes)?;
                self.put_word(changed.as_mut_slice());
            }
            Change::Lengthen => {
                changed.extend_from_slice(bytes)?;
                self.lengthen(&mut changed)?;
            }
        }
        Ok((change, changed))
    }

    // without the last, at least
    fn front<'a>(&mut self, bytes: &'a [u8]) -> &'a [u8] {
        let count = self.next() % bytes.len().max(1);
        match bytes.split_at_checked(count) {
            Some((front, _)) => front,
            None => bytes,
        }
    }

    // with the last, where there is one
    fn end<'a>(&mut self, bytes: &'a [u8]) -> &'a [u8] {
        let count = self.next() % bytes.len().max(1);
        match bytes.split_at_checked(count) {
            Some((_, end)) => end,
            None => bytes,
        }
    }

    fn flip(&mut self, bytes: &mut [u8]) {
        let place = self.next() % bytes.len().max(1);
        let bit = 1u8 << (self.next() % 8) as u32;
        if let Some(byte) = bytes.get_mut(place) {
            *byte ^= bit;
        }
    }

    fn put_word(&mut self, bytes: &mut [u8]) {
        let word = *WORDS.get(self.next() % WORDS.len()).unwrap_or(&0);
        let place = self.next() % (bytes.len() / 4).max(1);
        let mut at = 4 * place;
        for byte in word.to_be_bytes() {
            if let Some(old) = bytes.get_mut(at) {
                *old = byte;
            }
            at = at.wrapping_add(1);
        }
    }

    fn lengthen(&mut self, bytes: &mut Vec<u8>) -> Result<(), Memory> {
        let zeros = self.next() % 2 == 0;
        for _more in 0..1 + self.next() % 8 {
            let byte = if zeros { 0 } else { (self.next() % 256) as u8 };
            bytes.push(byte)?;
        }
        Ok(())
    }
}
