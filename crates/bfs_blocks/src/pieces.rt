// The blocks of a file, one after another.
ghost use Rattle.std.specs.Iterator.{YieldsFirstRef, item_count};

use crate::blocks::Block;
use std::marker::Model;
use std::slice;

/// The blocks of a file, in order.
#[derive(Debug, Drop)]
pub struct Pieces<'a> {
    pub(crate) left: slice::Iter<'a, Block>,
}

impl<'a> Model for Pieces<'a> {
    ghost use Rattle.std.specs.Prelude.{ℕ, List};
    ghost use Rattle.std.specs.Slice.Iter.{iter_rest};
    ghost use Rattle.bfs_blocks.specs.Blocks.{pieces_of};

    ghost Value = { List (List ℕ) };

    ghost view = { λ pieces. pieces_of (iter_rest pieces.left) };
}

impl<'a> Iterator for Pieces<'a> {
    type Item = &'a [u8];

    ghost next_gives = { YieldsFirstRef (λ pieces. pieces) };

    ghost remaining = { item_count (λ pieces. pieces) };

    fn next(&mut self) -> Option<&'a [u8]> {
        match self.left.next() {
            Some(block) => Some(block.as_slice()),
            None => None,
        }
    }
}
