// The entries of a directory, one after another.
ghost use Rattle.std.specs.Iterator.{YieldsFirstRef, item_count};

use crate::directories::Entry;
use std::collections::btree_map::Values;
use std::marker::Model;

/// The entries of a directory by rising cookie.
#[derive(Debug, Drop)]
pub struct Entries<'a> {
    pub(super) left: Values<'a, u32, Entry>,
}

impl<'a> Model for Entries<'a> {
    ghost use Rattle.std.specs.Prelude.{List};
    ghost use Rattle.bfs_model.specs.Server.Tree as model;

    ghost Value = { List model.Entry };

    ghost view = { λ entries. entries.left };
}

impl<'a> Iterator for Entries<'a> {
    type Item = &'a Entry;

    ghost next_gives = { YieldsFirstRef (λ entries. entries) };

    ghost remaining = { item_count (λ entries. entries) };

    fn next(&mut self) -> Option<&'a Entry> {
        self.left.next()
    }
}
