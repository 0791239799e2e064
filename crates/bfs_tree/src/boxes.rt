ghost use Rattle.std.specs.Prelude.{◌≡◌};
ghost use Rattle.std.specs.FinMap.{entries};
ghost use Rattle.bfs_tree.specs.Maps.{picked_entries};
ghost use Rattle.bfs_tree.specs.Slots.{inode_in};

use crate::boxed::BoxedInode;
use crate::places::Places;
use crate::slots::Slot;
use std::collections::btree_map::Iter;
use std::marker::Model;

/// The inodes of a tree that are at home, in their boxes, by the numbers of their fileids, which rise.
#[derive(Drop)]
pub struct Boxes<'a> {
    slots: Iter<'a, u32, Slot>,
}

impl<'a> Model for Boxes<'a> {
    ghost use Rattle.std.specs.Prelude.{ℕ, List};
    ghost use Rattle.bfs_model.specs.Server.Tree as model;

    ghost Value = { List (ℕ × model.Inode) };

    ghost use Rattle.bfs_tree.specs.Maps.{picked_entries};
    ghost use Rattle.bfs_tree.specs.Slots.{inode_in};

    ghost view = { λ boxes. picked_entries inode_in boxes.slots };
}

impl<'a> Boxes<'a> {
    pub(crate) fn of(places: &'a Places) -> Boxes<'a>
        ensures { result ≡ picked_entries inode_in (entries places.now) }
    {
        Boxes {
            slots: places.iter(),
        }
    }
}

impl<'a> Iterator for Boxes<'a> {
    ghost use Rattle.std.specs.Iterator.{YieldsFirstBy, item_count};
    ghost use Rattle.std.specs.Map.Iter.{deref_pair};

    type Item = (&'a u32, &'a BoxedInode);

    ghost next_gives = { YieldsFirstBy deref_pair (λ boxes. boxes) };

    ghost remaining = { item_count (λ boxes. boxes) };

    fn next(&mut self) -> Option<(&'a u32, &'a BoxedInode)> {
        while let Some((id, slot)) = self.slots.next() {
            if let Slot::Home(boxed) = slot {
                return Some((id, boxed));
            }
        }
        None
    }
}
