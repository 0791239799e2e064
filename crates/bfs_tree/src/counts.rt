ghost use Rattle.std.specs.Prelude.{◌^◌, ◌<◌, Some};
ghost use Rattle.std.specs.Option.{option_copied};
ghost use Rattle.bfs_tree.specs.Inside.Counting.{Adds, Includes};

use crate::slots::Slot;

/// How many of the slots of a tree hold an inode, and how many stand for what is lent out.
#[derive(Debug, Drop, Clone, Copy)]
pub(crate) struct Counts {
    pub(crate) home: usize,
    pub(crate) lent: usize,
}

impl Counts {
    /// The counts with one slot more.
    pub(crate) fn with(self, slot: &Slot) -> Counts
        requires home { self.home < 2 ^ 63 }
        requires lent { self.lent < 2 ^ 63 }
        ensures { Adds self (Some slot.now) result }
    {
        match slot {
            Slot::Home(_) => Counts {
                home: self.home + 1,
                lent: self.lent,
            },
            Slot::Free => self,
            Slot::Lent => Counts {
                home: self.home,
                lent: self.lent + 1,
            },
        }
    }

    /// The counts with one slot less, or as they are where there was none.
    pub(crate) fn without(self, slot: Option<&Slot>) -> Counts
        requires { Includes self (option_copied slot) }
        ensures { Adds result (option_copied slot.entry) self }
    {
        match slot {
            Some(Slot::Home(_)) => Counts {
                home: self.home - 1,
                lent: self.lent,
            },
            Some(Slot::Lent) => Counts {
                home: self.home,
                lent: self.lent - 1,
            },
            _ => self,
        }
    }
}
