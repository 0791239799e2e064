// Trees grow behind what is signed, so that no signature waits for one. Which trees are ready no contract says, since nothing but time hangs on it.
ghost use Rattle.std.specs.Prelude.{◌<◌, length};

use crate::private_key::PrivateKey;
use crate::renewal::{index_ahead, key_with};
use crate::signer::Signer;
use crate::tree::Growing;
use std::alloc::Global;

impl Signer {
    /// Lets a tree grow of those that sign by an index, or by the index that signed last where that is larger. It makes about one leaf of it, and gives whether it did:
    /// `false` once all these trees are ready, and where memory runs out.
    pub fn grow(&self, alloc: Global, index: u64) -> bool {
        let index = index.max(self.last);
        for level in 0..self.below.len() {
            if self.grow_at(alloc, level, index) {
                return true;
            }
        }
        false
    }

    /// Likewise a tree of those that sign next, behind that index: of the last level the next one, and above it the next one once half of a tree is used up.
    pub fn grow_next(&self, alloc: Global, index: u64) -> bool {
        let index = index.max(self.last);
        let levels = self.below.len();
        for number in 0..levels {
            // the last level first, whose trees are used up soonest
            let level = levels - 1 - number;
            if let Some(ahead) = index_ahead(&self.below[level..], index) {
                if self.grow_at(alloc, level, ahead) {
                    return true;
                }
            }
        }
        false
    }

    /// Takes copies of the trees that sign by an index, as far as another signer has them ready and this one doesn't. Where memory runs out it takes none.
    pub fn copy_trees(&self, alloc: Global, other: &Signer, index: u64) {
        for level in 0..self.below.len() {
            if let Some(key) = self.key_at(level, index) {
                self.copy_tree(alloc, other, level, &key);
            }
        }
    }

    // the key of the tree that signs at a level below the first with an index
    fn key_at(&self, level: usize, index: u64) -> Option<PrivateKey>
        requires { level < length self.now.below }
    {
        key_with(*self.first.key(), &self.below, index, level)
    }

    // whether the tree of a key signed last at a level
    fn stands(&self, level: usize, key: &PrivateKey) -> bool {
        match self.links.get(level) {
            Some(link) => *link.tree().key() == *key,
            None => false,
        }
    }

    fn grow_at(&self, alloc: Global, level: usize, index: u64) -> bool
        requires { level < length self.now.below }
    {
        let Some(key) = self.key_at(level, index) else {
            return false;
        };
        if self.stands(level, &key) {
            return false;
        }
        match self.growing.try_lock() {
            Some(mut trees) => trees.grow(alloc, key),
            None => false,
        }
    }

    fn copy_tree(&self, alloc: Global, other: &Signer, level: usize, key: &PrivateKey) {
        if self.stands(level, key) {
            return;
        }
        let Some(mut trees) = self.growing.try_lock() else {
            return;
        };
        if trees.is_whole(key) {
            return;
        }
        if let Some(copy) = other.ready(alloc, level, key) {
            let _ = trees.put(copy);
        }
    }

    // a copy of the tree of a key, if it is ready
    fn ready(&self, alloc: Global, level: usize, key: &PrivateKey) -> Option<Growing> {
        if self.stands(level, key) {
            let copy = self.links.get(level)?.tree().try_clone(alloc).ok()?;
            return Some(Growing::of_tree(copy));
        }
        let trees = self.growing.try_lock()?;
        trees.copy_whole(alloc, key)
    }
}
