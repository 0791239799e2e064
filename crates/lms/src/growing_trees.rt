// Trees that are made before they sign.
ghost use Rattle.std.specs.Prelude.{◌≡◌, IfSome};

use crate::private_key::PrivateKey;
use crate::tree::Growing;
use std::alloc::{AllocError, Global};

// two for each level below the first one
const MOST_TREES: usize = 14;

/// Trees that grow, each of another key. Those that were asked for last stand last. Where there are too many, the first one is let go.
#[derive(Drop)]
pub(crate) struct GrowingTrees {
    trees: Vec<Growing>,
}

impl GrowingTrees {
    pub(crate) fn new(alloc: Global) -> GrowingTrees {
        GrowingTrees {
            trees: Vec::new(alloc),
        }
    }

    // takes out the tree of a key, if there is one
    pub(crate) fn take(&mut self, key: &PrivateKey) -> Option<Growing>
        ensures { IfSome result (λ tree. tree ≡ key.now) }
    {
        for number in 0..self.trees.len() {
            if *self.trees[number].key() == *key {
                return Some(self.trees.remove(number));
            }
        }
        None
    }

    // puts a tree in, in the place of the one of its key
    pub(crate) fn put(&mut self, tree: Growing) -> Result<(), AllocError> {
        let _ = self.take(tree.key());
        if self.trees.len() >= MOST_TREES {
            let _ = self.trees.remove(0);
        }
        self.trees.push(tree)?;
        Ok(())
    }

    // lets the tree of a key grow by a leaf, and gives whether it did: it doesn't once it is whole, or where memory runs out
    pub(crate) fn grow(&mut self, alloc: Global, key: PrivateKey) -> bool {
        let mut tree = match self.take(&key) {
            Some(tree) => tree,
            None => Growing::new(alloc, key),
        };
        let grew = !tree.is_whole() && tree.grow().is_ok();
        self.put(tree).is_ok() && grew
    }

    // whether the tree of a key has grown whole
    pub(crate) fn is_whole(&self, key: &PrivateKey) -> bool {
        self.whole(key).is_some()
    }

    // a copy of the tree of a key, if that has grown whole. `None` too where memory runs out.
    pub(crate) fn copy_whole(&self, alloc: Global, key: &PrivateKey) -> Option<Growing> {
        self.whole(key)?.try_clone(alloc).ok()
    }

    fn whole(&self, key: &PrivateKey) -> Option<&Growing> {
        self.trees
            .iter()
            .find(|tree| *tree.key() == *key && tree.is_whole())
    }
}
