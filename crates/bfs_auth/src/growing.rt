// The trees of a replica's key grow before they sign. Which are ready no contract says, since nothing but time hangs on it.
use crate::pairwise::Keys;
use crate::places::Place;
use crate::replica_signer::ReplicaSigner;
use bfs_types::CHECKPOINT_INTERVAL;
use lms::Signer;
use std::alloc::Global;
use std::sync::Mutex;

impl Keys {
    /// Lets a tree grow by which their owner will sign, as a replica in that view that has executed that number: first a tree for votes behind the number, then for the
    /// next CHECKPOINT, then for the change to the next view, and for the first votes there. It makes about one leaf of it, and gives whether it did: `false` once all
    /// these trees are ready, where memory runs out, and where they have no key to sign by.
    pub fn grow(&self, alloc: Global, view: u64, number: u64) -> bool {
        match self.signer() {
            Some(signer) => signer.grow(alloc, view, number),
            None => false,
        }
    }
}

impl ReplicaSigner {
    fn grow(&self, alloc: Global, view: u64, number: u64) -> bool {
        if self.is_ready(view, number) {
            return false;
        }
        let grew = self.grow_votes(alloc, view, number.saturating_add(1))
            || self.grow_checkpoints(alloc, number)
            || self.grow_changes(alloc, view.saturating_add(1), number);
        if !grew {
            self.set_ready(view, number);
        }
        grew
    }

    fn is_ready(&self, view: u64, number: u64) -> bool {
        match self.ready.try_lock() {
            Some(ready) => *ready == Some((view, number)),
            None => false,
        }
    }

    fn set_ready(&self, view: u64, number: u64) {
        if let Some(mut ready) = self.ready.try_lock() {
            *ready = Some((view, number));
        }
    }

    fn grow_votes(&self, alloc: Global, view: u64, number: u64) -> bool {
        let Some(index) = self.index_of(Place::Vote { view, number }) else {
            return false;
        };
        self.share_changes(alloc, index);
        grow(alloc, &self.votes, index) || grow_next(alloc, &self.votes, index)
    }

    // of the CHECKPOINT behind that number
    fn grow_checkpoints(&self, alloc: Global, number: u64) -> bool {
        let next = last_checkpoint(number).saturating_add(CHECKPOINT_INTERVAL);
        let Some(index) = self.index_of(Place::Checkpoint { number: next }) else {
            return false;
        };
        grow(alloc, &self.checkpoints, index) || grow_next(alloc, &self.checkpoints, index)
    }

    // of the change to the view, and of the votes there behind the last CHECKPOINT
    fn grow_changes(&self, alloc: Global, view: u64, number: u64) -> bool {
        let first = last_checkpoint(number).saturating_add(1);
        self.grow_change(alloc, Place::ViewChange { view })
            || self.grow_change(
                alloc,
                Place::Vote {
                    view,
                    number: first,
                },
            )
    }

    fn grow_change(&self, alloc: Global, place: Place) -> bool {
        let Some(index) = self.index_of(place) else {
            return false;
        };
        copy_trees(alloc, &self.votes, &self.changes, index);
        grow(alloc, &self.changes, index)
    }

    // votes by an index take over what is ready for it since a change of the view
    pub(crate) fn share_changes(&self, alloc: Global, index: u64) {
        copy_trees(alloc, &self.changes, &self.votes, index);
    }
}

// the number of the last CHECKPOINT up to a number
fn last_checkpoint(number: u64) -> u64 {
    number - number % CHECKPOINT_INTERVAL
}

fn copy_trees(alloc: Global, from: &Mutex<Signer>, to: &Mutex<Signer>, index: u64) {
    if let Some(from) = from.try_lock() {
        if let Some(to) = to.try_lock() {
            to.copy_trees(alloc, &from, index);
        }
    }
}

fn grow(alloc: Global, trees: &Mutex<Signer>, index: u64) -> bool {
    match trees.try_lock() {
        Some(trees) => trees.grow(alloc, index),
        None => false,
    }
}

fn grow_next(alloc: Global, trees: &Mutex<Signer>, index: u64) -> bool {
    match trees.try_lock() {
        Some(trees) => trees.grow_next(alloc, index),
        None => false,
    }
}
