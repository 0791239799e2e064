ghost use Rattle.std.specs.Prelude.{◌≡◌, refl, true, false};
ghost use Rattle.bfs_tree.specs.Reach.{Reach};
ghost use Rattle.bfs_tree.specs.Tree.{at_home, lent};
ghost use Rattle.bfs_handover.specs.Loans.{ids_of, put_in, reach_with};
ghost use Rattle.bfs_handover.specs.Laws.Shares.{knows_owned, never_whole};

use crate::loans::Loans;
use bfs_inode::Inode;
use bfs_tree::{BoxedInode, Store, Tree};
use bfs_types::FileId;
use std::alloc::Global;

/// A store for one job: it owns the inodes that it was handed, and borrows for reading the tree that they were lent out of.
#[derive(Drop)]
pub struct Share<'a> {
    home: &'a Tree,
    own: Loans,
    // for the boxes of the inodes that are put in
    alloc: Global,
}

impl<'a> Share<'a> {
    /// The share of what was lent out of that tree. It allocates only where an inode is put in.
    pub fn new(alloc: Global, home: &'a Tree, own: Loans) -> Share<'a>
        ensures home { result.home.now ≡ home.now }
        ensures own { result.own ≡ own }
    {
        Share { home, own, alloc }
    }

    /// What it owns, to be brought home.
    pub fn into_loans(self) -> Loans
        ensures { result ≡ self.entry.own }
    {
        self.own
    }
}

impl<'a> Store for Share<'a> {
    ghost inodes = { λ share. put_in share.own (at_home share.home.now) };

    ghost reach = { λ share. reach_with (lent share.home.now) (at_home share.home.now) (ids_of share.own) };

    ghost knows_owned = { λ share id owned. knows_owned (lent share.home.now) (at_home share.home.now) (ids_of share.own) id owned };

    ghost knows_all = { λ share whole id. never_whole whole };

    ghost owns_all = { λ share whole id. never_whole whole };

    fn is_whole(&self) -> bool {
        false
    }

    fn count(&self) -> usize {
        0
    }

    fn used_blocks(&self) -> u64 {
        0
    }

    fn knows(&self, id: FileId) -> bool {
        self.own.owns(id) || self.home.knows(id)
    }

    #[tactic(auto, using(crate::proofs::LoanLemmas::get_owned, crate::proofs::LoanLemmas::get_borrowed, crate::proofs::LoanLemmas::known_at_home))]
    fn get(&self, id: FileId) -> Option<&Inode> {
        if self.own.owns(id) {
            return self.own.get(id);
        }
        self.home.get(id)
    }

    fn get_mut(&mut self, id: FileId) -> Option<&mut Inode> {
        self.own.get_mut(id)
    }

    #[tactic(auto, using(crate::proofs::LoanLemmas::put_inserts, crate::proofs::LoanLemmas::ids_with))]
    fn insert(&mut self, id: FileId, inode: Inode) -> Result<(), Inode> {
        let boxed = BoxedInode::new(self.alloc, inode)?;
        self.own.put(id, Some(boxed));
        Ok(())
    }

    #[tactic(auto, using(crate::proofs::LoanLemmas::put_removes, crate::proofs::LoanLemmas::ids_with, crate::proofs::LoanLemmas::get_owned))]
    fn remove(&mut self, id: FileId) -> Option<Inode> {
        Some(self.own.put(id, None)?.into_inode())
    }
}
