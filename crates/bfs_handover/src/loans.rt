ghost use Rattle.std.specs.Prelude.{◌≡◌, ◌==◌, ◌++◌, ◌∷◌, [], OnOk, OnErr};
ghost use Rattle.std.specs.List.{list_any};
ghost use Rattle.std.specs.Option.{option_copied, option_copied_mut};
ghost use Rattle.std.specs.Borrow.{sem};
ghost use Rattle.bfs_model.specs.Server.Conflicts.{among};
ghost use Rattle.bfs_handover.specs.Loans.{ids_of, loaned, with_loan};
ghost use Rattle.bfs_handover.specs.Inside.LoanLending.{LendsInode, LendsLoan};
ghost use Rattle.bfs_handover.specs.Inside.Held.{loans_in};

use crate::held::Held;
use bfs_inode::Inode;
use bfs_tree::BoxedInode;
use bfs_types::{FileId, Memory};
use std::alloc::Global;
use std::marker::Model;

/// What was lent out of a tree at one fileid: its inode, or that there is none.
#[derive(Debug, Drop)]
pub struct Loan {
    /// The fileid.
    pub id: FileId,
    /// Its inode.
    pub inode: Option<BoxedInode>,
}

impl Loan {
    pub(crate) fn inode_mut(&mut self) -> Option<&mut Inode>
        ensures value { option_copied_mut result ≡ self.old.inode }
        ensures* writes_back { sem 𝓛 (LendsInode self.entry result) }
    {
        match &mut self.inode {
            Some(boxed) => Some(boxed.get_mut()),
            None => None,
        }
    }
}

/// What was lent out of a tree at some fileids. One loan alone takes no memory.
#[derive(Debug, Drop)]
pub struct Loans {
    held: Held,
}

impl Model for Loans {
    ghost use Rattle.std.specs.Prelude.{List};
    ghost use Rattle.bfs_handover.specs.declared.loans.Loan.{Loan};

    ghost Value = { List Loan };

    ghost use Rattle.bfs_handover.specs.Inside.Held.{loans_in};

    ghost view = { λ loans. loans_in loans.held };
}

impl Loans {
    /// None.
    pub fn new(alloc: Global) -> Loans
        ensures { result ≡ [] }
    {
        Loans::of(Vec::new(alloc))
    }

    pub(crate) fn of(loans: Vec<Loan>) -> Loans
        ensures { result ≡ loans.items }
    {
        Loans {
            held: Held::Many(loans),
        }
    }

    // that one alone, with memory for more from there
    pub(crate) fn one(alloc: Global, loan: Loan) -> Loans
        ensures { result ≡ loan ∷ [] }
    {
        Loans {
            held: Held::One(alloc, loan),
        }
    }

    pub(crate) fn into_held(self) -> Held
        ensures { loans_in result ≡ self }
    {
        self.held
    }

    /// Puts one last.
    pub fn push(&mut self, loan: Loan) -> Result<(), Memory>
        ensures ok { OnOk result (self.new ≡ self.old ++ loan ∷ []) }
        ensures err { OnErr result (self.new ≡ self.old) }
    {
        self.held.push(loan)
    }

    /// All of them.
    pub fn as_slice(&self) -> &[Loan]
        ensures { result.now ≡ self.now }
    {
        self.held.as_slice()
    }

    /// Whether that fileid is among them.
    #[tactic(auto, using(crate::proofs::LoanLemmas::among_ids))]
    pub fn owns(&self, id: FileId) -> bool
        ensures { result ≡ among (ids_of self.now) id }
    {
        owns(self.as_slice(), id)
    }

    pub(crate) fn get(&self, id: FileId) -> Option<&Inode>
        ensures { option_copied result ≡ loaned self.now id }
    {
        self.held.get(id)
    }

    pub(crate) fn get_mut(&mut self, id: FileId) -> Option<&mut Inode>
        ensures value { option_copied_mut result ≡ loaned self.old id }
        ensures* writes_back { sem 𝓛 (LendsLoan self.entry id result) }
    {
        self.held.get_mut(id)
    }

    /// Puts that in the place of a fileid that is among them, and gives what was there.
    pub(crate) fn put(&mut self, id: FileId, inode: Option<BoxedInode>) -> Option<BoxedInode>
        ensures value { result ≡ loaned self.old id }
        ensures put { self.new ≡ with_loan self.old id inode }
    {
        self.held.put(id, inode)
    }
}

fn owns(loans: &[Loan], id: FileId) -> bool
    ensures { result ≡ list_any (λ loan. loan.id == id) loans.now }
{
    loans.iter().any(|loan| loan.id == id)
}
