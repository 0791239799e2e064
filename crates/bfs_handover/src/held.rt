ghost use Rattle.std.specs.Prelude.{◌≡◌, ◌==◌, ◌++◌, ◌∷◌, [], OnOk, OnErr, IfSome, IfNone};
ghost use Rattle.std.specs.List.{position};
ghost use Rattle.std.specs.Option.{option_copied, option_copied_mut};
ghost use Rattle.std.specs.Borrow.{sem};
ghost use Rattle.bfs_handover.specs.Inside.Places.{IsPlace, IsNowhere};
ghost use Rattle.bfs_handover.specs.Loans.{loaned, with_loan};
ghost use Rattle.bfs_handover.specs.Inside.Held.{LendsHeld, loans_in};

use crate::loans::Loan;
use bfs_inode::Inode;
use bfs_tree::BoxedInode;
use bfs_types::{FileId, Memory};
use std::alloc::Global;
use std::slice;

/// Loans one after another. One alone lies in the value itself and takes no memory.
#[derive(Debug, Drop)]
pub(crate) enum Held {
    /// One, and where memory for more is to come from.
    One(Global, Loan),
    /// Any number of them.
    Many(Vec<Loan>),
}

impl Held {
    pub(crate) fn as_slice(&self) -> &[Loan]
        ensures { result.now ≡ loans_in self.now }
    {
        match self {
            Held::One(_, loan) => slice::from_ref(loan),
            Held::Many(loans) => loans.as_slice(),
        }
    }

    /// Puts one last.
    pub(crate) fn push(&mut self, loan: Loan) -> Result<(), Memory>
        ensures ok { OnOk result (loans_in self.new ≡ loans_in self.old ++ loan ∷ []) }
        ensures err { OnErr result (loans_in self.new ≡ loans_in self.old) }
    {
        match self {
            Held::One(alloc, _) => {
                let room = Vec::with_capacity(*alloc, 2)?;
                let was = std::mem::replace(self, Held::Many(room));
                if let (Held::One(_, first), Held::Many(loans)) = (was, self) {
                    loans.push_reserved(first);
                    loans.push_reserved(loan);
                }
            }
            Held::Many(loans) => loans.push(loan)?,
        }
        Ok(())
    }

    pub(crate) fn get(&self, id: FileId) -> Option<&Inode>
        ensures { option_copied result ≡ loaned (loans_in self.now) id }
    {
        let loans = self.as_slice();
        match place(loans, id) {
            Some(place) => Some(loans[place].inode.as_ref()?.get()),
            None => None,
        }
    }

    pub(crate) fn get_mut(&mut self, id: FileId) -> Option<&mut Inode>
        ensures value { option_copied_mut result ≡ loaned (loans_in self.old) id }
        ensures* writes_back { sem 𝓛 (LendsHeld self.entry id result) }
    {
        match self {
            Held::One(_, loan) => {
                if loan.id == id {
                    loan.inode_mut()
                } else {
                    None
                }
            }
            Held::Many(loans) => match place(loans.as_slice(), id) {
                Some(place) => loans[place].inode_mut(),
                None => None,
            },
        }
    }

    /// Puts that in the place of a fileid that is among them, and gives what was there.
    pub(crate) fn put(&mut self, id: FileId, inode: Option<BoxedInode>) -> Option<BoxedInode>
        ensures value { result ≡ loaned (loans_in self.old) id }
        ensures put { loans_in self.new ≡ with_loan (loans_in self.old) id inode }
    {
        match self {
            Held::One(_, loan) => {
                if loan.id == id {
                    std::mem::replace(&mut loan.inode, inode)
                } else {
                    None
                }
            }
            Held::Many(loans) => match place(loans.as_slice(), id) {
                Some(place) => std::mem::replace(&mut loans[place].inode, inode),
                None => None,
            },
        }
    }
}

#[tactic(auto, using(crate::proofs::LoanLemmas::place_found, crate::proofs::LoanLemmas::place_nowhere))]
fn place(loans: &[Loan], id: FileId) -> Option<usize>
    ensures found { IfSome result (λ place. IsPlace loans.now id place) }
    ensures nowhere { IfNone result (IsNowhere loans.now id) }
{
    position(loans, id)
}

fn position(loans: &[Loan], id: FileId) -> Option<usize>
    ensures { result ≡ position (λ loan. loan.id == id) loans.now }
{
    loans.iter().position(|loan| loan.id == id)
}
