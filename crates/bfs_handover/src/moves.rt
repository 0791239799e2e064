ghost use Rattle.std.specs.Prelude.{◌≡◌, ◌≤◌, [], IfOk, OnErr, OnOk, length, vec_capacity};
ghost use Rattle.bfs_tree.specs.Tree.{at_home, lent};
ghost use Rattle.bfs_handover.specs.Moves.{AreAtHome, AreLent, brought_home, lent_out, taken};

use crate::held::Held;
use crate::loans::{Loan, Loans};
use bfs_tree::Tree;
use bfs_types::{FileId, Memory};
use std::alloc::Global;

// Takes what has these fileids out of the tree. If memory runs out, what is at home and what is lent out stays.
pub(crate) fn take(alloc: Global, tree: &mut Tree, ids: &[FileId]) -> Result<Loans, Memory>
    requires { AreAtHome tree.old ids.now }
    ensures loans { IfOk result (λ loans. loans ≡ taken ids.now tree.old) }
    ensures out { OnOk result (tree.new ≡ lent_out ids.now tree.old) }
    ensures home { OnErr result (at_home tree.new ≡ at_home tree.old) }
    ensures lent { OnErr result (lent tree.new ≡ lent tree.old) }
{
    if ids.len() == 1 {
        let id = ids[0];
        let inode = tree.lend(id)?;
        return Ok(Loans::one(alloc, Loan { id, inode }));
    }
    let room = Vec::with_capacity(alloc, ids.len())?;
    take_each(tree, ids, room)
}

// Takes what has these fileids out of the tree, into a vector that has room for it. If memory runs out, what was taken comes home.
fn take_each(tree: &mut Tree, ids: &[FileId], room: Vec<Loan>) -> Result<Loans, Memory>
    requires home { AreAtHome tree.old ids.now }
    requires empty { room.items ≡ [] }
    requires room { length ids.now ≤ vec_capacity room }
    ensures loans { IfOk result (λ loans. loans ≡ taken ids.now tree.old) }
    ensures out { OnOk result (tree.new ≡ lent_out ids.now tree.old) }
    ensures home { OnErr result (at_home tree.new ≡ at_home tree.old) }
    ensures lent { OnErr result (lent tree.new ≡ lent tree.old) }
{
    let mut loans = room;
    for id in ids {
        match tree.lend(*id) {
            Ok(inode) => loans.push_reserved(Loan { id: *id, inode }),
            Err(Memory) => {
                bring_each(tree, loans);
                return Err(Memory);
            }
        }
    }
    Ok(Loans::of(loans))
}

// Puts what was lent out back in its places in the tree.
pub(crate) fn bring(tree: &mut Tree, loans: Loans)
    requires { AreLent tree.old loans }
    ensures { tree.new ≡ brought_home loans tree.old }
{
    match loans.into_held() {
        Held::One(_, loan) => tree.bring_home(loan.id, loan.inode),
        Held::Many(loans) => bring_each(tree, loans),
    }
}

fn bring_each(tree: &mut Tree, loans: Vec<Loan>)
    requires { AreLent tree.old loans.items }
    ensures { tree.new ≡ brought_home loans.items tree.old }
{
    for loan in loans {
        tree.bring_home(loan.id, loan.inode);
    }
}
