//! What was run, brought home and refused.
ghost use Rattle.std.specs.Prelude.{◌≡◌, IfOk, OnErr, OnOk};
ghost use Rattle.bfs_tree.specs.Slots.{Slots};
ghost use Rattle.bfs_handover.specs.Merging.{AreOut};

use crate::splits::{WRITTEN, all_run, at_home, batch_of, made};
use bfs_handover::{Done, Loans, MergeError, NumberedReply, merge};
use bfs_testing::words::same_bytes;
use bfs_testing::{holds, same};
use bfs_tree::{Store, Tree};
use bfs_types::{FileId, Memory};
use std::alloc::Global;
use std::process::Abort;
use std::test::Fail;

// the results turned round
#[tactic(auto, using(crate::proofs::Out::out_permuted))]
fn turned(mut dones: Vec<Done>) -> Vec<Done>
    ensures { (tree : Slots) → AreOut tree dones.items → AreOut tree result.items }
{
    dones.sort_unstable_by_key(|done| u32::MAX - done.number);
    dones
}

// the first results, and behind them others of these numbers, which have brought no inode
fn altered(
    alloc: Global,
    mut dones: Vec<Done>,
    taken: u32,
    others: &[u32],
) -> Result<Vec<Done>, Memory>
    ensures { IfOk result (λ altered. (tree : Slots) → AreOut tree dones.items → AreOut tree altered.items) }
{
    for _last in taken..2 {
        drop_last(&mut dones);
    }
    for number in others {
        push_empty(alloc, &mut dones, *number)?;
    }
    Ok(dones)
}

#[tactic(auto, using(crate::proofs::Out::out_with_none))]
fn push_empty(alloc: Global, dones: &mut Vec<Done>, number: u32) -> Result<(), Memory>
    ensures { OnOk result ((tree : Slots) → AreOut tree dones.old.items → AreOut tree dones.new.items) }
{
    dones.push(Done {
        number,
        reply: Vec::new(alloc),
        inodes: Loans::new(alloc),
    })?;
    Ok(())
}

#[tactic(auto, using(crate::proofs::Out::out_without_last))]
fn drop_last(dones: &mut Vec<Done>)
    ensures { (tree : Slots) → AreOut tree dones.old.items → AreOut tree dones.new.items }
{
    dones.pop();
}

fn both_merged(
    alloc: Global,
    tree: &mut Tree,
    dones: Vec<Done>,
) -> Result<Vec<NumberedReply>, MergeError>
    requires { AreOut tree.old dones.items }
    ensures { OnErr result (tree.new ≡ tree.old) }
{
    merge(alloc, tree, &[0, 1], dones)
}

// if memory runs out, the tree stays as it was
#[test]
fn splits_and_merges_or_stays(rt: HostRuntime) -> Result<(), Fail> {
    let alloc = rt.alloc();
    let batch = batch_of(alloc, WRITTEN)?;
    let (mut tree, ordinal, time) = made(alloc)?;
    let dones = turned(all_run(alloc, &mut tree, &batch, ordinal, time)?);
    same!(rt; dones.first().map(|done| done.number), Some(1));
    match both_merged(alloc, &mut tree, dones) {
        Ok(replies) => {
            holds!(rt; tree.is_whole());
            same!(rt; tree.used_blocks(), 3);
            compare(&rt, alloc, replies)
        }
        Err(refused) => {
            holds!(rt; at_home(alloc, &tree, &[FileId::root()])?);
            Err(refused.into())
        }
    }
}

// the replies stand in the order of the numbers
fn compare(rt: &impl Abort, alloc: Global, replies: Vec<NumberedReply>) -> Result<(), Fail> {
    same!(rt; replies.len(), 2);
    let mut number = 0;
    for reply in replies {
        same!(rt; reply.number, number);
        let step = WRITTEN.get(number as usize).ok_or("a step")?;
        number = number.saturating_add(1);
        let wanted = step.reply(alloc, number)?;
        same_bytes(alloc, reply.bytes.as_slice(), wanted.as_slice())?;
    }
    Ok(())
}

// how many of the two results are taken, the numbers of results that have brought nothing, and the number of the refusal
static REFUSED: &[(u32, &[u32], u32)] = &[
    (2, &[1], 19),
    (1, &[7], 18),
    (2, &[0, 7], 18),
    (1, &[], 38),
    (0, &[0, 0], 19),
    (0, &[], 38),
];

#[test]
fn refuses_results_that_are_not_those_of_the_jobs(rt: HostRuntime) -> Result<(), Fail> {
    let alloc = rt.alloc();
    for (taken, others, refused) in REFUSED {
        let batch = batch_of(alloc, WRITTEN)?;
        let (mut tree, ordinal, time) = made(alloc)?;
        let dones = all_run(alloc, &mut tree, &batch, ordinal, time)?;
        let dones = altered(alloc, dones, *taken, others)?;
        let merged = both_merged(alloc, &mut tree, dones);
        same!(rt; merged.err().map(|refusal| refusal.code()), Some(*refused));
        holds!(rt; !tree.is_whole());
        holds!(rt; at_home(alloc, &tree, &[FileId::root()])?);
    }
    Ok(())
}
