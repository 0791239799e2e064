ghost use Rattle.std.specs.Prelude.{◌≡◌, ◌≤◌, ◌⊎◌, ◌↔◌, [], ◌∷◌, IfErr, IfOk, IsTrue, None, OnErr, OnOk, Some, length, map, not, vec_capacity};
ghost use Rattle.std.specs.List.{list_any};
ghost use Rattle.std.specs.List.Sorted.{IsNonDecreasingBy, IsPermutation, IsStrictlyIncreasing};
ghost use Rattle.bfs_model.specs.Server.Conflicts.{among};
ghost use Rattle.bfs_handover.specs.Errors.{merge_code_of};
ghost use Rattle.bfs_handover.specs.Merging.{AreAllLent, AreOut, IsMerged, all_home, numbers_in, refusal, reply_in};
ghost use Rattle.bfs_handover.specs.declared.job.Done.{Done};
ghost use Rattle.bfs_handover.specs.declared.results.MergeError.TheVariants as error;

use crate::job::Done;
use crate::moves::bring;
use bfs_tree::Tree;
use std::alloc::{AllocError, Global};
use thiserror::Error;

/// Why results were not merged. The tree is then as it was, and the results are dropped.
#[derive(Clone, Copy, Debug, PartialEq, Eq, Error)]
pub enum MergeError {
    /// A result has the number of no job.
    #[error("a result of no job")]
    Stranger,
    /// Two results have the number of one job.
    #[error("two results of one job")]
    Double,
    /// A job has no result.
    #[error("a job without a result")]
    Missing,
    /// Memory ran out.
    #[error("out of memory")]
    Memory,
}

impl MergeError {
    /// The number of the refusal.
    pub fn code(self) -> u32
        ensures { result ≡ merge_code_of self }
    {
        match self {
            MergeError::Stranger => 18,
            MergeError::Double => 19,
            MergeError::Missing => 38,
            MergeError::Memory => 40,
        }
    }
}

impl From<AllocError> for MergeError {
    ghost use Rattle.bfs_handover.specs.declared.results.MergeError.TheVariants as error;

    ghost from_gives = { λ _ refused. refused ≡ error.Memory };

    fn from(_error: AllocError) -> MergeError {
        MergeError::Memory
    }
}

/// The reply to a request of a batch.
#[derive(Debug, Drop)]
pub struct NumberedReply {
    /// The number of the request in its batch.
    pub number: u32,
    /// The bytes of the reply, none if the request can't be answered.
    pub bytes: Vec<u8>,
}

/// Brings the inodes of all results home, and gives the replies in the order of the numbers, which are those that were split, rising.
/// A result of one of these numbers has just the fileids that are lent out to its job.
pub fn merge(
    alloc: Global,
    tree: &mut Tree,
    numbers: &[u32],
    dones: Vec<Done>,
) -> Result<Vec<NumberedReply>, MergeError>
    requires rising { IsStrictlyIncreasing numbers.now }
    requires out { refusal numbers.now dones.items ≡ None → AreOut tree.old dones.items }
    ensures merged { IfOk result (λ replies. IsMerged tree.old tree.new numbers.now dones.items replies.items) }
    ensures complete { OnOk result (refusal numbers.now dones.items ≡ None) }
    ensures refused { IfErr result (λ e. (refusal numbers.now dones.items ≡ Some e) ⊎ ((e ≡ error.Memory) × (refusal numbers.now dones.items ≡ None))) }
    ensures err { OnErr result (tree.new ≡ tree.old) }
{
    let order = in_order(dones);
    if let Some(refused) = refusal(numbers, order.as_slice()) {
        return Err(refused);
    }
    let room = Vec::with_capacity(alloc, order.len())?;
    Ok(bring_all(tree, order, room))
}

/// Brings the inodes of one result home, and gives its reply: what `merge` does where one number was split, without memory.
pub fn merge_one(tree: &mut Tree, done: Done) -> NumberedReply
    requires { AreOut tree.old (done ∷ []) }
    ensures { IsMerged tree.old tree.new (done.number ∷ []) (done ∷ []) (result ∷ []) }
{
    let Done {
        number,
        reply,
        inodes,
    } = done;
    bring(tree, inodes);
    NumberedReply {
        number,
        bytes: reply,
    }
}

// The results in the order of their numbers.
fn in_order(mut dones: Vec<Done>) -> Vec<Done>
    ensures each { IsPermutation dones.items result.items }
    ensures sorted { IsNonDecreasingBy (λ done. done.number) result.items }
{
    dones.sort_unstable_by_key(|done| done.number);
    dones
}

// Why results in the order of their numbers are not those of the jobs of these numbers.
fn refusal(numbers: &[u32], dones: &[Done]) -> Option<MergeError>
    requires rising { IsStrictlyIncreasing numbers.now }
    requires sorted { IsNonDecreasingBy (λ done. done.number) dones.now }
    ensures { result ≡ refusal numbers.now dones.now }
{
    if are_numbers(numbers, dones) {
        None
    } else if has_stranger(numbers, dones) {
        Some(MergeError::Stranger)
    } else if !are_rising(dones) {
        Some(MergeError::Double)
    } else if dones.len() < numbers.len() {
        Some(MergeError::Missing)
    } else {
        None
    }
}

// Whether the results have just these numbers, in this order: then nothing is refused, and nothing need be looked for.
fn are_numbers(numbers: &[u32], dones: &[Done]) -> bool
    ensures { IsTrue result ↔ (numbers_in dones.now ≡ numbers.now) }
{
    if dones.len() != numbers.len() {
        return false;
    }
    for place in 0..dones.len() {
        if dones[place].number != numbers[place] {
            return false;
        }
    }
    true
}

fn has_stranger(numbers: &[u32], dones: &[Done]) -> bool
    requires { IsStrictlyIncreasing numbers.now }
    ensures { result ≡ list_any (λ done. not (among numbers.now done.number)) dones.now }
{
    dones.iter().any(|done| !is_among(numbers, done.number))
}

fn is_among(numbers: &[u32], number: u32) -> bool
    requires { IsStrictlyIncreasing numbers.now }
    ensures { result ≡ among numbers.now number }
{
    numbers.binary_search(&number).is_ok()
}

fn are_rising(dones: &[Done]) -> bool
    ensures { IsTrue result ↔ IsStrictlyIncreasing (numbers_in dones.now) }
{
    dones.is_sorted_by(|done, next| done.number < next.number)
}

// Brings what the results hold home, one after another, and gives their replies.
fn bring_all(tree: &mut Tree, dones: Vec<Done>, room: Vec<NumberedReply>) -> Vec<NumberedReply>
    requires out { AreAllLent tree.old dones.items }
    requires empty { room.items ≡ [] }
    requires room { length dones.items ≤ vec_capacity room }
    ensures home { tree.new ≡ all_home dones.items tree.old }
    ensures replies { result.items ≡ map reply_in dones.items }
{
    let mut replies = room;
    for done in dones {
        bring(tree, done.inodes);
        replies.push_reserved(NumberedReply {
            number: done.number,
            bytes: done.reply,
        });
    }
    replies
}
