// From which VIEW-CHANGEs a new view is chosen, and which NEW-VIEWs are right.
ghost use Rattle.std.specs.Prelude.{◌≡◌, ◌≢◌, ◌≤◌, ◌==◌, ◌&&◌, None, Some, IfSome, IfOk, IfErr, OnOk, bytes_eq};
ghost use Rattle.std.specs.List.{list_all};
ghost use Rattle.bfs_model.specs.Server.Limits.{most_faults};
ghost use Rattle.bfs_messages.specs.Batches.{batch_text};
ghost use Rattle.bfs_view_change.specs.Changes.Choice.{choice};
ghost use Rattle.bfs_view_change.specs.Changes.NewViews.{are_for, choice_in, choice_refusal, do_agree, do_propose, ground_refusal, is_any_from, new_view_refusal, proposes, senders};
ghost use Rattle.bfs_view_change.specs.Changes.ViewChanges.{messages_of, valid_view_change};
ghost use Rattle.bfs_view_change.specs.declared.error.ViewError.TheVariants as error;

use crate::choice::{Choice, Chosen, choice_of};
use crate::error::ViewError;
use crate::view_changes::valid_view_change;
use bfs_auth::Keys;
use bfs_log::{faults_of, primary_of};
use bfs_messages::{
    NewView, OrderedBatch, PrePrepare, Signed, ViewChange, batch_bytes, is_new_view_signed,
    is_proposal_signed,
};
use bfs_types::Memory;
use std::alloc::Global;

/// What a new view takes over from VIEW-CHANGEs: the latest stable number, and for each number above it up to the last that was prepared the batch
/// that was prepared in the highest view, or the null request. It is refused, in this order: `BadCertificate` where one is not valid, or
/// they ask for different views; `TooFew` where they are of fewer than 2f + 1 replicas; `Memory`.
pub fn choose(
    alloc: Global,
    keys: &Keys,
    changes: &[Signed<ViewChange>],
) -> Result<Choice, ViewError>
    ensures taken { OnOk result (choice_refusal keys.now changes.now ≡ None) }
    ensures choice { IfOk result (λ c. c ≡ choice (messages_of changes.now)) }
    ensures refused { IfErr result (λ e. e ≢ error.Memory → choice_refusal keys.now changes.now ≡ Some e) }
    ensures memory { IfErr result (λ e. e ≡ error.Memory → choice_refusal keys.now changes.now ≡ None) }
{
    if let Some(error) = choice_refusal(keys, changes) {
        return Err(error);
    }
    Ok(choice_of(alloc, changes)?)
}

fn choice_refusal(keys: &Keys, changes: &[Signed<ViewChange>]) -> Option<ViewError>
    ensures value { result ≡ choice_refusal keys.now changes.now }
    ensures one { IfSome result (λ e. e ≢ error.Memory) }
{
    if !(do_agree(changes) && are_valid(keys, changes)) {
        return Some(ViewError::BadCertificate);
    }
    let f = faults_of(keys);
    if count_senders(f, changes) < 2 * f + 1 {
        return Some(ViewError::TooFew);
    }
    None
}

// Of how many of the replicas they are.
fn count_senders(f: u32, changes: &[Signed<ViewChange>]) -> u32
    requires { f ≤ most_faults }
    ensures { result ≡ senders f changes.now }
{
    let mut count = 0;
    for replica in 0..3 * f + 1 {
        if is_any_from(changes, replica) {
            count += 1;
        }
    }
    count
}

fn is_any_from(changes: &[Signed<ViewChange>], sender: u32) -> bool
    ensures { result ≡ is_any_from changes.now sender }
{
    changes
        .iter()
        .any(|signed| signed.message.sender() == sender)
}

fn do_agree(changes: &[Signed<ViewChange>]) -> bool
    ensures { result ≡ do_agree changes.now }
{
    match changes {
        [] => true,
        [first, ..] => are_for(first.message.view(), changes),
    }
}

fn are_for(view: u64, changes: &[Signed<ViewChange>]) -> bool
    ensures { result ≡ are_for view changes.now }
{
    changes.iter().all(|signed| signed.message.view() == view)
}

fn are_valid(keys: &Keys, changes: &[Signed<ViewChange>]) -> bool
    ensures { result ≡ list_all (valid_view_change keys.now) changes.now }
{
    changes.iter().all(|signed| valid_view_change(keys, signed))
}

/// What a NEW-VIEW takes over, which is right for the holder of these keys. It is refused, in this order: `BadAuthenticator` where it is not
/// of its view's primary; `BadCertificate` where a VIEW-CHANGE is not valid, or asks for another
/// view; `TooFew` where they are of fewer than 2f + 1 replicas; `WrongChoice` where its PRE-PREPAREs are not the choice, in order, each
/// signed by the primary; `Memory`, which may come in place of `WrongChoice`.
pub fn check_new_view(
    alloc: Global,
    keys: &Keys,
    signed: &Signed<NewView>,
) -> Result<Choice, ViewError>
    ensures taken { OnOk result (new_view_refusal keys.now signed.now ≡ None) }
    ensures choice { IfOk result (λ c. c ≡ choice_in signed.now.message) }
    ensures refused { IfErr result (λ e. e ≢ error.Memory → new_view_refusal keys.now signed.now ≡ Some e) }
    ensures memory { IfErr result (λ e. e ≡ error.Memory → ground_refusal keys.now signed.now ≡ None) }
{
    if let Some(error) = ground_refusal(keys, signed) {
        return Err(error);
    }
    let new = &signed.message;
    let choice = choice_of(alloc, new.changes())?;
    if !do_propose(alloc, keys, new, new.proposals(), choice.chosen())? {
        return Err(ViewError::WrongChoice);
    }
    Ok(choice)
}

fn ground_refusal(keys: &Keys, signed: &Signed<NewView>) -> Option<ViewError>
    ensures value { result ≡ ground_refusal keys.now signed.now }
    ensures one { IfSome result (λ e. e ≢ error.Memory) }
{
    let new = &signed.message;
    let primary = primary_of(faults_of(keys), new.view());
    if !(new.sender() == primary && is_new_view_signed(keys, signed)) {
        return Some(ViewError::BadAuthenticator);
    }
    if !are_for(new.view(), new.changes()) {
        return Some(ViewError::BadCertificate);
    }
    choice_refusal(keys, new.changes())
}

fn do_propose(
    alloc: Global,
    keys: &Keys,
    new: &NewView,
    proposals: &[Signed<PrePrepare>],
    chosen: &[Chosen],
) -> Result<bool, Memory>
    ensures { IfOk result (λ all. all ≡ do_propose keys.now new.now.sender new.now.view proposals.now chosen.now) }
{
    match (proposals, chosen) {
        ([], []) => Ok(true),
        ([first, rest @ ..], [due, later @ ..]) => {
            if does_propose(alloc, keys, new, first, due)? {
                do_propose(alloc, keys, new, rest, later)
            } else {
                Ok(false)
            }
        }
        ([], [_due, _later @ ..]) => Ok(false),
        ([_first, _rest @ ..], []) => Ok(false),
    }
}

fn does_propose(
    alloc: Global,
    keys: &Keys,
    new: &NewView,
    proposal: &Signed<PrePrepare>,
    due: &Chosen,
) -> Result<bool, Memory>
    ensures { IfOk result (λ is. is ≡ proposes keys.now new.now.sender new.now.view proposal.now due.now) }
{
    let vote = proposal.message.vote();
    let is_placed = vote.sender() == new.sender()
        && (vote.view() == new.view() && vote.number() == due.number());
    if !is_placed {
        return Ok(false);
    }
    let is_same = have_one_text(alloc, proposal.message.batch(), due.batch())?;
    Ok(is_same && is_proposal_signed(keys, proposal))
}

fn have_one_text(alloc: Global, a: &OrderedBatch, b: &OrderedBatch) -> Result<bool, Memory>
    ensures { IfOk result (λ same. same ≡ bytes_eq (batch_text a.now) (batch_text b.now)) }
{
    let first = batch_bytes(alloc, a)?;
    let second = batch_bytes(alloc, b)?;
    Ok(first.as_slice() == second.as_slice())
}
