// What the primary of a new view begins it with.
ghost use Rattle.std.specs.Prelude.{◌≡◌, ◌≤◌, length, map, IfOk};
ghost use Rattle.bfs_model.specs.Server.Limits.{log_size, most_number, most_replicas};
ghost use Rattle.bfs_view_change.specs.Changes.Choice.{choice};
ghost use Rattle.bfs_view_change.specs.Changes.NewViews.{latest_checkpoint};
ghost use Rattle.bfs_view_change.specs.Changes.ViewChanges.{messages_of};
ghost use Rattle.bfs_view_change.specs.Inside.Near.{AreNear};
ghost use Rattle.bfs_view_change.specs.Changes.Making.{chosen_proposal, new_view_from, signed_new_view, signed_proposal};

use crate::choice::{Choice, Chosen, choice_of};
use crate::stable::latest_checkpoint;
use bfs_auth::Keys;
use bfs_log::StableCheckpoint;
use bfs_messages::{NewView, PrePrepare, Signed, ViewChange, sign_new_view, sign_proposal};
use bfs_types::{Memory, copies_of};
use std::alloc::Global;
use std::sync::Arc;

/// The NEW-VIEW of a primary, by its number, from VIEW-CHANGEs and what is chosen from them, signed for all replicas. `Memory` if memory runs
/// out.
pub fn make_new_view(
    alloc: Global,
    keys: &Keys,
    sender: u32,
    view: u64,
    changes: &[Signed<ViewChange>],
    choice: &Choice,
) -> Result<Signed<NewView>, Memory>
    requires view { view ≤ most_number }
    requires changes { length changes.now ≤ most_replicas }
    requires chosen { length choice.now.chosen ≤ log_size }
    ensures { IfOk result (λ signed. signed ≡ signed_new_view keys.now (new_view_from keys.now sender view changes.now choice.now)) }
{
    let copies = copies_of(alloc, changes)?;
    let new = new_view_from(alloc, keys, sender, view, copies, choice)?;
    sign_new_view(alloc, keys, new)
}

fn new_view_from(
    alloc: Global,
    keys: &Keys,
    sender: u32,
    view: u64,
    changes: Vec<Signed<ViewChange>>,
    choice: &Choice,
) -> Result<NewView, Memory>
    requires view { view ≤ most_number }
    requires changes { length changes.items ≤ most_replicas }
    requires chosen { length choice.now.chosen ≤ log_size }
    ensures { IfOk result (λ new. new ≡ new_view_from keys.now sender view changes.items choice.now) }
{
    let proposals = proposals_of(alloc, keys, sender, view, choice.chosen())?;
    Ok(NewView::new(sender, view, changes, proposals))
}

// what near VIEW-CHANGEs choose: a NEW-VIEW has room for it
fn few_chosen(alloc: Global, changes: &[Signed<ViewChange>]) -> Result<Choice, Memory>
    requires { AreNear changes.now }
    ensures value { IfOk result (λ c. c ≡ choice (messages_of changes.now)) }
    ensures few { IfOk result (λ c. length c.chosen ≤ log_size) }
{
    choice_of(alloc, changes)
}

/// How a primary begins a view.
#[derive(Drop)]
pub struct Begun {
    /// Its NEW-VIEW, signed for all replicas.
    pub new_view: Signed<NewView>,
    /// The checkpoint that the view begins behind, None where that is number 0.
    pub stable: Option<StableCheckpoint>,
    /// What it takes over into the view itself.
    pub handed: Vec<Signed<PrePrepare>>,
}

/// Makes the NEW-VIEW of a primary, by its number, from VIEW-CHANGEs that were found valid when they came, or that it has made itself. `Memory` if
/// memory runs out.
pub fn begin_view(
    alloc: Global,
    keys: &Keys,
    sender: u32,
    view: u64,
    changes: Vec<Signed<ViewChange>>,
) -> Result<Begun, Memory>
    requires view { view ≤ most_number }
    requires few { length changes.items ≤ most_replicas }
    requires near { AreNear changes.items }
    ensures new { IfOk result (λ begun. begun.new_view ≡ signed_new_view keys.now (new_view_from keys.now sender view changes.items (choice (messages_of changes.items)))) }
    ensures stable { IfOk result (λ begun. begun.stable ≡ latest_checkpoint (messages_of changes.items)) }
    ensures handed { IfOk result (λ begun. begun.handed.items ≡ begun.new_view.message.proposals) }
{
    let choice = few_chosen(alloc, &changes)?;
    let stable = latest_checkpoint(alloc, &changes)?;
    let new = new_view_from(alloc, keys, sender, view, changes, &choice)?;
    let handed = copies_of(alloc, new.proposals())?;
    Ok(Begun {
        new_view: sign_new_view(alloc, keys, new)?,
        stable,
        handed,
    })
}

fn proposals_of(
    alloc: Global,
    keys: &Keys,
    sender: u32,
    view: u64,
    chosen: &[Chosen],
) -> Result<Vec<Signed<PrePrepare>>, Memory>
    requires { view ≤ most_number }
    ensures { IfOk result (λ proposals. proposals.items ≡ map (λ c. signed_proposal keys.now (chosen_proposal sender view c)) chosen.now) }
{
    let mut proposals = Vec::new(alloc);
    for due in chosen {
        proposals.push(proposal_of(alloc, keys, sender, view, due)?)?;
    }
    Ok(proposals)
}

fn proposal_of(
    alloc: Global,
    keys: &Keys,
    sender: u32,
    view: u64,
    due: &Chosen,
) -> Result<Signed<PrePrepare>, Memory>
    requires { view ≤ most_number }
    ensures { IfOk result (λ signed. signed ≡ signed_proposal keys.now (chosen_proposal sender view due.now)) }
{
    let batch = Arc::try_clone(due.batch())?;
    let proposal = PrePrepare::new(sender, view, due.number(), batch);
    sign_proposal(alloc, keys, proposal)
}
