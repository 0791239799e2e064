// What a new view takes over from VIEW-CHANGEs.
ghost use Rattle.std.specs.Prelude.{◌≡◌, ◌+◌, ◌≤◌, ◌==◌, map, max, Some, IfOk};
ghost use Rattle.std.specs.Arc.{arc_value};
ghost use Rattle.std.specs.Cmp.Lexicographic.{slice_cmp};
ghost use Rattle.std.specs.List.{filter, fold};
ghost use Rattle.std.specs.Option.{option_map};
ghost use Rattle.std.specs.Ordering.{nat_cmp};
ghost use Rattle.bfs_model.specs.Server.Limits.{most_number};
ghost use Rattle.bfs_log.specs.Certificates.{number_in};
ghost use Rattle.bfs_messages.specs.Batches.{batch_text};
ghost use Rattle.bfs_view_change.specs.Changes.Choice as model;
ghost use Rattle.bfs_view_change.specs.Changes.Choice.{better, candidates, choice, chosen_for, greatest, last_in, latest_stable, rank};
ghost use Rattle.bfs_view_change.specs.Changes.ViewChanges.{messages_of};
ghost use Rattle.bfs_view_change.specs.Inside.Found.{seen};

use bfs_log::vote_in;
use bfs_messages::{OrderedBatch, PreparedBatch, Signed, ViewChange, batch_bytes};
use bfs_types::Memory;
use std::alloc::Global;
use std::cmp::Ordering;
use std::marker::Model;
use std::sync::Arc;

/// A number of a new view, and the batch that is chosen for it. The number is at most `MOST_NUMBER`. The batch may be shared with others.
#[derive(Drop)]
pub struct Chosen {
    number: u64,
    batch: Arc<OrderedBatch>,
}

impl Model for Chosen {
    ghost use Rattle.std.specs.Prelude.{◌≤◌};
    ghost use Rattle.std.specs.Arc.{arc_value};
    ghost use Rattle.bfs_model.specs.Server.Limits.{most_number};
    ghost use Rattle.bfs_view_change.specs.Changes.Choice as model;

    ghost Value = { model.Chosen };

    ghost view = { λ c. record { number = c.number; batch = arc_value c.batch } };

    ghost invariant = { λ c. c.number ≤ most_number };
}

impl Chosen {
    /// The number.
    pub fn number(&self) -> u64
        ensures value { result ≡ self.now.number }
        ensures within { result ≤ most_number }
    {
        self.number
    }

    /// The batch: the null request where nothing was prepared for the number.
    pub fn batch(&self) -> &Arc<OrderedBatch>
        ensures { arc_value result.now ≡ self.now.batch }
    {
        &self.batch
    }
}

/// What a new view begins with: the latest stable number, and a batch for each number above it up to the last that was prepared.
#[derive(Drop)]
pub struct Choice {
    min_s: u64,
    chosen: Vec<Chosen>,
}

impl Model for Choice {
    ghost use Rattle.bfs_view_change.specs.Changes.Choice as model;

    ghost Value = { model.Choice };

    ghost view = { λ c. record { min_s = c.min_s; chosen = c.chosen.items } };
}

impl Choice {
    /// The latest stable number, up to which the view has no batches.
    pub fn min_s(&self) -> u64
        ensures { result ≡ self.now.min_s }
    {
        self.min_s
    }

    /// What is chosen, by rising numbers.
    pub fn chosen(&self) -> &[Chosen]
        ensures { result.now ≡ self.now.chosen }
    {
        self.chosen.as_slice()
    }
}

// A batch that was prepared.
#[derive(Clone, Copy)]
pub(crate) struct Found<'a> {
    pub(crate) view: u64,
    pub(crate) sender: u32,
    pub(crate) batch: &'a Arc<OrderedBatch>,
}

/// What VIEW-CHANGEs choose, which were found valid when they came: nothing is checked here. A batch is shared with the certificate that it is
/// from. `Memory` if memory runs out.
#[tactic(auto, using(crate::proofs::Folds::one_number_more))]
pub fn choice_of(alloc: Global, changes: &[Signed<ViewChange>]) -> Result<Choice, Memory>
    ensures { IfOk result (λ c. c ≡ choice (messages_of changes.now)) }
{
    let min_s = latest_stable(changes);
    let last = last_number(changes).max(min_s);
    let mut chosen = Vec::new(alloc);
    for number in min_s + 1..last + 1 {
        chosen.push(chosen_for(alloc, number, changes)?)?;
    }
    Ok(Choice { min_s, chosen })
}

pub(crate) fn latest_stable(changes: &[Signed<ViewChange>]) -> u64
    ensures value { result ≡ latest_stable (messages_of changes.now) }
    ensures within { result ≤ most_number }
{
    match changes {
        [] => 0,
        [first, rest @ ..] => first.message.stable().max(latest_stable(rest)),
    }
}

fn last_number(changes: &[Signed<ViewChange>]) -> u64
    ensures value { result ≡ greatest (map last_in (messages_of changes.now)) }
    ensures within { result ≤ most_number }
{
    match changes {
        [] => 0,
        [first, rest @ ..] => last_in(first.message.certificates()).max(last_number(rest)),
    }
}

pub(crate) fn last_in(certificates: &[PreparedBatch]) -> u64
    ensures value { result ≡ greatest (map number_in certificates.now) }
    ensures within { result ≤ most_number }
{
    match certificates {
        [] => 0,
        [first, rest @ ..] => vote_in(first).number().max(last_in(rest)),
    }
}

fn chosen_for(alloc: Global, number: u64, changes: &[Signed<ViewChange>]) -> Result<Chosen, Memory>
    requires { number ≤ most_number }
    ensures { IfOk result (λ c. c ≡ chosen_for (messages_of changes.now) number) }
{
    let batch = match best_from(alloc, number, None, changes)? {
        Some(found) => Arc::try_clone(found.batch)?,
        None => Arc::new(alloc, OrderedBatch::null())?,
    };
    Ok(Chosen { number, batch })
}

// The first in rank of what was found and of what VIEW-CHANGEs tell of a number.
#[tactic(auto, using(crate::proofs::Folds::fold_append))]
fn best_from<'a>(
    alloc: Global,
    number: u64,
    found: Option<Found<'a>>,
    changes: &'a [Signed<ViewChange>],
) -> Result<Option<Found<'a>>, Memory>
    ensures { IfOk result (λ best. option_map seen best ≡ fold better (option_map seen found.entry) (candidates number (messages_of changes.now))) }
{
    match changes {
        [] => Ok(found),
        [first, rest @ ..] => {
            let change = &first.message;
            let found = best_in(alloc, number, change.sender(), found, change.certificates())?;
            let best = best_from(alloc, number, found, rest)?;
            Ok(best)
        }
    }
}

// The same of what certificates of a sender tell.
fn best_in<'a>(
    alloc: Global,
    number: u64,
    sender: u32,
    found: Option<Found<'a>>,
    certificates: &'a [PreparedBatch],
) -> Result<Option<Found<'a>>, Memory>
    ensures { IfOk result (λ best. option_map seen best ≡ fold better (option_map seen found.entry) (map (model.candidate sender) (filter (λ c. number_in c == number) certificates.now))) }
{
    match certificates {
        [] => Ok(found),
        [first, rest @ ..] => {
            if vote_in(first).number() != number {
                return best_in(alloc, number, sender, found, rest);
            }
            let more = Found {
                view: vote_in(first).view(),
                sender,
                batch: first.proposal().message.batch(),
            };
            let found = Some(better(alloc, found, more)?);
            best_in(alloc, number, sender, found, rest)
        }
    }
}

fn better<'a>(alloc: Global, found: Option<Found<'a>>, more: Found<'a>) -> Result<Found<'a>, Memory>
    ensures { IfOk result (λ best. Some (seen best) ≡ better (option_map seen found.entry) (seen more.entry)) }
{
    match found {
        None => Ok(more),
        Some(found) => {
            if rank(alloc, more, found)?.is_lt() {
                Ok(more)
            } else {
                Ok(found)
            }
        }
    }
}

fn rank(alloc: Global, a: Found<'_>, b: Found<'_>) -> Result<Ordering, Memory>
    ensures { IfOk result (λ order. order ≡ rank (seen a.entry) (seen b.entry)) }
{
    match b.view.cmp(&a.view) {
        Ordering::Equal => match a.sender.cmp(&b.sender) {
            Ordering::Equal => order_of_texts(alloc, a.batch, b.batch),
            other => Ok(other),
        },
        other => Ok(other),
    }
}

// Texts are written out only where one replica has two VIEW-CHANGEs, each with a batch for one number and view.
fn order_of_texts(alloc: Global, a: &OrderedBatch, b: &OrderedBatch) -> Result<Ordering, Memory>
    ensures { IfOk result (λ order. order ≡ slice_cmp nat_cmp (batch_text a.now) (batch_text b.now)) }
{
    let first = batch_bytes(alloc, a)?;
    let second = batch_bytes(alloc, b)?;
    Ok(first.as_slice().cmp(second.as_slice()))
}
