// What a log shows to others.
ghost use Rattle.std.specs.Prelude.{◌≡◌, ◌≤◌, ◌==◌, ◌&&◌, ◌∷◌, [], ◌++◌, length, nat_lt, option_to_list, IfOk, OnOk};
ghost use Rattle.std.specs.List.{fold};
ghost use Rattle.bfs_model.specs.Server.Limits.{most_faults, most_replicas};
ghost use Rattle.bfs_votes.specs.Tags.{prepare_tag};
ghost use Rattle.bfs_votes.specs.Votes.{prepared, primary, replicas};
ghost use Rattle.bfs_log.specs.Headers.{vote_header};
ghost use Rattle.bfs_log.specs.Logs.{headers};
ghost use Rattle.bfs_log.specs.Showing.{backing, backing_said, backs, checkpoints_of, is_of, later, prepared_among};

use crate::certificates::does_match;
use crate::counting::primary_of;
use crate::logs::Log;
use crate::places::Place;
use crate::said::Said;
use bfs_messages::{Checkpoint, OrderMessage, PREPARE_TAG, PrePrepare, Signed, Vote};
use bfs_types::{Memory, TryClone};
use std::alloc::Global;

impl Log {
    /// Copies of the CHECKPOINTs of a number that are of replicas (OSDI 1999 section 4.3). `Memory` if memory runs out.
    pub fn checkpoints_of(&self, f: u32, number: u64) -> Result<Vec<Signed<Checkpoint>>, Memory>
        requires { f ≤ most_faults }
        ensures value { IfOk result (λ found. found.items ≡ checkpoints_of f number self.now) }
        ensures few { IfOk result (λ found. length found.items ≤ most_replicas) }
    {
        self.messages_differ();
        let found = checkpoints_among(self.alloc, f, number, self.messages())?;
        Ok(found)
    }

    // A message, if it is a PRE-PREPARE of the primary for a number that is prepared.
    pub(crate) fn prepared_in(
        &self,
        f: u32,
        me: u32,
        number: u64,
        signed: &Signed<OrderMessage>,
    ) -> Result<Option<Signed<PrePrepare>>, Memory>
        requires { f ≤ most_faults }
        ensures { IfOk result (λ found. option_to_list found ≡ prepared_among f me self.now number (signed.now ∷ [])) }
    {
        match &signed.message {
            OrderMessage::PrePrepare(proposal)
                if self.is_led_and_prepared(f, me, number, proposal.vote()) => {
                Ok(Some(Signed {
                    message: proposal.try_clone(self.alloc)?,
                    auth: signed.auth.try_clone(self.alloc)?,
                }))
            }
            _ => Ok(None),
        }
    }

    fn is_led_and_prepared(&self, f: u32, me: u32, number: u64, vote: &Vote) -> bool
        requires { f ≤ most_faults }
        ensures { result ≡ ((vote.now.number == number) && ((vote.now.sender == primary f vote.now.view) && prepared f me (headers self.now) vote.now.view vote.now.number vote.now.digest)) }
    {
        vote.number() == number
            && (vote.sender() == primary_of(f, vote.view())
                && self.is_prepared(f, me, vote.view(), vote.number(), vote.digest()))
    }

    // The PREPAREs of backups that match a PRE-PREPARE: they stand at one place.
    pub(crate) fn backing(&self, f: u32, proposed: &Vote) -> Result<Vec<Signed<Vote>>, Memory>
        requires { f ≤ most_faults }
        ensures value { IfOk result (λ found. found.items ≡ backing f proposed.now self.now) }
        ensures few { IfOk result (λ found. length found.items ≤ most_replicas) }
    {
        let place = Place {
            number: proposed.number(),
            view: proposed.view(),
            tag: PREPARE_TAG,
        };
        self.messages_differ();
        let found = backing_among(self.alloc, f, proposed, self.row(place))?;
        Ok(found)
    }
}

fn checkpoints_among(
    alloc: Global,
    f: u32,
    number: u64,
    log: &[Signed<OrderMessage>],
) -> Result<Vec<Signed<Checkpoint>>, Memory>
    requires { f ≤ most_faults }
    ensures { IfOk result (λ found. found.items ≡ checkpoints_of f number log.now) }
{
    let mut found = Vec::new(alloc);
    for signed in log {
        push_some(&mut found, checkpoint_in(alloc, f, number, signed)?)?;
    }
    Ok(found)
}

// A message, if it is a replica's CHECKPOINT of a number.
fn checkpoint_in(
    alloc: Global,
    f: u32,
    number: u64,
    signed: &Signed<OrderMessage>,
) -> Result<Option<Signed<Checkpoint>>, Memory>
    requires { f ≤ most_faults }
    ensures { IfOk result (λ found. option_to_list found ≡ checkpoints_of f number (signed.now ∷ [])) }
{
    match &signed.message {
        OrderMessage::Checkpoint(checkpoint) if is_of(f, number, checkpoint) => Ok(Some(Signed {
            message: *checkpoint,
            auth: signed.auth.try_clone(alloc)?,
        })),
        _ => Ok(None),
    }
}

fn is_of(f: u32, number: u64, checkpoint: &Checkpoint) -> bool
    requires { f ≤ most_faults }
    ensures { result ≡ ((checkpoint.now.number == number) && nat_lt checkpoint.now.sender (replicas f)) }
{
    checkpoint.number() == number && checkpoint.sender() < 3 * f + 1
}

fn backing_among(
    alloc: Global,
    f: u32,
    proposed: &Vote,
    row: &[Said],
) -> Result<Vec<Signed<Vote>>, Memory>
    requires { f ≤ most_faults }
    ensures { IfOk result (λ found. found.items ≡ backing_said f proposed.now row.now) }
{
    let mut found = Vec::new(alloc);
    for said in row {
        push_some(&mut found, backing_in(alloc, f, proposed, said.signed())?)?;
    }
    Ok(found)
}

// A message, if it is a backup's PREPARE that matches a PRE-PREPARE.
fn backing_in(
    alloc: Global,
    f: u32,
    proposed: &Vote,
    signed: &Signed<OrderMessage>,
) -> Result<Option<Signed<Vote>>, Memory>
    requires { f ≤ most_faults }
    ensures { IfOk result (λ found. option_to_list found ≡ backing f proposed.now (signed.now ∷ [])) }
{
    match &signed.message {
        OrderMessage::Prepare(vote) if does_back(f, proposed, vote) => Ok(Some(Signed {
            message: *vote,
            auth: signed.auth.try_clone(alloc)?,
        })),
        _ => Ok(None),
    }
}

fn does_back(f: u32, proposed: &Vote, vote: &Vote) -> bool
    requires { f ≤ most_faults }
    ensures { result ≡ backs f proposed.now (vote_header prepare_tag vote.now) }
{
    does_match(proposed, vote)
        && (vote.sender() < 3 * f + 1 && vote.sender() != primary_of(f, vote.view()))
}

pub(crate) fn push_some<T: Drop>(found: &mut Vec<T>, more: Option<T>) -> Result<(), Memory>
    ensures { OnOk result (found.new.items ≡ found.old.items ++ option_to_list more) }
{
    if let Some(item) = more {
        found.push(item)?;
    }
    Ok(())
}

// The one of the later view.
pub(crate) fn later_of(
    found: Option<Signed<PrePrepare>>,
    more: Option<Signed<PrePrepare>>,
) -> Option<Signed<PrePrepare>>
    ensures { result ≡ fold later found (option_to_list more) }
{
    match (found, more) {
        (None, more) => more,
        (Some(found), None) => Some(found),
        (Some(found), Some(more)) => {
            if found.message.vote().view() < more.message.vote().view() {
                Some(more)
            } else {
                Some(found)
            }
        }
    }
}
