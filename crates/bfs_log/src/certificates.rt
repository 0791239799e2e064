// What shows that a number is stable, and that a batch was prepared.
ghost use Rattle.std.specs.Prelude.{◌≡◌, ◌≤◌, ◌+◌, ◌*◌, ◌==◌, ◌&&◌};
ghost use Rattle.std.specs.List.{list_all, list_any};
ghost use Rattle.bfs_model.specs.Server.Limits.{most_faults, most_number};
ghost use Rattle.bfs_votes.specs.Tags.{prepare_tag};
ghost use Rattle.bfs_votes.specs.Votes.{backups, primary, says, told};
ghost use Rattle.bfs_messages.specs.Signing.{as_message, request_is_signed};
ghost use Rattle.bfs_messages.specs.declared.order_messages.OrderMessage.TheVariants as kind;
ghost use Rattle.bfs_log.specs.Certificates.{as_checkpoints, certifies, faults, is_all_signed, is_proved, is_shown, matches, messages_in, number_in, prepares_in, senders_differ, vouches, view_in, vote_in};
ghost use Rattle.bfs_log.specs.Headers.{header, vote_header};
ghost use Rattle.bfs_log.specs.Logs.{headers};

use crate::counting::primary_of;
use crate::senders::{do_senders_differ, is_sender};
use bfs_auth::Keys;
use bfs_messages::{
    Checkpoint, PrePrepare, PreparedBatch, Request, Signed, Vote, is_checkpoint_signed,
    is_prepare_signed, is_proposal_signed, is_request_signed,
};
use bfs_types::{MOST_REPLICAS, Memory, TryClone, copies_of};
use std::alloc::Global;
use std::marker::Model;

/// How many replicas may be faulty where keys are shared with so many.
pub fn faults_of(keys: &Keys) -> u32
    ensures value { result ≡ faults keys.now }
    ensures within { result ≤ most_faults }
{
    (keys.replicas().saturating_sub(1) / 3) as u32
}

/// A number with a digest, and the CHECKPOINTs that are to show that it is stable (OSDI 1999 section 4.3). The number is at most `MOST_NUMBER`.
#[derive(Drop)]
pub struct StableCheckpoint {
    number: u64,
    digest: [u8; 32],
    checkpoints: Vec<Signed<Checkpoint>>,
}

impl Model for StableCheckpoint {
    ghost use Rattle.std.specs.Prelude.{◌≤◌};
    ghost use Rattle.bfs_model.specs.Server.Limits.{most_number};
    ghost use Rattle.bfs_log.specs.Certificates as model;

    ghost Value = { model.StableCheckpoint };

    ghost view = { λ c. record { number = c.number; digest = c.digest; checkpoints = c.checkpoints.items } };

    ghost invariant = { λ c. c.number ≤ most_number };
}

impl StableCheckpoint {
    /// A number with a digest, which these CHECKPOINTs tell.
    pub fn new(
        number: u64,
        digest: [u8; 32],
        checkpoints: Vec<Signed<Checkpoint>>,
    ) -> StableCheckpoint
        requires { number ≤ most_number }
        ensures { result ≡ record { number = number; digest = digest; checkpoints = checkpoints.items } }
    {
        StableCheckpoint {
            number,
            digest,
            checkpoints,
        }
    }

    /// The number.
    pub fn number(&self) -> u64
        ensures value { result ≡ self.now.number }
        ensures within { result ≤ most_number }
    {
        self.number
    }

    /// The digest of a replica behind it.
    pub fn digest(&self) -> &[u8; 32]
        ensures { result.now ≡ self.now.digest }
    {
        &self.digest
    }

    /// The CHECKPOINTs.
    pub fn checkpoints(&self) -> &[Signed<Checkpoint>]
        ensures { result.now ≡ self.now.checkpoints }
    {
        self.checkpoints.as_slice()
    }

    /// Whether it is shown to be stable: CHECKPOINTs of 2f + 1 different replicas or more, each signed, tell that number and digest. It takes no
    /// memory.
    pub fn is_shown(&self, keys: &Keys, f: u32) -> bool
        requires { f ≤ most_faults }
        ensures { result ≡ is_shown keys.now f self.now }
    {
        is_stable_shown(keys, f, self.number, &self.digest, &self.checkpoints)
    }
}

impl TryClone for StableCheckpoint {
    fn try_clone(&self, alloc: Global) -> Result<StableCheckpoint, Memory> {
        Ok(StableCheckpoint {
            number: self.number,
            digest: self.digest,
            checkpoints: copies_of(alloc, &self.checkpoints)?,
        })
    }
}

/// Whether CHECKPOINTs show that a number with that digest is stable. It takes no memory, and looks at no more CHECKPOINTs than there may be
/// replicas.
pub fn is_stable_shown(
    keys: &Keys,
    f: u32,
    number: u64,
    digest: &[u8; 32],
    checkpoints: &[Signed<Checkpoint>],
) -> bool
    requires { f ≤ most_faults }
    ensures { result ≡ is_shown keys.now f (record { number = number; digest = digest.now; checkpoints = checkpoints.now }) }
{
    if MOST_REPLICAS < checkpoints.len() {
        return false;
    }
    do_vouch(keys, f, number, digest, checkpoints)
        && (do_senders_differ(checkpoints) && 2 * f as usize + 1 <= checkpoints.len())
}

/// Whether it is a replica's CHECKPOINT of that number and digest, signed by it. It takes no memory.
pub fn does_vouch(
    keys: &Keys,
    f: u32,
    number: u64,
    digest: &[u8; 32],
    signed: &Signed<Checkpoint>,
) -> bool
    requires { f ≤ most_faults }
    ensures { result ≡ vouches keys.now f number digest.now (as_message kind.Checkpoint signed.now) }
{
    let checkpoint = &signed.message;
    checkpoint.number() == number
        && (checkpoint.digest() == digest
            && (checkpoint.sender() < 3 * f + 1 && is_checkpoint_signed(keys, signed)))
}

#[tactic(auto, using(crate::proofs::Folds::all_map))]
fn do_vouch(
    keys: &Keys,
    f: u32,
    number: u64,
    digest: &[u8; 32],
    checkpoints: &[Signed<Checkpoint>],
) -> bool
    requires { f ≤ most_faults }
    ensures { result ≡ list_all (vouches keys.now f number digest.now) (as_checkpoints checkpoints.now) }
{
    does_each_vouch(keys, f, number, digest, checkpoints)
}

fn does_each_vouch(
    keys: &Keys,
    f: u32,
    number: u64,
    digest: &[u8; 32],
    checkpoints: &[Signed<Checkpoint>],
) -> bool
    requires { f ≤ most_faults }
    ensures { result ≡ list_all (λ s. vouches keys.now f number digest.now (as_message kind.Checkpoint s)) checkpoints.now }
{
    checkpoints
        .iter()
        .all(|signed| does_vouch(keys, f, number, digest, signed))
}

/// What the PRE-PREPARE of a prepared batch says.
pub fn vote_in(prepared: &PreparedBatch) -> &Vote
    ensures { result.now ≡ vote_in prepared.now }
{
    prepared.proposal().message.vote()
}

/// Whether a PREPARE matches a PRE-PREPARE.
pub(crate) fn does_match(proposed: &Vote, vote: &Vote) -> bool
    ensures { result ≡ matches proposed.now (vote_header prepare_tag vote.now) }
{
    vote.view() == proposed.view()
        && (vote.number() == proposed.number() && vote.digest() == proposed.digest())
}

fn do_match(proposed: &Vote, prepares: &[Signed<Vote>]) -> bool
    ensures { result ≡ list_all (λ s. matches proposed.now (vote_header prepare_tag s.message)) prepares.now }
{
    prepares
        .iter()
        .all(|signed| does_match(proposed, &signed.message))
}

fn do_all_differ(prepared: &PreparedBatch) -> bool
    ensures { result ≡ senders_differ (messages_in prepared.now) }
{
    let prepares = prepared.prepares();
    !is_sender(prepares, vote_in(prepared).sender()) && do_senders_differ(prepares)
}

/// Whether a PREPARE of a replica matches the PRE-PREPARE.
#[tactic(auto, using(crate::proofs::Folds::any_map))]
fn is_told_by(prepared: &PreparedBatch, sender: u32) -> bool
    ensures { result ≡ told (headers (messages_in prepared.now)) prepare_tag sender (view_in prepared.now) (number_in prepared.now) (vote_in prepared.now).digest }
{
    do_tell(prepared.prepares(), vote_in(prepared), sender)
}

fn do_tell(prepares: &[Signed<Vote>], proposed: &Vote, sender: u32) -> bool
    ensures { result ≡ list_any (λ s. says prepare_tag sender proposed.now.view proposed.now.number proposed.now.digest (vote_header prepare_tag s.message)) prepares.now }
{
    prepares
        .iter()
        .any(|signed| does_say(&signed.message, proposed, sender))
}

fn does_say(vote: &Vote, proposed: &Vote, sender: u32) -> bool
    ensures { result ≡ says prepare_tag sender proposed.now.view proposed.now.number proposed.now.digest (vote_header prepare_tag vote.now) }
{
    (vote.sender() == sender
        && (vote.view() == proposed.view() && vote.number() == proposed.number()))
        && vote.digest() == proposed.digest()
}

fn count_backups(f: u32, prepared: &PreparedBatch) -> u32
    requires { f ≤ most_faults }
    ensures { result ≡ backups f (headers (messages_in prepared.now)) (view_in prepared.now) (number_in prepared.now) (vote_in prepared.now).digest }
{
    let primary = primary_of(f, vote_in(prepared).view());
    let mut count = 0;
    for replica in 0..3 * f + 1 {
        if replica != primary && is_told_by(prepared, replica) {
            count += 1;
        }
    }
    count
}

/// Whether 2f backups match the PRE-PREPARE of the primary.
#[tactic(auto, using(crate::proofs::Proposed::proposed_by))]
fn is_proved(f: u32, prepared: &PreparedBatch) -> bool
    requires { f ≤ most_faults }
    ensures { result ≡ is_proved f prepared.now }
{
    let proposed = vote_in(prepared);
    proposed.sender() == primary_of(f, proposed.view()) && 2 * f <= count_backups(f, prepared)
}

fn is_batch_signed(keys: &Keys, proposal: &Signed<PrePrepare>) -> bool
    ensures { result ≡ is_all_signed keys.now (as_message kind.PrePrepare proposal.now) }
{
    is_proposal_signed(keys, proposal) && are_signed(keys, proposal.message.batch().requests())
}

fn are_signed(keys: &Keys, requests: &[Signed<Request>]) -> bool
    ensures { result ≡ list_all (request_is_signed keys.now) requests.now }
{
    requests
        .iter()
        .all(|signed| is_request_signed(keys, signed))
}

fn is_vote_signed(keys: &Keys, signed: &Signed<Vote>) -> bool
    ensures { result ≡ is_all_signed keys.now (as_message kind.Prepare signed.now) }
{
    is_prepare_signed(keys, signed)
}

fn are_prepares_signed(keys: &Keys, prepares: &[Signed<Vote>]) -> bool
    ensures { result ≡ list_all (λ s. is_all_signed keys.now (as_message kind.Prepare s)) prepares.now }
{
    prepares.iter().all(|signed| is_vote_signed(keys, signed))
}

#[tactic(auto, using(crate::proofs::Folds::all_map))]
fn is_all_signed(keys: &Keys, prepared: &PreparedBatch) -> bool
    ensures { result ≡ list_all (is_all_signed keys.now) (messages_in prepared.now) }
{
    is_batch_signed(keys, prepared.proposal()) && are_prepares_signed(keys, prepared.prepares())
}

#[tactic(auto, using(crate::proofs::Folds::all_map))]
fn do_all_match(prepared: &PreparedBatch) -> bool
    ensures { result ≡ list_all (λ m. matches (vote_in prepared.now) (header m)) (prepares_in prepared.now) }
{
    do_match(vote_in(prepared), prepared.prepares())
}

/// Whether it is shown that a batch was prepared: PREPAREs of 2f different backups or more match the PRE-PREPARE of the primary, and all is signed,
/// the REQUESTs too. It takes no memory.
pub fn does_certify(keys: &Keys, prepared: &PreparedBatch) -> bool
    ensures { result ≡ certifies keys.now prepared.now }
{
    do_all_match(prepared)
        && (do_all_differ(prepared)
            && (is_proved(faults_of(keys), prepared) && is_all_signed(keys, prepared)))
}
