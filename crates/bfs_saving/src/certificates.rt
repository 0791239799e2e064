// The checkpoint that is stable, with the CHECKPOINTs that make it so.
ghost use Rattle.std.specs.Prelude.{◌≡◌, ◌≤◌, ◌++◌, IfOk, IfSome, OnOk};
ghost use Rattle.std.specs.List.{list_all, list_any};
ghost use Rattle.std.specs.Option.{option_map};
ghost use Rattle.bfs_model.specs.Server.Limits.{most_faults};
ghost use Rattle.bfs_votes.specs.Tags.{checkpoint_tag};
ghost use Rattle.bfs_votes.specs.Votes.{is_stable, says, tellers, told};
ghost use Rattle.bfs_messages.specs.Signing.{as_message};
ghost use Rattle.bfs_messages.specs.declared.order_messages.OrderMessage.TheVariants as kind;
ghost use Rattle.bfs_codec.specs.Codes.{Reads};
ghost use Rattle.bfs_log.specs.Certificates.{MakesStable, as_checkpoints, checkpoints_in, senders_differ};
ghost use Rattle.bfs_log.specs.Headers.{header, message_header};
ghost use Rattle.bfs_log.specs.Logs.{headers};
ghost use Rattle.bfs_saving.specs.Certificates.{FitsCertificate, FitsStable, certificate_from, certificate_text, makes_stable, may_be_kept, stable_from, stable_text, tells};

use crate::items::{Saved, put_many, put_optional};
use crate::reader::SavedReader;
use bfs_codec::DecodeError;
use bfs_log::StableCheckpoint;
use bfs_messages::{Checkpoint, Signed};
use bfs_types::Memory;
use bfs_xdr::{put_fixed, put_u64};
use std::alloc::Global;
use std::collections::BTreeSet;

impl Saved for StableCheckpoint {
    ghost text = { certificate_text };

    ghost fits = { FitsCertificate };

    ghost from = { certificate_from };

    #[tactic(auto, using(std::proofs::lemmas::List::append_assoc))]
    fn put(&self, alloc: Global, out: &mut Vec<u8>) -> Result<(), Memory> {
        put_u64(out, self.number())?;
        put_fixed(out, self.digest())?;
        put_many(self.checkpoints(), alloc, out)
    }

    #[tactic(auto, unfolding(crate::specs::Certificates::certificate_from))]
    fn read(reader: &mut SavedReader<'_>) -> Result<StableCheckpoint, DecodeError> {
        let number = reader.number()?;
        let digest = reader.digest()?;
        let checkpoints = reader.many()?;
        Ok(StableCheckpoint::new(number, digest, checkpoints))
    }
}

/// Appends the text of what makes a snapshot stable, or that nothing does. `Memory` if memory runs out.
#[tactic(auto, using(crate::proofs::Stable::kept_told))]
pub fn put_stable(
    stable: Option<&StableCheckpoint>,
    f: u32,
    alloc: Global,
    out: &mut Vec<u8>,
) -> Result<(), Memory>
    requires { IfSome (option_map (λ c. c.now) stable) (MakesStable f) }
    ensures text { OnOk result (out.new.items ≡ out.old.items ++ stable_text (option_map (λ c. c.now) stable.entry)) }
    ensures fits { OnOk result (FitsStable f (option_map (λ c. c.now) stable.entry)) }
{
    put_optional(stable, alloc, out)
}

/// Reads what makes a snapshot stable where `f` replicas may be faulty.
pub(crate) fn read_stable(
    reader: &mut SavedReader<'_>,
    f: u32,
) -> Result<Option<StableCheckpoint>, DecodeError>
    requires { f ≤ most_faults }
    ensures { Reads (λ stable. stable) result (stable_from f reader.old) reader.new }
{
    let stable = Option::<StableCheckpoint>::read(reader)?;
    if !may_be_kept(reader.alloc(), f, &stable)? {
        return Err(DecodeError::Malformed);
    }
    Ok(stable)
}

fn may_be_kept(alloc: Global, f: u32, stable: &Option<StableCheckpoint>) -> Result<bool, Memory>
    requires { f ≤ most_faults }
    ensures { IfOk result (λ may. may ≡ may_be_kept f stable.now) }
{
    match stable {
        None => Ok(true),
        Some(certificate) => makes_stable(alloc, f, certificate),
    }
}

// Whether its CHECKPOINTs, all of which are of it, are of 2f + 1 replicas or more, and each is of another one.
fn makes_stable(alloc: Global, f: u32, certificate: &StableCheckpoint) -> Result<bool, Memory>
    requires { f ≤ most_faults }
    ensures { IfOk result (λ does. does ≡ makes_stable f certificate.now) }
{
    if !do_all_tell(certificate) {
        return Ok(false);
    }
    if !do_enough_tell(f, certificate) {
        return Ok(false);
    }
    do_senders_differ(alloc, certificate.checkpoints())
}

fn do_all_tell(certificate: &StableCheckpoint) -> bool
    ensures { result ≡ list_all (tells certificate.now.number certificate.now.digest) certificate.now.checkpoints }
{
    do_each_tell(
        certificate.checkpoints(),
        certificate.number(),
        certificate.digest(),
    )
}

fn do_each_tell(checkpoints: &[Signed<Checkpoint>], number: u64, digest: &[u8; 32]) -> bool
    ensures { result ≡ list_all (tells number digest.now) checkpoints.now }
{
    checkpoints
        .iter()
        .all(|signed| does_tell(signed, number, digest))
}

fn does_tell(signed: &Signed<Checkpoint>, number: u64, digest: &[u8; 32]) -> bool
    ensures { result ≡ tells number digest.now signed.now }
{
    signed.message.number() == number && signed.message.digest() == digest
}

fn do_enough_tell(f: u32, certificate: &StableCheckpoint) -> bool
    requires { f ≤ most_faults }
    ensures { result ≡ is_stable f (headers (checkpoints_in certificate.now)) certificate.now.number certificate.now.digest }
{
    2 * f + 1 <= count_tellers(f, certificate)
}

// How many replicas tell it.
fn count_tellers(f: u32, certificate: &StableCheckpoint) -> u32
    requires { f ≤ most_faults }
    ensures { result ≡ tellers f (headers (checkpoints_in certificate.now)) checkpoint_tag 0 certificate.now.number certificate.now.digest }
{
    let mut count = 0;
    for replica in 0..3 * f + 1 {
        if is_told_by(certificate, replica) {
            count += 1;
        }
    }
    count
}

#[tactic(auto, using(bfs_log::proofs::Public::any_map))]
fn is_told_by(certificate: &StableCheckpoint, replica: u32) -> bool
    ensures { result ≡ told (headers (checkpoints_in certificate.now)) checkpoint_tag replica 0 certificate.now.number certificate.now.digest }
{
    does_any_say(
        certificate.checkpoints(),
        replica,
        certificate.number(),
        certificate.digest(),
    )
}

fn does_any_say(
    checkpoints: &[Signed<Checkpoint>],
    replica: u32,
    number: u64,
    digest: &[u8; 32],
) -> bool
    ensures { result ≡ list_any (λ s. says checkpoint_tag replica 0 number digest.now (header (as_message kind.Checkpoint s))) checkpoints.now }
{
    checkpoints.iter().any(|signed| does_say(&signed.message, replica, number, digest))
}

fn does_say(checkpoint: &Checkpoint, replica: u32, number: u64, digest: &[u8; 32]) -> bool
    ensures { result ≡ says checkpoint_tag replica 0 number digest.now (message_header (kind.Checkpoint checkpoint.now)) }
{
    (checkpoint.sender() == replica && checkpoint.number() == number)
        && checkpoint.digest() == digest
}

// Whether no two are of one sender, found out by one look-up each.
fn do_senders_differ(alloc: Global, checkpoints: &[Signed<Checkpoint>]) -> Result<bool, Memory>
    ensures { IfOk result (λ differ. differ ≡ senders_differ (as_checkpoints checkpoints.now)) }
{
    let mut seen = BTreeSet::new(alloc);
    for signed in checkpoints {
        if !seen.insert(signed.message.sender())? {
            return Ok(false);
        }
    }
    Ok(true)
}
