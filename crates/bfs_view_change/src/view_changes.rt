// Which VIEW-CHANGEs are valid.
ghost use Rattle.std.specs.Prelude.{◌≡◌, ◌+◌, ◌&&◌, true, map};
ghost use Rattle.std.specs.List.{list_all};
ghost use Rattle.bfs_log.specs.Certificates.{certifies, number_in};
ghost use Rattle.bfs_messages.specs.Signing.{as_message, is_signed};
ghost use Rattle.bfs_messages.specs.declared.message.Message.TheVariants as kind;
ghost use Rattle.bfs_view_change.specs.Inside.Near.{IsNear};
ghost use Rattle.bfs_view_change.specs.Changes.ViewChanges.{are_in_order, do_rise, has_stable, is_due, valid_view_change};

use bfs_auth::Keys;
use bfs_log::{does_certify, faults_of, is_stable_shown, vote_in};
use bfs_messages::{PreparedBatch, Signed, ViewChange, is_view_change_signed};
use bfs_types::LOG_SIZE;

/// Whether a VIEW-CHANGE is valid for the holder of these keys: it is its sender's, 2f + 1 CHECKPOINTs make its stable number stable, and its
/// certificates are of rising numbers, at most `LOG_SIZE` above the stable one, each of a batch that was prepared in an earlier view. Each
/// message within it has to pass by these keys. It takes no memory.
pub fn valid_view_change(keys: &Keys, signed: &Signed<ViewChange>) -> bool
    ensures value { result ≡ valid_view_change keys.now signed.now }
    ensures near { result ≡ true → IsNear signed.now.message }
{
    is_valid(keys, signed)
}

fn is_valid(keys: &Keys, signed: &Signed<ViewChange>) -> bool
    ensures { result ≡ valid_view_change keys.now signed.now }
{
    are_in_order(&signed.message)
        && (is_view_change_signed(keys, signed) && is_founded(keys, &signed.message))
}

/// Whether a VIEW-CHANGE that was found to be its sender's is valid: its own text, the longest of all, is not hashed again. It takes no memory.
pub fn valid_signed_view_change(keys: &Keys, signed: &Signed<ViewChange>) -> bool
    requires { is_signed keys.now (as_message kind.ViewChange signed.now) ≡ true }
    ensures value { result ≡ valid_view_change keys.now signed.now }
    ensures near { result ≡ true → IsNear signed.now.message }
{
    is_valid_signed(keys, signed)
}

fn is_valid_signed(keys: &Keys, signed: &Signed<ViewChange>) -> bool
    requires { is_signed keys.now (as_message kind.ViewChange signed.now) ≡ true }
    ensures { result ≡ valid_view_change keys.now signed.now }
{
    are_in_order(&signed.message) && is_founded(keys, &signed.message)
}

// It has certificates of its stable number and of each batch.
fn is_founded(keys: &Keys, change: &ViewChange) -> bool
    ensures { result ≡ (has_stable keys.now change.now && list_all (certifies keys.now) change.now.certificates) }
{
    has_stable(keys, change) && do_certify(keys, change.certificates())
}

fn has_stable(keys: &Keys, change: &ViewChange) -> bool
    ensures { result ≡ has_stable keys.now change.now }
{
    let (stable, checkpoints) = (change.stable(), change.checkpoints());
    if stable == 0 {
        return checkpoints.is_empty();
    }
    match checkpoints {
        [] => false,
        [first, ..] => {
            let digest = first.message.digest();
            is_stable_shown(keys, faults_of(keys), stable, digest, checkpoints)
        }
    }
}

fn are_in_order(change: &ViewChange) -> bool
    ensures { result ≡ are_in_order change.now }
{
    do_rise(change.stable(), change.certificates()) && are_due(change)
}

fn do_rise(low: u64, certificates: &[PreparedBatch]) -> bool
    ensures { result ≡ do_rise low (map number_in certificates.now) }
{
    match certificates {
        [] => true,
        [first, rest @ ..] => {
            let number = vote_in(first).number();
            low < number && do_rise(number, rest)
        }
    }
}

fn are_due(change: &ViewChange) -> bool
    ensures { result ≡ list_all (is_due change.now) change.now.certificates }
{
    change
        .certificates()
        .iter()
        .all(|certificate| is_due(change, certificate))
}

fn is_due(change: &ViewChange, certificate: &PreparedBatch) -> bool
    ensures { result ≡ is_due change.now certificate.now }
{
    let vote = vote_in(certificate);
    vote.number() <= change.stable() + LOG_SIZE as u64 && vote.view() < change.view()
}

fn do_certify(keys: &Keys, certificates: &[PreparedBatch]) -> bool
    ensures { result ≡ list_all (certifies keys.now) certificates.now }
{
    certificates
        .iter()
        .all(|certificate| does_certify(keys, certificate))
}
