//! What replicas sign by keys of their own: all who know their public keys take it, by the index of its place.
use bfs_auth::{
    Authenticator, Keys, MOST_SIGNATURE_BYTES, Place, Principal, an_index_is_of_one_place, check,
    place_in, sign, signed_alone_as_among_many, what_a_key_signs_passes,
};
use bfs_testing::{holds, same};
use bfs_types::Memory;
use lms::{HssPublicKey, LmsType, OtsType, PrivateKey, Signer, TreeTypes};
use std::alloc::{AllocError, Global};
use std::test::Fail;

const TYPES: TreeTypes = TreeTypes {
    lms: LmsType::H5,
    ots: OtsType::W4,
};

// who signs
const SENDER: u8 = 2;

// of two levels, with the replica's number for all its secrets
fn key_of(number: u8) -> PrivateKey {
    PrivateKey {
        lms: LmsType::H5,
        ots: OtsType::W4,
        id: [number; 16],
        seed: [number; 32],
    }
}

fn public_keys(alloc: Global) -> Result<Vec<HssPublicKey>, AllocError> {
    let mut all = Vec::new(alloc);
    for number in 0..4 {
        let signer = Signer::new(alloc, key_of(number), &[TYPES])?;
        all.push(signer.public_key())?;
    }
    Ok(all)
}

// of one of 4 replicas, who knows these public keys
fn keys_of(alloc: Global, number: u32, known: &[HssPublicKey]) -> Result<Keys, Memory> {
    let keys = Keys::derive(alloc, &[0; 32], Principal::Replica(number), 4, 1)?;
    Ok(keys.with_replica_signers(known.to_vec(alloc)?))
}

// of all 4
fn receivers(alloc: Global, known: &[HssPublicKey]) -> Result<Vec<Keys>, Memory> {
    let mut all = Vec::new(alloc);
    for number in 0..4 {
        all.push(keys_of(alloc, number, known)?)?;
    }
    Ok(all)
}

// of the sender, with its key
fn signing(alloc: Global, known: &[HssPublicKey]) -> Result<Keys, Memory> {
    let below = Vec::from_slice(alloc, &[TYPES])?;
    keys_of(alloc, u32::from(SENDER), known)?.with_signer(alloc, key_of(SENDER), below)
}

// a tag, the sender, two numbers, and what stands behind them
fn text(tag: u8, first: u8, second: u8) -> [u8; 56] {
    let mut text = [7; 56];
    text[..24].copy_from_slice(&[0; 24]);
    text[3] = tag;
    text[7] = SENDER;
    text[15] = first;
    text[23] = second;
    text
}

fn passes_at_all(receivers: &[Keys], sender: u8, text: &[u8], auth: &Authenticator) -> bool {
    let sender = Principal::Replica(u32::from(sender));
    receivers.iter().all(|keys| check(keys, sender, text, auth))
}

fn passes_somewhere(receivers: &[Keys], sender: u8, text: &[u8], auth: &Authenticator) -> bool {
    let sender = Principal::Replica(u32::from(sender));
    receivers.iter().any(|keys| check(keys, sender, text, auth))
}

// a PRE-PREPARE, a PREPARE, a CHECKPOINT, a VIEW-CHANGE and a NEW-VIEW
static KINDS: [(u8, u8, u8); 5] = [(2, 1, 7), (3, 1, 8), (5, 10, 0), (6, 2, 0), (7, 2, 0)];

#[test]
fn each_kind_passes_at_all_and_of_nobody_else(rt: HostRuntime) -> Result<(), Fail> {
    let alloc = rt.alloc();
    let known = public_keys(alloc)?;
    let mine = signing(alloc, &known)?;
    let receivers = receivers(alloc, &known)?;
    for (tag, first, second) in KINDS.iter().copied() {
        let said = text(tag, first, second);
        let auth = sign(alloc, &mine, &said)?;
        same!(rt; auth.signature().map(|bytes| bytes.len()), Some(4_764));
        holds!(rt; passes_at_all(&receivers, SENDER, &said, &auth));
        holds!(rt; !passes_somewhere(&receivers, 1, &said, &auth));
        let other = text(tag, first, second.wrapping_add(1));
        holds!(rt; !passes_somewhere(&receivers, SENDER, &other, &auth));
        let again = sign(alloc, &mine, &said)?;
        holds!(rt; again.signature() == auth.signature());
    }
    Ok(())
}

// how often trees grow in a view, behind a number
fn grow(alloc: Global, keys: &Keys, view: u64, number: u64) -> u32 {
    for count in 0u32..1_000 {
        if !keys.grow(alloc, view, number) {
            return count;
        }
    }
    1_000
}

#[test]
fn trees_that_have_grown_sign_alike(rt: HostRuntime) -> Result<(), Fail> {
    let alloc = rt.alloc();
    let grown = signing(alloc, &[])?;
    let anew = signing(alloc, &[])?;
    holds!(rt; grow(alloc, &grown, 0, 6) > 0);
    same!(rt; grow(alloc, &grown, 0, 6), 0);
    for (tag, first, second) in KINDS.iter().copied() {
        let said = text(tag, first, second);
        let (one, other) = (sign(alloc, &grown, &said)?, sign(alloc, &anew, &said)?);
        holds!(rt; one.signature() == other.signature());
        let _ = grow(alloc, &grown, 1, 7);
    }
    same!(rt; grow(alloc, &keys_of(alloc, 1, &[])?, 0, 6), 0);
    Ok(())
}

#[test]
fn a_commit_has_keyed_hashes(rt: HostRuntime) -> Result<(), Fail> {
    let alloc = rt.alloc();
    let known = public_keys(alloc)?;
    let mine = signing(alloc, &known)?;
    let receivers = receivers(alloc, &known)?;
    let commit = text(4, 1, 7);
    let auth = sign(alloc, &mine, &commit)?;
    same!(rt; auth.entries().len(), 4);
    holds!(rt; passes_at_all(&receivers, SENDER, &commit, &auth));
    Ok(())
}

#[test]
fn a_prepare_passes_by_keyed_hashes_only_of_those_with_no_public_key(
    rt: HostRuntime,
) -> Result<(), Fail> {
    let alloc = rt.alloc();
    let known = public_keys(alloc)?;
    let prepare = text(3, 1, 7);
    let auth = sign(alloc, &keys_of(alloc, u32::from(SENDER), &known)?, &prepare)?;
    same!(rt; auth.entries().len(), 4);
    holds!(rt; passes_at_all(&receivers(alloc, &[])?, SENDER, &prepare, &auth));
    holds!(rt; !passes_somewhere(&receivers(alloc, &known)?, SENDER, &prepare, &auth));
    Ok(())
}

// the same signature but for the byte at a place
fn changed(alloc: Global, auth: &Authenticator, place: usize) -> Result<Authenticator, Fail> {
    let mut bytes = Vec::from_slice(alloc, auth.signature().ok_or("no signature")?)?;
    let byte = bytes.get_mut(place).ok_or("too few bytes")?;
    *byte ^= 1;
    if bytes.len() > MOST_SIGNATURE_BYTES {
        return Err(Fail::from("too many bytes"));
    }
    Ok(Authenticator::of_signature(alloc, &bytes)?)
}

// of the upper level, of the public key that it signs, and of the last level
static PLACES: [usize; 3] = [1_000, 2_400, 4_000];

// by trees that come again
static IN_TURN: [(u8, u8, u8); 6] = [
    (3, 1, 7),
    (5, 10, 0),
    (3, 1, 8),
    (5, 20, 0),
    (3, 2, 1),
    (3, 1, 9),
];

#[test]
fn votes_and_checkpoints_in_turn(rt: HostRuntime) -> Result<(), Fail> {
    let alloc = rt.alloc();
    let known = public_keys(alloc)?;
    let mine = signing(alloc, &known)?;
    let receivers = [keys_of(alloc, 0, &known)?];
    for (tag, first, second) in IN_TURN.iter().copied() {
        let said = text(tag, first, second);
        let auth = sign(alloc, &mine, &said)?;
        for place in PLACES.iter().copied() {
            let changed = changed(alloc, &auth, place)?;
            holds!(rt; !passes_somewhere(&receivers, SENDER, &said, &changed));
            holds!(rt; passes_at_all(&receivers, SENDER, &said, &auth));
        }
        holds!(rt; !passes_somewhere(&receivers, 1, &said, &auth));
        let other = text(tag, first, second.wrapping_add(1));
        holds!(rt; !passes_somewhere(&receivers, SENDER, &other, &auth));
    }
    Ok(())
}

// the last places of the key, and those behind them
static LAST: [(u8, u8, u8); 3] = [(3, 30, 29), (5, 31, 0), (6, 30, 0)];

static SPENT: [(u8, u8, u8); 4] = [(3, 30, 30), (5, 32, 0), (6, 31, 0), (3, 31, 0)];

#[test]
fn a_key_is_spent_behind_its_last_places(rt: HostRuntime) -> Result<(), Fail> {
    let alloc = rt.alloc();
    let known = public_keys(alloc)?;
    let mine = signing(alloc, &known)?;
    let receivers = receivers(alloc, &known)?;
    for (tag, first, second) in LAST.iter().copied() {
        let said = text(tag, first, second);
        let auth = sign(alloc, &mine, &said)?;
        holds!(rt; passes_at_all(&receivers, SENDER, &said, &auth));
    }
    for (tag, first, second) in SPENT.iter().copied() {
        let said = text(tag, first, second);
        let auth = sign(alloc, &mine, &said)?;
        holds!(rt; auth.signature().is_none());
        same!(rt; auth.entries().len(), 0);
        holds!(rt; !passes_somewhere(&receivers, SENDER, &said, &auth));
    }
    Ok(())
}

#[test]
fn places_are_read(rt: HostRuntime) -> Result<(), Fail> {
    let vote = Place::Vote { view: 1, number: 7 };
    same!(rt; place_in(&text(2, 1, 7)), Some(vote));
    same!(rt; place_in(&text(3, 1, 7)), Some(vote));
    same!(rt; place_in(&text(5, 9, 0)), Some(Place::Checkpoint { number: 9 }));
    same!(rt; place_in(&text(6, 9, 0)), Some(Place::ViewChange { view: 9 }));
    same!(rt; place_in(&text(7, 9, 0)), Some(Place::NewView { view: 9 }));
    for tag in [0, 1, 4, 8] {
        same!(rt; place_in(&text(tag, 1, 7)), None);
    }
    same!(rt; place_in(&text(3, 1, 7)[..23]), None);
    same!(rt; place_in(&text(6, 1, 7)[..15]), None);
    what_a_key_signs_passes();
    signed_alone_as_among_many();
    an_index_is_of_one_place();
    Ok(())
}
