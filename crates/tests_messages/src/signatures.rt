//! Who takes a signed request: all who know its client's public key, alike.
use bfs_auth::{Authenticator, Checker, Keys, MOST_SIGNATURE_BYTES, Principal, check, sign};
use bfs_signatures::{leaf_hash, sign_all};
use bfs_testing::{holds, same};
use bfs_types::{Memory, TryClone};
use lms::{HssPublicKey, LmsType, OtsType, PrivateKey, Signer, TreeTypes};
use std::alloc::{AllocError, Global};
use std::test::Fail;

const REQUEST: &[u8] = b"a request";

static TEXTS: [&[u8]; 5] = [b"one", b"two", b"three", b"four", b"five"];

// with these bytes for all its secrets
fn key(byte: u8) -> PrivateKey {
    PrivateKey {
        lms: LmsType::H5,
        ots: OtsType::W4,
        id: [byte; 16],
        seed: [byte; 32],
    }
}

// of one level
fn signer(alloc: Global, byte: u8) -> Result<Signer, AllocError> {
    Signer::new(alloc, key(byte), &[])
}

fn authenticator(alloc: Global, bytes: &[u8]) -> Result<Authenticator, Fail> {
    if bytes.len() > MOST_SIGNATURE_BYTES {
        return Err("a signature that is too long".into());
    }
    Ok(Authenticator::of_signature(alloc, bytes)?)
}

// the request, signed alone by the first index
fn signed(alloc: Global, signer: &mut Signer) -> Result<Authenticator, Fail> {
    let signatures = sign_all(alloc, signer, 0, &[leaf_hash(REQUEST)])
        .ok()
        .ok_or("no signature")?;
    authenticator(alloc, signatures.first().ok_or("no signature")?.as_slice())
}

// the texts, signed at once by an index
fn signed_at_once(
    alloc: Global,
    signer: &mut Signer,
    index: u64,
) -> Result<Vec<Authenticator>, Fail> {
    let leaves = [
        leaf_hash(TEXTS[0]),
        leaf_hash(TEXTS[1]),
        leaf_hash(TEXTS[2]),
        leaf_hash(TEXTS[3]),
        leaf_hash(TEXTS[4]),
    ];
    let signatures = sign_all(alloc, signer, index, &leaves)
        .ok()
        .ok_or("no signatures")?;
    let mut all = Vec::new(alloc);
    for bytes in &signatures {
        all.push(authenticator(alloc, bytes.as_slice())?)?;
    }
    Ok(all)
}

// the same bytes but for the one so far from the end
fn changed(alloc: Global, auth: &Authenticator, from_end: usize) -> Result<Authenticator, Fail> {
    let mut bytes = Vec::from_slice(alloc, auth.signature().ok_or("no signature")?)?;
    let place = bytes.len().checked_sub(from_end).ok_or("too few bytes")?;
    let byte = bytes.get_mut(place).ok_or("too few bytes")?;
    *byte ^= 1;
    authenticator(alloc, bytes.as_slice())
}

// what a checker answers of texts one behind another, each with a signature of that number
fn answers(
    alloc: Global,
    keys: &Keys,
    auths: &[Authenticator],
    asked: &[(usize, usize)],
) -> Result<Vec<bool>, Fail> {
    let mut checker = Checker::new();
    let mut answers = Vec::new(alloc);
    for (text, auth) in asked {
        let text = TEXTS.get(*text).ok_or("no text")?;
        let auth = auths.get(*auth).ok_or("no signature")?;
        answers.push(checker.check_text(keys, Principal::Client(0), text, auth))?;
    }
    Ok(answers)
}

// of one of 4 replicas with 3 clients, who knows these public keys
fn keys_of_replica(alloc: Global, number: u32, known: &[HssPublicKey]) -> Result<Keys, Memory> {
    let keys = Keys::derive(alloc, &[0; 32], Principal::Replica(number), 4, 3)?;
    Ok(keys.with_signers(known.to_vec(alloc)?))
}

// whether it is the first client's request alone, of those whose public keys are known
fn is_of_the_first(keys: &Keys, auth: &Authenticator) -> bool {
    check(keys, Principal::Client(0), REQUEST, auth)
        && !check(keys, Principal::Client(0), b"another", auth)
        && !check(keys, Principal::Client(1), REQUEST, auth)
        && !check(keys, Principal::Client(2), REQUEST, auth)
        && !check(keys, Principal::Replica(0), REQUEST, auth)
}

#[test]
fn a_signature_passes_at_each_replica(rt: HostRuntime) -> Result<(), Fail> {
    let alloc = rt.alloc();
    let mut first = signer(alloc, 1)?;
    let known = [first.public_key(), signer(alloc, 2)?.public_key()];
    let auth = signed(alloc, &mut first)?;
    same!(rt; auth.entries().len(), 0);
    holds!(rt; auth.entry_for(Principal::Replica(0)).is_none());
    same!(rt; auth.signature().map(|bytes| bytes.len()), Some(2_360));
    let copy = auth.try_clone(alloc)?;
    for number in 0..4 {
        let keys = keys_of_replica(alloc, number, &known)?;
        holds!(rt; is_of_the_first(&keys, &auth));
        holds!(rt; is_of_the_first(&keys, &copy));
        holds!(rt; !is_of_the_first(&keys_of_replica(alloc, number, &[])?, &auth));
    }
    Ok(())
}

#[test]
fn a_client_whose_public_key_is_known_signs_with_no_keyed_hashes(
    rt: HostRuntime,
) -> Result<(), Fail> {
    let alloc = rt.alloc();
    let known = [signer(alloc, 1)?.public_key()];
    let client = Keys::derive(alloc, &[0; 32], Principal::Client(0), 4, 3)?;
    let auth = sign(alloc, &client, REQUEST)?;
    holds!(rt; auth.signature().is_none());
    let client = Principal::Client(0);
    holds!(rt; check(&keys_of_replica(alloc, 1, &[])?, client, REQUEST, &auth));
    holds!(rt; !check(&keys_of_replica(alloc, 1, &known)?, client, REQUEST, &auth));
    Ok(())
}

#[test]
fn each_text_of_a_root_is_told_from_a_changed_one(rt: HostRuntime) -> Result<(), Fail> {
    let alloc = rt.alloc();
    let mut first = signer(alloc, 1)?;
    let keys = keys_of_replica(alloc, 0, &[first.public_key()])?;
    let mut auths = signed_at_once(alloc, &mut first, 0)?;
    let last_byte = changed(alloc, auths.first().ok_or("no signature")?, 1)?;
    auths.push(last_byte)?;
    let asked = [(0, 0), (1, 1), (2, 3), (3, 3), (4, 4), (0, 5), (0, 0)];
    let wanted = [true, true, false, true, true, false, true];
    same!(rt; answers(alloc, &keys, &auths, &asked)?.as_slice(), wanted.as_slice());
    let asked = [(0, 5), (0, 5), (4, 4), (3, 3), (2, 3), (1, 1), (0, 0)];
    let wanted = [false, false, true, true, false, true, true];
    same!(rt; answers(alloc, &keys, &auths, &asked)?.as_slice(), wanted.as_slice());
    Ok(())
}

#[test]
fn two_roots_in_turn(rt: HostRuntime) -> Result<(), Fail> {
    let alloc = rt.alloc();
    let mut first = signer(alloc, 1)?;
    let keys = keys_of_replica(alloc, 0, &[first.public_key()])?;
    let mut auths = signed_at_once(alloc, &mut first, 0)?;
    for auth in signed_at_once(alloc, &mut signer(alloc, 1)?, 1)? {
        auths.push(auth)?;
    }
    let asked = [(0, 0), (1, 6), (2, 2), (3, 8), (4, 8), (4, 9), (3, 4)];
    let wanted = [true, true, true, true, false, true, false];
    same!(rt; answers(alloc, &keys, &auths, &asked)?.as_slice(), wanted.as_slice());
    Ok(())
}

// by the first tree of the second level, by the next one, and by the first again
static INDEXES: [u64; 4] = [0, 1, 32, 2];

#[test]
fn roots_of_two_trees_in_turn(rt: HostRuntime) -> Result<(), Fail> {
    let alloc = rt.alloc();
    let below = [TreeTypes {
        lms: LmsType::H5,
        ots: OtsType::W2,
    }];
    let mut first = Signer::new(alloc, key(1), &below)?;
    let keys = keys_of_replica(alloc, 0, &[first.public_key()])?;
    let asked = [(0, 0), (1, 5), (1, 1), (2, 2), (4, 4)];
    let wanted = [true, false, true, true, true];
    for index in INDEXES.iter().copied() {
        let mut auths = signed_at_once(alloc, &mut first, index)?;
        let upper = changed(alloc, auths.get(1).ok_or("no signature")?, 6_000)?;
        auths.push(upper)?;
        same!(rt; answers(alloc, &keys, &auths, &asked)?.as_slice(), wanted.as_slice());
        same!(rt; answers(alloc, &keys, &auths, &[(1, 5), (1, 1)])?.as_slice(), [false, true].as_slice());
    }
    Ok(())
}

#[test]
fn another_public_key_of_the_same_root(rt: HostRuntime) -> Result<(), Fail> {
    let alloc = rt.alloc();
    let mut first = signer(alloc, 1)?;
    let known = [first.public_key(), signer(alloc, 2)?.public_key()];
    let keys = keys_of_replica(alloc, 0, &known)?;
    let auths = signed_at_once(alloc, &mut first, 0)?;
    let mut checker = Checker::new();
    let auth = auths.first().ok_or("no signature")?;
    let text = &TEXTS[0];
    holds!(rt; checker.check_text(&keys, Principal::Client(0), text, auth));
    holds!(rt; !checker.check_text(&keys, Principal::Client(1), text, auth));
    holds!(rt; checker.check_text(&keys, Principal::Client(0), text, auth));
    holds!(rt; !checker.check_text(&keys, Principal::Client(2), text, auth));
    Ok(())
}
