//! A relay that signs what it tells replicas: by which index, and what passes.
use crate::run::{FIRST, call_frame, frame_of, keys_of};
use crate::stores::Store;
use bfs_auth::Principal;
use bfs_codec::decode;
use bfs_filter::{Machine, TurnError};
use bfs_frames::{Frame, Kind, Parcel, To, Turn};
use bfs_messages::Message;
use bfs_relaying::Reserving;
use bfs_signatures::{leaf_hash, verify_leaf};
use bfs_signing::{AHEAD, Signing};
use bfs_testing::asserts::compared;
use bfs_testing::words::ROOT_REQUEST;
use bfs_testing::{holds, same};
use bfs_types::Time;
use lms::{LmsType, OtsType, PrivateKey, Signer, TreeTypes};
use std::alloc::Global;
use std::process::Abort;
use std::sync::Wait;
use std::test::Fail;
use std::thread::Threads;

const TYPES: TreeTypes = TreeTypes {
    lms: LmsType::H5,
    ots: OtsType::W4,
};

const KEY: PrivateKey = PrivateKey {
    lms: LmsType::H5,
    ots: OtsType::W4,
    id: [3; 16],
    seed: [5; 32],
};

// the bytes of one level of a signature: that of a tree of height 5, and the public key of the next one
const LEVEL: usize = 2_348 + 56;

type TestRelay = Signing<Store, Store>;

// three levels have 32,768 indexes, one has 32
static THREE: [TreeTypes; 2] = [TYPES, TYPES];

static ONE: [TreeTypes; 0] = [];

// a relay of some clients, and its public key
fn relay_with(
    alloc: Global,
    clients: u32,
    below: &[TreeTypes],
    indexes: Store,
) -> Result<(TestRelay, Vec<u8>), Fail> {
    if below.len() > 2 {
        return Err("too many levels".into());
    }
    let mut keys = Vec::new(alloc);
    for client in 0..clients.min(16) {
        keys.push(keys_of(alloc, Principal::Client(client))?)?;
    }
    let relay = Reserving::of_keys(alloc, 1, keys, Store::at(FIRST))?;
    let signer = Signer::new(alloc, KEY, below)?;
    let public_key = Vec::from_slice(alloc, &signer.public_key().to_bytes())?;
    Ok((Signing::new(alloc, relay, signer, indexes), public_key))
}

// so many calls under the tickets from 0 on
fn calls(alloc: Global, count: u64) -> Result<Vec<Frame>, Fail> {
    let message = hex::decode(alloc, ROOT_REQUEST)?;
    let mut frames = Vec::new(alloc);
    for ticket in 0..count {
        frames.push(call_frame(alloc, ticket, message.as_slice())?)?;
    }
    Ok(frames)
}

fn words_of(alloc: Global, error: TurnError) -> Result<Fail, Fail> {
    Ok(format!(in alloc; "{error}")?.into())
}

fn turn<R: Threads + Wait + Sync>(
    rt: &R,
    alloc: Global,
    relay: &mut TestRelay,
    seconds: u32,
    frames: Vec<Frame>,
) -> Result<Vec<Parcel>, Fail> {
    let time = Time::new(seconds, 0).ok_or("a time")?;
    match relay.turn(rt, Turn { time, frames }) {
        Ok(parcels) => Ok(parcels),
        Err(error) => Err(words_of(alloc, error)?),
    }
}

fn word_at(bytes: &[u8], place: usize) -> Option<u64> {
    let [a, b, c, d] = bytes.get(place..place.checked_add(4)?)? else {
        return None;
    };
    Some(u64::from(u32::from_be_bytes([*a, *b, *c, *d])))
}

// the index that signed, of a key of three levels: it is made of the leaves of its three trees
fn index_in(signature: &[u8]) -> Option<u64> {
    let height = word_at(signature, 4)? as usize;
    let first = 12 + 32 * height.min(12);
    let leaves = (
        word_at(signature, first)?,
        word_at(signature, first + LEVEL)?,
        word_at(signature, first + 2 * LEVEL)?,
    );
    Some(
        leaves
            .0
            .wrapping_mul(1_024)
            .wrapping_add(leaves.1.wrapping_mul(32))
            .wrapping_add(leaves.2),
    )
}

// a request's signature
fn signature_in(alloc: Global, parcel: &Parcel) -> Result<Vec<u8>, Fail> {
    let signed = decode(alloc, parcel.frame.payload.as_slice())?;
    let Message::Request(_) = &signed.message else {
        return Err("no request".into());
    };
    let signature = signed.auth.signature().ok_or("no signature")?;
    Ok(Vec::from_slice(alloc, signature)?)
}

// whether the signature is that of what stands before it, behind the mark of signatures and its length
fn passes(public_key: &[u8], payload: &[u8], signature: &[u8]) -> Option<bool> {
    let end = payload.len().checked_sub(signature.len())?.checked_sub(8)?;
    let text = payload.get(..end)?;
    Some(verify_leaf(public_key, &leaf_hash(text), signature))
}

// the index that signed a request, if it passes
fn index_of(alloc: Global, public_key: &[u8], parcel: &Parcel) -> Result<Option<u64>, Fail> {
    let signature = signature_in(alloc, parcel)?;
    let payload = parcel.frame.payload.as_slice();
    if passes(public_key, payload, &signature).ok_or("no text")? {
        Ok(index_in(&signature))
    } else {
        Ok(None)
    }
}

fn goes_to_replicas(parcel: &Parcel) -> bool {
    matches!(&parcel.to, To::Replicas | To::Replica(_))
}

// how many requests there are, and whether all are signed by that index
fn signed_by(
    alloc: Global,
    public_key: &[u8],
    parcels: &[Parcel],
    index: u64,
) -> Result<Option<u64>, Fail> {
    let mut count: u64 = 0;
    for parcel in parcels {
        if goes_to_replicas(parcel) {
            if index_of(alloc, public_key, parcel)? != Some(index) {
                return Ok(None);
            }
            count = count.wrapping_add(1);
        }
    }
    Ok(Some(count))
}

// how many requests leave in a turn of so many calls, all signed by that index
fn leave<R: Threads + Wait + Sync>(
    rt: &R,
    alloc: Global,
    relay: &mut (TestRelay, Vec<u8>),
    seconds: u32,
    calls_of: u64,
    index: u64,
) -> Result<Option<u64>, Fail> {
    let frames = calls(alloc, calls_of)?;
    let parcels = turn(rt, alloc, &mut relay.0, seconds, frames)?;
    signed_by(alloc, &relay.1, &parcels, index)
}

fn signs<R: Threads + Wait + Sync + Abort>(rt: &R, alloc: Global) -> Result<(), Fail> {
    let mut relay = relay_with(alloc, 6, &THREE, Store::at(0))?;
    same!(rt; leave(rt, alloc, &mut relay, 1, 1, 0)?, Some(1));
    same!(rt; relay.0.reserved(), AHEAD);
    same!(rt; leave(rt, alloc, &mut relay, 1, 5, 1)?, Some(5));
    // no client is free, so nothing is asked, and no index is used
    same!(rt; leave(rt, alloc, &mut relay, 1, 1, 2)?, Some(0));
    same!(rt; relay.0.next(), 2);
    // all that was asked is asked again, by another index
    same!(rt; leave(rt, alloc, &mut relay, 2, 0, 2)?, Some(6));
    same!(rt; relay.0.next(), 3);
    Ok(())
}

#[test]
fn requests_of_a_turn_are_signed_by_one_index(rt: HostRuntime) -> Result<(), Fail> {
    signs(&rt, rt.alloc())
}

// how often it rests until nothing is due
fn rest(relay: &TestRelay) -> u32 {
    for count in 0u32..1_000 {
        if !relay.rest() {
            return count;
        }
    }
    1_000
}

fn rests<R: Threads + Wait + Sync + Abort>(rt: &R, alloc: Global) -> Result<(), Fail> {
    let mut relay = relay_with(alloc, 2, &THREE, Store::at(0))?;
    // two trees of 32 leaves that sign first, and the one that signs next
    same!(rt; rest(&relay.0), 3 * 33);
    same!(rt; leave(rt, alloc, &mut relay, 1, 1, 0)?, Some(1));
    same!(rt; rest(&relay.0), 0);
    same!(rt; leave(rt, alloc, &mut relay, 1, 1, 1)?, Some(1));
    Ok(())
}

#[test]
fn trees_grow_while_a_relay_rests(rt: HostRuntime) -> Result<(), Fail> {
    rests(&rt, rt.alloc())
}

// the relay's next life
fn begins_above<R: Threads + Wait + Sync + Abort>(rt: &R, alloc: Global) -> Result<(), Fail> {
    let mut relay = relay_with(alloc, 2, &THREE, Store::at(0))?;
    same!(rt; leave(rt, alloc, &mut relay, 1, 1, 0)?, Some(1));
    let reserved = relay.0.reserved();
    let mut relay = relay_with(alloc, 2, &THREE, Store::at(reserved))?;
    same!(rt; leave(rt, alloc, &mut relay, 1, 2, AHEAD)?, Some(2));
    same!(rt; relay.0.reserved(), 2 * AHEAD);
    Ok(())
}

#[test]
fn a_next_life_signs_above_what_is_reserved(rt: HostRuntime) -> Result<(), Fail> {
    begins_above(&rt, rt.alloc())
}

// the words of a turn's error, or nothing
fn error_of<R: Threads + Wait + Sync>(
    rt: &R,
    alloc: Global,
    relay: &mut TestRelay,
    seconds: u32,
    calls_of: u64,
) -> Result<String, Fail> {
    let frames = calls(alloc, calls_of)?;
    let time = Time::new(seconds, 0).ok_or("a time")?;
    match relay.turn(rt, Turn { time, frames }) {
        Ok(_) => Ok(String::new(alloc)),
        Err(error) => Ok(format!(in alloc; "{error}")?),
    }
}

fn is_stopped<R: Threads + Wait + Sync + Abort>(rt: &R, alloc: Global) -> Result<(), Fail> {
    let full = Store {
        number: 7,
        full: true,
    };
    let mut relay = relay_with(alloc, 1, &THREE, full)?;
    compared(error_of(rt, alloc, &mut relay.0, 1, 0)?.as_str(), "")?;
    compared(
        error_of(rt, alloc, &mut relay.0, 1, 1)?.as_str(),
        "what is to be kept cannot be written: no storage space",
    )?;
    same!(rt; relay.0.reserved(), 7);
    Ok(())
}

#[test]
fn nothing_leaves_where_no_index_can_be_reserved(rt: HostRuntime) -> Result<(), Fail> {
    is_stopped(&rt, rt.alloc())
}

// how often the operator is told something
fn count_warnings(parcels: &[Parcel]) -> u64 {
    let line = b"at most a sixteenth of the signing key's indexes is left".as_slice();
    let mut count: u64 = 0;
    for parcel in parcels {
        let told = parcel.to == To::Operator && parcel.frame.kind == Kind::Log;
        if told && parcel.frame.payload.as_slice() == line {
            count = count.wrapping_add(1);
        }
    }
    count
}

fn is_spent<R: Threads + Wait + Sync + Abort>(rt: &R, alloc: Global) -> Result<(), Fail> {
    let mut relay = relay_with(alloc, 1, &ONE, Store::at(0))?;
    let mut warnings: u64 = 0;
    // it asks once, and again every eight seconds
    for number in 0u32..32 {
        let frames = calls(alloc, u64::from(number == 0))?;
        let parcels = turn(rt, alloc, &mut relay.0, 10 + 8 * number, frames)?;
        holds!(rt; parcels.iter().any(goes_to_replicas));
        warnings = warnings.wrapping_add(count_warnings(&parcels));
        same!(rt; warnings, u64::from(number >= 29));
    }
    let wanted = "the signing key is spent";
    compared(
        error_of(rt, alloc, &mut relay.0, 1_000, 0)?.as_str(),
        wanted,
    )?;
    Ok(())
}

#[test]
fn a_spent_key_signs_nothing(rt: HostRuntime) -> Result<(), Fail> {
    is_spent(&rt, rt.alloc())
}

// what is no request goes on as it is
fn tells_others<R: Threads + Wait + Sync + Abort>(rt: &R, alloc: Global) -> Result<(), Fail> {
    let mut relay = relay_with(alloc, 1, &THREE, Store::at(0))?;
    let mut frames = Vec::new(alloc);
    // NULL under the ticket 5
    let null =
        "0000000000000005000000130000000000000002000186a3000000020000000000000000000000000000000000000000";
    frames.push(frame_of(alloc, Kind::Call, hex::decode(alloc, null)?.as_slice())?)?;
    let parcels = turn(rt, alloc, &mut relay.0, 1, frames)?;
    same!(rt; parcels.len(), 1);
    holds!(rt; parcels.iter().all(|parcel| parcel.to == To::Caller(5)));
    same!(rt; relay.0.next(), 0);
    same!(rt; relay.0.reserved(), 0);
    Ok(())
}

#[test]
fn answers_leave_unsigned_and_use_no_index(rt: HostRuntime) -> Result<(), Fail> {
    tells_others(&rt, rt.alloc())
}
