//! Messages that a client passes over. Its request has the timestamp 7.
use crate::accepted::{add, has};
use crate::run::clients;
use crate::signed::{hashed_by, reply, signed_by};
use bfs_auth::{Authenticator, KeyedHashes};
use bfs_clients::Tally;
use bfs_messages::{Message, Request, Signed};
use bfs_testing::holds;
use std::alloc::Global;
use std::process::Abort;
use std::test::Fail;

// of each reply: its sender, the client to which it goes and the timestamp, and then which replica signed it, and for which client
static PASSED_OVER: &[(u32, u32, u64, u32, u32)] = &[
    // to another request
    (0, 2, 6, 0, 2),
    (0, 2, 8, 0, 2),
    // to another client
    (0, 3, 7, 0, 3),
    (0, 3, 7, 0, 2),
    // signed by another replica
    (0, 2, 7, 1, 2),
    // signed for another client
    (0, 2, 7, 0, 3),
    // of no replica
    (4, 2, 7, 0, 2),
    (4, 2, 7, 4, 2),
];

// a tally with no reply stays so
fn is_passed_over(rt: &impl Abort, alloc: Global, signed: Signed<Message>) -> Result<(), Fail> {
    let clients = clients(alloc, 16)?;
    let mut tally = Tally::new(alloc, 0, 2, 7);
    add(&mut tally, &clients, &signed)?;
    holds!(rt; has(&tally, 0, None));
    Ok(())
}

#[test]
fn a_reply_that_is_not_to_the_request_or_not_signed(rt: HostRuntime) -> Result<(), Fail> {
    let alloc = rt.alloc();
    for (sender, client, timestamp, signer, receiver) in PASSED_OVER {
        let message = reply(alloc, *sender, (*client, *timestamp), b"a result")?;
        let signed = signed_by(alloc, *signer, *receiver, message)?;
        is_passed_over(&rt, alloc, signed)?;
    }
    Ok(())
}

// the reply of replica 0 that would count, with that authenticator
fn with(alloc: Global, auth: Authenticator) -> Result<Signed<Message>, Fail> {
    let message = reply(alloc, 0, (2, 7), b"a result")?;
    Ok(Signed { message, auth })
}

// replica 0's authenticator of a reply with that result
fn hashed(alloc: Global, bytes: &[u8]) -> Result<Authenticator, Fail> {
    let message = reply(alloc, 0, (2, 7), bytes)?;
    hashed_by(alloc, 0, 2, &message)
}

// with a bit of the first entry turned
fn turned(alloc: Global, auth: &Authenticator) -> Result<Authenticator, Fail> {
    let mut entry = *auth.entries().first().ok_or("an entry")?;
    entry[31] ^= 1;
    let mut turned = KeyedHashes::new(alloc);
    turned.push(entry)?;
    Ok(Authenticator::Hashes(turned))
}

#[test]
fn a_reply_without_a_keyed_hash(rt: HostRuntime) -> Result<(), Fail> {
    let alloc = rt.alloc();
    let signed = with(alloc, Authenticator::new(alloc))?;
    is_passed_over(&rt, alloc, signed)
}

#[test]
fn a_reply_with_a_bit_of_its_keyed_hash_turned(rt: HostRuntime) -> Result<(), Fail> {
    let alloc = rt.alloc();
    let auth = hashed(alloc, b"a result")?;
    let signed = with(alloc, turned(alloc, &auth)?)?;
    is_passed_over(&rt, alloc, signed)
}

#[test]
fn a_reply_with_the_keyed_hash_of_another_result(rt: HostRuntime) -> Result<(), Fail> {
    let alloc = rt.alloc();
    let signed = with(alloc, hashed(alloc, b"another")?)?;
    is_passed_over(&rt, alloc, signed)
}

#[test]
fn a_message_of_another_kind(rt: HostRuntime) -> Result<(), Fail> {
    let alloc = rt.alloc();
    let message = Message::Request(Request::new(alloc, 2, 7, b"a call")?);
    let signed = signed_by(alloc, 0, 2, message)?;
    is_passed_over(&rt, alloc, signed)
}
