//! Who can tell from whom a message comes. The hashes were made by Python's hmac, under a secret of 32 zeros.
ghost use Rattle.std.specs.Prelude.{◌<◌};

use bfs_auth::{
    Authenticator, Claimed, KeyedHashes, Keys, MOST_REPLICAS, Principal, check, check_all, sign,
    sign_for_client,
};
use bfs_testing::words::spells;
use bfs_testing::{holds, same};
use bfs_types::{Memory, TryClone};
use std::alloc::Global;
use std::test::Fail;
use std::thread::Threads;

const TEXT: &[u8] = b"a text of replica 0";

// of 4 replicas and 16 clients
fn keys_of_replica(alloc: Global, number: u32) -> Result<Keys, Memory> {
    Keys::derive(alloc, &[0; 32], Principal::Replica(number), 4, 16)
}

fn keys_of_client(alloc: Global, number: u32) -> Result<Keys, Memory>
    requires { number < 16 }
{
    Keys::derive(alloc, &[0; 32], Principal::Client(number), 4, 16)
}

fn claim(alloc: Global, auth: Authenticator) -> Result<Claimed, Memory> {
    Ok(Claimed {
        sender: Principal::Replica(0),
        text: TEXT.to_vec(alloc)?,
        auth,
    })
}

// with the first byte of each entry changed by a byte
fn changed(alloc: Global, auth: &Authenticator, by: &[u8]) -> Result<Authenticator, Memory> {
    let mut changed = KeyedHashes::new(alloc);
    for (entry, change) in auth.entries().iter().zip(by) {
        let mut entry = *entry;
        entry[0] ^= *change;
        if changed.as_slice().len() < MOST_REPLICAS {
            changed.push(entry)?;
        }
    }
    Ok(Authenticator::Hashes(changed))
}

// the text of replica 0, three times, the second time with its entries changed by these bytes
fn three_claims(alloc: Global, by: &[u8]) -> Result<Vec<Claimed>, Memory> {
    let auth = sign(alloc, &keys_of_replica(alloc, 0)?, TEXT)?;
    let mut claims = Vec::new(alloc);
    claims.push(claim(alloc, auth.try_clone(alloc)?)?)?;
    claims.push(claim(alloc, changed(alloc, &auth, by)?)?)?;
    claims.push(claim(alloc, auth)?)?;
    Ok(claims)
}

// what replica 0 signs for each replica
static ENTRIES: [&str; 4] = [
    "028ccb80c2c0e0f6935c67c2df81cb24c1e24dc2077b27ef8fa96404a08bcd6a",
    "a5e731eb8f58884c18278f08648c45f1472213e461904ac10d3c4467e6428e7d",
    "65b50c02fb5f75a6aec658b896c77d52108125bfa2b2fdb751cca80e7b22d42f",
    "8e01b3ea2b3d353ddb818f3131efa1e37b5c630030ee60fe4270749e58df1f7c",
];

fn signed_by_first(alloc: Global) -> Result<Authenticator, Memory> {
    sign(alloc, &keys_of_replica(alloc, 0)?, TEXT)
}

#[test]
fn a_text_is_signed_for_each_replica(rt: HostRuntime) -> Result<(), Fail> {
    let auth = signed_by_first(rt.alloc())?;
    same!(rt; auth.entries().len(), 4);
    for (entry, wanted) in auth.entries().iter().zip(&ENTRIES) {
        spells(rt.alloc(), entry, *wanted)?;
    }
    Ok(())
}

// what replica 2 says of the three claims, where the entries of the second one are changed by these bytes
fn answers_to_three(
    rt: &(impl Threads + Sync),
    alloc: Global,
    by: &[u8],
) -> Result<Vec<bool>, Memory> {
    let keys = keys_of_replica(alloc, 2)?;
    check_all(rt, alloc, &keys, three_claims(alloc, by)?.as_slice())
}

#[test]
fn a_changed_entry_fails_at_its_replica(rt: HostRuntime) -> Result<(), Fail> {
    let answers = answers_to_three(&rt, rt.alloc(), &[0, 0, 1, 0])?;
    holds!(rt; answers.as_slice() == [true, false, true].as_slice());
    Ok(())
}

#[test]
fn a_changed_entry_passes_at_the_others(rt: HostRuntime) -> Result<(), Fail> {
    let answers = answers_to_three(&rt, rt.alloc(), &[0, 0, 0, 1])?;
    holds!(rt; answers.as_slice() == [true, true, true].as_slice());
    Ok(())
}

// of each of the replicas 0 to 4 in turn, all in the name of replica 0
fn many_claims(alloc: Global) -> Result<Vec<Claimed>, Memory> {
    let mut claims = Vec::new(alloc);
    for number in 0u32..1_000 {
        let auth = sign(alloc, &keys_of_replica(alloc, number % 5)?, TEXT)?;
        claims.push(claim(alloc, auth)?)?;
    }
    Ok(claims)
}

// the place of the first answer that is wrong
fn first_wrong_answer(answers: &[bool]) -> Option<usize> {
    for (place, answer) in answers.iter().enumerate() {
        if *answer != (place % 5 == 0) {
            return Some(place);
        }
    }
    None
}

#[test]
fn many_texts_are_checked_in_their_order(rt: HostRuntime) -> Result<(), Fail> {
    let alloc = rt.alloc();
    let keys = keys_of_replica(alloc, 2)?;
    let answers = check_all(&rt, alloc, &keys, many_claims(alloc)?.as_slice())?;
    same!(rt; answers.len(), 1_000);
    same!(rt; first_wrong_answer(answers.as_slice()), None);
    Ok(())
}

/// A sender, a text, and whether replica 2 takes it for the sender's.
struct Case(Principal, &'static [u8], bool);

// the place of the first case that is wrong
fn first_wrong(keys: &Keys, auth: &Authenticator, cases: &[Case]) -> Option<usize> {
    for (place, case) in cases.iter().enumerate() {
        if check(keys, case.0, case.1, auth) != case.2 {
            return Some(place);
        }
    }
    None
}

static OTHERS: [Case; 4] = [
    Case(Principal::Replica(0), TEXT, true),
    Case(Principal::Replica(0), b"a text of replica 1", false),
    Case(Principal::Replica(1), TEXT, false),
    Case(Principal::Client(0), TEXT, false),
];

#[test]
fn another_text_or_sender_fails(rt: HostRuntime) -> Result<(), Fail> {
    let auth = signed_by_first(rt.alloc())?;
    let keys = keys_of_replica(rt.alloc(), 2)?;
    same!(rt; first_wrong(&keys, &auth, &OTHERS), None);
    Ok(())
}

static WITHOUT_KEYS: [Case; 3] = [
    Case(Principal::Replica(4), TEXT, false),
    Case(Principal::Client(16), TEXT, false),
    Case(Principal::Client(0xffff_ffff), TEXT, false),
];

// with so many of its entries
fn cut(alloc: Global, auth: &Authenticator, count: usize) -> Result<Authenticator, Memory> {
    let mut short = KeyedHashes::new(alloc);
    for (place, entry) in auth.entries().iter().enumerate() {
        if place < count && short.as_slice().len() < MOST_REPLICAS {
            short.push(*entry)?;
        }
    }
    Ok(Authenticator::Hashes(short))
}

// whether replica 2 takes the text for that of replica 0, which has so many entries
fn passes_cut(
    alloc: Global,
    keys: &Keys,
    auth: &Authenticator,
    count: usize,
) -> Result<bool, Memory> {
    let short = cut(alloc, auth, count)?;
    Ok(short.entries().len() == count && check(keys, Principal::Replica(0), TEXT, &short))
}

#[test]
fn a_sender_without_keys_or_an_entry_that_is_missing_fails(rt: HostRuntime) -> Result<(), Fail> {
    let alloc = rt.alloc();
    let auth = signed_by_first(alloc)?;
    let keys = keys_of_replica(alloc, 2)?;
    same!(rt; first_wrong(&keys, &auth, &WITHOUT_KEYS), None);
    same!(rt; auth.entries().len(), 4);
    same!(rt; passes_cut(alloc, &keys, &auth, 0)?, false);
    same!(rt; passes_cut(alloc, &keys, &auth, 2)?, false);
    same!(rt; passes_cut(alloc, &keys, &auth, 3)?, true);
    Ok(())
}

const REPLY: &[u8] = b"a reply";

// what replica 2 signs for client 5
fn signed_for_client(alloc: Global) -> Result<Authenticator, Memory> {
    let keys = keys_of_replica(alloc, 2)?;
    if keys.clients() != 16 {
        return Err(Memory);
    }
    sign_for_client(alloc, &keys, 5, REPLY)
}

// whether that client takes it for that replica's
fn passes_at(
    alloc: Global,
    client: u32,
    replica: u32,
    auth: &Authenticator,
) -> Result<bool, Memory> {
    if client >= 16 {
        return Err(Memory);
    }
    let keys = keys_of_client(alloc, client)?;
    Ok(check(&keys, Principal::Replica(replica), REPLY, auth))
}

#[test]
fn a_reply_is_signed_for_its_client(rt: HostRuntime) -> Result<(), Fail> {
    let alloc = rt.alloc();
    let auth = signed_for_client(alloc)?;
    same!(rt; auth.entries().len(), 1);
    spells(
        alloc,
        auth.entries().first().ok_or("an entry")?,
        "f0c9c49ad77c116559d76e412362ffba851b523f66179e1bf5ceb46b104bb128",
    )?;
    same!(rt; passes_at(alloc, 5, 2, &auth)?, true);
    same!(rt; passes_at(alloc, 6, 2, &auth)?, false);
    same!(rt; passes_at(alloc, 5, 1, &auth)?, false);
    Ok(())
}

// whether each replica takes it for client 5's, and not for client 4's
fn passes_at_each(alloc: Global, text: &[u8], auth: &Authenticator) -> Result<bool, Memory> {
    for number in 0u32..4 {
        let keys = keys_of_replica(alloc, number)?;
        if !check(&keys, Principal::Client(5), text, auth)
            || check(&keys, Principal::Client(4), text, auth)
        {
            return Ok(false);
        }
    }
    Ok(true)
}

#[test]
fn a_request_is_signed_for_each_replica(rt: HostRuntime) -> Result<(), Fail> {
    let alloc = rt.alloc();
    let keys = keys_of_client(alloc, 5)?;
    holds!(rt; keys.me() == Principal::Client(5));
    same!(rt; (keys.clients(), keys.replicas()), (0, 4));
    let auth = sign(alloc, &keys, b"a request")?;
    same!(rt; auth.entries().len(), 4);
    spells(
        alloc,
        auth.entries().last().ok_or("an entry")?,
        "b81bb9b27937ee36189ce760147daeb58cbb9325554581ac663c1eb77fd4d9c8",
    )?;
    holds!(rt; passes_at_each(alloc, b"a request", &auth)?);
    Ok(())
}

#[test]
fn principals_have_numbers(rt: HostRuntime) {
    same!(rt; Principal::Replica(30).number(), 30);
    same!(rt; Principal::Client(0).number(), 4_096);
    same!(rt; Principal::Client(1_023).number(), 5_119);
}
