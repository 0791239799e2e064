//! Requests wait until a batch in which they stand is executed.
use bfs_auth::{Authenticator, KeyedHashes, Principal};
use bfs_messages::{OrderedBatch, Request, Signed};
use bfs_pending::PendingRequests;
use bfs_testing::{holds, same};
use bfs_types::{MOST_REQUESTS, Memory, Time};
use std::alloc::Global;
use std::sync::Arc;
use std::test::Fail;

// A client and a timestamp.
type Name = (u32, u64);

fn request(alloc: Global, client: u32, timestamp: u64) -> Result<Signed<Request>, Memory> {
    Ok(Signed {
        message: Request::new(alloc, client, timestamp, b"a call")?,
        auth: Authenticator::new(alloc),
    })
}

// of client 3, with one entry, of that byte
fn signed(alloc: Global, timestamp: u64, byte: u8) -> Result<Signed<Request>, Memory> {
    let mut hashes = KeyedHashes::new(alloc);
    hashes.push([byte; 32])?;
    let mut signed = request(alloc, 3, timestamp)?;
    signed.auth = Authenticator::Hashes(hashes);
    Ok(signed)
}

// behind the others, if there is room
fn put(pending: &mut PendingRequests, signed: Signed<Request>) -> Result<(), Memory> {
    if pending.is_full() {
        return Err(Memory);
    }
    pending.push(signed)
}

fn waiting(alloc: Global, names: &[Name]) -> Result<PendingRequests, Memory> {
    let mut pending = PendingRequests::new(alloc);
    for (client, timestamp) in names {
        put(&mut pending, request(alloc, *client, *timestamp)?)?;
    }
    Ok(pending)
}

fn batch(alloc: Global, names: &[Name]) -> Result<OrderedBatch, Memory> {
    let requests = waiting(alloc, names)?.to_vec(alloc)?;
    Ok(OrderedBatch::new(at(1)?, requests))
}

fn at(seconds: u32) -> Result<Time, Memory> {
    Time::new(seconds, 0).ok_or(Memory)
}

// Whether those that wait are a batch of that digest, at a time.
fn has_batch(
    alloc: Global,
    pending: &PendingRequests,
    seconds: u32,
    digest: &[u8; 32],
) -> Result<bool, Memory> {
    let (batch, hashed) = pending.batch(alloc, at(seconds)?)?.into_parts();
    Ok(hashed == *digest && batch.digest() == *digest)
}

// How many share a batch of those that wait, at a time.
fn sharers(alloc: Global, pending: &PendingRequests, seconds: u32) -> Result<usize, Memory> {
    let hashed = pending.batch(alloc, at(seconds)?)?;
    Ok(Arc::strong_count(hashed.batch()))
}

fn are(requests: &[Signed<Request>], names: &[Name]) -> bool {
    requests.len() == names.len()
        && requests.iter().zip(names).all(|(signed, name)| {
            (signed.message.client(), signed.message.timestamp()) == *name
        })
}

fn drop_batch(alloc: Global, pending: &mut PendingRequests, names: &[Name]) -> Result<(), Memory> {
    pending.drop_batch(&batch(alloc, names)?);
    Ok(())
}

#[test]
fn what_stands_in_a_batch_waits_no_longer(rt: HostRuntime) -> Result<(), Fail> {
    let alloc = rt.alloc();
    let mut pending = waiting(alloc, &[(3, 5), (4, 5), (3, 6), (5, 7)])?;
    same!(rt; pending.len(), 4);
    holds!(rt; !pending.is_full());
    drop_batch(alloc, &mut pending, &[(5, 7), (3, 5), (6, 1)])?;
    holds!(rt; are(pending.requests(), &[(4, 5), (3, 6)]));
    drop_batch(alloc, &mut pending, &[])?;
    same!(rt; pending.len(), 2);
    Ok(())
}

#[test]
fn what_waits_is_found_until_it_leaves(rt: HostRuntime) -> Result<(), Fail> {
    let alloc = rt.alloc();
    let me = Principal::Replica(0);
    let mut pending = waiting(alloc, &[])?;
    put(&mut pending, signed(alloc, 5, 1)?)?;
    put(&mut pending, signed(alloc, 6, 1)?)?;
    holds!(rt; pending.waits(me, &signed(alloc, 5, 1)?));
    holds!(rt; !pending.waits(me, &signed(alloc, 5, 2)?));
    holds!(rt; !pending.waits(me, &signed(alloc, 7, 1)?));
    // it has no entry for another one
    holds!(rt; !pending.waits(Principal::Replica(1), &signed(alloc, 5, 1)?));
    drop_batch(alloc, &mut pending, &[(3, 5)])?;
    holds!(rt; !pending.waits(me, &signed(alloc, 5, 1)?));
    holds!(rt; pending.waits(me, &signed(alloc, 6, 1)?));
    Ok(())
}

#[test]
fn a_batch_of_all_that_wait_is_kept_until_others_do(rt: HostRuntime) -> Result<(), Fail> {
    let alloc = rt.alloc();
    let mut pending = waiting(alloc, &[(3, 5), (4, 5)])?;
    let kept = pending.batch(alloc, at(1)?)?;
    let digest = batch(alloc, &[(3, 5), (4, 5)])?.digest();
    same!(rt; sharers(alloc, &pending, 1)?, 1);
    pending.keep_hashed(kept);
    same!(rt; sharers(alloc, &pending, 1)?, 2);
    holds!(rt; has_batch(alloc, &pending, 1, &digest)?);
    // another time
    same!(rt; sharers(alloc, &pending, 2)?, 1);
    holds!(rt; !has_batch(alloc, &pending, 2, &digest)?);
    // one more, and one less
    put(&mut pending, request(alloc, 3, 6)?)?;
    same!(rt; sharers(alloc, &pending, 1)?, 1);
    holds!(rt; has_batch(alloc, &pending, 1, &batch(alloc, &[(3, 5), (4, 5), (3, 6)])?.digest())?);
    drop_batch(alloc, &mut pending, &[(3, 6)])?;
    holds!(rt; has_batch(alloc, &pending, 1, &digest)?);
    Ok(())
}

#[test]
fn as_many_wait_as_a_batch_can_have(rt: HostRuntime) -> Result<(), Fail> {
    let alloc = rt.alloc();
    let mut pending = PendingRequests::new(alloc);
    for timestamp in 0..MOST_REQUESTS as u64 {
        holds!(rt; !pending.is_full());
        pending.push(request(alloc, 1, timestamp)?)?;
    }
    holds!(rt; pending.is_full());
    Ok(())
}
