//! Requests, as their clients sign them and as the replicas see them.
use crate::run::two_clients;
use crate::signed::keys_of_replica;
use bfs_clients::Clients;
use bfs_messages::{Message, Request, Signed, is_request_signed, is_signed};
use bfs_testing::{holds, same};
use bfs_types::Memory;
use std::alloc::Global;
use std::test::Fail;
use std::thread::Threads;

// a request of a client with the timestamp 7
fn sign(alloc: Global, clients: &Clients, client: u32) -> Result<Option<Signed<Message>>, Memory> {
    clients.sign(Request::new(alloc, client, 7, b"a call")?)
}

// whether a replica finds it signed
fn passes(alloc: Global, replica: u32, signed: &Signed<Message>) -> Result<bool, Memory> {
    Ok(is_signed(&keys_of_replica(alloc, replica)?, signed))
}

// whether a replica finds it signed as a request in a batch
fn passes_in_batch(alloc: Global, replica: u32, signed: &Signed<Request>) -> Result<bool, Memory> {
    Ok(is_request_signed(&keys_of_replica(alloc, replica)?, signed))
}

// the same request as it stands in a batch
fn in_batch(signed: Signed<Message>) -> Option<Signed<Request>> {
    let Signed { message, auth } = signed;
    match message {
        Message::Request(message) => Some(Signed { message, auth }),
        _ => None,
    }
}

#[test]
fn a_client_s_request_passes_at_each_replica(rt: HostRuntime) -> Result<(), Fail> {
    let alloc = rt.alloc();
    let clients = two_clients(alloc)?;
    let signed = sign(alloc, &clients, 1)?.ok_or("a client")?;
    for replica in 0u32..4 {
        holds!(rt; passes(alloc, replica, &signed)?);
    }
    // a replica that there isn't has no entry of its own
    holds!(rt; !passes(alloc, 4, &signed)?);
    let signed = in_batch(signed).ok_or("a request")?;
    same!(rt; (signed.message.client(), signed.message.timestamp()), (1, 7));
    for replica in 0u32..4 {
        holds!(rt; passes_in_batch(alloc, replica, &signed)?);
    }
    Ok(())
}

#[test]
fn a_request_that_one_client_signed_is_not_the_other_s(rt: HostRuntime) -> Result<(), Fail> {
    let alloc = rt.alloc();
    let clients = two_clients(alloc)?;
    let signed = sign(alloc, &clients, 1)?.ok_or("a client")?;
    let Signed { auth, .. } = signed;
    let message = Message::Request(Request::new(alloc, 0, 7, b"a call")?);
    let other = Signed { message, auth };
    holds!(rt; !passes(alloc, 0, &other)?);
    Ok(())
}

// a block of requests of three clients in turn, with rising timestamps; the third client there isn't
fn sign_block<R: Threads + Sync>(
    rt: &R,
    alloc: Global,
    clients: &Clients,
) -> Result<Vec<Signed<Message>>, Memory> {
    let mut requests = Vec::new(alloc);
    for number in 0u32..40 {
        requests.push(Request::new(alloc, number % 3, number as u64, &[7; 1_000])?)?;
    }
    clients.sign_all(rt, requests.as_slice())
}

// of each request, in their order
fn timestamps(alloc: Global, block: Vec<Signed<Message>>) -> Result<Vec<u64>, Memory> {
    let mut all = Vec::new(alloc);
    for signed in block {
        if let Some(request) = in_batch(signed) {
            all.push(request.message.timestamp())?;
        }
    }
    Ok(all)
}

#[test]
fn a_block_is_signed_in_its_order(rt: HostRuntime) -> Result<(), Fail> {
    let alloc = rt.alloc();
    let block = sign_block(&rt, alloc, &two_clients(alloc)?)?;
    for signed in &block {
        holds!(rt; passes(alloc, 0, signed)? && passes(alloc, 3, signed)?);
    }
    let given = timestamps(alloc, block)?;
    same!(rt; given.len(), 27);
    for (place, timestamp) in given.iter().enumerate() {
        // 0, 1, 3, 4, 6, 7, ..
        same!(rt; *timestamp, (place + place / 2) as u64);
    }
    Ok(())
}

#[test]
fn there_are_as_many_clients_as_the_settings_say(rt: HostRuntime) -> Result<(), Fail> {
    let alloc = rt.alloc();
    let clients = two_clients(alloc)?;
    same!(rt; clients.f(), 1);
    holds!(rt; clients.keys(0).is_some() && clients.keys(1).is_some());
    holds!(rt; clients.keys(2).is_none());
    holds!(rt; sign(alloc, &clients, 2)?.is_none());
    Ok(())
}
