//! Blocks of requests, where all replicas are heard.
use crate::run::{
    common_digest, four_nodes, four_replicas, large_request, null_request, replies, run_block,
    standings, two_clients,
};
use bfs_clients::Clients;
use bfs_messages::{Message, Signed};
use bfs_testing::{holds, same};
use std::alloc::Global;
use std::test::Fail;

#[test]
fn each_replica_answers_and_all_stand_alike(rt: HostRuntime) -> Result<(), Fail> {
    let alloc = rt.alloc();
    let mut cluster = four_replicas(alloc)?;
    let request = null_request(alloc, &two_clients(alloc)?, 1, 7)?;
    let before = common_digest(&standings(&rt, &cluster)?);
    run_block(&rt, &mut cluster, 1, &[request])?;
    same!(rt; replies(&mut cluster), 4);
    same!(rt; replies(&mut cluster), 0);
    let all = standings(&rt, &cluster)?;
    same!(rt; all.len(), 4);
    let after = common_digest(&all);
    // the clients' last replies are part of it
    holds!(rt; before.is_some() && after.is_some() && before != after);
    Ok(())
}

#[test]
fn replicas_that_were_made_apart_are_those_of_the_settings(rt: HostRuntime) -> Result<(), Fail> {
    let alloc = rt.alloc();
    let clients = two_clients(alloc)?;
    let (mut apart, mut cluster) = (four_nodes(alloc)?, four_replicas(alloc)?);
    run_block(&rt, &mut apart, 1, &[null_request(alloc, &clients, 1, 7)?])?;
    run_block(
        &rt,
        &mut cluster,
        1,
        &[null_request(alloc, &clients, 1, 7)?],
    )?;
    same!(rt; replies(&mut apart), 4);
    let given = common_digest(&standings(&rt, &apart)?);
    let wanted = common_digest(&standings(&rt, &cluster)?);
    holds!(rt; given.is_some() && given == wanted);
    Ok(())
}

#[test]
fn a_repeated_request_is_answered_and_not_executed(rt: HostRuntime) -> Result<(), Fail> {
    let alloc = rt.alloc();
    let clients = two_clients(alloc)?;
    let mut repeated = four_replicas(alloc)?;
    run_block(
        &rt,
        &mut repeated,
        1,
        &[null_request(alloc, &clients, 0, 7)?],
    )?;
    run_block(
        &rt,
        &mut repeated,
        2,
        &[null_request(alloc, &clients, 0, 7)?],
    )?;
    same!(rt; replies(&mut repeated), 8);
    let mut empty = four_replicas(alloc)?;
    run_block(&rt, &mut empty, 1, &[null_request(alloc, &clients, 0, 7)?])?;
    run_block(&rt, &mut empty, 2, &[])?;
    same!(rt; replies(&mut empty), 4);
    let given = common_digest(&standings(&rt, &repeated)?);
    let wanted = common_digest(&standings(&rt, &empty)?);
    holds!(rt; given.is_some() && given == wanted);
    Ok(())
}

// Eight of them, by two clients in turn.
fn large_requests(alloc: Global, clients: &Clients) -> Result<Vec<Signed<Message>>, Fail> {
    let mut requests = Vec::new(alloc);
    for timestamp in 1u32..9 {
        requests.push(large_request(alloc, clients, timestamp % 2, timestamp)?)?;
    }
    Ok(requests)
}

// The last one comes with the keyed hashes of the one before, which does not come.
fn forge_last(requests: &mut Vec<Signed<Message>>) -> Result<(), Fail> {
    let last = requests.pop().ok_or("a request")?;
    let before = requests.pop().ok_or("a request")?;
    requests.push(Signed {
        message: last.message,
        auth: before.auth,
    })?;
    Ok(())
}

#[test]
fn what_is_hashed_while_requests_are_checked_is_what_is_proposed(
    rt: HostRuntime,
) -> Result<(), Fail> {
    let alloc = rt.alloc();
    let mut cluster = four_replicas(alloc)?;
    let requests = large_requests(alloc, &two_clients(alloc)?)?;
    run_block(&rt, &mut cluster, 1, &requests)?;
    same!(rt; replies(&mut cluster), 32);
    holds!(rt; common_digest(&standings(&rt, &cluster)?).is_some());
    Ok(())
}

#[test]
fn a_forged_request_is_not_proposed_with_the_others(rt: HostRuntime) -> Result<(), Fail> {
    let alloc = rt.alloc();
    let mut cluster = four_replicas(alloc)?;
    let mut requests = large_requests(alloc, &two_clients(alloc)?)?;
    forge_last(&mut requests)?;
    run_block(&rt, &mut cluster, 1, &requests)?;
    same!(rt; replies(&mut cluster), 24);
    holds!(rt; common_digest(&standings(&rt, &cluster)?).is_some());
    Ok(())
}
