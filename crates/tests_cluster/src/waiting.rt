//! Requests that have no result yet, where one of four replicas may be faulty.
use crate::run::two_clients;
use crate::signed::signed_reply;
use bfs_clients::{Clients, Tallies, Tally};
use bfs_testing::same;
use bfs_types::Memory;
use std::alloc::Global;
use std::mem;
use std::test::Fail;

// one more request of a client with the timestamp 7, with no reply yet
fn begin(alloc: Global, waiting: &mut Tallies, client: u32) -> Result<(), Memory> {
    waiting.push(Tally::new(alloc, 1, client, 7))
}

// a replica's reply to the requests of the first client
fn count(alloc: Global, waiting: &mut Tallies, clients: &Clients, sender: u32) -> Result<(), Fail> {
    Ok(waiting.add(clients, &signed_reply(alloc, sender, (0, 7), 0, b"right")?)?)
}

fn drop_answered(alloc: Global, waiting: &mut Tallies) -> Result<(), Memory> {
    let all = mem::replace(waiting, Tallies::new(alloc));
    waiting.append_waiting(all)
}

// of each, whose request it is, and whether it has a result
fn states(alloc: Global, waiting: &Tallies) -> Result<Vec<(u32, u64, bool)>, Memory> {
    let mut states = Vec::new(alloc);
    for tally in waiting.as_slice() {
        states.push((tally.client(), tally.timestamp(), !tally.waits()))?;
    }
    Ok(states)
}

#[test]
fn each_of_two_with_one_timestamp_has_its_own_replies(rt: HostRuntime) -> Result<(), Fail> {
    let alloc = rt.alloc();
    let clients = two_clients(alloc)?;
    let mut waiting = Tallies::new(alloc);
    begin(alloc, &mut waiting, 0)?;
    begin(alloc, &mut waiting, 1)?;
    count(alloc, &mut waiting, &clients, 0)?;
    begin(alloc, &mut waiting, 0)?;
    count(alloc, &mut waiting, &clients, 1)?;
    same!(rt; states(alloc, &waiting)?.as_slice(), &[(0, 7, true), (1, 7, false), (0, 7, false)]);
    drop_answered(alloc, &mut waiting)?;
    same!(rt; states(alloc, &waiting)?.as_slice(), &[(1, 7, false), (0, 7, false)]);
    count(alloc, &mut waiting, &clients, 3)?;
    same!(rt; states(alloc, &waiting)?.as_slice(), &[(1, 7, false), (0, 7, true)]);
    drop_answered(alloc, &mut waiting)?;
    same!(rt; states(alloc, &waiting)?.as_slice(), &[(1, 7, false)]);
    Ok(())
}
