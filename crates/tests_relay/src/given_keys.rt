//! A relay that was given the keys of some clients alone.
use crate::run::{FIRST, RIGHT, keys_of};
use crate::script::Step::{Calls, Next, Replies, Waiting};
use crate::script::Told::{Answer, Request};
use crate::script::{Step, plays_at};
use bfs_auth::{Keys, Principal};
use bfs_relay::Relay;
use bfs_types::Memory;
use std::alloc::Global;
use std::test::Fail;

// of the clients 5 and 2, and of a replica, which is no client
fn given(alloc: Global) -> Result<Vec<Keys>, Memory> {
    let mut keys = Vec::new(alloc);
    keys.push(keys_of(alloc, Principal::Client(5))?)?;
    keys.push(keys_of(alloc, Principal::Replica(1))?)?;
    keys.push(keys_of(alloc, Principal::Client(2))?)?;
    Ok(keys)
}

static SPEAKS_FOR_TWO: [Step; 5] = [
    Calls(1, 7, 3, &[Request(5, FIRST), Request(2, FIRST)]),
    Waiting(1),
    Replies(
        1,
        &[0, 1],
        (2, FIRST),
        RIGHT,
        &[Answer(8), Request(2, FIRST + 1)],
    ),
    Waiting(0),
    Next(FIRST + 2),
];

#[test]
fn a_relay_speaks_for_the_clients_whose_keys_it_was_given(rt: HostRuntime) -> Result<(), Fail> {
    let mut relay = Relay::of_keys(rt.alloc(), 1, given(rt.alloc())?, FIRST)?;
    plays_at(&rt, rt.alloc(), &mut relay, &SPEAKS_FOR_TWO)
}
