//! REQUESTs that a replica is offered: only new ones wait, one of each, and of each client no more than its share.
use crate::parts::Asked;
use crate::replica::members;
use bfs_node::{Node, NodeError, Offered};
use bfs_testing::asserts::compared;
use bfs_testing_nodes::calls::{Said, Standing, execute, propose, standing_of};
use bfs_types::Memory;
use std::alloc::Global;
use std::sync::Wait;
use std::test::Fail;
use std::thread::Threads;

/// What comes of an offer.
#[derive(Clone, Copy, Debug, PartialEq, Eq)]
enum Came {
    Waits,
    WaitsAlready,
    Answered,
    PassedOver,
    Refused(u32),
}

/// What happens, or what is to hold then.
#[derive(Clone, Copy)]
enum Step {
    /// A client offers a request of that timestamp.
    Offer(u32, u32, Came),
    /// Client 4 offers one in the name of client 3.
    Forge(u32, Came),
    /// Client 3 offers requests with the timestamps from the first to below the second, and each waits.
    Fill(u32, u32),
    /// So many times each client below the first number offers one request, and then so many wait.
    Storm(u32, u32),
    /// All that waits is proposed and executed, and so many replies are sent.
    Order(usize),
    /// All that waits is proposed.
    Propose,
    /// What was executed is forgotten.
    ForgetAnswered,
    /// What was proposed is forgotten.
    ForgetProposed,
    /// So many wait.
    Wait(u32),
}

fn what_came(given: &Result<Offered, NodeError>) -> Came {
    match given {
        Ok(Offered::Waits) => Came::Waits,
        Ok(Offered::WaitsAlready) => Came::WaitsAlready,
        Ok(Offered::Answered(_)) => Came::Answered,
        Ok(Offered::PassedOver) => Came::PassedOver,
        Err(error) => Came::Refused(error.code()),
    }
}

fn offered(alloc: Global, node: &mut Node, asked: Asked) -> Result<Came, Memory> {
    Ok(what_came(&node.offer(asked.request(alloc)?)))
}

fn fill(alloc: Global, node: &mut Node, first: u32, end: u32) -> Result<bool, Memory> {
    for timestamp in first..end {
        if offered(alloc, node, by(3, timestamp))? != Came::Waits {
            return Ok(false);
        }
    }
    Ok(true)
}

fn storm(alloc: Global, node: &mut Node, clients: u32, times: u32) -> Result<bool, Memory> {
    for _ in 0..times {
        for client in 0..clients {
            offered(alloc, node, by(client, 7))?;
        }
    }
    Ok(node.pending() == clients)
}

fn is_proposed(node: &mut Node) -> bool {
    Said::of_one(&propose(node, 1)) == Said::Sent(1)
}

fn order<R: Threads + Wait + Sync>(rt: &R, node: &mut Node, replies: usize) -> bool {
    is_proposed(node) && Said::of_some(&execute(rt, node)) == Said::Sent(replies)
}

fn forget_proposed(node: &mut Node) -> bool {
    node.forget_proposed();
    true
}

// whether it comes as it is told
fn happens<R: Threads + Wait + Sync>(
    rt: &R,
    alloc: Global,
    node: &mut Node,
    step: Step,
) -> Result<bool, Memory> {
    Ok(match step {
        Step::Offer(client, timestamp, wanted) => {
            offered(alloc, node, by(client, timestamp))? == wanted
        }
        Step::Forge(timestamp, wanted) => offered(alloc, node, forged(timestamp))? == wanted,
        Step::Fill(first, end) => fill(alloc, node, first, end)?,
        Step::Storm(clients, times) => storm(alloc, node, clients, times)?,
        Step::Order(replies) => order(rt, node, replies),
        Step::Propose => is_proposed(node),
        Step::ForgetAnswered => node.forget_answered().is_ok(),
        Step::ForgetProposed => forget_proposed(node),
        Step::Wait(count) => node.pending() == count,
    })
}

// the place of the first step that does not come as it is told
fn first_wrong<R: Threads + Wait + Sync>(
    rt: &R,
    alloc: Global,
    node: &mut Node,
    steps: &[Step],
) -> Result<Option<usize>, Memory> {
    for (place, step) in steps.iter().enumerate() {
        if !happens(rt, alloc, node, *step)? {
            return Ok(Some(place));
        }
    }
    Ok(None)
}

fn plays<R: Threads + Wait + Sync>(rt: &R, alloc: Global, steps: &[Step]) -> Result<Node, Fail> {
    let mut node = members(0).replica(alloc, 0)?;
    compared(first_wrong(rt, alloc, &mut node, steps)?, None)?;
    Ok(node)
}

fn by(client: u32, timestamp: u32) -> Asked {
    Asked {
        signer: client,
        client,
        timestamp,
    }
}

fn forged(timestamp: u32) -> Asked {
    Asked {
        signer: 4,
        client: 3,
        timestamp,
    }
}

static ONE_BY_ONE: [Step; 12] = [
    Step::Forge(5, Came::Refused(24)),
    Step::Offer(99, 5, Came::Refused(24)),
    Step::Offer(3, 5, Came::Waits),
    Step::Offer(3, 5, Came::WaitsAlready),
    Step::Offer(4, 5, Came::Waits),
    Step::Order(2),
    Step::Offer(3, 5, Came::Answered),
    Step::Offer(3, 4, Came::PassedOver),
    Step::Forge(5, Came::Refused(24)),
    Step::Offer(3, 6, Came::Waits),
    Step::Offer(3, 5, Came::Answered),
    Step::Wait(1),
];

#[test]
fn only_new_requests_wait(rt: HostRuntime) -> Result<(), Fail> {
    let node = plays(&rt, rt.alloc(), &ONE_BY_ONE)?;
    compared(standing_of(&node), Standing(0, 1, 1))?;
    Ok(())
}

// 1,024 places, and 16 clients
static SHARES: [Step; 6] = [
    Step::Fill(1, 65),
    Step::Offer(3, 65, Came::Refused(13)),
    Step::Offer(3, 64, Came::WaitsAlready),
    Step::Offer(4, 1, Came::Waits),
    Step::Order(65),
    Step::Offer(3, 65, Came::Waits),
];

#[test]
fn a_client_has_its_share(rt: HostRuntime) -> Result<(), Fail> {
    let node = plays(&rt, rt.alloc(), &SHARES)?;
    compared(node.share(), 64)?;
    Ok(())
}

static STORM: [Step; 4] = [
    Step::Storm(16, 40),
    Step::Order(16),
    Step::Offer(15, 7, Came::Answered),
    Step::Wait(0),
];

#[test]
fn no_copy_waits(rt: HostRuntime) -> Result<(), Fail> {
    let _node = plays(&rt, rt.alloc(), &STORM)?;
    Ok(())
}

static EXECUTED: [Step; 6] = [
    Step::Offer(3, 5, Came::Waits),
    Step::Order(1),
    Step::ForgetAnswered,
    Step::Offer(3, 6, Came::Waits),
    Step::ForgetAnswered,
    Step::Wait(1),
];

#[test]
fn new_requests_are_not_forgotten(rt: HostRuntime) -> Result<(), Fail> {
    let _node = plays(&rt, rt.alloc(), &EXECUTED)?;
    Ok(())
}

static PROPOSED: [Step; 8] = [
    Step::Offer(3, 5, Came::Waits),
    Step::Offer(4, 5, Came::Waits),
    Step::Propose,
    Step::Offer(5, 5, Came::Waits),
    Step::Wait(3),
    Step::ForgetProposed,
    Step::Wait(1),
    Step::Offer(5, 5, Came::WaitsAlready),
];

#[test]
fn what_was_proposed_is_forgotten(rt: HostRuntime) -> Result<(), Fail> {
    let _node = plays(&rt, rt.alloc(), &PROPOSED)?;
    Ok(())
}

fn retaken<R: Threads + Wait + Sync>(rt: &R, alloc: Global, node: &mut Node) -> Result<u32, Fail> {
    let once_more = by(3, 5).message(alloc)?;
    compared(Said::of_all(&node.take(rt, once_more)), Said::Sent(0))?;
    node.forget_answered()?;
    Ok(node.pending())
}

static ORDERED: [Step; 2] = [Step::Offer(3, 5, Came::Waits), Step::Order(1)];

#[test]
fn what_was_executed_is_forgotten(rt: HostRuntime) -> Result<(), Fail> {
    let mut node = plays(&rt, rt.alloc(), &ORDERED)?;
    compared(retaken(&rt, rt.alloc(), &mut node)?, 0)?;
    Ok(())
}
