//! Calls as values: what a replica performs comes to what its calls come to.
use crate::parts::{Asked, stable_by};
use crate::replica::members;
use bfs_log::StableCheckpoint;
use bfs_node::{Executor, NoGate, Node, NodeError};
use bfs_nodes_agree::node_calls::performing::{NodeCall, Sent, perform};
use bfs_testing::asserts::compared;
use bfs_testing_nodes::calls::{Said, Standing, standing_of};
use bfs_types::{Memory, Time};
use std::alloc::Global;
use std::sync::Wait;
use std::test::Fail;
use std::thread::Threads;

/// What a replica performs.
#[derive(Clone, Copy)]
enum Call {
    /// Bytes come.
    Deliver(&'static [u8]),
    /// A request comes.
    Take(Asked),
    /// No requests come, and it would propose then.
    TakeNone,
    /// It proposes what waits.
    Propose,
    /// A request is offered.
    Offer(Asked),
    /// It forgets what was executed.
    ForgetAnswered,
    /// It forgets what it has proposed.
    ForgetProposed,
    /// It executes the next batch.
    Execute,
    /// It makes a checkpoint.
    Checkpoint,
    /// It adopts no text, by no CHECKPOINT.
    Adopt,
    /// It settles a checkpoint by no CHECKPOINT.
    Settle,
}

fn said(given: &Result<Sent, NodeError>) -> Said {
    match given {
        Ok(Sent::Nothing) => Said::Nothing,
        Ok(Sent::One(_)) => Said::Sent(1),
        Ok(Sent::All(sent)) => Said::Sent(sent.len()),
        Err(error) => Said::Refused(error.code()),
    }
}

fn performs<R: Threads + Wait + Sync>(rt: &R, node: &mut Node, call: NodeCall<'_>) -> Said {
    said(&perform(node, rt, Executor::serial(), &NoGate, call))
}

fn adopts<R: Threads + Wait + Sync>(
    rt: &R,
    node: &mut Node,
    certificate: &StableCheckpoint,
) -> Said {
    performs(
        rt,
        node,
        NodeCall::Adopt {
            text: &[],
            certificate,
        },
    )
}

fn performed<R: Threads + Wait + Sync>(
    rt: &R,
    alloc: Global,
    node: &mut Node,
    call: Call,
) -> Result<Said, Memory> {
    let call = match call {
        Call::Deliver(bytes) => NodeCall::Deliver(bytes),
        Call::Take(asked) => NodeCall::Take(asked.message(alloc)?),
        Call::TakeNone => NodeCall::TakeRequestsFor(Time::epoch(), &[]),
        Call::Propose => NodeCall::Propose(Time::epoch()),
        Call::Offer(asked) => NodeCall::Offer(asked.request(alloc)?),
        Call::ForgetAnswered => NodeCall::ForgetAnswered,
        Call::ForgetProposed => NodeCall::ForgetProposed,
        Call::Execute => NodeCall::Execute,
        Call::Checkpoint => NodeCall::Checkpoint,
        Call::Adopt => {
            let none = stable_by(alloc, &[], [0; 32])?;
            return Ok(adopts(rt, node, &none));
        }
        Call::Settle => {
            let none = stable_by(alloc, &[], [0; 32])?;
            return Ok(performs(rt, node, NodeCall::Settle(&none)));
        }
    };
    Ok(performs(rt, node, call))
}

// whether it leaves its view, and then the next one for view 7, once
fn leaves<R: Threads + Wait + Sync>(rt: &R, node: &mut Node) -> bool {
    matches!(performs(rt, node, NodeCall::TimeOut), Said::Sent(_))
        && (matches!(performs(rt, node, NodeCall::LeaveFor(7)), Said::Sent(_))
            && performs(rt, node, NodeCall::LeaveFor(7)) == Said::Refused(25))
}

// the place of the first call that comes to something else than is told, and what it comes to
fn first_wrong<R: Threads + Wait + Sync>(
    rt: &R,
    alloc: Global,
    node: &mut Node,
    calls: &[(Call, Said)],
) -> Result<Option<(usize, Said)>, Memory> {
    for (place, (call, wanted)) in calls.iter().enumerate() {
        let came = performed(rt, alloc, node, *call)?;
        if came != *wanted {
            return Ok(Some((place, came)));
        }
    }
    Ok(None)
}

const ASKED: Asked = Asked {
    signer: 3,
    client: 3,
    timestamp: 1,
};

static CALLS: &[(Call, Said)] = &[
    (Call::Deliver(b"no message"), Said::Refused(23)),
    (Call::Take(ASKED), Said::Sent(0)),
    (Call::TakeNone, Said::Nothing),
    (Call::Execute, Said::Nothing),
    (Call::Propose, Said::Sent(1)),
    (Call::Execute, Said::Sent(1)),
    (Call::Offer(ASKED), Said::Sent(1)),
    (Call::ForgetAnswered, Said::Nothing),
    (Call::ForgetProposed, Said::Nothing),
    (Call::Checkpoint, Said::Refused(26)),
    (Call::Adopt, Said::Refused(34)),
    (Call::Settle, Said::Refused(34)),
];

#[test]
fn a_call_that_is_performed_does_what_it_does(rt: HostRuntime) -> Result<(), Fail> {
    let alloc = rt.alloc();
    let mut node = members(0).replica(alloc, 0)?;
    compared(first_wrong(&rt, alloc, &mut node, CALLS)?, None)?;
    compared(leaves(&rt, &mut node), true)?;
    compared(standing_of(&node), Standing(7, 1, 0))?;
    Ok(())
}
