//! A primary hashes a batch while the requests in it come, and proposes that one.
use crate::replica::members;
use bfs_messages::{Message, OrderMessage, Signed};
use bfs_node::Node;
use bfs_testing::same;
use bfs_testing_nodes::members::{request, request_message};
use bfs_types::{Memory, Time};
use std::alloc::Global;
use std::sync::Arc;
use std::test::Fail;
use std::thread::Threads;

// so long that a few are enough for a thread
const CALL: &[u8] = &[0; 8_192];

fn requests(alloc: Global, count: u64) -> Result<Vec<Signed<Message>>, Memory> {
    let mut all = Vec::new(alloc);
    for timestamp in 0..count {
        let request = request(alloc, 3, timestamp, CALL)?;
        all.push(request_message(members(1).request(alloc, 3, request)?))?;
    }
    Ok(all)
}

fn take<R: Threads + Sync>(
    rt: &R,
    node: &mut Node,
    time: Time,
    messages: &[Signed<Message>],
) -> Result<(), Memory> {
    node.take_requests_for(rt, time, messages)
}

// how many share the batch
fn propose(node: &mut Node, time: Time) -> Result<usize, Memory> {
    let Ok(signed) = node.propose(time) else {
        return Err(Memory);
    };
    match &signed.message {
        Message::Order(OrderMessage::PrePrepare(proposal)) => {
            Ok(Arc::strong_count(proposal.batch()))
        }
        _ => Err(Memory),
    }
}

// So many come to the primary of four before it proposes at 1.000000, and it proposes at that many seconds.
fn sharers<R: Threads + Sync>(
    rt: &R,
    alloc: Global,
    count: u64,
    seconds: u32,
) -> Result<usize, Memory> {
    let mut node = members(1).replica(alloc, 0)?;
    let before = Time::new(1, 0).ok_or(Memory)?;
    take(rt, &mut node, before, &requests(alloc, count)?)?;
    propose(&mut node, Time::new(seconds, 0).ok_or(Memory)?)
}

#[test]
fn a_batch_is_hashed_while_its_requests_come(rt: HostRuntime) -> Result<(), Fail> {
    let alloc = rt.alloc();
    // the PRE-PREPARE, the log, its index, which has the message and the batch, and what waits, which had it first
    same!(rt; sharers(&rt, alloc, 8, 1)?, 5);
    // at another time, and where there is too little for a thread, it is made when it is proposed
    same!(rt; sharers(&rt, alloc, 8, 2)?, 4);
    same!(rt; sharers(&rt, alloc, 1, 1)?, 4);
    Ok(())
}
