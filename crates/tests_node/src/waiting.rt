//! A PRE-PREPARE comes while a request waits of the same client and timestamp: it is taken where its own request is the client's.
use crate::replica::members;
use bfs_codec::encode;
use bfs_messages::{OrderMessage, OrderedBatch, PrePrepare, Request, Signed, sign_order};
use bfs_node::Node;
use bfs_testing::asserts::compared;
use bfs_testing_nodes::calls::{Said, deliver};
use bfs_testing_nodes::hashes::with_changed_entry;
use bfs_testing_nodes::members::{request, request_message};
use bfs_types::{Memory, Time};
use std::alloc::Global;
use std::sync::Arc;
use std::test::Fail;
use std::thread::Threads;

/// A request of client 3 with timestamp 5, for four replicas.
#[derive(Clone, Copy)]
struct Form {
    /// The byte that is its call.
    call: u8,
    /// The one that the client has signed.
    signed: u8,
    /// Whose entry is changed.
    spoiled: Option<usize>,
}

// a request of the client with a call of one byte, which it has signed
fn signed(alloc: Global, call: u8) -> Result<Signed<Request>, Memory> {
    members(1).request(alloc, 3, request(alloc, 3, 5, &[call])?)
}

impl Form {
    fn request(self, alloc: Global) -> Result<Signed<Request>, Memory> {
        let message = request(alloc, 3, 5, &[self.call])?;
        let auth = signed(alloc, self.signed)?.auth;
        let auth = match self.spoiled {
            None => auth,
            Some(replica) => with_changed_entry(alloc, &auth, replica)?,
        };
        Ok(Signed { message, auth })
    }

    // the bytes of the REQUEST
    fn bytes(self, alloc: Global) -> Result<Vec<u8>, Memory> {
        encode(alloc, &request_message(self.request(alloc)?))
    }

    // the batch of it alone
    fn batch(self, alloc: Global) -> Result<Arc<OrderedBatch>, Memory> {
        let mut requests = Vec::new(alloc);
        requests.push(self.request(alloc)?)?;
        let time = Time::new(1, 0).ok_or(Memory)?;
        Ok(Arc::new(alloc, OrderedBatch::new(time, requests))?)
    }

    // the bytes of the primary's PRE-PREPARE of that batch
    fn proposed(self, alloc: Global) -> Result<Vec<u8>, Memory> {
        let keys = members(1).keys_of(alloc, 0)?;
        let proposal = PrePrepare::new(0, 0, 1, self.batch(alloc)?);
        let signed = sign_order(alloc, &keys, OrderMessage::PrePrepare(proposal))?;
        encode(alloc, &signed.into_message())
    }
}

const WAITS: Form = Form {
    call: 7,
    signed: 7,
    spoiled: None,
};

const SPOILED_FOR_ANOTHER: Form = Form {
    spoiled: Some(2),
    ..WAITS
};

const SPOILED_FOR_IT: Form = Form {
    spoiled: Some(1),
    ..WAITS
};

const ANOTHER_CALL: Form = Form { call: 8, ..WAITS };

const ANOTHER_SIGNED: Form = Form { signed: 8, ..WAITS };

const ANOTHER: Form = Form {
    call: 8,
    signed: 8,
    ..WAITS
};

/// What the primary proposes while the other one waits, and what replica 1 of four answers.
struct Case(Form, Said);

static CASES: [Case; 6] = [
    Case(WAITS, Said::Sent(1)),
    Case(SPOILED_FOR_ANOTHER, Said::Sent(1)),
    Case(SPOILED_FOR_IT, Said::Refused(24)),
    Case(ANOTHER_CALL, Said::Refused(24)),
    Case(ANOTHER_SIGNED, Said::Refused(24)),
    Case(ANOTHER, Said::Sent(1)),
];

fn said_at<R: Threads + Sync>(
    rt: &R,
    alloc: Global,
    node: &mut Node,
    proposed: Form,
) -> Result<Said, Memory> {
    if Said::of_all(&deliver(rt, node, &WAITS.bytes(alloc)?)) != Said::Sent(0) {
        return Ok(Said::Nothing);
    }
    Ok(Said::of_all(&deliver(rt, node, &proposed.proposed(alloc)?)))
}

fn said_of<R: Threads + Sync>(rt: &R, alloc: Global, proposed: Form) -> Result<Said, Memory> {
    let mut node = members(1).replica(alloc, 1)?;
    said_at(rt, alloc, &mut node, proposed)
}

fn is_as_told<R: Threads + Sync>(rt: &R, alloc: Global, case: &Case) -> Result<bool, Memory> {
    Ok(said_of(rt, alloc, case.0)? == case.1)
}

// the place of the first case that does not come as it is told
fn first_wrong<R: Threads + Sync>(rt: &R, alloc: Global) -> Result<Option<usize>, Memory> {
    for (place, case) in CASES.iter().enumerate() {
        if !is_as_told(rt, alloc, case)? {
            return Ok(Some(place));
        }
    }
    Ok(None)
}

#[test]
fn only_what_is_equal_passes_by_what_waits(rt: HostRuntime) -> Result<(), Fail> {
    compared(first_wrong(&rt, rt.alloc())?, None)?;
    Ok(())
}
