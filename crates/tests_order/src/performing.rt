//! Calls as values: two orders come to the same where each call is made of one, and performed on the other.
use crate::parts::{Told, members, null, told_by};
use bfs_auth::Keys;
use bfs_codec::encode;
use bfs_log::StableCheckpoint;
use bfs_messages::{HashedBatch, Message, OrderMessage, Signed};
use bfs_nodes_agree::order_calls::performing::{OrderCall, Sent, perform};
use bfs_order::{Order, OrderError};
use bfs_pending::PendingRequests;
use bfs_testing::asserts::compared;
use bfs_types::Memory;
use std::alloc::Global;
use std::test::Fail;
use std::thread::Threads;

/// What is done to both.
#[derive(Clone, Copy)]
enum Call {
    /// They take what that one says and signs.
    Take(u32, Told),
    /// They propose the null request.
    Propose,
    /// They execute what is next.
    Execute,
    /// They make a checkpoint of that number.
    Checkpoint(u64),
    /// They install the CHECKPOINTs of these for number 16.
    Install(&'static [u32]),
    /// They leave their view for that one.
    Leave(u64),
    /// They enter a view behind number 16, by the CHECKPOINTs of these.
    Enter(u64, &'static [u32]),
}

const DIGEST: [u8; 32] = [7; 32];

fn stable_by(alloc: Global, faults: u32, senders: &[u32]) -> Result<StableCheckpoint, Memory> {
    let mut told = Vec::new(alloc);
    for sender in senders {
        told.push(told_by(alloc, faults, *sender, 7)?)?;
    }
    Ok(StableCheckpoint::new(16, DIGEST, told))
}

fn alone(alloc: Global, signed: Signed<Message>) -> Result<Vec<Signed<Message>>, Memory> {
    let mut all = Vec::new(alloc);
    all.push(signed)?;
    Ok(all)
}

// what is sent, or why nothing is
type Given = Result<Vec<Signed<Message>>, OrderError>;

fn one(alloc: Global, given: Result<Signed<OrderMessage>, OrderError>) -> Result<Given, Memory> {
    match given {
        Ok(signed) => Ok(Ok(alone(alloc, signed.into_message())?)),
        Err(error) => Ok(Err(error)),
    }
}

fn nothing(alloc: Global, given: Result<(), OrderError>) -> Given {
    match given {
        Ok(()) => Ok(Vec::new(alloc)),
        Err(error) => Err(error),
    }
}

// Each call stands in a function that promises nothing: no test needs what its contract says.
fn take<R: Threads + Sync>(
    rt: &R,
    alloc: Global,
    order: &mut Order,
    keys: &Keys,
    signed: Signed<OrderMessage>,
) -> Given {
    order.on_message(rt, keys, &PendingRequests::new(alloc), signed)
}

fn propose(alloc: Global, order: &mut Order, keys: &Keys) -> Result<Given, Memory> {
    let batch = HashedBatch::new(null(alloc)?);
    one(alloc, order.propose(keys, batch))
}

fn execute(alloc: Global, order: &mut Order) -> Given {
    if let Some(committed) = order.next_committed() {
        let number = committed.number();
        order.executed(number);
    }
    Ok(Vec::new(alloc))
}

fn checkpoint(alloc: Global, order: &mut Order, keys: &Keys, number: u64) -> Result<Given, Memory> {
    one(alloc, order.on_checkpoint(keys, number, DIGEST))
}

fn install(alloc: Global, order: &mut Order, keys: &Keys, stable: &StableCheckpoint) -> Given {
    nothing(alloc, order.install(keys, stable))
}

fn leave(alloc: Global, order: &mut Order, view: u64) -> Given {
    nothing(alloc, order.leave_view(view))
}

fn enter(
    alloc: Global,
    order: &mut Order,
    keys: &Keys,
    view: u64,
    stable: &StableCheckpoint,
) -> Given {
    order.enter_view(keys, view, Some(stable), Vec::new(alloc))
}

fn performed<R: Threads + Sync>(
    rt: &R,
    alloc: Global,
    order: &mut Order,
    keys: &Keys,
    call: OrderCall<'_>,
) -> Result<Sent, OrderError> {
    perform(order, rt, alloc, keys, call)
}

// the bytes of what is sent, or the number of the refusal
fn spelled(alloc: Global, given: Given) -> Result<(Vec<u8>, u32), Memory> {
    let mut bytes = Vec::new(alloc);
    match given {
        Err(error) => Ok((bytes, error.code())),
        Ok(sent) => {
            for signed in &sent {
                bytes.extend_from_slice(&encode(alloc, signed)?)?;
            }
            Ok((bytes, 0))
        }
    }
}

/// An order of one among 3f + 1 replicas of which each call is made, and one on which it is performed.
#[derive(Drop)]
struct Two {
    alloc: Global,
    faults: u32,
    keys: Keys,
    made: Order,
    performed: Order,
}

impl Two {
    fn new(alloc: Global, faults: u32, me: u32) -> Result<Two, Memory> {
        if faults > 10 || me > 3 * faults {
            return Err(Memory);
        }
        Ok(Two {
            alloc,
            faults,
            keys: members(faults).keys_of(alloc, me)?,
            made: Order::new(alloc, faults, me),
            performed: Order::new(alloc, faults, me),
        })
    }

    // what a call installs, or enters a view behind
    fn brought(&self, call: Call) -> Result<StableCheckpoint, Memory> {
        match call {
            Call::Install(senders) | Call::Enter(_, senders) => {
                stable_by(self.alloc, self.faults, senders)
            }
            _ => stable_by(self.alloc, self.faults, &[]),
        }
    }

    fn make<R: Threads + Sync>(&mut self, rt: &R, call: Call) -> Result<Given, Memory> {
        let brought = self.brought(call)?;
        let alloc = self.alloc;
        let keys = &self.keys;
        let order = &mut self.made;
        match call {
            Call::Take(sender, told) => {
                let signed = told.signed_by(alloc, self.faults, sender)?;
                Ok(take(rt, alloc, order, keys, signed))
            }
            Call::Propose => propose(alloc, order, keys),
            Call::Execute => Ok(execute(alloc, order)),
            Call::Checkpoint(number) => checkpoint(alloc, order, keys, number),
            Call::Install(_) => Ok(install(alloc, order, keys, &brought)),
            Call::Leave(view) => Ok(leave(alloc, order, view)),
            Call::Enter(view, _) => Ok(enter(alloc, order, keys, view, &brought)),
        }
    }

    fn perform<R: Threads + Sync>(&mut self, rt: &R, call: Call) -> Result<Given, Memory> {
        let brought = self.brought(call)?;
        let alloc = self.alloc;
        let call = match call {
            Call::Take(sender, told) => {
                OrderCall::Take(told.signed_by(alloc, self.faults, sender)?)
            }
            Call::Propose => OrderCall::Propose(HashedBatch::new(null(alloc)?)),
            Call::Execute => OrderCall::Execute,
            Call::Checkpoint(number) => OrderCall::Checkpoint {
                number,
                digest: DIGEST,
            },
            Call::Install(_) => OrderCall::Install(&brought),
            Call::Leave(view) => OrderCall::Leave(view),
            Call::Enter(view, senders) => OrderCall::Enter {
                view,
                stable: Some(stable_by(alloc, self.faults, senders)?),
                handed: Vec::new(alloc),
            },
        };
        match performed(rt, alloc, &mut self.performed, &self.keys, call) {
            Ok(Sent::Nothing) => Ok(Ok(Vec::new(alloc))),
            Ok(Sent::One(signed)) => Ok(Ok(alone(alloc, signed)?)),
            Ok(Sent::All(sent)) => Ok(Ok(sent)),
            Err(error) => Ok(Err(error)),
        }
    }

    // whether it is refused by that number, or done where that is 0, by both, and both send the same
    fn does<R: Threads + Sync>(&mut self, rt: &R, call: Call, code: u32) -> Result<bool, Memory> {
        let made = self.make(rt, call)?;
        let performed = self.perform(rt, call)?;
        let (made, code_of_made) = spelled(self.alloc, made)?;
        let (performed, code_of_performed) = spelled(self.alloc, performed)?;
        Ok(
            made == performed
                && code_of_made == code
                && code_of_performed == code
                && standing_of(&self.made) == standing_of(&self.performed),
        )
    }

    // the place of the first call that does not come as it is told
    fn first_wrong<R: Threads + Sync>(
        &mut self,
        rt: &R,
        calls: &[(Call, u32)],
    ) -> Result<Option<usize>, Memory> {
        for (place, (call, code)) in calls.iter().enumerate() {
            if !self.does(rt, *call, *code)? {
                return Ok(Some(place));
            }
        }
        Ok(None)
    }
}

// its view, the one that it asks for, its low mark, the number last executed, and how many messages its log has
fn standing_of(order: &Order) -> (u64, u64, u64, u64, usize) {
    (
        order.view(),
        order.asked(),
        order.low(),
        order.last_executed(),
        order.log().len(),
    )
}

// each with the number of its refusal, 0 where it is done
static CALLS: &[(Call, u32)] = &[
    (Call::Take(0, Told::Proposal(0, 0, 1)), 0),
    (Call::Take(0, Told::Proposal(0, 0, 1)), 29),
    (Call::Propose, 28),
    (Call::Execute, 0),
    (Call::Take(2, Told::Prepare(2, 0, 1)), 0),
    (Call::Take(0, Told::Commit(0, 0, 1)), 0),
    (Call::Take(2, Told::Commit(2, 0, 1)), 0),
    (Call::Execute, 0),
    (Call::Checkpoint(0), 26),
    (Call::Leave(0), 25),
    (Call::Leave(1), 0),
    (Call::Enter(0, &[0, 2, 3]), 25),
    (Call::Enter(1, &[0, 2, 3]), 0),
    (Call::Install(&[0, 2]), 34),
    (Call::Install(&[0, 2, 3]), 0),
    (Call::Checkpoint(32), 0),
    (Call::Propose, 0),
];

#[test]
fn a_call_that_is_performed_does_what_it_does(rt: HostRuntime) -> Result<(), Fail> {
    let mut two = Two::new(rt.alloc(), 1, 1)?;
    compared(two.first_wrong(&rt, CALLS)?, None)?;
    compared(standing_of(&two.performed), (1, 1, 16, 16, 5))?;
    Ok(())
}
