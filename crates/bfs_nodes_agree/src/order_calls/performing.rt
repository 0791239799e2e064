// A call on an order as a value: what agreement is proved of is what the code does.
ghost use Rattle.std.specs.Prelude.{◌≡◌};
ghost use Rattle.bfs_order.specs.Laws.Calls.{Executes, outcome};
ghost use Rattle.bfs_nodes_agree.specs.Orders.Performing.{Performs};

use bfs_auth::Keys;
use bfs_log::StableCheckpoint;
use bfs_messages::{HashedBatch, Message, OrderMessage, PrePrepare, Signed};
use bfs_order::{Order, OrderError, what_is_executed_has_its_certificate};
use bfs_pending::PendingRequests;
use std::alloc::Global;
use std::thread::Threads;

/// A call on the order of one replica.
#[derive(Drop)]
pub enum OrderCall<'a> {
    /// A message comes.
    Take(Signed<OrderMessage>),
    /// A batch is proposed.
    Propose(HashedBatch),
    /// The next committed batch was executed.
    Execute,
    /// What leads to a number was executed, with that digest.
    Checkpoint {
        number: u64,
        digest: [u8; 32],
    },
    /// A certificate is installed.
    Install(&'a StableCheckpoint),
    /// The view is left for a later one.
    Leave(u64),
    /// A view is entered behind a stable checkpoint, with the PRE-PREPAREs that were chosen for it.
    Enter {
        view: u64,
        stable: Option<StableCheckpoint>,
        handed: Vec<Signed<PrePrepare>>,
    },
}

/// What a call gives to be sent.
#[derive(Drop)]
pub enum Sent {
    Nothing,
    One(Signed<Message>),
    All(Vec<Signed<Message>>),
}

/// Makes a call, by these keys, and gives what is to be sent. The order is then what the definition of the call makes of it, of which agreement is
/// proved, and that is sent; where the call is refused, or memory runs out, nothing changes.
pub fn perform(
    order: &mut Order,
    rt: &(impl Threads + Sync),
    alloc: Global,
    keys: &Keys,
    call: OrderCall<'_>,
) -> Result<Sent, OrderError>
    ensures { Performs keys.now order.old call.entry result order.new }
{
    match call {
        OrderCall::Take(signed) => {
            let passed = PendingRequests::new(alloc);
            Ok(Sent::All(order.on_message(rt, keys, &passed, signed)?))
        }
        OrderCall::Propose(batch) => Ok(Sent::One(order.propose(keys, batch)?.into_message())),
        OrderCall::Execute => {
            execute(order);
            Ok(Sent::Nothing)
        }
        OrderCall::Checkpoint { number, digest } => {
            Ok(Sent::One(order.on_checkpoint(keys, number, digest)?.into_message()))
        }
        OrderCall::Install(certificate) => {
            order.install(keys, certificate)?;
            Ok(Sent::Nothing)
        }
        OrderCall::Leave(view) => {
            order.leave_view(view)?;
            Ok(Sent::Nothing)
        }
        OrderCall::Enter {
            view,
            stable,
            handed,
        } => {
            let sent = order.enter_view(keys, view, stable.as_ref(), handed)?;
            Ok(Sent::All(sent))
        }
    }
}

fn execute(order: &mut Order)
    ensures { order.new ≡ (outcome order.old Executes).now }
{
    what_is_executed_has_its_certificate();
    if let Some(committed) = order.next_committed() {
        let number = committed.number();
        order.executed(number);
    }
}
