// A call of a node as a value: what agreement is proved of is what the code does.
ghost use Rattle.std.specs.Prelude.{◌≡◌};
ghost use Rattle.bfs_node.specs.Offering.{sent_for};
ghost use Rattle.bfs_nodes_agree.specs.Nodes.Performing.{Performs, messages_in};

use bfs_log::StableCheckpoint;
use bfs_messages::{Message, Request, Signed};
use bfs_node::{Executor, Gate, Node, NodeError, Offered};
use bfs_types::Time;
use std::sync::Wait;
use std::thread::Threads;

/// A call of a node, but for `advance` and `advance_once`, which make several of these.
#[derive(Drop)]
pub enum NodeCall<'a> {
    /// Bytes come.
    Deliver(&'a [u8]),
    /// A message comes.
    Take(Signed<Message>),
    /// Messages come, of which the REQUESTs are taken.
    TakeRequests(&'a [Signed<Message>]),
    /// The same, before it proposes at that time.
    TakeRequestsFor(Time, &'a [Signed<Message>]),
    /// A REQUEST comes, which waits only if it is new.
    Offer(Signed<Request>),
    /// It proposes at that time.
    Propose(Time),
    /// It executes the next committed batch.
    Execute,
    /// It makes a checkpoint.
    Checkpoint,
    /// Time has run out for its view.
    TimeOut,
    /// It leaves for that view.
    LeaveFor(u64),
    /// It forgets requests that were executed.
    ForgetAnswered,
    /// It forgets requests that it has proposed in its view.
    ForgetProposed,
    /// It adopts the snapshot of another one.
    Adopt {
        text: &'a [u8],
        certificate: &'a StableCheckpoint,
    },
    /// It settles a checkpoint by the certificate of another one.
    Settle(&'a StableCheckpoint),
}

/// What a call gives to be sent.
#[derive(Drop)]
pub enum Sent {
    Nothing,
    One(Signed<Message>),
    All(Vec<Signed<Message>>),
}

/// Makes a call of a node, and gives what is to be sent. The node is then what the definition of that step makes of it, of which agreement is
/// proved, and that is sent. A call that is refused, by the definition too, changes nothing; where memory runs out nothing changes either, but that the
/// file system fails where a batch was executed, and that the first of many requests came.
pub fn perform<R: Threads + Wait + Sync, G: Gate + Sync>(
    node: &mut Node,
    rt: &R,
    executor: Executor,
    gate: &G,
    call: NodeCall<'_>,
) -> Result<Sent, NodeError>
    ensures { Performs node.old call.entry result node.new }
{
    match call {
        NodeCall::Deliver(bytes) => Ok(Sent::All(node.deliver(rt, bytes)?)),
        NodeCall::Take(signed) => Ok(Sent::All(node.take(rt, signed)?)),
        NodeCall::TakeRequests(messages) => {
            node.take_requests(rt, messages)?;
            Ok(Sent::Nothing)
        }
        NodeCall::TakeRequestsFor(time, messages) => {
            node.take_requests_for(rt, time, messages)?;
            Ok(Sent::Nothing)
        }
        NodeCall::Offer(request) => Ok(as_sent(node.offer(request)?)),
        NodeCall::Propose(time) => Ok(Sent::One(node.propose(time)?)),
        NodeCall::Execute => match node.execute_ready(rt, executor, gate)? {
            Some(sent) => Ok(Sent::All(sent)),
            None => Ok(Sent::Nothing),
        },
        NodeCall::Checkpoint => Ok(Sent::One(node.checkpoint(rt)?)),
        NodeCall::TimeOut => Ok(Sent::All(node.timeout()?)),
        NodeCall::LeaveFor(view) => Ok(Sent::All(node.leave_for(view)?)),
        NodeCall::ForgetAnswered => {
            node.forget_answered()?;
            Ok(Sent::Nothing)
        }
        NodeCall::ForgetProposed => {
            node.forget_proposed();
            Ok(Sent::Nothing)
        }
        NodeCall::Adopt { text, certificate } => {
            node.adopt(rt, text, certificate)?;
            Ok(Sent::Nothing)
        }
        NodeCall::Settle(certificate) => {
            node.settle(certificate)?;
            Ok(Sent::Nothing)
        }
    }
}

fn as_sent(offered: Offered) -> Sent
    ensures { messages_in result ≡ sent_for offered }
{
    match offered {
        Offered::Answered(reply) => Sent::One(reply),
        Offered::Waits | Offered::WaitsAlready | Offered::PassedOver => Sent::Nothing,
    }
}
