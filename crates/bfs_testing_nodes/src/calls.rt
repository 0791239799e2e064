//! What is done to a replica.
use bfs_messages::{Message, Signed};
use bfs_node::{Executor, NoGate, Node, NodeError};
use bfs_types::Time;
use std::sync::Wait;
use std::thread::Threads;

/// What is sent, or why the call is refused.
pub type Given = Result<Vec<Signed<Message>>, NodeError>;

/// What a call came to: how many messages are sent, the number of the refusal, or that there was nothing to do.
#[derive(Clone, Copy, Debug, PartialEq, Eq)]
pub enum Said {
    Sent(usize),
    Refused(u32),
    Nothing,
}

impl Said {
    /// What a call that gives all that is sent came to.
    pub fn of_all(given: &Given) -> Said {
        match given {
            Ok(sent) => Said::Sent(sent.len()),
            Err(error) => Said::Refused(error.code()),
        }
    }

    /// What a call that gives one message came to.
    pub fn of_one(given: &Result<Signed<Message>, NodeError>) -> Said {
        match given {
            Ok(_) => Said::Sent(1),
            Err(error) => Said::Refused(error.code()),
        }
    }

    /// What a call that may find nothing to do came to.
    pub fn of_some(given: &Result<Option<Vec<Signed<Message>>>, NodeError>) -> Said {
        match given {
            Ok(Some(sent)) => Said::Sent(sent.len()),
            Ok(None) => Said::Nothing,
            Err(error) => Said::Refused(error.code()),
        }
    }

    /// What a call that sends nothing came to.
    pub fn of_none(given: Result<(), NodeError>) -> Said {
        match given {
            Ok(()) => Said::Nothing,
            Err(error) => Said::Refused(error.code()),
        }
    }
}

/// How a replica stands: its view, the number last executed, and how many requests wait.
#[derive(Clone, Copy, Debug, PartialEq, Eq)]
pub struct Standing(pub u64, pub u64, pub u32);

/// How a replica stands.
pub fn standing_of(node: &Node) -> Standing {
    Standing(node.view(), node.last_executed(), node.pending())
}

/// A message comes.
pub fn take<R: Threads + Sync>(rt: &R, node: &mut Node, signed: Signed<Message>) -> Given {
    node.take(rt, signed)
}

/// Bytes come.
pub fn deliver<R: Threads + Sync>(rt: &R, node: &mut Node, bytes: &[u8]) -> Given {
    node.deliver(rt, bytes)
}

/// Time runs out.
pub fn time_out(node: &mut Node) -> Given {
    node.timeout()
}

/// It proposes what waits, at that second.
pub fn propose(node: &mut Node, second: u32) -> Result<Signed<Message>, NodeError> {
    node.propose(Time::new(second, 0).unwrap_or(Time::epoch()))
}

/// It executes the next batch one request after another, if there is one, and gives its replies.
pub fn execute<R: Threads + Wait + Sync>(
    rt: &R,
    node: &mut Node,
) -> Result<Option<Vec<Signed<Message>>>, NodeError> {
    node.execute_ready(rt, Executor::serial(), &NoGate)
}

/// It executes all that is committed, one request after another: replies, and CHECKPOINTs where they are due.
pub fn advance<R: Threads + Wait + Sync>(rt: &R, node: &mut Node) -> Given {
    node.advance(rt, Executor::serial(), &NoGate)
}

/// It makes a checkpoint.
pub fn checkpoint<R: Threads + Sync>(
    rt: &R,
    node: &mut Node,
) -> Result<Signed<Message>, NodeError> {
    node.checkpoint(rt)
}

/// Its digest, where its file system has not failed.
pub fn digest_of<R: Threads + Sync>(rt: &R, node: &Node) -> Result<[u8; 32], NodeError> {
    node.digest(rt)
}
