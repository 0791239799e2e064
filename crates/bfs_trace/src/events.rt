ghost use Rattle.std.specs.Prelude.{◌≡◌, ◌≤◌, [], length, IfOk};
ghost use Rattle.bfs_model.specs.Server.Limits.{most_request_bytes, most_requests};
ghost use Rattle.bfs_trace.specs.Inside.Reading.{Parses};
ghost use Rattle.bfs_trace.specs.Trace.{block_with, event_with};

use crate::fault::Fault;
use bfs_types::{MOST_REQUESTS, Memory, Time};
use std::alloc::Global;
use std::marker::Model;

/// A request as a line spells it, of which the call stands elsewhere.
#[derive(Drop)]
pub(crate) struct RequestText<'c> {
    client: u32,
    timestamp: u64,
    call: &'c [u8],
}

impl<'c> Model for RequestText<'c> {
    ghost use Rattle.std.specs.Prelude.{◌≤◌, length};
    ghost use Rattle.bfs_model.specs.Server.Limits.{most_request_bytes};
    ghost use Rattle.bfs_trace.specs.Events as model;

    ghost Value = { model.Request };

    ghost view = { λ text. record { client = text.client; timestamp = text.timestamp; call = text.call.now } };

    ghost invariant = { λ text. length text.call.now ≤ most_request_bytes };
}

impl<'c> RequestText<'c> {
    /// The request of that client with the bytes of a call message (RFC 5531 section 9).
    pub(crate) fn new(client: u32, timestamp: u64, call: &'c [u8]) -> RequestText<'c>
        requires { length call.now ≤ most_request_bytes }
        ensures { result ≡ record { client = client; timestamp = timestamp; call = call.now } }
    {
        RequestText {
            client,
            timestamp,
            call,
        }
    }
}

/// The call that a client sends under its timestamp. It has at most `MOST_REQUEST_BYTES` bytes.
#[derive(Debug, Drop)]
pub struct Request {
    client: u32,
    timestamp: u64,
    call: Vec<u8>,
}

impl Model for Request {
    ghost use Rattle.std.specs.Prelude.{◌≤◌, length};
    ghost use Rattle.bfs_model.specs.Server.Limits.{most_request_bytes};
    ghost use Rattle.bfs_trace.specs.Events as model;

    ghost Value = { model.Request };

    ghost view = { λ request. record { client = request.client; timestamp = request.timestamp; call = request.call.items } };

    ghost invariant = { λ request. length request.call.items ≤ most_request_bytes };
}

impl Request {
    /// The request that a line spells. `Memory` if memory runs out.
    pub(crate) fn spelled(alloc: Global, text: &RequestText<'_>) -> Result<Request, Memory>
        ensures { IfOk result (λ request. request ≡ text.now) }
    {
        Ok(Request {
            client: text.client,
            timestamp: text.timestamp,
            call: text.call.to_vec(alloc)?,
        })
    }

    /// The number of the client, counted from 0.
    pub fn client(&self) -> u32
        ensures { result ≡ self.now.client }
    {
        self.client
    }

    /// The number by which the client tells its requests apart.
    pub fn timestamp(&self) -> u64
        ensures { result ≡ self.now.timestamp }
    {
        self.timestamp
    }

    /// The bytes of the call message (RFC 5531 section 9).
    pub fn call(&self) -> &[u8]
        ensures value { result.now ≡ self.now.call }
        ensures within { length result.now ≤ most_request_bytes }
    {
        self.call.as_slice()
    }
}

/// Requests that are executed as one batch, at one time. There are at most `MOST_REQUESTS` of them.
#[derive(Debug, Drop)]
pub struct Block {
    time: Time,
    requests: Vec<Request>,
}

impl Model for Block {
    ghost use Rattle.std.specs.Prelude.{◌≤◌, length};
    ghost use Rattle.bfs_model.specs.Server.Limits.{most_requests};
    ghost use Rattle.bfs_trace.specs.Events as model;

    ghost Value = { model.Block };

    ghost view = { λ block. record { time = block.time; requests = block.requests.items } };

    ghost invariant = { λ block. length block.requests.items ≤ most_requests };
}

impl Block {
    /// A block at that time that has no requests yet.
    pub(crate) fn new(alloc: Global, time: Time) -> Block
        ensures { result ≡ record { time = time; requests = [] } }
    {
        Block {
            time,
            requests: Vec::new(alloc),
        }
    }

    /// Puts a request behind the others, if there is room for it.
    pub(crate) fn push(&mut self, alloc: Global, text: &RequestText<'_>) -> Result<(), Fault>
        ensures { Parses (λ _. self.new) result (block_with text.now self.old) }
    {
        if self.requests.len() == MOST_REQUESTS {
            return Err(Fault::Bad);
        }
        self.requests.push(Request::spelled(alloc, text)?)?;
        Ok(())
    }

    /// The time that is proposed for the batch.
    pub fn time(&self) -> Time
        ensures { result ≡ self.now.time }
    {
        self.time
    }

    /// The requests in their order.
    pub fn requests(&self) -> &[Request]
        ensures value { result.now ≡ self.now.requests }
        ensures within { length result.now ≤ most_requests }
    {
        self.requests.as_slice()
    }
}

/// One thing that happens in a trace.
#[derive(Debug, Drop)]
pub enum TraceEvent {
    /// Requests are executed as one batch.
    Block(Block),
    /// The replica of that number falls silent: it sends and receives nothing.
    Silent(u32),
    /// The replica of that number is heard again.
    Heard(u32),
    /// Each replica that is heard has waited too long, and asks for the next view (OSDI 1999 section 4.4).
    Timeout,
}

impl TraceEvent {
    /// Puts a request behind the others of a block with room for it. Other events have no requests.
    pub(crate) fn push_request(
        &mut self,
        alloc: Global,
        text: &RequestText<'_>,
    ) -> Result<(), Fault>
        ensures { Parses (λ _. self.new) result (event_with text.now self.old) }
    {
        match self {
            TraceEvent::Block(block) => block.push(alloc, text),
            _ => Err(Fault::Bad),
        }
    }
}
