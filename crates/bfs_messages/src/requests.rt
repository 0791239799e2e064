ghost use Rattle.std.specs.Prelude.{◌≡◌, ◌≤◌, length, IfOk};
ghost use Rattle.std.specs.Arc.{arc_value};
ghost use Rattle.bfs_model.specs.Server.Limits.{most_request_bytes};
ghost use Rattle.bfs_messages.specs.Batches.{request_text};
ghost use Rattle.bfs_messages.specs.Limits.{FitsRequest};
ghost use Rattle.bfs_votes.specs.Tags.{request_tag};

use crate::parts::{Kind, Part};
use crate::tags::REQUEST_TAG;
use bfs_types::{Bytes, MOST_REQUEST_BYTES, Memory, TryClone};
use bfs_xdr::Sink;
use std::alloc::Global;
use std::marker::Model;
use std::sync::Arc;

/// What a client asks for: the bytes of a call, with a timestamp above those of its requests before (OSDI 1999 section 4.1). It may share
/// the call with others.
#[derive(Drop)]
pub struct Request {
    client: u32,
    timestamp: u64,
    call: Arc<Bytes<MOST_REQUEST_BYTES>>,
}

impl Model for Request {
    ghost use Rattle.std.specs.Arc.{arc_value};
    ghost use Rattle.bfs_messages.specs.Messages as model;

    ghost Value = { model.Request };

    ghost view = { λ request. record { client = request.client; timestamp = request.timestamp; call = arc_value request.call } };
}

impl Request {
    /// With a copy of the call, of at most `MOST_REQUEST_BYTES` bytes. `Memory` if memory runs out.
    pub fn new(alloc: Global, client: u32, timestamp: u64, call: &[u8]) -> Result<Request, Memory>
        requires { length call.now ≤ most_request_bytes }
        ensures { IfOk result (λ request. request ≡ record { client = client; timestamp = timestamp; call = call.now }) }
    {
        Ok(Request {
            client,
            timestamp,
            call: Arc::new(alloc, Bytes::new(alloc, call)?)?,
        })
    }

    /// The number of the client, who sends it.
    pub fn client(&self) -> u32
        ensures { result ≡ self.now.client }
    {
        self.client
    }

    /// The client's timestamp.
    pub fn timestamp(&self) -> u64
        ensures { result ≡ self.now.timestamp }
    {
        self.timestamp
    }

    /// The bytes of the call.
    pub fn call(&self) -> &[u8]
        ensures value { result.now ≡ self.now.call }
        ensures within { length result.now ≤ most_request_bytes }
    {
        self.call.as_slice()
    }
}

impl TryClone for Request {
    fn try_clone(&self, _alloc: Global) -> Result<Request, Memory> {
        Ok(Request {
            client: self.client,
            timestamp: self.timestamp,
            call: Arc::try_clone(&self.call)?,
        })
    }
}

impl Part for Request {
    ghost text = { request_text };

    ghost fits = { FitsRequest };

    fn put<S: Sink>(&self, out: &mut S) -> Result<(), S::Error> {
        out.u32(self.client)?;
        out.u64(self.timestamp)?;
        out.opaque(self.call.as_slice())
    }
}

impl Kind for Request {
    ghost TAG = { request_tag };

    const TAG: u32 = REQUEST_TAG;
}
