ghost use Rattle.std.specs.List.{All};
ghost use Rattle.std.specs.Prelude.{◌≡◌, ◌+◌, ◌<◌, ◌≤◌, ◌↔◌, [], ◌∷◌, ◌++◌, length, slice_get, Some, IsTrue, OnOk, OnErr, IsErrOf};
ghost use Rattle.bfs_model.specs.Server.Limits.{most_request_bytes, most_requests};
ghost use Rattle.bfs_model.specs.Server.Stored.{AreBytes};
ghost use Rattle.bfs_model.specs.Server.Tree.{epoch};
ghost use Rattle.bfs_serial.specs.Errors.{push_code_of};

use bfs_types::{MOST_REQUEST_BYTES, MOST_REQUESTS, Time};
use std::alloc::Global;
use std::marker::Model;
use thiserror::Error;

/// Why a batch does not take a request. It is then as it was.
#[derive(Clone, Copy, Debug, PartialEq, Eq, Error)]
pub enum PushError {
    /// It has more than 16,384 bytes.
    #[error("a request has at most 16,384 bytes")]
    RequestTooLong,
    /// The batch has 1,024 requests already.
    #[error("a batch has at most 1,024 requests")]
    BatchFull,
    /// Memory ran out.
    #[error("out of memory")]
    Memory,
}

impl PushError {
    /// The number of the refusal.
    pub fn code(self) -> u32
        ensures { result ≡ push_code_of self }
    {
        match self {
            PushError::RequestTooLong => 12,
            PushError::BatchFull => 13,
            PushError::Memory => 40,
        }
    }
}

/// The bytes of one request: at most `MOST_REQUEST_BYTES`.
#[derive(Debug, Drop)]
pub struct Request {
    bytes: Vec<u8>,
}

impl Model for Request {
    ghost use Rattle.std.specs.Prelude.{ℕ, List, ◌≤◌, length};
    ghost use Rattle.bfs_model.specs.Server.Limits.{most_request_bytes};

    ghost Value = { List ℕ };

    ghost view = { λ request. request.bytes.items };

    ghost invariant = { λ request. length request.bytes.items ≤ most_request_bytes };
}

impl Request {
    /// The bytes.
    pub fn as_slice(&self) -> &[u8]
        ensures { result.now ≡ self.now }
    {
        self.bytes.as_slice()
    }
}

/// At most `MOST_REQUESTS` requests of at most `MOST_REQUEST_BYTES` bytes each, whatever these are, to be executed one after
/// another, and the time that is proposed for it.
#[derive(Debug, Drop)]
pub struct Batch {
    alloc: Global,
    time: Time,
    requests: Vec<Request>,
}

impl Model for Batch {
    ghost use Rattle.std.specs.List.{All};
    ghost use Rattle.std.specs.Prelude.{◌≤◌, length};
    ghost use Rattle.bfs_model.specs.Server.Limits.{most_requests};
    ghost use Rattle.bfs_model.specs.Server.Serial as model;
    ghost use Rattle.bfs_model.specs.Server.Stored.{AreBytes};

    ghost Value = { model.Batch };

    ghost view = { λ batch. record { time = batch.time; requests = batch.requests.items } };

    ghost invariant = { λ batch. (length batch.requests.items ≤ most_requests) × All AreBytes batch.requests.items };
}

impl Batch {
    /// A batch with no requests, at the beginning of 1970.
    pub fn new(alloc: Global) -> Batch
        ensures { result ≡ record { time = epoch; requests = [] } }
    {
        Batch {
            alloc,
            time: Time::epoch(),
            requests: Vec::new(alloc),
        }
    }

    /// Puts a copy of the request's bytes at the end.
    #[tactic(auto, using(crate::proofs::Bytes::and_one_more))]
    pub fn push(&mut self, request: &[u8]) -> Result<(), PushError>
        ensures ok { OnOk result (self.new ≡ record self.old { requests = self.old.requests ++ request.now ∷ [] }) }
        ensures err { OnErr result (self.new ≡ self.old) }
        ensures too_long { IsErrOf result PushError.RequestTooLong ↔ (most_request_bytes < length request.now) }
        ensures full { IsErrOf result PushError.BatchFull ↔ ((length request.now ≤ most_request_bytes) × (length self.old.requests ≡ most_requests)) }
    {
        if request.len() > MOST_REQUEST_BYTES {
            return Err(PushError::RequestTooLong);
        }
        if self.requests.len() == MOST_REQUESTS {
            return Err(PushError::BatchFull);
        }
        let Ok(bytes) = request.to_vec(self.alloc) else {
            return Err(PushError::Memory);
        };
        match self.requests.push(Request { bytes }) {
            Ok(()) => Ok(()),
            Err(_) => Err(PushError::Memory),
        }
    }

    /// How many requests there are.
    pub fn len(&self) -> usize
        ensures value { result ≡ length self.now.requests }
        ensures within { result ≤ most_requests }
    {
        self.requests.len()
    }

    /// Whether there are no requests.
    pub fn is_empty(&self) -> bool
        ensures { IsTrue result ↔ (self.now.requests ≡ []) }
    {
        self.requests.is_empty()
    }

    /// The bytes of the request at that place, from 0 on.
    pub fn request(&self, index: usize) -> &[u8]
        requires { index < length self.now.requests }
        ensures { slice_get self.now.requests index ≡ Some result.now }
    {
        self.requests[index].as_slice()
    }

    /// All requests, in order; they are bytes.
    pub fn requests(&self) -> &[Request]
        ensures value { result.now ≡ self.now.requests }
        ensures bytes { All AreBytes self.now.requests }
    {
        self.requests.as_slice()
    }

    /// Proposes a time for it.
    pub fn set_time(&mut self, time: Time)
        ensures { self.new ≡ record self.old { time = time } }
    {
        self.time = time;
    }

    /// The time that is proposed for it.
    pub fn time(&self) -> Time
        ensures { result ≡ self.now.time }
    {
        self.time
    }
}
