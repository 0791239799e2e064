ghost use Rattle.std.specs.Prelude.{◌≡◌, ◌≤◌, length, IfOk};
ghost use Rattle.std.specs.Arc.{arc_value};
ghost use Rattle.bfs_model.specs.Server.Limits.{most_number, most_reply_bytes};
ghost use Rattle.bfs_messages.specs.Batches.{reply_text};
ghost use Rattle.bfs_messages.specs.Limits.{FitsReply};

use crate::parts::Part;
use bfs_types::{Bytes, MOST_REPLY_BYTES, Memory, TryClone};
use bfs_xdr::Sink;
use std::alloc::Global;
use std::marker::Model;
use std::sync::Arc;

/// A replica's answer to a client's request: its timestamp, and the bytes of what came of the call (OSDI 1999 section 4.1). The view is at
/// most `MOST_NUMBER`. It may share the bytes with others.
#[derive(Drop)]
pub struct Reply {
    sender: u32,
    view: u64,
    client: u32,
    timestamp: u64,
    result: Arc<Bytes<MOST_REPLY_BYTES>>,
}

impl Model for Reply {
    ghost use Rattle.std.specs.Prelude.{◌≤◌};
    ghost use Rattle.std.specs.Arc.{arc_value};
    ghost use Rattle.bfs_model.specs.Server.Limits.{most_number};
    ghost use Rattle.bfs_messages.specs.Messages as model;

    ghost Value = { model.Reply };

    ghost view = { λ reply. record { sender = reply.sender; view = reply.view; client = reply.client; timestamp = reply.timestamp; result = arc_value reply.result } };

    ghost invariant = { λ reply. reply.view ≤ most_number };
}

impl Reply {
    /// Of a replica to a client, by their numbers, with a copy of the result, of at most `MOST_REPLY_BYTES` bytes. `Memory` if memory runs out.
    pub fn new(
        alloc: Global,
        sender: u32,
        view: u64,
        client: u32,
        timestamp: u64,
        bytes: &[u8],
    ) -> Result<Reply, Memory>
        requires view { view ≤ most_number }
        requires bytes { length bytes.now ≤ most_reply_bytes }
        ensures { IfOk result (λ reply. reply ≡ record { sender = sender; view = view; client = client; timestamp = timestamp; result = bytes.now }) }
    {
        let bytes = Arc::new(alloc, Bytes::new(alloc, bytes)?)?;
        Ok(Reply::sharing(sender, view, client, timestamp, bytes))
    }

    /// Of a replica to a client, with a result that it shares.
    pub fn sharing(
        sender: u32,
        view: u64,
        client: u32,
        timestamp: u64,
        bytes: Arc<Bytes<MOST_REPLY_BYTES>>,
    ) -> Reply
        requires { view ≤ most_number }
        ensures { result ≡ record { sender = sender; view = view; client = client; timestamp = timestamp; result = arc_value bytes } }
    {
        Reply {
            sender,
            view,
            client,
            timestamp,
            result: bytes,
        }
    }

    /// The replica that sends it.
    pub fn sender(&self) -> u32
        ensures { result ≡ self.now.sender }
    {
        self.sender
    }

    /// The view that the replica is in.
    pub fn view(&self) -> u64
        ensures value { result ≡ self.now.view }
        ensures within { result ≤ most_number }
    {
        self.view
    }

    /// The client to which it goes.
    pub fn client(&self) -> u32
        ensures { result ≡ self.now.client }
    {
        self.client
    }

    /// The timestamp of the request.
    pub fn timestamp(&self) -> u64
        ensures { result ≡ self.now.timestamp }
    {
        self.timestamp
    }

    /// What came of the call, to be shared.
    pub fn shared(&self) -> &Arc<Bytes<MOST_REPLY_BYTES>>
        ensures { arc_value result.now ≡ self.now.result }
    {
        &self.result
    }

    /// What came of the call.
    pub fn result(&self) -> &[u8]
        ensures value { result.now ≡ self.now.result }
        ensures within { length result.now ≤ most_reply_bytes }
    {
        self.result.as_slice()
    }
}

impl Part for Reply {
    ghost text = { reply_text };

    ghost fits = { FitsReply };

    fn put<S: Sink>(&self, out: &mut S) -> Result<(), S::Error> {
        out.u32(self.sender)?;
        out.u64(self.view)?;
        out.u32(self.client)?;
        out.u64(self.timestamp)?;
        out.opaque(self.result.as_slice())
    }
}

impl TryClone for Reply {
    fn try_clone(&self, _alloc: Global) -> Result<Reply, Memory> {
        Ok(Reply {
            sender: self.sender,
            view: self.view,
            client: self.client,
            timestamp: self.timestamp,
            result: Arc::try_clone(&self.result)?,
        })
    }
}
