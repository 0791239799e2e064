ghost use Rattle.std.specs.Prelude.{◌≡◌, ◌≤◌, ◌<◌, ◌↔◌, ◌≢◌, length, replicate, None, IfOk, IfSome, OnOk, OnErr, IsErrOf};
ghost use Rattle.std.specs.Option.{option_map};
ghost use Rattle.bfs_model.specs.Server.Limits.{most_clients, most_reply_bytes};
ghost use Rattle.bfs_replies.specs.Classes.{class_behind, class_of, timestamp_of, timestamps_of};
ghost use Rattle.bfs_replies.specs.Errors.{record_code_of};
ghost use Rattle.bfs_replies.specs.Tables.{IsKept, last_of, recorded};

use crate::timestamps::{Timestamps, timestamps_in};
use bfs_types::{Bytes, MOST_REPLY_BYTES, Memory, TryClone, copies_of};
use std::alloc::Global;
use std::marker::Model;
use std::sync::Arc;
use thiserror::Error;

/// What a request is to its client's last one.
#[derive(Clone, Copy, Debug, PartialEq, Eq)]
pub enum Class {
    /// Later than the last one, or the first of its client: to be executed.
    New,
    /// The last one once more: it gets the reply that was recorded.
    Repeat,
    /// Earlier than the last one: it gets no reply.
    Old,
    /// Of a client that there isn't.
    Unknown,
}

impl Class {
    /// By the timestamp of its client's last request, if there was one.
    pub(crate) fn behind(last: Option<u64>, timestamp: u64) -> Class
        ensures { result ≡ class_behind last timestamp }
    {
        match last {
            None => Class::New,
            Some(last) => {
                if last < timestamp {
                    Class::New
                } else if last == timestamp {
                    Class::Repeat
                } else {
                    Class::Old
                }
            }
        }
    }
}

/// Why a reply is not recorded. The table is then as it was.
#[derive(Clone, Copy, Debug, PartialEq, Eq, Error)]
pub enum RecordError {
    /// The timestamp is not above the client's last one.
    #[error("the client has a reply to a request as late")]
    NotNewer,
    /// Memory ran out.
    #[error("out of memory")]
    Memory,
}

impl RecordError {
    /// The number of the refusal.
    pub fn code(self) -> u32
        ensures { result ≡ record_code_of self }
    {
        match self {
            RecordError::NotNewer => 33,
            RecordError::Memory => 40,
        }
    }
}

#[derive(Debug, Drop)]
pub(crate) struct Last {
    pub(crate) timestamp: u64,
    pub(crate) reply: Arc<Bytes<MOST_REPLY_BYTES>>,
}

impl Model for Last {
    ghost use Rattle.std.specs.Arc.{arc_value};
    ghost use Rattle.bfs_replies.specs.Tables as model;

    ghost Value = { model.Last };

    ghost view = { λ last. record { timestamp = last.timestamp; reply = arc_value last.reply } };
}

impl Last {
    /// With a copy of a reply. `Memory` if memory runs out.
    pub(crate) fn new(alloc: Global, timestamp: u64, reply: &[u8]) -> Result<Last, Memory>
        requires { length reply.now ≤ most_reply_bytes }
        ensures { IfOk result (λ last. last ≡ record { timestamp = timestamp; reply = reply.now }) }
    {
        Ok(Last {
            timestamp,
            reply: Arc::new(alloc, Bytes::new(alloc, reply)?)?,
        })
    }
}

/// Of each client, by their numbers from 0 on, the timestamp of its last request that was executed, and the bytes of the reply to
/// it, at most `MOST_REPLY_BYTES` (OSDI 1999 section 4.1). At most `MOST_CLIENTS` clients.
#[derive(Debug, Drop)]
pub struct ReplyTable {
    pub(crate) alloc: Global,
    pub(crate) clients: Vec<Option<Last>>,
}

impl Model for ReplyTable {
    ghost use Rattle.bfs_replies.specs.Tables as model;

    ghost Value = { model.Table };

    ghost view = { λ table. table.clients.items };

    ghost invariant = { λ table. model.IsKept table.clients.items };
}

impl ReplyTable {
    /// A table of so many clients, at most `MOST_CLIENTS`, with no replies. `Memory` if memory runs out.
    #[tactic(auto, using(crate::proofs::Keeping::none_kept))]
    pub fn new(alloc: Global, clients: u32) -> Result<ReplyTable, Memory>
        requires { clients ≤ most_clients }
        ensures { IfOk result (λ table. table ≡ replicate clients None) }
    {
        Ok(ReplyTable {
            alloc,
            clients: none_yet(alloc, clients)?,
        })
    }

    /// How many clients there are: they have the numbers below. Every table keeps timestamps of 64 bits, and replies of at most
    /// `MOST_REPLY_BYTES` bytes.
    pub fn clients(&self) -> u32
        ensures value { result ≡ length self.now }
        ensures within { result ≤ most_clients }
        ensures kept { IsKept self.now }
    {
        self.clients.len() as u32
    }

    /// What a client's request with that timestamp is to its last one. It takes no memory.
    #[tactic(auto, using(crate::proofs::Recording::timestamp_found))]
    pub fn classify(&self, client: u32, timestamp: u64) -> Class
        ensures { result ≡ class_of self.now client timestamp }
    {
        match self.clients.get(client as usize) {
            None => Class::Unknown,
            Some(last) => Class::behind(timestamp_of(last), timestamp),
        }
    }

    /// The timestamp of each client's last request, without the reply to it. `Memory` if memory runs out.
    pub fn timestamps(&self) -> Result<Timestamps, Memory>
        ensures { IfOk result (λ timestamps. timestamps ≡ timestamps_of self.now) }
    {
        timestamps_in(self.alloc, &self.clients)
    }

    /// A client's last timestamp, with the reply to it; `None` where there is no reply to it yet, or no such client. It takes no
    /// memory.
    pub fn last(&self, client: u32) -> Option<(u64, &[u8])>
        ensures value { option_map (λ last. record { timestamp = last.0; reply = last.1.now }) result ≡ last_of self.now client }
        ensures short { IfSome result (λ last. length last.1.now ≤ most_reply_bytes) }
    {
        match self.clients.get(client as usize) {
            Some(Some(last)) => Some((last.timestamp, last.reply.as_slice())),
            _ => None,
        }
    }

    /// Puts a copy of a reply in the place of the client's last one. It is refused unless `classify` answers `New`.
    #[tactic(auto, using(crate::proofs::Keeping::recorded_kept))]
    pub fn record(&mut self, client: u32, timestamp: u64, reply: &[u8]) -> Result<(), RecordError>
        requires known { client < length self.old }
        requires short { length reply.now ≤ most_reply_bytes }
        ensures ok { OnOk result (self.new ≡ recorded self.old client timestamp reply.now) }
        ensures err { OnErr result (self.new ≡ self.old) }
        ensures newer { IsErrOf result RecordError.NotNewer ↔ (class_of self.old client timestamp ≢ Class.New) }
    {
        if self.classify(client, timestamp) != Class::New {
            return Err(RecordError::NotNewer);
        }
        let Ok(last) = Last::new(self.alloc, timestamp, reply) else {
            return Err(RecordError::Memory);
        };
        self.clients[client as usize] = Some(last);
        Ok(())
    }
}

impl TryClone for ReplyTable {
    fn try_clone(&self, alloc: Global) -> Result<ReplyTable, Memory> {
        Ok(ReplyTable {
            alloc,
            clients: copies_of(alloc, &self.clients)?,
        })
    }
}

// they share the reply
impl TryClone for Last {
    fn try_clone(&self, _alloc: Global) -> Result<Last, Memory> {
        Ok(Last {
            timestamp: self.timestamp,
            reply: Arc::try_clone(&self.reply)?,
        })
    }
}

pub(crate) fn timestamp_of(last: &Option<Last>) -> Option<u64>
    ensures { result ≡ timestamp_of last.now }
{
    match last {
        None => None,
        Some(last) => Some(last.timestamp),
    }
}

#[tactic(auto, using(std::proofs::lemmas::List::replicate_more))]
fn none_yet(alloc: Global, clients: u32) -> Result<Vec<Option<Last>>, Memory>
    ensures { IfOk result (λ all. all.items ≡ replicate clients None) }
{
    let mut all = Vec::new(alloc);
    for _ in 0..clients {
        all.push(None)?;
    }
    Ok(all)
}
