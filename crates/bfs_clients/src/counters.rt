// Clients that count the timestamps of their requests.
ghost use Rattle.std.specs.Prelude.{◌≡◌, ◌≤◌, length, IfOk};
ghost use Rattle.bfs_model.specs.Server.Limits.{most_request_bytes};
ghost use Rattle.bfs_clients.specs.Counters.{counted_call, counter_after};

use crate::clients::{Call, Clients};
use bfs_types::Memory;
use std::marker::Model;

/// Counts the timestamps of one client's requests, so that no two have the same one (OSDI 1999 section 4.1). A client that is started anew has to
/// begin above all timestamps that it has used: where it does not, a new request may be answered with the reply to an old one.
#[derive(Drop)]
pub struct Counter {
    client: u32,
    next: u64,
}

impl Model for Counter {
    ghost use Rattle.bfs_clients.specs.Counters as model;

    ghost Value = { model.Counter };

    ghost view = { λ counter. record { client = counter.client; next = counter.next } };
}

impl Counter {
    /// Counts for that client, from that timestamp on.
    pub fn new(client: u32, next: u64) -> Counter
        ensures { result ≡ record { client = client; next = next } }
    {
        Counter { client, next }
    }

    /// Whose requests it counts.
    pub fn client(&self) -> u32
        ensures { result ≡ self.now.client }
    {
        self.client
    }

    /// The timestamp of the next request: what a client has to keep over a restart.
    pub fn next(&self) -> u64
        ensures { result ≡ self.now.next }
    {
        self.next
    }

    /// Begins a call with the next timestamp: the signed request, and a tally without replies. None where there is no such client, or where
    /// timestamps of 64 bits are used up. Where memory runs out, the timestamp is still to be used.
    pub fn call(&mut self, clients: &Clients, bytes: &[u8]) -> Result<Option<Call>, Memory>
        requires { length bytes.now ≤ most_request_bytes }
        ensures call { IfOk result (λ call. call ≡ counted_call clients.now self.old bytes.now) }
        ensures counter { self.new ≡ counter_after self.old result }
    {
        let Some(next) = self.next.checked_add(1) else {
            return Ok(None);
        };
        let Some(call) = clients.call(self.client, self.next, bytes)? else {
            return Ok(None);
        };
        self.next = next;
        Ok(Some(call))
    }
}
