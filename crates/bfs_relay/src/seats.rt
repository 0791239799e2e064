ghost use Rattle.std.specs.Prelude.{◌≡◌, ◌≤◌, ◌++◌, Some, None, is_some, length, IfOk, OnOk};
ghost use Rattle.bfs_model.specs.Server.Limits.{most_request_bytes};
ghost use Rattle.bfs_relay.specs.Seats as model;
ghost use Rattle.bfs_clients.specs.Tallies.{agreed, is_signed_reply};

use crate::parcels::Parcels;
use bfs_clients::{Clients, Counter, Tally};
use bfs_codec::encode;
use bfs_frames::To;
use bfs_messages::{Message, Signed};
use bfs_types::{Bytes, MOST_REQUEST_BYTES, Memory};
use std::alloc::Global;
use std::marker::Model;

/// A call that came, and by what its caller knows the reply.
#[derive(Drop)]
pub(crate) struct Call {
    ticket: u64,
    bytes: Bytes<MOST_REQUEST_BYTES>,
}

impl Model for Call {
    ghost use Rattle.bfs_relay.specs.Seats as model;

    ghost Value = { model.Call };

    ghost view = { λ call. record { ticket = call.ticket; bytes = call.bytes } };
}

impl Call {
    /// With a copy of the bytes. `Memory` if memory runs out.
    pub fn new(alloc: Global, ticket: u64, bytes: &[u8]) -> Result<Call, Memory>
        requires { length bytes.now ≤ most_request_bytes }
        ensures { IfOk result (λ call. call ≡ record { ticket = ticket; bytes = bytes.now }) }
    {
        Ok(Call {
            ticket,
            bytes: Bytes::new(alloc, bytes)?,
        })
    }
}

/// A request whose result is waited for.
#[derive(Drop)]
struct Outstanding {
    ticket: u64,
    text: Vec<u8>,
    tally: Tally,
    // in microseconds
    sent_at: u64,
    patience: u64,
}

impl Model for Outstanding {
    ghost use Rattle.bfs_relay.specs.Seats as model;

    ghost Value = { model.Outstanding };

    ghost view = { λ one. record { ticket = one.ticket; text = one.text.items; tally = one.tally; sent_at = one.sent_at; patience = one.patience } };
}

/// How long a result is waited for first, in microseconds.
const FIRST_PATIENCE: u64 = 1_000_000;

/// How long at most.
const MOST_PATIENCE: u64 = 8_000_000;

/// Whether it was so long ago, or the clock was set back since. All are in microseconds.
pub(crate) fn is_past(since: u64, patience: u64, now: u64) -> bool
    ensures { result ≡ model.is_past since patience now }
{
    now < since || now - since >= patience
}

impl Outstanding {
    // Counts a reply, if it is one to this request.
    fn count(
        &mut self,
        clients: &Clients,
        signed: &Signed<Message>,
        passes: bool,
    ) -> Result<(), Memory>
        requires { passes ≡ is_signed_reply clients.now signed.now }
        ensures { OnOk result (self.new ≡ model.counted clients.now signed.now self.old) }
    {
        self.tally.add_checked(clients, signed, passes)
    }

    // Its caller is told the result, if there is one; gives whether there is.
    fn settle(&self, told: &mut Parcels) -> Result<bool, Memory>
        ensures told { OnOk result (told.new ≡ told.old ++ model.told_settling (Some self.now)) }
        ensures done { IfOk result (λ done. done ≡ is_some (agreed self.now.tally)) }
    {
        match self.tally.result() {
            Some(result) => {
                told.tell_reply(self.ticket, result)?;
                Ok(true)
            }
            None => Ok(false),
        }
    }

    // All replicas are told it, where it is due.
    fn ask_again(&mut self, now: u64, told: &mut Parcels) -> Result<(), Memory>
        ensures request { OnOk result (self.new ≡ model.sent_again now self.old) }
        ensures told { OnOk result (told.new ≡ told.old ++ model.told_again now (Some self.old)) }
    {
        if is_past(self.sent_at, self.patience, now) {
            told.tell_request(To::Replicas, self.text.as_slice())?;
            self.sent_at = now;
            self.patience = self.patience.saturating_mul(2).min(MOST_PATIENCE);
        }
        Ok(())
    }
}

/// A client, and the request of it that is under way.
#[derive(Drop)]
pub(crate) struct Seat {
    counter: Counter,
    request: Option<Outstanding>,
}

impl Model for Seat {
    ghost use Rattle.bfs_relay.specs.Seats as model;

    ghost Value = { model.Seat };

    ghost view = { λ seat. record { counter = seat.counter; request = seat.request } };
}

impl Seat {
    /// A client that is free.
    pub fn new(counter: Counter) -> Seat
        ensures { result ≡ record { counter = counter; request = None } }
    {
        Seat {
            counter,
            request: None,
        }
    }

    /// Whether it is the seat of that client.
    pub fn is_of(&self, client: u32) -> bool
        ensures { result ≡ model.is_of client self.now }
    {
        self.counter.client() == client
    }

    /// Whether the client has no request under way.
    pub fn is_free(&self) -> bool
        ensures { result ≡ model.is_free self.now }
    {
        self.request.is_none()
    }

    /// The timestamp of the client's next request.
    pub fn next(&self) -> u64
        ensures { result ≡ self.now.counter.next }
    {
        self.counter.next()
    }

    /// The client begins a call: it signs its bytes with its next timestamp, and the one that is asked first is told the request. Nothing happens where it
    /// has no keys, or its timestamps are used up. `Memory` if memory runs out.
    pub fn begin(
        &mut self,
        alloc: Global,
        clients: &Clients,
        now: u64,
        first: To,
        call: &Call,
        told: &mut Parcels,
    ) -> Result<(), Memory>
        ensures seat { OnOk result (self.new ≡ model.begun clients.now now call.now self.old) }
        ensures told { OnOk result (told.new ≡ told.old ++ model.told_beginning clients.now first call.now self.old) }
    {
        let Some(begun) = self.counter.call(clients, call.bytes.as_slice())? else {
            return Ok(());
        };
        let text = encode(alloc, &begun.request)?;
        told.tell_request(first, text.as_slice())?;
        self.request = Some(Outstanding {
            ticket: call.ticket,
            text,
            tally: begun.tally,
            sent_at: now,
            patience: FIRST_PATIENCE,
        });
        Ok(())
    }

    /// The client counts a reply, if it is one to its request. Once that gives it a result it is free again, and its caller is told. `Memory` if memory
    /// runs out.
    pub fn hear(
        &mut self,
        clients: &Clients,
        signed: &Signed<Message>,
        passes: bool,
        told: &mut Parcels,
    ) -> Result<(), Memory>
        requires { passes ≡ is_signed_reply clients.now signed.now }
        ensures seat { OnOk result (self.new ≡ model.heard clients.now signed.now self.old) }
        ensures told { OnOk result (told.new ≡ told.old ++ model.told_hearing clients.now signed.now self.old) }
    {
        let Some(request) = &mut self.request else {
            return Ok(());
        };
        request.count(clients, signed, passes)?;
        if request.settle(told)? {
            self.request = None;
        }
        Ok(())
    }

    /// All replicas are told its request, where it was waited for long enough. `Memory` if memory runs out.
    pub fn ask_again(&mut self, now: u64, told: &mut Parcels) -> Result<(), Memory>
        ensures seat { OnOk result (self.new ≡ model.asked_again now self.old) }
        ensures told { OnOk result (told.new ≡ told.old ++ model.told_asking now self.old) }
    {
        match &mut self.request {
            Some(request) => request.ask_again(now, told),
            None => Ok(()),
        }
    }
}
