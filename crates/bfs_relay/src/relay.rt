ghost use Rattle.std.specs.Prelude.{◌≡◌, ◌≤◌, All, length, slice_get, IfOk, OnOk};
ghost use Rattle.std.specs.List.{position};
ghost use Rattle.bfs_clients.specs.Tallies.{is_signed_reply};
ghost use Rattle.bfs_relay.specs.Relays as model;
ghost use Rattle.bfs_relay.specs.Seats.{is_free, is_of};
ghost use Rattle.bfs_relay.specs.Turns.{new_relay};

use crate::leaders::Views;
use crate::parcels::Parcels;
use crate::seats::{Call, Seat, is_past};
use bfs_clients::{Clients, Counter};
use bfs_messages::{Message, Signed};
use bfs_types::Memory;
use std::alloc::Global;
use std::collections::VecDeque;
use std::marker::Model;

/// How many calls may wait for a client to be free.
pub const MOST_WAITING: usize = 1_024;

// how long the operator isn't told again that calls are dropped, in microseconds
const SECOND: u64 = 1_000_000;

/// A relay, which speaks for some clients. Each of them has at most one request under way; calls wait until one is free, in the order in which they
/// came.
#[derive(Drop)]
pub struct Relay {
    pub(crate) alloc: Global,
    pub(crate) clients: Clients,
    seats: Vec<Seat>,
    calls: VecDeque<Call>,
    // in microseconds
    dropped_at: u64,
    views: Views,
    pub(crate) told: Parcels,
}

impl Model for Relay {
    ghost use Rattle.std.specs.Prelude.{◌≤◌, length};
    ghost use Rattle.bfs_relay.specs.Relays as model;

    ghost Value = { model.Relay };

    ghost view = { λ relay. record { clients = relay.clients; seats = relay.seats.items; calls = relay.calls.items; dropped_at = relay.dropped_at; views = relay.views; told = relay.told } };

    ghost invariant = { λ relay. length relay.calls.items ≤ model.most_waiting };
}

impl Relay {
    /// One that has done nothing. It speaks for the clients of the counters, which are different ones and have their keys among those of `clients`.
    /// `Memory` if memory runs out.
    pub fn new(alloc: Global, clients: Clients, counters: Vec<Counter>) -> Result<Relay, Memory>
        ensures { IfOk result (λ relay. relay ≡ new_relay clients counters.items) }
    {
        let seats = counters.into_iter().map(Seat::new).collect(alloc)?;
        Ok(Relay {
            alloc,
            clients,
            seats,
            calls: VecDeque::new(alloc),
            dropped_at: 0,
            views: Views::new(alloc)?,
            told: Parcels::new(alloc),
        })
    }

    /// A timestamp that no request has reached yet: none was signed with it or a later one. A relay that is started again has to count on from there.
    pub fn next_timestamp(&self) -> u64
        ensures { All (λ seat. seat.counter.next ≤ result) self.now.seats }
    {
        let mut next = 0;
        for seat in &self.seats {
            next = seat.next().max(next);
        }
        next
    }

    /// How many calls wait for a client to be free.
    pub fn waiting(&self) -> usize
        ensures value { result ≡ length self.now.calls }
        ensures within { result ≤ model.most_waiting }
    {
        self.calls.len()
    }

    fn free_place(&self) -> Option<usize>
        ensures { result ≡ position is_free self.now.seats }
    {
        self.seats.iter().position(
            |seat: &Seat| -> bool
                ensures { result ≡ is_free seat.now }
            { seat.is_free() },
        )
    }

    fn place_of(&self, client: u32) -> Option<usize>
        ensures { result ≡ position (is_of client) self.now.seats }
    {
        self.seats.iter().position(
            |seat: &Seat| -> bool
                ensures { result ≡ is_of client seat.now }
            { seat.is_of(client) },
        )
    }

    fn is_free_at(&self, place: usize) -> bool
        ensures { result ≡ model.is_free_among (slice_get self.now.seats place) }
    {
        match self.seats.get(place) {
            Some(seat) => seat.is_free(),
            None => false,
        }
    }

    fn begin_at(&mut self, now: u64, place: usize, call: &Call) -> Result<(), Memory>
        ensures { OnOk result (self.new ≡ model.begun_at now place call.now self.old) }
    {
        let first = self.views.leader(self.clients.f());
        match self.seats.get_mut(place) {
            Some(seat) => seat.begin(self.alloc, &self.clients, now, first, call, &mut self.told),
            None => Ok(()),
        }
    }

    fn begin_next(&mut self, now: u64, place: usize) -> Result<(), Memory>
        ensures { OnOk result (self.new ≡ model.next_begun now place self.old) }
    {
        if !self.is_free_at(place) {
            return Ok(());
        }
        match self.calls.pop_front() {
            Some(call) => self.begin_at(now, place, &call),
            None => Ok(()),
        }
    }

    fn queue(&mut self, now: u64, call: Call) -> Result<(), Memory>
        ensures { OnOk result (self.new ≡ model.queued now call self.old) }
    {
        if self.calls.len() < MOST_WAITING {
            self.calls.push_back(call)?;
            return Ok(());
        }
        self.drop_call(now)
    }

    fn drop_call(&mut self, now: u64) -> Result<(), Memory>
        ensures { OnOk result (self.new ≡ model.dropped now self.old) }
    {
        if is_past(self.dropped_at, SECOND, now) {
            self.told.tell_dropped()?;
            self.dropped_at = now;
        }
        Ok(())
    }

    /// A call that the replicas are to answer. `Memory` if memory runs out.
    pub(crate) fn take_call(&mut self, now: u64, call: Call) -> Result<(), Memory>
        ensures { OnOk result (self.new ≡ model.called now call self.old) }
    {
        match self.free_place() {
            Some(place) => self.begin_at(now, place, &call),
            None => self.queue(now, call),
        }
    }

    /// A message that is to be a reply. Where it is one, it tells its sender's view too. `Memory` if memory runs out.
    #[tactic(auto, using(crate::proofs::Keeping::heard_keeps))]
    pub(crate) fn hear(
        &mut self,
        now: u64,
        signed: &Signed<Message>,
        passes: bool,
    ) -> Result<(), Memory>
        requires { passes ≡ is_signed_reply self.old.clients signed.now }
        ensures heard { OnOk result (self.new ≡ model.relay_heard now self.old signed.now) }
        ensures keys { OnOk result (self.new.clients ≡ self.old.clients) }
    {
        self.views.hear(signed, passes);
        self.hear_reply(now, signed, passes)
    }

    fn hear_reply(&mut self, now: u64, signed: &Signed<Message>, passes: bool) -> Result<(), Memory>
        requires { passes ≡ is_signed_reply self.old.clients signed.now }
        ensures { OnOk result (self.new ≡ model.heard_as signed.now.message now signed.now self.old) }
    {
        let Message::Reply(reply) = &signed.message else {
            return Ok(());
        };
        let Some(place) = self.place_of(reply.client()) else {
            return Ok(());
        };
        self.hear_at(place, signed, passes)?;
        self.begin_next(now, place)
    }

    fn hear_at(
        &mut self,
        place: usize,
        signed: &Signed<Message>,
        passes: bool,
    ) -> Result<(), Memory>
        requires { passes ≡ is_signed_reply self.old.clients signed.now }
        ensures { OnOk result (self.new ≡ model.heard_by (slice_get self.old.seats place) place signed.now self.old) }
    {
        match self.seats.get_mut(place) {
            Some(seat) => seat.hear(&self.clients, signed, passes, &mut self.told),
            None => Ok(()),
        }
    }

    fn ask_at(&mut self, now: u64, place: usize) -> Result<(), Memory>
        ensures { OnOk result (self.new ≡ model.asked_at now self.old place) }
    {
        match self.seats.get_mut(place) {
            Some(seat) => seat.ask_again(now, &mut self.told),
            None => Ok(()),
        }
    }

    /// Each request whose result was waited for long enough is sent again. `Memory` if memory runs out.
    #[tactic(auto, using(crate::proofs::Folding::fold_more_numbers))]
    pub(crate) fn ask_all(&mut self, now: u64) -> Result<(), Memory>
        ensures { OnOk result (self.new ≡ model.all_asked now self.old) }
    {
        for place in 0..self.seats.len() {
            self.ask_at(now, place)?;
        }
        Ok(())
    }
}
