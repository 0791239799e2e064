ghost use Rattle.std.specs.Prelude.{◌≡◌, ◌<◌, [], ◌∷◌, ◌++◌, false, take, length, ◌-◌, OnOk, OnErr, All};
ghost use Rattle.bfs_model.specs.Server.Limits.{most_replicas};
ghost use Rattle.bfs_votes.specs.Votes.{SlotsDiffer, is_taken};
ghost use Rattle.bfs_log.specs.Headers.{header};
ghost use Rattle.bfs_log.specs.Logs.{greatest_proposed, headers, kept_after};
ghost use Rattle.bfs_log.specs.Places.{place_of, said_at};

use crate::headers::{does_stay, place_of};
use crate::places::{Place, drop_up_to, greatest_in, pop_at, put_at, row_at};
use crate::said::Said;
use bfs_messages::{OrderMessage, Signed};
use bfs_types::Memory;
use std::alloc::Global;
use std::collections::BTreeMap;
use std::marker::Model;

/// The messages that a replica has accepted and not dropped, its own among them, in the order in which they came (OSDI 1999
/// section 4.2). Of each kind, sender, view and number there is at most one.
///
/// Beside them stands what was said at each kind, view and number, so that no question walks through all messages.
#[derive(Drop)]
pub struct Log {
    pub(crate) alloc: Global,
    messages: Vec<Signed<OrderMessage>>,
    places: BTreeMap<Place, Vec<Said>>,
}

impl Model for Log {
    ghost use Rattle.bfs_log.specs.Logs as model;
    ghost use Rattle.bfs_log.specs.Places.{IsIndexed};

    ghost Value = { model.Log };

    ghost view = { λ log. log.messages.items };

    ghost invariant = { λ log. IsIndexed log.messages.items log.places };
}

impl Log {
    /// No messages.
    pub fn new(alloc: Global) -> Log
        ensures { result ≡ [] }
    {
        Log {
            alloc,
            messages: Vec::new(alloc),
            places: BTreeMap::new(alloc),
        }
    }

    /// The messages, in the order in which they came.
    pub fn messages(&self) -> &[Signed<OrderMessage>]
        ensures { result.now ≡ self.now }
    {
        self.messages.as_slice()
    }

    /// No two messages have one kind, sender, view and number, and each sender can be a replica. The body does nothing: what is said
    /// is its contract.
    pub fn messages_differ(&self)
        ensures differ { SlotsDiffer (headers self.now) }
        ensures senders { All (λ m. (header m).sender < most_replicas) self.now }
    {
        let _messages = &self.messages;
    }

    // What is said at a place.
    pub(crate) fn row(&self, place: Place) -> &[Said]
        ensures { result.now ≡ said_at place self.now }
    {
        row_at(&self.places, place)
    }

    /// The greatest number of a PRE-PREPARE of a view, 0 where there is none.
    pub fn greatest_proposed(&self, view: u64) -> u64
        ensures { result ≡ greatest_proposed view (headers self.now) }
    {
        greatest_in(&self.places, view)
    }
}

impl Log {
    /// Puts a message behind the others. `Memory` if memory runs out; then nothing changes.
    pub fn push(&mut self, signed: Signed<OrderMessage>) -> Result<(), Memory>
        requires free { is_taken (headers self.old) (header signed) ≡ false }
        requires sender { (header signed).sender < most_replicas }
        ensures ok { OnOk result (self.new ≡ self.old ++ signed ∷ []) }
        ensures err { OnErr result (self.new ≡ self.old) }
    {
        let place = place_of(&signed.message);
        let said = Said::of(self.alloc, &signed)?;
        put_at(self.alloc, &mut self.places, place, said)?;
        match self.messages.push(signed) {
            Ok(()) => Ok(()),
            Err(refused) => {
                pop_at(&mut self.places, place);
                Err(Memory::from(refused))
            }
        }
    }

    /// Keeps the first messages, as many as are asked for, and forgets those behind them. It takes no memory.
    pub fn truncate(&mut self, count: usize)
        ensures { self.new ≡ take count self.old }
    {
        while count < self.messages.len() {
            self.pop();
        }
    }

    // Forgets the last message.
    fn pop(&mut self)
        ensures { self.new ≡ take (length self.old - 1) self.old }
    {
        if let Some(signed) = self.messages.pop() {
            pop_at(&mut self.places, place_in(signed));
        }
    }

    /// Drops the messages up to a checkpoint, but for the CHECKPOINTs that tell it (OSDI 1999 section 4.3). It takes no memory.
    pub fn drop_up_to(&mut self, number: u64, digest: &[u8; 32])
        ensures { self.new ≡ kept_after number digest.now self.old }
    {
        self.messages
            .retain(|signed| does_stay(&signed.message, number, digest));
        drop_up_to(&mut self.places, number, digest);
    }
}

// where it stood
fn place_in(signed: Signed<OrderMessage>) -> Place
    ensures { result ≡ place_of (header signed) }
{
    place_of(&signed.message)
}
