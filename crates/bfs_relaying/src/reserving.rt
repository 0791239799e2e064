ghost use Rattle.std.specs.Prelude.{◌≡◌, ◌≤◌, IfOk, OnOk};
ghost use Rattle.bfs_relaying.specs.Reserving as model;
ghost use Rattle.bfs_relaying.specs.Reserving.{begun};

use crate::reserve::Reserve;
use bfs_auth::Keys;
use bfs_filter::{Machine, TurnError};
use bfs_frames::{Parcel, Turn};
use bfs_relay::Relay;
use bfs_types::Memory;
use std::alloc::Global;
use std::io;
use std::marker::Model;
use std::sync::Wait;
use std::thread::Threads;

/// How many timestamps are reserved ahead of those that are used. Each client uses one a request, so a file is written once in about a million requests.
pub const AHEAD: u64 = 1 << 20;

/// A relay that tells what a turn makes of it only once the timestamps of all its requests are reserved.
#[derive(Drop)]
pub struct Reserving<S: Reserve> {
    relay: Relay,
    store: S,
}

impl<S: Reserve> Model for Reserving<S> {
    ghost use Rattle.bfs_relaying.specs.Reserving as model;

    ghost Value = { model.Reserving };

    ghost view = { λ one. record { relay = one.relay; reserved = S.kept one.store } };
}

impl<S: Reserve + Drop> Reserving<S> {
    /// A relay that has done nothing, for the clients whose keys these are: different ones, of numbers below `MOST_CLIENTS`; others are passed over. It
    /// counts timestamps from the number on that is reserved. At most `f` replicas are faulty. `Memory` if memory runs out.
    pub fn of_keys(alloc: Global, f: u32, keys: Vec<Keys>, store: S) -> Result<Reserving<S>, Memory>
        ensures { IfOk result (λ relay. relay ≡ begun f keys.items (S.kept store)) }
    {
        let relay = Relay::of_keys(alloc, f, keys, store.reserved())?;
        Ok(Reserving { relay, store })
    }

    /// The number that is reserved: timestamps from it on were not used.
    pub fn reserved(&self) -> u64
        ensures { result ≡ self.now.reserved }
    {
        self.store.reserved()
    }

    // Sees that the timestamps that were used are reserved, and some ahead.
    #[tactic(auto, using(crate::proofs::Counting::reserved_more))]
    fn reserve(&mut self) -> io::Result<()>
        ensures relay { self.new.relay ≡ self.old.relay }
        ensures within { OnOk result (model.AreReserved self.new.reserved self.new.relay) }
        ensures grows { self.old.reserved ≤ self.new.reserved }
    {
        let next = self.relay.next_timestamp();
        if next > self.store.reserved() {
            self.store.reserve(next.saturating_add(AHEAD))?;
        }
        Ok(())
    }
}

impl<S: Reserve + Drop> Machine for Reserving<S> {
    ghost takes = { model.Takes };

    fn turn<H: Threads + Wait + Sync>(
        &mut self,
        rt: &H,
        turn: Turn,
    ) -> Result<Vec<Parcel>, TurnError> {
        let parcels = self.relay.turn(rt, &turn)?;
        self.reserve()?;
        Ok(parcels)
    }

    fn rest(&self) -> bool {
        false
    }
}
