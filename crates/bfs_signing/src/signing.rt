ghost use Rattle.std.specs.Prelude.{◌≡◌, ◌≤◌, ◌<◌, ◌+◌, ◌^◌, ◌++◌, ◌||◌, length, map, IfOk, OnOk};
ghost use Rattle.bfs_signatures.specs.Signing.{signatures_of_leaves};
ghost use Rattle.bfs_frames.specs.Parcels.{told_by};
ghost use Rattle.bfs_signing.specs.Indexes.{HasIndex, is_low, next_after, warnings};
ghost use Rattle.bfs_signing.specs.Requests.{most_texts, signed_texts, signed_told};
ghost use Rattle.bfs_signing.specs.Signing as model;
ghost use Rattle.bfs_signing.specs.Signing.{signing_with};

use crate::indexes::{is_low, tell_low};
use crate::replacing::with_signatures;
use crate::requests::leaves_of;
use bfs_filter::{Machine, TurnError};
use bfs_frames::{Parcel, Turn};
use bfs_relaying::{Reserve, Reserving};
use bfs_signatures::sign_all;
use bfs_types::Memory;
use lms::{SignError, Signer};
use std::alloc::Global;
use std::marker::Model;
use std::sync::Wait;
use std::thread::Threads;

/// How many indexes are reserved ahead of those that are used. A turn uses one at most, so a file is written once in so many turns; as many are lost where the
/// process ends.
pub const AHEAD: u64 = 1_024;

/// A relay that signs what it tells replicas, all that it tells in one turn at once, by an index that is reserved and was never used.
#[derive(Drop)]
pub struct Signing<F: Reserve, G: Reserve> {
    alloc: Global,
    relay: Reserving<F>,
    signer: Signer,
    next: u64,
    store: G,
    warned: bool,
}

impl<F: Reserve, G: Reserve> Model for Signing<F, G> {
    ghost use Rattle.std.specs.Prelude.{◌≤◌};
    ghost use Rattle.bfs_signing.specs.Signing as model;

    ghost Value = { model.Signing };

    ghost view = { λ one. record { relay = one.relay; key = one.signer; next = one.next; reserved = G.kept one.store; warned = one.warned } };

    ghost invariant = { λ one. one.next ≤ G.kept one.store };
}

impl<F: Reserve + Drop, G: Reserve + Drop> Signing<F, G> {
    /// The relay signs by that key from now on. It counts indexes from the number on that is reserved.
    pub fn new(alloc: Global, relay: Reserving<F>, signer: Signer, store: G) -> Signing<F, G>
        ensures { result ≡ signing_with relay signer (G.kept store) }
    {
        Signing {
            alloc,
            relay,
            signer,
            next: store.reserved(),
            store,
            warned: false,
        }
    }

    /// The next index: those from it on sign nothing yet.
    pub fn next(&self) -> u64
        ensures { result ≡ self.now.next }
    {
        self.next
    }

    /// The number of indexes that is reserved: those from it on were never used.
    pub fn reserved(&self) -> u64
        ensures { result ≡ self.now.reserved }
    {
        self.store.reserved()
    }

    // The next index, which is reserved from now on, and used.
    fn take_index(&mut self) -> Result<u64, TurnError>
        ensures index { IfOk result (λ index. index ≡ self.old.next) }
        ensures new { OnOk result (self.new ≡ record self.old { next = self.old.next + 1; reserved = self.new.reserved }) }
        ensures grows { self.old.reserved ≤ self.new.reserved }
        ensures within { OnOk result (self.old.next + 1 ≤ self.new.reserved) }
    {
        let index = self.next;
        if index == u64::MAX {
            return Err(TurnError::Spent);
        }
        if index >= self.store.reserved() {
            self.store.reserve(index.saturating_add(AHEAD))?;
        }
        self.next = index + 1;
        Ok(index)
    }

    // The signatures of the texts with these leaves, by the next index, unless there are none.
    fn sign(&mut self, leaves: &[[u8; 32]]) -> Result<Vec<Vec<u8>>, TurnError>
        requires { length leaves.now ≤ most_texts }
        ensures signatures { IfOk result (λ signatures. map (λ bytes. bytes.items) signatures.items ≡ signatures_of_leaves self.old.key self.old.next leaves.now) }
        ensures new { OnOk result (self.new ≡ record self.old { next = next_after self.old.next leaves.now; reserved = self.new.reserved }) }
        ensures has { OnOk result (HasIndex self.old.key self.old.next leaves.now) }
        ensures grows { self.old.reserved ≤ self.new.reserved }
        ensures within { OnOk result (self.new.next ≤ self.new.reserved) }
    {
        if leaves.is_empty() {
            return Ok(Vec::new(self.alloc));
        }
        let index = self.take_index()?;
        match sign_all(self.alloc, &mut self.signer, index, leaves) {
            Ok(signatures) => Ok(signatures),
            Err(SignError::NoIndex) => Err(TurnError::Spent),
            Err(SignError::Memory) => Err(TurnError::Memory),
        }
    }

    // What the relay tells, with signatures.
    #[tactic(auto, using(crate::proofs::Texts::next_of_leaves, crate::proofs::Texts::has_for_leaves))]
    fn signed(&mut self, parcels: Vec<Parcel>) -> Result<Vec<Parcel>, TurnError>
        ensures told { IfOk result (λ told. map told_by told.items ≡ signed_told self.old.key self.old.next (map told_by parcels.items)) }
        ensures new { OnOk result (self.new ≡ record self.old { next = next_after self.old.next (signed_texts (map told_by parcels.items)); reserved = self.new.reserved }) }
        ensures has { OnOk result (HasIndex self.old.key self.old.next (signed_texts (map told_by parcels.items))) }
        ensures grows { self.old.reserved ≤ self.new.reserved }
        ensures within { OnOk result (self.new.next ≤ self.new.reserved) }
    {
        let leaves = leaves_of(self.alloc, &parcels)?;
        let signatures = self.sign(&leaves)?;
        Ok(with_signatures(self.alloc, &signatures, parcels)?)
    }

    // The operator is told once that few indexes are left.
    fn warn(&mut self, parcels: &mut Vec<Parcel>) -> Result<(), Memory>
        ensures told { OnOk result (map told_by parcels.new.items ≡ map told_by parcels.old.items ++ warnings self.old.warned (is_low self.old.key self.old.next)) }
        ensures new { OnOk result (self.new ≡ record self.old { warned = self.old.warned || is_low self.old.key self.old.next }) }
    {
        if !self.warned && is_low(&self.signer, self.next) {
            tell_low(self.alloc, parcels)?;
            self.warned = true;
        }
        Ok(())
    }
}

impl<F: Reserve + Drop, G: Reserve + Drop> Machine for Signing<F, G> {
    ghost takes = { model.Signs };

    fn turn<H: Threads + Wait + Sync>(
        &mut self,
        rt: &H,
        turn: Turn,
    ) -> Result<Vec<Parcel>, TurnError> {
        let unsigned = self.relay.turn(rt, turn)?;
        let mut parcels = self.signed(unsigned)?;
        self.warn(&mut parcels)?;
        Ok(parcels)
    }

    // The trees grow that sign next.
    fn rest(&self) -> bool {
        self.signer.grow(self.alloc, self.next) || self.signer.grow_next(self.alloc, self.next)
    }
}
