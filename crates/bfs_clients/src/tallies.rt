ghost use Rattle.std.specs.Prelude.{◌≡◌, ℕ, [], ◌∷◌, ◌++◌, filter, length, map, take, IfOk, OnErr, OnOk, if◌then◌else◌};
ghost use Rattle.bfs_clients.specs.Tallies.{all_tallied, is_signed_reply, tallied_by, waits};
ghost use Rattle.bfs_clients.specs.Inside.Places.{changes, name_of, put_all, row_at, same_name};
ghost use Rattle.bfs_clients.specs.declared.tallies.Name as declared;

use crate::clients::Clients;
use crate::tally::Tally;
use bfs_messages::{Message, Signed};
use bfs_types::Memory;
use std::alloc::Global;
use std::collections::BTreeMap;
use std::marker::Model;
use std::thread::Threads;

/// What a tally is found by: its client, and the client's timestamp.
#[derive(Clone, Copy, Debug, PartialEq, Eq, PartialOrd, Ord)]
struct Name {
    client: u32,
    timestamp: u64,
}

impl Name {
    fn of(tally: &Tally) -> Name
        ensures { result ≡ name_of tally.now }
    {
        Name {
            client: tally.client(),
            timestamp: tally.timestamp(),
        }
    }
}

/// Tallies of requests, in the order in which they were put here. A message is counted by each of them; those that it may concern are found
/// by client and timestamp, so it costs no walk. A client may send a request of one timestamp more than once: each time may have a tally of
/// its own, since they begin at different times.
#[derive(Drop)]
pub struct Tallies {
    alloc: Global,
    tallies: Vec<Tally>,
    // where those of a name are. (a place may stand here where memory ran out before its tally was put there)
    places: BTreeMap<Name, Vec<usize>>,
}

impl Model for Tallies {
    ghost use Rattle.std.specs.Prelude.{List};
    ghost use Rattle.bfs_clients.specs.Tallies.{Tally};
    ghost use Rattle.bfs_clients.specs.Inside.Places as model;

    ghost Value = { List Tally };

    ghost view = { λ all. all.tallies.items };

    ghost invariant = { λ all. model.AreFound all.places.entries all.tallies.items };
}

impl Tallies {
    /// None yet. It takes no memory.
    pub fn new(alloc: Global) -> Tallies
        ensures { result ≡ [] }
    {
        Tallies {
            alloc,
            tallies: Vec::new(alloc),
            places: BTreeMap::new(alloc),
        }
    }

    /// Puts a tally behind the others. `Memory` if memory runs out; then nothing changes.
    pub fn push(&mut self, tally: Tally) -> Result<(), Memory>
        ensures ok { OnOk result (self.new ≡ self.old ++ tally ∷ []) }
        ensures err { OnErr result (self.new ≡ self.old) }
    {
        let place = self.tallies.len();
        put(self.alloc, &mut self.places, Name::of(&tally), place)?;
        self.tallies.push(tally)?;
        Ok(())
    }

    /// The tallies, in their order.
    pub fn as_slice(&self) -> &[Tally]
        ensures { result.now ≡ self.now }
    {
        self.tallies.as_slice()
    }

    /// Counts a message by each tally, as `Tally::add` does. `Memory` if memory runs out; then nothing changes.
    pub fn add(&mut self, clients: &Clients, signed: &Signed<Message>) -> Result<(), Memory>
        ensures ok { OnOk result (self.new ≡ map (λ tally. tallied_by clients.now tally signed.now) self.old) }
        ensures err { OnErr result (self.new ≡ self.old) }
    {
        self.count(clients, signed, clients.is_signed(signed))
    }

    /// Counts messages one after another, each as `add` does. Their keyed hashes are checked first, by as many threads as there are
    /// processors, unless there is too little to hash for them. `Memory` if memory runs out; then those before one of them are counted.
    pub fn add_all(
        &mut self,
        rt: &(impl Threads + Sync),
        clients: &Clients,
        messages: &[Signed<Message>],
    ) -> Result<(), Memory>
        ensures ok { OnOk result (self.new ≡ all_tallied clients.now messages.now self.old) }
        ensures err { OnErr result ((count : ℕ) × (self.new ≡ all_tallied clients.now (take count messages.now) self.old)) }
    {
        let passes = clients.are_signed(rt, messages)?;
        self.add_checked(clients, messages, &passes)
    }

    /// What `add_all` does, where `Clients::are_signed` has told which messages pass.
    pub fn add_checked(
        &mut self,
        clients: &Clients,
        messages: &[Signed<Message>],
        passes: &[bool],
    ) -> Result<(), Memory>
        requires { passes.now ≡ map (is_signed_reply clients.now) messages.now }
        ensures ok { OnOk result (self.new ≡ all_tallied clients.now messages.now self.old) }
        ensures err { OnErr result ((count : ℕ) × (self.new ≡ all_tallied clients.now (take count messages.now) self.old)) }
    {
        for number in 0..messages.len() {
            self.count(clients, &messages[number], passes[number])?;
        }
        Ok(())
    }

    fn count(
        &mut self,
        clients: &Clients,
        signed: &Signed<Message>,
        passes: bool,
    ) -> Result<(), Memory>
        requires { passes ≡ is_signed_reply clients.now signed.now }
        ensures ok { OnOk result (self.new ≡ map (λ tally. tallied_by clients.now tally signed.now) self.old) }
        ensures err { OnErr result (self.new ≡ self.old) }
    {
        let Message::Reply(reply) = &signed.message else {
            return Ok(());
        };
        let name = Name {
            client: reply.client(),
            timestamp: reply.timestamp(),
        };
        let Some(places) = self.places.get(&name) else {
            return Ok(());
        };
        let changed = changes_at(self.alloc, &self.tallies, places, clients, signed, passes)?;
        put_back(&mut self.tallies, changed);
        Ok(())
    }

    /// Takes over those of other tallies that have no result yet, behind its own. `Memory` if memory runs out; then it has taken over the
    /// first ones of them.
    pub fn append_waiting(&mut self, others: Tallies) -> Result<(), Memory>
        ensures ok { OnOk result (self.new ≡ self.old ++ filter waits others) }
        ensures err { OnErr result ((count : ℕ) × (self.new ≡ self.old ++ take count (filter waits others))) }
    {
        let Tallies { tallies, .. } = others;
        for tally in tallies {
            if tally.waits() {
                self.push(tally)?;
            }
        }
        Ok(())
    }
}

// Puts a place behind the others of a name.
fn put(
    alloc: Global,
    places: &mut BTreeMap<Name, Vec<usize>>,
    name: Name,
    place: usize,
) -> Result<(), Memory>
    ensures ok { OnOk result ((other : declared.Name) → row_at places.new.entries other ≡ row_at places.old.entries other ++ (if same_name name other then place ∷ [] else [])) }
    ensures err { OnErr result ((other : declared.Name) → row_at places.new.entries other ≡ row_at places.old.entries other) }
{
    if let Some(row) = places.get_mut(&name) {
        row.push(place)?;
        return Ok(());
    }
    let mut row = Vec::new(alloc);
    row.push(place)?;
    places.insert(name, row)?;
    Ok(())
}

// What a message makes of the tallies at some places. They are copies, so that nothing has changed where memory runs out.
fn changes_at(
    alloc: Global,
    tallies: &[Tally],
    places: &[usize],
    clients: &Clients,
    signed: &Signed<Message>,
    passes: bool,
) -> Result<Vec<(usize, Tally)>, Memory>
    requires { passes ≡ is_signed_reply clients.now signed.now }
    ensures { IfOk result (λ changed. changed.items ≡ changes (λ tally. tallied_by clients.now tally signed.now) tallies.now places.now) }
{
    let mut changed = Vec::with_capacity(alloc, places.len())?;
    for place in places {
        if let Some(tally) = tallies.get(*place) {
            changed.push((*place, tally.with_checked(clients, signed, passes)?))?;
        }
    }
    Ok(changed)
}

fn put_back(tallies: &mut Vec<Tally>, changed: Vec<(usize, Tally)>)
    ensures { tallies.new.items ≡ put_all tallies.old.items changed.items }
{
    for (place, tally) in changed {
        if place < tallies.len() {
            tallies[place] = tally;
        }
    }
}
