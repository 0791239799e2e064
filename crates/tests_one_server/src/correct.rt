//! Clients that do as they should: each has one request under way at a time, its timestamps rise, and it accepts what f + 1 replicas tell it.
use crate::book::Book;
use bfs_clients::{Call, Clients, Tallies, Tally};
use bfs_messages::{Message, Signed};
use bfs_settings::Settings;
use bfs_testing_liars::sets::Set;
use bfs_testing_liars::world::World;
use bfs_testing_nodes::members::Members;
use bfs_types::{MOST_REQUEST_BYTES, Memory};
use std::alloc::Global;

// of which the keys of `Members` come
const SECRET: &[u8] = &[0; 32];

// A request under way: the place of its tally, and its place among all that was sent.
#[derive(Clone, Copy)]
struct Waiting {
    tally: usize,
    which: usize,
}

#[derive(Clone, Copy)]
struct Client {
    number: u32,
    timestamp: u64,
    waiting: Option<Waiting>,
}

/// The clients below some number.
#[derive(Drop)]
pub struct Correct {
    clients: Clients,
    tallies: Tallies,
    each: Vec<Client>,
    pub book: Book,
}

impl Correct {
    pub fn new(alloc: Global, members: Members, count: u32) -> Result<Correct, Memory> {
        let Ok(settings) = Settings::new(alloc, members.f, members.clients, SECRET) else {
            return Err(Memory);
        };
        let mut each = Vec::new(alloc);
        for number in 0..count {
            each.push(Client {
                number,
                timestamp: 0,
                waiting: None,
            })?;
        }
        Ok(Correct {
            clients: Clients::new(alloc, &settings)?,
            tallies: Tallies::new(alloc),
            each,
            book: Book::new(alloc),
        })
    }

    /// How many there are.
    pub fn count(&self) -> usize {
        self.each.len()
    }

    /// The timestamp that a client has signed last.
    pub fn timestamp(&self, number: usize) -> u64 {
        match self.each.get(number) {
            Some(client) => client.timestamp,
            None => 0,
        }
    }

    /// Whether a client has a request under way.
    pub fn waits(&self, number: usize) -> bool {
        match self.each.get(number) {
            Some(client) => client.waiting.is_some(),
            None => false,
        }
    }

    /// A client that has no request under way signs a call, and sends it to some.
    pub fn ask(
        &mut self,
        world: &mut World,
        number: usize,
        call: &[u8],
        to: Set,
    ) -> Result<(), Memory> {
        let Some(client) = self.each.get_mut(number) else {
            return Ok(());
        };
        if client.waiting.is_some() {
            return Ok(());
        }
        client.timestamp = client.timestamp.saturating_add(1);
        client.waiting = Some(Waiting {
            tally: self.tallies.as_slice().len(),
            which: world.sent.len(),
        });
        let (of, timestamp) = (client.number, client.timestamp);
        let signed = begin(&self.clients, &mut self.tallies, of, timestamp, call)?;
        self.book.note_asked(of, timestamp, call)?;
        world.put(&signed, to, false)
    }

    /// A client sends the request that it has under way to some once more.
    pub fn ask_again(&self, world: &mut World, number: usize, to: Set) -> Result<(), Memory> {
        match self.each.get(number) {
            Some(
                Client {
                    waiting: Some(waiting),
                    ..
                },
            ) => world.repeat(waiting.which, to),
            _ => Ok(()),
        }
    }

    /// What a client accepts of some messages for a timestamp.
    pub fn result_of(
        &self,
        alloc: Global,
        client: u32,
        timestamp: u64,
        messages: &[Signed<Message>],
    ) -> Result<Option<Vec<u8>>, Memory> {
        let mut tally = Tally::new(alloc, self.clients.f(), client, timestamp);
        for signed in messages {
            count_one(&self.clients, &mut tally, signed)?;
        }
        match tally.result() {
            Some(bytes) => Ok(Some(bytes.to_vec(alloc)?)),
            None => Ok(None),
        }
    }

    /// A message comes to its client.
    pub fn hear(&mut self, signed: &Signed<Message>) -> Result<(), Memory> {
        count(&self.clients, &mut self.tallies, signed)?;
        for client in self.each.iter_mut() {
            accept(client, &self.tallies, &mut self.book)?;
        }
        Ok(())
    }
}

fn begin(
    clients: &Clients,
    tallies: &mut Tallies,
    number: u32,
    timestamp: u64,
    call: &[u8],
) -> Result<Signed<Message>, Memory> {
    if call.len() > MOST_REQUEST_BYTES {
        return Err(Memory);
    }
    let Some(Call { request, tally }) = clients.call(number, timestamp, call)? else {
        return Err(Memory);
    };
    tallies.push(tally)?;
    Ok(request)
}

fn count(clients: &Clients, tallies: &mut Tallies, signed: &Signed<Message>) -> Result<(), Memory> {
    tallies.add(clients, signed)
}

fn count_one(clients: &Clients, tally: &mut Tally, signed: &Signed<Message>) -> Result<(), Memory> {
    tally.add(clients, signed)
}

// what it waits for, if enough replicas have told it
fn accept(client: &mut Client, tallies: &Tallies, book: &mut Book) -> Result<(), Memory> {
    let Some(waiting) = client.waiting else {
        return Ok(());
    };
    let Some(tally) = tallies.as_slice().get(waiting.tally) else {
        return Ok(());
    };
    if let Some(bytes) = tally.result() {
        client.waiting = None;
        book.note_accepted(client.number, client.timestamp, bytes)?;
    }
    Ok(())
}
