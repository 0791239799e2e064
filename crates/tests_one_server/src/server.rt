//! One server, which answers one call after another, and remembers each.
use bfs_checkpoints::digest_node;
use bfs_messages::{OrderedBatch, Request};
use bfs_replies::ReplyTable;
use bfs_serial::{Batch, FileSystem, execute_serial};
use bfs_types::{MOST_CLIENTS, MOST_REPLY_BYTES, Memory};
use std::alloc::Global;
use std::thread::Threads;

/// A request that took effect, with the reply to it.
#[derive(Drop)]
pub struct Effect {
    pub client: u32,
    pub timestamp: u64,
    pub call: Vec<u8>,
    pub reply: Vec<u8>,
}

/// The file system, and all that took effect on it, in order. A client's last request is the last of these that is its.
#[derive(Drop)]
pub struct Server {
    alloc: Global,
    clients: u32,
    files: FileSystem,
    pub effects: Vec<Effect>,
    /// How many requests had taken effect before.
    pub repeated: u32,
    /// How many had not, where another call of that client and timestamp had.
    pub contested: u32,
    /// How many came behind a later one of their client.
    pub late: u32,
}

impl Server {
    /// With a new file system.
    pub fn new(alloc: Global, clients: u32) -> Result<Server, Memory> {
        Ok(Server {
            alloc,
            clients,
            files: FileSystem::new(alloc)?,
            effects: Vec::new(alloc),
            repeated: 0,
            contested: 0,
            late: 0,
        })
    }

    fn last_of(&self, client: u32) -> Option<&Effect> {
        for effect in self.effects.iter().rev() {
            if effect.client == client {
                return Some(effect);
            }
        }
        None
    }

    /// The place of the effect of a client's request with that timestamp.
    pub fn place_of(&self, client: u32, timestamp: u64) -> Option<usize> {
        for (place, effect) in self.effects.iter().enumerate() {
            if effect.client == client && effect.timestamp == timestamp {
                return Some(place);
            }
        }
        None
    }

    /// The requests of a batch take effect one after another, but those whose client has had an effect of that timestamp or a later one.
    pub fn apply(&mut self, batch: &OrderedBatch) -> Result<(), Memory> {
        let Some(time) = batch.time() else {
            return Ok(());
        };
        let mut calls = Batch::new(self.alloc);
        calls.set_time(time);
        let first = self.effects.len();
        for signed in batch.requests() {
            if self.is_new(&signed.message) {
                self.take(&mut calls, &signed.message)?;
            }
        }
        self.answer(first, &calls)
    }

    fn is_new(&mut self, request: &Request) -> bool {
        let (timestamp, is_same) = match self.last_of(request.client()) {
            None => return request.client() < self.clients,
            Some(last) => (last.timestamp, last.call.as_slice() == request.call()),
        };
        if request.timestamp() < timestamp {
            self.late = self.late.saturating_add(1);
        } else if request.timestamp() == timestamp && is_same {
            self.repeated = self.repeated.saturating_add(1);
        } else if request.timestamp() == timestamp {
            self.contested = self.contested.saturating_add(1);
        }
        timestamp < request.timestamp()
    }

    fn take(&mut self, calls: &mut Batch, request: &Request) -> Result<(), Memory> {
        push(calls, request.call())?;
        self.effects.push(Effect {
            client: request.client(),
            timestamp: request.timestamp(),
            call: request.call().to_vec(self.alloc)?,
            reply: Vec::new(self.alloc),
        })?;
        Ok(())
    }

    // the calls are those of the effects from a place on
    fn answer(&mut self, first: usize, calls: &Batch) -> Result<(), Memory> {
        let replies = replies_to(self.alloc, &mut self.files, calls)?;
        let mut place = first;
        for reply in replies {
            if let Some(effect) = self.effects.get_mut(place) {
                effect.reply = reply;
            }
            place = place.saturating_add(1);
        }
        Ok(())
    }

    /// The digest of a replica that has its file system, and the last reply to each client.
    pub fn digest<R: Threads + Sync>(&self, rt: &R) -> Result<[u8; 32], Memory> {
        if self.clients > MOST_CLIENTS {
            return Err(Memory);
        }
        let mut table = ReplyTable::new(self.alloc, self.clients)?;
        for client in 0..self.clients {
            if let Some(effect) = self.last_of(client) {
                record(&mut table, effect)?;
            }
        }
        digest_of(rt, self.alloc, &self.files, &table)
    }
}

fn push(calls: &mut Batch, call: &[u8]) -> Result<(), Memory> {
    match calls.push(call) {
        Ok(()) => Ok(()),
        Err(_) => Err(Memory),
    }
}

fn replies_to(
    alloc: Global,
    files: &mut FileSystem,
    calls: &Batch,
) -> Result<Vec<Vec<u8>>, Memory> {
    let Ok(replies) = execute_serial(alloc, files, calls) else {
        return Err(Memory);
    };
    let mut copies = Vec::new(alloc);
    for place in 0..replies.len() {
        copies.push(replies.get(place).to_vec(alloc)?)?;
    }
    Ok(copies)
}

fn record(table: &mut ReplyTable, effect: &Effect) -> Result<(), Memory> {
    if effect.client >= table.clients() || effect.reply.len() > MOST_REPLY_BYTES {
        return Err(Memory);
    }
    match table.record(effect.client, effect.timestamp, effect.reply.as_slice()) {
        Ok(()) => Ok(()),
        Err(_) => Err(Memory),
    }
}

fn digest_of<R: Threads + Sync>(
    rt: &R,
    alloc: Global,
    files: &FileSystem,
    table: &ReplyTable,
) -> Result<[u8; 32], Memory> {
    match digest_node(rt, alloc, files, table) {
        Ok(digest) => Ok(digest),
        Err(_) => Err(Memory),
    }
}
