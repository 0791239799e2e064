// Requests that have come, and which of them the node is given.
use bfs_auth::Authenticator;
use bfs_messages::{Message, Request, Signed};
use bfs_node::{Class, Node};
use bfs_types::{MOST_REQUESTS, Memory};
use std::alloc::Global;
use std::collections::{BTreeMap, BTreeSet};

// what a request takes in a batch at most beside its call, and the keyed hashes or the signature that it has
const REQUEST_BYTES: usize = 64;

// the bytes of a keyed hash
const HASH_BYTES: usize = 32;

/// Requests that the node is to be given now.
#[derive(Drop)]
pub(crate) struct Wanted {
    /// New ones, to be ordered.
    pub(crate) new: Vec<Signed<Message>>,
    /// Their clients' last ones that were executed, to be answered again.
    pub(crate) again: Vec<Signed<Request>>,
}

/// Requests for which the node has no room yet, in the order in which they came, at most `MOST_REQUESTS`.
#[derive(Drop)]
pub(crate) struct Queue {
    alloc: Global,
    requests: Vec<Signed<Message>>,
    // of the requests that wait at the node, so that a batch of all of them fits in a frame
    most_bytes: usize,
}

impl Queue {
    /// An empty one, of a node at which requests of so many bytes may wait.
    pub(crate) fn new(alloc: Global, most_bytes: usize) -> Queue {
        Queue {
            alloc,
            requests: Vec::new(alloc),
            most_bytes,
        }
    }

    /// More have come. Those for which there is no room are lost: their clients ask again.
    pub(crate) fn push_all(&mut self, came: Vec<Signed<Message>>) -> Result<(), Memory> {
        for signed in came {
            if self.requests.len() < MOST_REQUESTS {
                self.requests.push(signed)?;
            }
        }
        Ok(())
    }

    /// Those that the node is to be given now. One that it has executed is passed over, unless it is its client's last one; so is one that waits there
    /// already; and one for which its client's share has no place stays here.
    pub(crate) fn take_wanted(&mut self, node: &Node) -> Result<Wanted, Memory> {
        let mut wanted = Wanted {
            new: Vec::new(self.alloc),
            again: Vec::new(self.alloc),
        };
        if self.requests.is_empty() {
            return Ok(wanted);
        }
        let mut room = Room::at(self.alloc, node, self.most_bytes)?;
        let mut left = Vec::new(self.alloc);
        for signed in std::mem::replace(&mut self.requests, Vec::new(self.alloc)) {
            match room.place_for(node, &signed)? {
                Place::Now => wanted.new.push(signed)?,
                Place::Later => left.push(signed)?,
                Place::Again => push_request(&mut wanted.again, signed)?,
                Place::Never => {}
            }
        }
        self.requests = left;
        Ok(wanted)
    }

    /// Whether a request waits, here or at the node, that wasn't executed.
    pub(crate) fn has_new(&self, node: &Node) -> bool {
        for signed in node.waiting() {
            if is_new(node, &signed.message) {
                return true;
            }
        }
        for signed in &self.requests {
            if let Message::Request(request) = &signed.message {
                if is_new(node, request) {
                    return true;
                }
            }
        }
        false
    }

    /// How many wait here.
    pub(crate) fn len(&self) -> usize {
        self.requests.len()
    }
}

enum Place {
    Now,
    Later,
    Again,
    Never,
}

// What waits at a node, and the room that is left.
#[derive(Drop)]
struct Room {
    // clients and timestamps of those that wait there, are to be given, or stay here
    names: BTreeSet<(u32, u64)>,
    // how many of each client these are
    counts: BTreeMap<u32, usize>,
    // how many of one client may wait there
    share: usize,
    count: usize,
    bytes: usize,
}

impl Room {
    fn at(alloc: Global, node: &Node, most_bytes: usize) -> Result<Room, Memory> {
        let mut room = Room {
            names: BTreeSet::new(alloc),
            counts: BTreeMap::new(alloc),
            share: node.share(),
            count: MOST_REQUESTS.saturating_sub(node.waiting().len()),
            bytes: most_bytes,
        };
        for signed in node.waiting() {
            room.add(&signed.message)?;
            room.bytes = room
                .bytes
                .saturating_sub(size_of(&signed.message, &signed.auth));
        }
        Ok(room)
    }

    fn place_for(&mut self, node: &Node, signed: &Signed<Message>) -> Result<Place, Memory> {
        let Message::Request(request) = &signed.message else {
            return Ok(Place::Never);
        };
        match node.classify(request.client(), request.timestamp()) {
            Class::New => self.place_for_new(request, &signed.auth),
            Class::Repeat => Ok(Place::Again),
            Class::Old | Class::Unknown => Ok(Place::Never),
        }
    }

    // Only one of each has a place. Of a client as many stay here as may wait at the node.
    fn place_for_new(&mut self, request: &Request, auth: &Authenticator) -> Result<Place, Memory> {
        let count = self.count_of(request.client());
        if self
            .names
            .contains(&(request.client(), request.timestamp()))
            || count >= self.share.saturating_mul(2)
        {
            return Ok(Place::Never);
        }
        self.add(request)?;
        let size = size_of(request, auth);
        if size > self.bytes || self.count == 0 || count >= self.share {
            return Ok(Place::Later);
        }
        self.bytes -= size;
        self.count -= 1;
        Ok(Place::Now)
    }

    fn add(&mut self, request: &Request) -> Result<(), Memory> {
        let count = self.count_of(request.client());
        self.names.insert((request.client(), request.timestamp()))?;
        self.counts
            .insert(request.client(), count.saturating_add(1))?;
        Ok(())
    }

    fn count_of(&self, client: u32) -> usize {
        match self.counts.get(&client) {
            Some(count) => *count,
            None => 0,
        }
    }
}

fn size_of(request: &Request, auth: &Authenticator) -> usize {
    let proof = match auth.signature() {
        Some(bytes) => bytes.len(),
        None => auth.entries().len() * HASH_BYTES,
    };
    request.call().len() + REQUEST_BYTES + proof
}

fn is_new(node: &Node, request: &Request) -> bool {
    match node.classify(request.client(), request.timestamp()) {
        Class::New => true,
        _ => false,
    }
}

fn push_request(
    requests: &mut Vec<Signed<Request>>,
    signed: Signed<Message>,
) -> Result<(), Memory> {
    let Signed { message, auth } = signed;
    if let Message::Request(request) = message {
        requests.push(Signed {
            message: request,
            auth,
        })?;
    }
    Ok(())
}
