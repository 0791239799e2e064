//! Four replicas and two clients whose keys are drawn at random, and told by no secret that they share.
use crate::replica::replica_with;
use bfs_auth::{Keys, Pair, Principal};
use bfs_codec::encode;
use bfs_messages::{Message, Signed, is_signed, sign};
use bfs_node::{Node, Receivers, receivers_of};
use bfs_testing::asserts::compared;
use bfs_testing::generated::Generator;
use bfs_testing::numbers::NULL;
use bfs_testing_nodes::calls::{Standing, advance, deliver, digest_of, propose, standing_of};
use bfs_testing_nodes::members::null_request;
use bfs_types::Memory;
use std::alloc::Global;
use std::sync::Wait;
use std::test::Fail;
use std::thread::Threads;

// four replicas, and the clients behind them
const PRINCIPALS: usize = 6;

/// A key for each direction between two of them.
#[derive(Drop)]
struct Keyring {
    alloc: Global,
    keys: Vec<[u8; 32]>,
}

fn draws_of(seed: u64) -> Generator {
    Generator {
        state: seed,
        procedures: &[NULL],
        files: (3, 1),
        dirs: (2, 1),
        names: 1,
        callers: 0,
    }
}

fn drawn(draws: &mut Generator) -> [u8; 32] {
    let mut key = [0; 32];
    for byte in &mut key {
        *byte = (draws.next() % 256) as u8;
    }
    key
}

impl Keyring {
    fn new(alloc: Global, seed: u64) -> Result<Keyring, Memory> {
        let mut draws = draws_of(seed);
        let mut keys = Vec::new(alloc);
        for _ in 0..PRINCIPALS * PRINCIPALS {
            keys.push(drawn(&mut draws))?;
        }
        Ok(Keyring { alloc, keys })
    }

    // the key of what one sends to another
    fn key(&self, from: usize, to: usize) -> [u8; 32] {
        let place = from.wrapping_mul(PRINCIPALS).wrapping_add(to);
        *self.keys.get(place).unwrap_or(&[0; 32])
    }

    fn pair(&self, holder: usize, other: usize) -> Pair {
        Pair {
            sending: self.key(holder, other),
            receiving: self.key(other, holder),
        }
    }

    // those of one with the replicas
    fn with_replicas(&self, holder: usize) -> [Pair; 4] {
        [
            self.pair(holder, 0),
            self.pair(holder, 1),
            self.pair(holder, 2),
            self.pair(holder, 3),
        ]
    }

    fn of_replica(&self, number: u32) -> Result<Keys, Memory> {
        let holder = number as usize;
        let replicas = self.with_replicas(holder);
        let clients = [self.pair(holder, 4), self.pair(holder, 5)];
        Keys::of_pairs(self.alloc, Principal::Replica(number), &replicas, &clients)
    }

    // of client 1
    fn of_client(&self) -> Result<Keys, Memory> {
        let replicas = self.with_replicas(5);
        Keys::of_pairs(self.alloc, Principal::Client(1), &replicas, &[])
    }
}

fn request(alloc: Global, client: &Keys) -> Result<Signed<Message>, Memory> {
    sign(alloc, client, Message::Request(null_request(alloc, 1, 7)?))
}

/// The replicas, what is on its way to them, and what goes to the client.
#[derive(Drop)]
struct Four {
    alloc: Global,
    nodes: Vec<Node>,
    on_their_way: Vec<Signed<Message>>,
    replies: Vec<Signed<Message>>,
}

fn put_nodes(alloc: Global, ring: &Keyring, nodes: &mut Vec<Node>) -> Result<(), Memory> {
    for number in 0..4 {
        nodes.push(replica_with(alloc, ring.of_replica(number)?)?)?;
    }
    Ok(())
}

impl Four {
    fn new(alloc: Global, ring: &Keyring) -> Result<Four, Memory> {
        let mut nodes = Vec::new(alloc);
        put_nodes(alloc, ring, &mut nodes)?;
        Ok(Four {
            alloc,
            nodes,
            on_their_way: Vec::new(alloc),
            replies: Vec::new(alloc),
        })
    }

    fn send(&mut self, sent: Vec<Signed<Message>>) -> Result<(), Memory> {
        for signed in sent {
            match receivers_of(&signed.message) {
                Receivers::Client(_) => self.replies.push(signed)?,
                Receivers::Replicas => self.on_their_way.push(signed)?,
            }
        }
        Ok(())
    }

    // a replica executes what is committed behind what comes
    fn tell_one<R: Threads + Wait + Sync>(
        &mut self,
        rt: &R,
        number: usize,
        bytes: &[u8],
    ) -> Result<(), Memory> {
        let Some(node) = self.nodes.get_mut(number) else {
            return Ok(());
        };
        let sent = deliver(rt, node, bytes);
        let more = advance(rt, node);
        self.send(sent.unwrap_or(Vec::new(self.alloc)))?;
        self.send(more.unwrap_or(Vec::new(self.alloc)))
    }

    // its own sender among them, who passes over it
    fn tell_all<R: Threads + Wait + Sync>(
        &mut self,
        rt: &R,
        signed: &Signed<Message>,
    ) -> Result<(), Memory> {
        let bytes = encode(self.alloc, signed)?;
        for number in 0..4usize {
            self.tell_one(rt, number, &bytes)?;
        }
        Ok(())
    }

    fn hand_over<R: Threads + Wait + Sync>(&mut self, rt: &R) -> Result<(), Memory> {
        let due = std::mem::replace(&mut self.on_their_way, Vec::new(self.alloc));
        for signed in &due {
            self.tell_all(rt, signed)?;
        }
        Ok(())
    }

    fn propose(&mut self) -> Result<(), Memory> {
        let Some(primary) = self.nodes.get_mut(0) else {
            return Ok(());
        };
        if let Ok(signed) = propose(primary, 1) {
            self.on_their_way.push(signed)?;
        }
        Ok(())
    }

    // the client's request comes, is proposed, and is ordered: PRE-PREPARE, PREPAREs, COMMITs
    fn serve<R: Threads + Wait + Sync>(
        &mut self,
        rt: &R,
        request: &Signed<Message>,
    ) -> Result<(), Memory> {
        self.tell_all(rt, request)?;
        self.propose()?;
        for _ in 0u32..4 {
            self.hand_over(rt)?;
        }
        Ok(())
    }

    // how many have executed the batch and have the digest of the first one
    fn executed<R: Threads + Sync>(&self, rt: &R) -> usize {
        let mut count = 0usize;
        let mut first = None;
        for node in &self.nodes {
            let digest = digest_of(rt, node).ok();
            first = first.or(digest);
            if digest.is_some() && digest == first && standing_of(node) == Standing(0, 1, 0) {
                count = usize::saturating_add(count, 1);
            }
        }
        count
    }

    // how many replies the client finds signed
    fn signed_replies(&self, client: &Keys) -> usize {
        let mut count = 0usize;
        for reply in &self.replies {
            if is_signed(client, reply) {
                count = usize::saturating_add(count, 1);
            }
        }
        count
    }
}

// How many replicas have executed a request that a client signs by the keys of a ring, and how many replies it finds signed. The replicas have
// those of their ring.
fn served<R: Threads + Wait + Sync>(
    rt: &R,
    alloc: Global,
    replicas: &Keyring,
    client: &Keyring,
) -> Result<(usize, usize), Memory> {
    let client = client.of_client()?;
    let mut four = Four::new(alloc, replicas)?;
    four.serve(rt, &request(alloc, &client)?)?;
    Ok((four.executed(rt), four.signed_replies(&client)))
}

#[test]
fn keys_drawn_at_random_serve_a_client(rt: HostRuntime) -> Result<(), Fail> {
    let alloc = rt.alloc();
    let ring = Keyring::new(alloc, 1)?;
    compared(served(&rt, alloc, &ring, &ring)?, (4, 4))?;
    // a batch without its request
    let another = Keyring::new(alloc, 2)?;
    compared(served(&rt, alloc, &ring, &another)?, (4, 0))?;
    Ok(())
}
