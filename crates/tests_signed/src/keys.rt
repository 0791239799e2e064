//! Four replicas and their clients, by keyed hashes alone, or each with a key that signs.
use bfs_auth::{Keys, Principal};
use bfs_node::Node;
use bfs_testing_nodes::members::Members;
use bfs_types::{MOST_CLIENTS, Memory};
use lms::{HssPublicKey, LmsType, OtsType, PrivateKey, Signer, Tree, TreeTypes};
use std::alloc::{AllocError, Global};

/// Four replicas, and two clients.
pub const MEMBERS: Members = Members { f: 1, clients: 2 };

// of each of two levels
const TYPES: TreeTypes = TreeTypes {
    lms: LmsType::H5,
    ots: OtsType::W2,
};

fn key_with(byte: u8) -> PrivateKey {
    PrivateKey {
        lms: TYPES.lms,
        ots: TYPES.ots,
        id: [byte; 16],
        seed: [byte; 32],
    }
}

fn key_of(holder: Principal) -> PrivateKey {
    match holder {
        Principal::Replica(number) => key_with((number % 32) as u8),
        Principal::Client(number) => key_with(32 + (number % 32) as u8),
    }
}

/// What signs as a principal does.
pub fn signer_of(alloc: Global, holder: Principal) -> Result<Signer, AllocError> {
    Signer::new(alloc, key_of(holder), &[TYPES])
}

/// What signs by a key that nobody knows.
pub fn unknown_signer(alloc: Global) -> Result<Signer, AllocError> {
    Signer::new(alloc, key_with(100), &[TYPES])
}

/// The public keys that all know.
#[derive(Drop)]
pub struct Known {
    replicas: Vec<HssPublicKey>,
    clients: Vec<HssPublicKey>,
}

fn public_key(alloc: Global, holder: Principal) -> Result<HssPublicKey, AllocError> {
    Ok(HssPublicKey {
        levels: 2,
        key: Tree::new(alloc, key_of(holder))?.public_key(),
    })
}

impl Known {
    /// None: all messages have keyed hashes.
    pub fn none(alloc: Global) -> Known {
        Known {
            replicas: Vec::new(alloc),
            clients: Vec::new(alloc),
        }
    }

    /// Those of all four replicas and of both clients.
    pub fn all(alloc: Global) -> Result<Known, Memory> {
        let mut known = Known::none(alloc);
        for number in 0..4 {
            let key = public_key(alloc, Principal::Replica(number))?;
            known.replicas.push(key)?;
        }
        for number in 0..2 {
            let key = public_key(alloc, Principal::Client(number))?;
            known.clients.push(key)?;
        }
        Ok(known)
    }

    /// Whether replicas and clients sign.
    pub fn is_signed(&self) -> bool {
        !self.replicas.is_empty()
    }

    /// What a replica checks with.
    pub fn keys(&self, alloc: Global, me: u32) -> Result<Keys, Memory> {
        let keys = MEMBERS.keys_of(alloc, me)?;
        let keys = keys.with_signers(self.clients.to_vec(alloc)?);
        Ok(keys.with_replica_signers(self.replicas.to_vec(alloc)?))
    }

    /// What a replica checks and signs with.
    pub fn signing(&self, alloc: Global, me: u32) -> Result<Keys, Memory> {
        let keys = self.keys(alloc, me)?;
        if !self.is_signed() {
            return Ok(keys);
        }
        let below = Vec::from_slice(alloc, &[TYPES])?;
        keys.with_signer(alloc, key_of(Principal::Replica(me)), below)
    }

    /// A replica that has done nothing.
    pub fn replica(&self, alloc: Global, me: u32) -> Result<Node, Memory> {
        let keys = self.signing(alloc, me)?;
        match keys.replica_of() {
            Some(_) if keys.clients() <= MOST_CLIENTS as usize => Node::new(alloc, keys),
            _ => Err(Memory),
        }
    }

    /// All four.
    pub fn replicas(&self, alloc: Global) -> Result<Vec<Node>, Memory> {
        let mut all = Vec::new(alloc);
        for me in 0..4 {
            all.push(self.replica(alloc, me)?)?;
        }
        Ok(all)
    }
}
