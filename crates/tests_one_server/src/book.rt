//! What correct clients have signed, and which results they have accepted, in the order in which it happened.
use bfs_types::Memory;
use std::alloc::Global;

/// A request that a client has signed.
#[derive(Drop)]
pub struct Asked {
    pub client: u32,
    pub timestamp: u64,
    pub call: Vec<u8>,
    /// How many results had been accepted before.
    pub accepted_before: usize,
}

/// A result that a client has accepted.
#[derive(Drop)]
pub struct Accepted {
    pub client: u32,
    pub timestamp: u64,
    pub result: Vec<u8>,
}

/// All of both.
#[derive(Drop)]
pub struct Book {
    alloc: Global,
    pub asked: Vec<Asked>,
    pub accepted: Vec<Accepted>,
}

impl Book {
    pub fn new(alloc: Global) -> Book {
        Book {
            alloc,
            asked: Vec::new(alloc),
            accepted: Vec::new(alloc),
        }
    }

    pub fn note_asked(&mut self, client: u32, timestamp: u64, call: &[u8]) -> Result<(), Memory> {
        self.asked.push(Asked {
            client,
            timestamp,
            call: call.to_vec(self.alloc)?,
            accepted_before: self.accepted.len(),
        })?;
        Ok(())
    }

    pub fn note_accepted(
        &mut self,
        client: u32,
        timestamp: u64,
        bytes: &[u8],
    ) -> Result<(), Memory> {
        self.accepted.push(Accepted {
            client,
            timestamp,
            result: bytes.to_vec(self.alloc)?,
        })?;
        Ok(())
    }

    /// Whether a client has signed that call with that timestamp.
    pub fn has_asked(&self, client: u32, timestamp: u64, call: &[u8]) -> bool {
        for asked in &self.asked {
            if asked.client == client && asked.timestamp == timestamp {
                return asked.call.as_slice() == call;
            }
        }
        false
    }
}
