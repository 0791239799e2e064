ghost use Rattle.std.specs.Prelude.{◌≡◌, IfOk, map};
ghost use Rattle.bfs_replies.specs.Classes.{class_among, taken, timestamp_of, timestamps_of};

use crate::tables::{Class, Last, timestamp_of};
use bfs_types::Memory;
use std::alloc::Global;
use std::marker::Model;

/// The timestamp of the last request of each client of a table, without the reply to it: by it, it can be told which of several requests
/// are new before any of them is executed.
#[derive(Debug, Drop)]
pub struct Timestamps {
    clients: Vec<Option<u64>>,
}

impl Model for Timestamps {
    ghost use Rattle.bfs_replies.specs.Classes as model;

    ghost Value = { model.Timestamps };

    ghost view = { λ timestamps. timestamps.clients.items };
}

impl Timestamps {
    /// What a client's request with that timestamp is to its last one. It takes no memory.
    pub fn classify(&self, client: u32, timestamp: u64) -> Class
        ensures { result ≡ class_among self.now client timestamp }
    {
        match self.clients.get(client as usize) {
            None => Class::Unknown,
            Some(last) => Class::behind(*last, timestamp),
        }
    }

    /// The same, and a new request is its client's last one from then on. It takes no memory.
    #[tactic(auto, using(crate::proofs::Recording::new_is_known))]
    pub fn take(&mut self, client: u32, timestamp: u64) -> Class
        ensures class { result ≡ class_among self.old client timestamp }
        ensures now { self.new ≡ taken self.old client timestamp }
    {
        let class = self.classify(client, timestamp);
        match class {
            Class::New => self.clients[client as usize] = Some(timestamp),
            Class::Repeat | Class::Old | Class::Unknown => {}
        }
        class
    }
}

pub(crate) fn timestamps_in(alloc: Global, clients: &[Option<Last>]) -> Result<Timestamps, Memory>
    ensures { IfOk result (λ timestamps. timestamps ≡ timestamps_of clients.now) }
{
    let mut timestamps = Vec::new(alloc);
    for last in clients {
        timestamps.push(timestamp_of(last))?;
    }
    Ok(Timestamps {
        clients: timestamps,
    })
}
