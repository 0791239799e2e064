// What replicas send, kept for whoever watches.
ghost use Rattle.std.specs.Prelude.{◌≡◌, OnOk};
ghost use Rattle.bfs_cluster.specs.World.{noted, sent_in, sent_taken, watching};

use crate::cluster::Cluster;
use bfs_messages::{Message, Signed};
use bfs_types::{Memory, TryClone};
use std::marker::Model;

/// A message that a replica sent, to all other replicas or to a client.
#[derive(Drop)]
pub struct Sent {
    pub sender: usize,
    pub signed: Signed<Message>,
}

impl Model for Sent {
    ghost use Rattle.bfs_cluster.specs.World as model;

    ghost Value = { model.Sent };

    ghost view = { λ sent. record { sender = sent.sender; signed = sent.signed } };
}

impl Cluster {
    /// From now on a copy of each message that a replica sends is kept, for `take_sent`.
    pub fn watch(&mut self)
        ensures { self.new ≡ watching self.old }
    {
        if self.watched.is_none() {
            self.watched = Some(Vec::new(self.alloc));
        }
    }

    /// What replicas sent since this was asked for last, in the order in which they sent it, as long as they are watched.
    pub fn take_sent(&mut self) -> Vec<Sent>
        ensures sent { result.items ≡ sent_in self.old }
        ensures taken { self.new ≡ sent_taken self.old }
    {
        match &mut self.watched {
            None => Vec::new(self.alloc),
            Some(sent) => std::mem::replace(sent, Vec::new(self.alloc)),
        }
    }

    pub(crate) fn note(&mut self, sender: usize, signed: &Signed<Message>) -> Result<(), Memory>
        ensures { OnOk result (self.new ≡ noted sender self.old signed.now) }
    {
        if let Some(sent) = &mut self.watched {
            let signed = signed.try_clone(self.alloc)?;
            sent.push(Sent { sender, signed })?;
        }
        Ok(())
    }
}
