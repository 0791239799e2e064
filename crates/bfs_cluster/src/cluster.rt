ghost use Rattle.std.specs.Prelude.{◌≡◌, false, true, [], map, IfOk};
ghost use Rattle.bfs_cluster.specs.World.{emptied, heard_replica, hearing, new_world, world_of};

use crate::replica::Replica;
use crate::watching::Sent;
use bfs_messages::{Message, Signed};
use bfs_node::Node;
use bfs_settings::Settings;
use bfs_types::Memory;
use std::alloc::Global;
use std::collections::VecDeque;
use std::marker::Model;

// a message on its way to the replicas from `next` on, but for its sender
#[derive(Drop)]
pub(crate) struct Broadcast {
    pub sender: usize,
    pub next: usize,
    pub signed: Signed<Message>,
}

impl Model for Broadcast {
    ghost use Rattle.bfs_cluster.specs.World as model;

    ghost Value = { model.Broadcast };

    ghost view = { λ broadcast. record { sender = broadcast.sender; next = broadcast.next; signed = broadcast.signed } };
}

/// Replicas of one process, and the messages between them. A call that answers `Memory` leaves it empty: no replica, no message on its way
/// and no reply is left, and nobody watches.
#[derive(Drop)]
pub struct Cluster {
    pub(crate) alloc: Global,
    pub(crate) replicas: Vec<Replica>,
    pub(crate) queue: VecDeque<Broadcast>,
    pub(crate) replies: Vec<Signed<Message>>,
    // what was sent since it was asked for last, once somebody watches
    pub(crate) watched: Option<Vec<Sent>>,
}

impl Model for Cluster {
    ghost use Rattle.bfs_cluster.specs.World as model;
    ghost use Rattle.std.specs.Coded.{codes};
    ghost use Rattle.std.specs.Prelude.{None};
    ghost use Rattle.std.specs.Option.{option_map};
    ghost use Rattle.bfs_serial.specs.Codes.{inodes_code};

    ghost Value = { model.World };

    ghost coded = { Prim.hlevel (codes, inodes_code) };

    ghost view = { λ cluster. record { replicas = cluster.replicas.items; queue = cluster.queue.items; replies = cluster.replies.items; turn = None; watched = option_map (λ sent. sent.items) cluster.watched } };
}

impl Cluster {
    /// As many replicas as the settings ask for, all heard, which have done nothing.
    #[tactic(auto, using(crate::proofs::Each::one_more_made))]
    pub fn new(alloc: Global, settings: &Settings) -> Result<Cluster, Memory>
        ensures { IfOk result (λ cluster. cluster ≡ new_world settings.now) }
    {
        let mut replicas = Vec::new(alloc);
        for number in 0..settings.replicas() {
            replicas.push(heard(Node::of_settings(alloc, settings, number)?))?;
        }
        Ok(Cluster::of_replicas(alloc, replicas))
    }

    /// These replicas, by their numbers, all heard, between which nothing was sent: of keys that no settings say, as of those that sign. `Memory` if memory runs out.
    pub fn of_nodes(alloc: Global, nodes: Vec<Node>) -> Result<Cluster, Memory>
        ensures { IfOk result (λ cluster. cluster ≡ world_of (map heard_replica nodes.items)) }
    {
        let replicas = nodes.into_iter().map(heard).collect(alloc)?;
        Ok(Cluster::of_replicas(alloc, replicas))
    }

    fn of_replicas(alloc: Global, replicas: Vec<Replica>) -> Cluster
        ensures { result ≡ world_of replicas.items }
    {
        Cluster {
            alloc,
            replicas,
            queue: VecDeque::new(alloc),
            replies: Vec::new(alloc),
            watched: None,
        }
    }

    /// The replica sends and receives nothing from now on, and executes nothing. Where there is none of that number, nothing changes.
    pub fn silence(&mut self, replica: u32)
        ensures { self.new ≡ hearing false self.old replica }
    {
        self.set_heard(replica as usize, false);
    }

    /// The replica is heard from now on. Where there is none of that number, nothing changes.
    pub fn hear(&mut self, replica: u32)
        ensures { self.new ≡ hearing true self.old replica }
    {
        self.set_heard(replica as usize, true);
    }

    fn set_heard(&mut self, number: usize, heard: bool)
        ensures { self.new ≡ hearing heard self.old number }
    {
        if number < self.replicas.len() {
            let replica = &mut self.replicas[number];
            replica.heard = heard;
        }
    }

    /// What was sent to clients since this was asked for last, in the order in which it was sent.
    pub fn take_replies(&mut self) -> Vec<Signed<Message>>
        ensures replies { result.items ≡ self.old.replies }
        ensures taken { self.new ≡ record self.old { replies = [] } }
    {
        std::mem::replace(&mut self.replies, Vec::new(self.alloc))
    }

    /// Once memory ran out, a message may be lost and a file system may have failed: nothing is kept.
    pub(crate) fn empty(&mut self) -> Memory
        ensures { self.new ≡ emptied }
    {
        self.replicas = Vec::new(self.alloc);
        self.queue = VecDeque::new(self.alloc);
        self.replies = Vec::new(self.alloc);
        self.watched = None;
        Memory
    }
}

fn heard(node: Node) -> Replica
    ensures { result ≡ heard_replica node }
{
    Replica { heard: true, node }
}
