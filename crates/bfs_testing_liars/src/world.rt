//! Replicas, some of which lie, and bytes on their way between them.
use crate::batches::Batches;
use crate::checks::Record;
use crate::heads::{Head, head_of};
use crate::sets::Set;
use bfs_codec::encode;
use bfs_messages::{Message, OrderMessage, Signed, Vote};
use bfs_node::Node;
use bfs_testing_nodes::members::Members;
use bfs_types::Memory;
use std::alloc::Global;

/// A message that was sent once.
#[derive(Drop)]
pub struct Sent {
    pub head: Head,
    pub bytes: Vec<u8>,
    pub is_lie: bool,
}

/// A message on its way: the place of its receiver, and its place among those that were sent.
#[derive(Clone, Copy)]
pub struct Flight {
    pub to: usize,
    pub which: usize,
}

/// 3f + 1 replicas, some of which lie. A liar's own node does as the others do: its lies come on top.
#[derive(Drop)]
pub struct World {
    pub alloc: Global,
    pub members: Members,
    pub liars: Set,
    pub nodes: Vec<Node>,
    /// All that was ever sent between replicas, and requests.
    pub sent: Vec<Sent>,
    /// The votes of all PRE-PREPAREs that were sent, those of NEW-VIEWs among them.
    pub proposed: Vec<Vote>,
    /// Their batches.
    pub batches: Batches,
    /// What clients are told, also by replicas that lie. Who plays a schedule carries it to them.
    pub replies: Vec<Sent>,
    pub on_their_way: Vec<Flight>,
    pub record: Record,
    // the view that each has asked for last
    asked: Vec<u64>,
    /// What stands for a clock: it is the second of batches and the timestamp of requests.
    clock: u32,
}

impl World {
    /// Replicas that have done nothing.
    pub fn new(alloc: Global, members: Members, liars: Set) -> Result<World, Memory> {
        if members.f > 10 {
            return Err(Memory);
        }
        let mut nodes = Vec::new(alloc);
        let mut asked = Vec::new(alloc);
        for me in 0..3 * members.f + 1 {
            nodes.push(members.replica(alloc, me)?)?;
            asked.push(0)?;
        }
        Ok(World {
            alloc,
            members,
            liars,
            nodes,
            sent: Vec::new(alloc),
            proposed: Vec::new(alloc),
            batches: Batches::new(alloc),
            replies: Vec::new(alloc),
            on_their_way: Vec::new(alloc),
            record: Record::new(alloc),
            asked,
            clock: 0,
        })
    }

    /// The next second.
    pub fn tick(&mut self) -> u32 {
        self.clock = self.clock.saturating_add(1);
        self.clock
    }

    /// The view that a replica has entered.
    pub fn view(&self, number: usize) -> u64 {
        match self.nodes.get(number) {
            Some(node) => node.view(),
            None => 0,
        }
    }

    /// The number that a replica has executed last.
    pub fn last(&self, number: usize) -> u64 {
        match self.nodes.get(number) {
            Some(node) => node.last_executed(),
            None => 0,
        }
    }

    /// The view that a replica has entered or asked for last.
    pub fn asked(&self, number: usize) -> u64 {
        let asked = match self.asked.get(number) {
            Some(asked) => *asked,
            None => 0,
        };
        asked.max(self.view(number))
    }

    fn note_asked(&mut self, number: usize, view: u64) {
        if let Some(asked) = self.asked.get_mut(number) {
            *asked = view;
        }
    }

    /// The primary of a view.
    pub fn primary(&self, view: u64) -> usize {
        (view % self.nodes.len().max(1) as u64) as usize
    }

    fn note_proposals(&mut self, message: &Message) -> Result<(), Memory> {
        match message {
            Message::Order(OrderMessage::PrePrepare(proposal)) => {
                self.proposed.push(*proposal.vote())?;
                self.batches.put(proposal)?;
            }
            Message::NewView(new) => {
                for proposal in new.proposals() {
                    self.proposed.push(*proposal.message.vote())?;
                    self.batches.put(&proposal.message)?;
                }
            }
            _ => {}
        }
        Ok(())
    }

    /// A message is sent to some replicas.
    pub fn put(&mut self, signed: &Signed<Message>, to: Set, is_lie: bool) -> Result<(), Memory> {
        let which = self.sent.len();
        self.note_proposals(&signed.message)?;
        self.sent.push(Sent {
            head: head_of(&signed.message),
            bytes: encode(self.alloc, signed)?,
            is_lie,
        })?;
        self.repeat(which, to)
    }

    /// A message that was sent once is on its way to some replicas.
    pub fn repeat(&mut self, which: usize, to: Set) -> Result<(), Memory> {
        for number in 0..self.nodes.len() {
            if to.has(number) {
                self.on_their_way.push(Flight { to: number, which })?;
            }
        }
        Ok(())
    }

    // a replica's message goes to all others, and a reply to its client
    pub(crate) fn send_one(
        &mut self,
        sender: usize,
        signed: &Signed<Message>,
    ) -> Result<(), Memory> {
        match &signed.message {
            Message::Reply(_) => self.tell(sender, signed),
            Message::ViewChange(change) => {
                self.note_asked(sender, change.view());
                self.put(signed, Set::of(sender).others(), false)
            }
            _ => self.put(signed, Set::of(sender).others(), false),
        }
    }

    /// A client is told something.
    pub fn put_reply(&mut self, signed: &Signed<Message>, is_lie: bool) -> Result<(), Memory> {
        self.replies.push(Sent {
            head: head_of(&signed.message),
            bytes: encode(self.alloc, signed)?,
            is_lie,
        })?;
        Ok(())
    }

    fn tell(&mut self, sender: usize, signed: &Signed<Message>) -> Result<(), Memory> {
        self.put_reply(signed, false)?;
        match &signed.message {
            Message::Reply(reply) if !self.liars.has(sender) => self.record.note_reply(reply),
            _ => Ok(()),
        }
    }

    pub(crate) fn send(
        &mut self,
        sender: usize,
        messages: &[Signed<Message>],
    ) -> Result<(), Memory> {
        for signed in messages {
            self.send_one(sender, signed)?;
        }
        Ok(())
    }
}
