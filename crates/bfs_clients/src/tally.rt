ghost use Rattle.std.specs.Prelude.{◌≡◌, ◌≤◌, ◌==◌, ◌<◌, false, length, IfOk, OnOk, OnErr, IfSome};
ghost use Rattle.std.specs.Option.{option_map};
ghost use Rattle.bfs_model.specs.Server.Limits.{most_replicas, most_reply_bytes};
ghost use Rattle.bfs_clients.specs.Tallies.{agreed, has_counted, is_agreed, is_signed_reply, is_wanted, no_replies, senders_of, tallied_by, waits, with_reply};

use crate::clients::Clients;
use bfs_messages::{Message, Reply, Signed};
use bfs_types::{Bytes, MOST_REPLY_BYTES, Memory, TryClone, copies_of};
use std::alloc::Global;
use std::marker::Model;
use std::sync::Arc;

#[derive(Debug, Drop)]
struct Counted {
    sender: u32,
    result: Arc<Bytes<MOST_REPLY_BYTES>>,
}

impl Model for Counted {
    ghost use Rattle.std.specs.Arc.{arc_value};
    ghost use Rattle.bfs_clients.specs.Tallies as model;

    ghost Value = { model.Counted };

    ghost view = { λ counted. record { sender = counted.sender; result = arc_value counted.result } };
}

impl Counted {
    fn bytes(&self) -> &[u8]
        ensures value { result.now ≡ self.now.result }
        ensures within { length result.now ≤ most_reply_bytes }
    {
        self.result.as_slice()
    }
}

impl TryClone for Counted {
    fn try_clone(&self, _alloc: Global) -> Result<Counted, Memory> {
        Ok(Counted {
            sender: self.sender,
            result: Arc::try_clone(&self.result)?,
        })
    }
}

/// The replies to one request of a client, at most one of each replica (OSDI 1999 section 4.1).
#[derive(Debug, Drop)]
pub struct Tally {
    alloc: Global,
    f: u32,
    client: u32,
    timestamp: u64,
    counted: Vec<Counted>,
}

impl Model for Tally {
    ghost use Rattle.bfs_clients.specs.Tallies as model;

    ghost Value = { model.Tally };

    ghost invariant = { λ tally. model.AreOfReplicas tally.counted.items };

    ghost view = { λ tally. record { f = tally.f; client = tally.client; timestamp = tally.timestamp; counted = tally.counted.items } };
}

impl Tally {
    /// No reply yet to the client's request of that timestamp. At most `f` replicas are faulty. It takes no memory.
    #[tactic(auto, using(crate::proofs::Senders::none_yet))]
    pub fn new(alloc: Global, f: u32, client: u32, timestamp: u64) -> Tally
        ensures { result ≡ no_replies f client timestamp }
    {
        Tally {
            alloc,
            f,
            client,
            timestamp,
            counted: Vec::new(alloc),
        }
    }

    /// The client whose request it is.
    pub fn client(&self) -> u32
        ensures { result ≡ self.now.client }
    {
        self.client
    }

    /// The client's timestamp of the request.
    pub fn timestamp(&self) -> u64
        ensures { result ≡ self.now.timestamp }
    {
        self.timestamp
    }

    /// Counts a REPLY to this request, the first of its sender, if the client finds it signed. Any other message is passed over. `Memory` if
    /// memory runs out; then nothing changes.
    pub fn add(&mut self, clients: &Clients, signed: &Signed<Message>) -> Result<(), Memory>
        ensures ok { OnOk result (self.new ≡ tallied_by clients.now self.old signed.now) }
        ensures err { OnErr result (self.new ≡ self.old) }
    {
        self.add_checked(clients, signed, clients.is_signed(signed))
    }

    /// What `add` does, where `Clients::are_signed` has told whether the message passes.
    #[tactic(auto, using(crate::proofs::Replies::sender_below))]
    pub fn add_checked(
        &mut self,
        clients: &Clients,
        signed: &Signed<Message>,
        passes: bool,
    ) -> Result<(), Memory>
        requires { passes ≡ is_signed_reply clients.now signed.now }
        ensures ok { OnOk result (self.new ≡ tallied_by clients.now self.old signed.now) }
        ensures err { OnErr result (self.new ≡ self.old) }
    {
        let Message::Reply(reply) = &signed.message else {
            return Ok(());
        };
        let Some(keys) = clients.keys(reply.client()) else {
            return Ok(());
        };
        if self.is_wanted(reply) && passes {
            // one of them sent it, since its hash passes
            keys.replicas();
            self.count(reply)?;
        }
        Ok(())
    }

    // A copy that has counted it.
    pub(crate) fn with_checked(
        &self,
        clients: &Clients,
        signed: &Signed<Message>,
        passes: bool,
    ) -> Result<Tally, Memory>
        requires { passes ≡ is_signed_reply clients.now signed.now }
        ensures { IfOk result (λ tally. tally ≡ tallied_by clients.now self.now signed.now) }
    {
        let mut tally = self.try_clone(self.alloc)?;
        tally.add_checked(clients, signed, passes)?;
        Ok(tally)
    }

    fn is_wanted(&self, reply: &Reply) -> bool
        ensures { result ≡ is_wanted self.now reply.now }
    {
        reply.client() == self.client
            && reply.timestamp() == self.timestamp
            && !self.has_counted(reply.sender())
    }

    fn has_counted(&self, sender: u32) -> bool
        ensures { result ≡ has_counted self.now.counted sender }
    {
        self.counted.iter().any(
            |one: &Counted| -> bool
                ensures { result ≡ (sender == one.now.sender) }
            { sender == one.sender },
        )
    }

    #[tactic(auto, using(crate::proofs::Senders::one_more))]
    fn count(&mut self, reply: &Reply) -> Result<(), Memory>
        requires first { has_counted self.old.counted reply.now.sender ≡ false }
        requires replica { reply.now.sender < most_replicas }
        ensures ok { OnOk result (self.new ≡ with_reply self.old reply.now) }
        ensures err { OnErr result (self.new ≡ self.old) }
    {
        let counted = Counted {
            sender: reply.sender(),
            result: Arc::try_clone(reply.shared())?,
        };
        self.counted.push(counted)?;
        Ok(())
    }

    /// How many replies are counted: at most one of each replica.
    #[tactic(auto, using(crate::proofs::Senders::at_most))]
    pub fn replies(&self) -> usize
        ensures value { result ≡ length self.now.counted }
        ensures within { result ≤ most_replicas }
    {
        self.counted.len()
    }

    /// The first result that `f + 1` of the counted replicas sent; `None` as long as there is none. It takes no memory.
    pub fn result(&self) -> Option<&[u8]>
        ensures value { option_map (λ bytes. bytes.now) result ≡ agreed self.now }
        ensures within { IfSome result (λ bytes. length bytes.now ≤ most_reply_bytes) }
    {
        for one in &self.counted {
            if self.is_agreed(one) {
                return Some(one.bytes());
            }
        }
        None
    }

    /// Whether there is no result yet.
    pub fn waits(&self) -> bool
        ensures { result ≡ waits self.now }
    {
        self.result().is_none()
    }

    fn is_agreed(&self, one: &Counted) -> bool
        ensures { result ≡ is_agreed self.now one.now }
    {
        self.senders_of(one.bytes()) > self.f as usize
    }

    // how many replicas sent that result
    fn senders_of(&self, wanted: &[u8]) -> usize
        ensures { result ≡ senders_of self.now.counted wanted.now }
    {
        let mut count = 0;
        for one in &self.counted {
            if one.bytes() == wanted {
                count += 1;
            }
        }
        count
    }
}

impl TryClone for Tally {
    fn try_clone(&self, alloc: Global) -> Result<Tally, Memory> {
        Ok(Tally {
            alloc,
            f: self.f,
            client: self.client,
            timestamp: self.timestamp,
            counted: copies_of(alloc, &self.counted)?,
        })
    }
}
