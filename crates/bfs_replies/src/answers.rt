ghost use Rattle.std.specs.Prelude.{◌≡◌, ◌≤◌, length, IfOk, IfSome};
ghost use Rattle.std.specs.Arc.{arc_value};
ghost use Rattle.std.specs.Option.{option_map};
ghost use Rattle.bfs_model.specs.Server.Limits.{most_reply_bytes};
ghost use Rattle.bfs_replies.specs.Answers.{answer_again, recorded_all};
ghost use Rattle.bfs_replies.specs.Tables.{last_of, recorded};

use crate::tables::{Last, ReplyTable};
use bfs_types::{Bytes, MOST_REPLY_BYTES, Memory, TryClone};
use std::alloc::Global;
use std::marker::Model;
use std::sync::Arc;

/// The reply to a client's request of that timestamp: at most `MOST_REPLY_BYTES` bytes. It may share them with others.
#[derive(Debug, Drop)]
pub struct Answer {
    client: u32,
    timestamp: u64,
    reply: Arc<Bytes<MOST_REPLY_BYTES>>,
}

impl Model for Answer {
    ghost use Rattle.std.specs.Prelude.{Some};
    ghost use Rattle.std.specs.Arc.{arc_value};
    ghost use Rattle.bfs_replies.specs.Answers as model;
    ghost use Rattle.bfs_replies.specs.Tables.{LastIsKept};

    ghost Value = { model.Answer };

    ghost view = { λ answer. record { client = answer.client; timestamp = answer.timestamp; reply = arc_value answer.reply } };

    ghost invariant = { λ answer. LastIsKept (Some (record { timestamp = answer.timestamp; reply = arc_value answer.reply })) };
}

impl Answer {
    /// With a copy of the reply. `Memory` if memory runs out.
    pub fn new(alloc: Global, client: u32, timestamp: u64, reply: &[u8]) -> Result<Answer, Memory>
        requires { length reply.now ≤ most_reply_bytes }
        ensures { IfOk result (λ answer. answer ≡ record { client = client; timestamp = timestamp; reply = reply.now }) }
    {
        Ok(Answer {
            client,
            timestamp,
            reply: Arc::new(alloc, Bytes::new(alloc, reply)?)?,
        })
    }

    /// The number of the client.
    pub fn client(&self) -> u32
        ensures { result ≡ self.now.client }
    {
        self.client
    }

    /// The timestamp of its request.
    pub fn timestamp(&self) -> u64
        ensures { result ≡ self.now.timestamp }
    {
        self.timestamp
    }

    /// The reply to it, to be shared.
    pub fn shared(&self) -> &Arc<Bytes<MOST_REPLY_BYTES>>
        ensures { arc_value result.now ≡ self.now.reply }
    {
        &self.reply
    }

    /// The bytes of the reply to it.
    pub fn reply(&self) -> &[u8]
        ensures value { result.now ≡ self.now.reply }
        ensures short { length result.now ≤ most_reply_bytes }
    {
        self.reply.as_slice()
    }
}

impl TryClone for Answer {
    fn try_clone(&self, _alloc: Global) -> Result<Answer, Memory> {
        Ok(Answer {
            client: self.client,
            timestamp: self.timestamp,
            reply: Arc::try_clone(&self.reply)?,
        })
    }
}

impl ReplyTable {
    /// Puts each reply in the place of its client's last one, one after another, whatever the timestamps are; one of a client that there
    /// isn't is passed over. It takes no memory.
    pub fn record_all(&mut self, answers: Vec<Answer>)
        ensures { self.new ≡ recorded_all self.old answers.items }
    {
        for answer in answers {
            self.put(answer);
        }
    }

    #[tactic(auto, using(std::proofs::lemmas::List::set_past, crate::proofs::Keeping::recorded_kept))]
    fn put(&mut self, answer: Answer)
        ensures { self.new ≡ recorded self.old answer.client answer.timestamp answer.reply }
    {
        let client = answer.client as usize;
        if client < self.clients.len() {
            self.clients[client] = Some(Last {
                timestamp: answer.timestamp,
                reply: answer.reply,
            });
        }
    }

    /// The reply to a client's last request, as it is once those have been recorded too. It looks at each of them, and takes no memory.
    #[tactic(auto, using(crate::proofs::Recording::none_of_no_client))]
    pub fn last_after<'a>(&'a self, answers: &'a [Answer], client: u32) -> Option<&'a [u8]>
        ensures value { option_map (λ reply. reply.now) result ≡ option_map (λ last. last.reply) (last_of (recorded_all self.now answers.now) client) }
        ensures short { IfSome result (λ reply. length reply.now ≤ most_reply_bytes) }
    {
        if self.clients.len() <= client as usize {
            return None;
        }
        let mut found = self.reply_of(client);
        for answer in answers {
            if answer.client == client {
                found = Some(answer.reply());
            }
        }
        found
    }

    /// The last reply to a client, as it was given; it shares the bytes. `None` where there is no reply to it yet, or no such client. `Memory`
    /// if memory runs out.
    pub fn answer_again(&self, client: u32) -> Result<Option<Answer>, Memory>
        ensures { IfOk result (λ answer. answer ≡ answer_again self.now client) }
    {
        match self.clients.get(client as usize) {
            Some(Some(last)) => Ok(Some(Answer {
                client,
                timestamp: last.timestamp,
                reply: Arc::try_clone(&last.reply)?,
            })),
            _ => Ok(None),
        }
    }

    fn reply_of(&self, client: u32) -> Option<&[u8]>
        ensures value { option_map (λ reply. reply.now) result ≡ option_map (λ last. last.reply) (last_of self.now client) }
        ensures short { IfSome result (λ reply. length reply.now ≤ most_reply_bytes) }
    {
        match self.clients.get(client as usize) {
            Some(Some(last)) => Some(last.reply.as_slice()),
            _ => None,
        }
    }
}
