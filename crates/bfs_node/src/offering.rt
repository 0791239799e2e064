// A client's REQUEST comes, and only a new one waits.
ghost use Rattle.std.specs.Prelude.{◌≡◌, ◌≢◌, true, None, Some, IfOk, IfErr, OnOk, OnErr};
ghost use Rattle.bfs_messages.specs.Signing.{request_is_signed};
ghost use Rattle.bfs_node.specs.Offering.{after_offered, answered, has_its_share, offer_refusal, offered, offered_as, room_refusal, share, told_again, with_offered};
ghost use Rattle.bfs_node.specs.declared.error.NodeError.TheVariants as error;
ghost use Rattle.bfs_replies.specs.Answers.{answer_again};
ghost use Rattle.bfs_replies.specs.declared.tables.Class.TheVariants as class;

use crate::error::NodeError;
use crate::node::Node;
use crate::replying::tell;
use bfs_messages::{Message, Request, Signed, is_request_signed};
use bfs_replies::Class;
use bfs_types::{MOST_REQUESTS, Memory};

/// What comes of a REQUEST that a replica is offered.
#[derive(Drop)]
pub enum Offered {
    /// It is new, and waits behind the others.
    Waits,
    /// It is new, and waits already: no second one waits.
    WaitsAlready,
    /// It is its client's last one that was executed: the REPLY once more, which is to be sent.
    Answered(Signed<Message>),
    /// It is earlier than its client's last one: nothing comes of it.
    PassedOver,
}

impl Node {
    /// Takes a REQUEST that came, but unlike `take` lets only a new one wait, and only one of each (OSDI 1999 section 4.1): what the last reply to its
    /// client answers is answered again, and what is earlier is passed over. Of one client no more wait than the places of a batch divided by the
    /// number of clients. It is refused, in this order: `BadAuthenticator`; `BatchFull` where it is new and there is no place for it; `Memory`.
    /// Nothing changes then.
    pub fn offer(&mut self, request: Signed<Request>) -> Result<Offered, NodeError>
        ensures taken { OnOk result (offer_refusal self.old request ≡ None) }
        ensures is { IfOk result (λ it. it ≡ offered self.old request) }
        ensures now { OnOk result (self.new ≡ (with_offered self.old request).now) }
        ensures refused { IfErr result (λ e. e ≢ error.Memory → offer_refusal self.old request ≡ Some e) }
        ensures memory { IfErr result (λ e. e ≡ error.Memory → offer_refusal self.old request ≡ None) }
        ensures err { OnErr result (self.new ≡ self.old) }
    {
        if !is_request_signed(&self.keys, &request) {
            return Err(NodeError::BadAuthenticator);
        }
        let (client, timestamp) = (request.message.client(), request.message.timestamp());
        match self.table.classify(client, timestamp) {
            Class::New => self.let_wait(request),
            Class::Repeat => Ok(self.answer_again(client)?),
            Class::Old | Class::Unknown => Ok(Offered::PassedOver),
        }
    }

    // a new one
    fn let_wait(&mut self, request: Signed<Request>) -> Result<Offered, NodeError>
        requires { request_is_signed self.old.keys request ≡ true }
        ensures taken { OnOk result (room_refusal self.old request ≡ None) }
        ensures is { IfOk result (λ it. it ≡ offered_as class.New self.old request) }
        ensures now { OnOk result (self.new ≡ after_offered self.old request (offered_as class.New self.old request)) }
        ensures refused { IfErr result (λ e. e ≢ error.Memory → room_refusal self.old request ≡ Some e) }
        ensures memory { IfErr result (λ e. e ≡ error.Memory → room_refusal self.old request ≡ None) }
        ensures err { OnErr result (self.new ≡ self.old) }
    {
        if self.pending.waits(self.keys.me(), &request) {
            return Ok(Offered::WaitsAlready);
        }
        if self.pending.is_full() || self.has_its_share(request.message.client()) {
            return Err(NodeError::BatchFull);
        }
        self.pending.push(request)?;
        Ok(Offered::Waits)
    }

    fn has_its_share(&self, client: u32) -> bool
        ensures { result ≡ has_its_share self.now client }
    {
        self.share() <= self.pending.count_of(client) as usize
    }

    /// How many requests of one client may wait by `offer`.
    pub fn share(&self) -> usize
        ensures { result ≡ share self.now }
    {
        MOST_REQUESTS / (self.table.clients() as usize).max(1)
    }

    // The last reply to the client once more.
    fn answer_again(&self, client: u32) -> Result<Offered, Memory>
        ensures { IfOk result (λ it. it ≡ answered (told_again self.now (answer_again self.now.table client))) }
    {
        let Some(answer) = self.table.answer_again(client)? else {
            return Ok(Offered::PassedOver);
        };
        match tell(self.alloc, &self.keys, &self.order, &answer)? {
            Some(reply) => Ok(Offered::Answered(reply)),
            None => Ok(Offered::PassedOver),
        }
    }
}
