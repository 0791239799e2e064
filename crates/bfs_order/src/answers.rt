// What a replica answers to a message that it accepts: messages of its own, which stand in its log too.
ghost use Rattle.std.specs.Prelude.{◌≡◌, ◌<◌, ◌++◌, false, IfOk, OnOk, OnErr};
ghost use Rattle.bfs_votes.specs.Votes.{prepared};
ghost use Rattle.bfs_log.specs.Headers.{header, message_header};
ghost use Rattle.bfs_log.specs.Logs.{as_messages};
ghost use Rattle.bfs_order.specs.Inside.Asking.{asked_answers};
ghost use Rattle.bfs_order.specs.Replica.Accepting.{accepted};
ghost use Rattle.bfs_order.specs.Replica.Answers.{commits_in, own_vote, prepares_in, said_once, votes_in};
ghost use Rattle.bfs_order.specs.Replica.Refusals.{is_there};
ghost use Rattle.bfs_order.specs.Replica.States.{known, with_message, with_more};
ghost use Rattle.bfs_model.specs.Server.Limits.{most_replicas};

use crate::asking::{Asked, asked_by};
use crate::order::Order;
use bfs_auth::Keys;
use bfs_messages::{Message, OrderMessage, Signed, Vote, sign_order};
use bfs_types::{Memory, TryClone};

impl Order {
    // Signs a message of its own, and puts it in the log and among what is sent, unless it has said one of that kind there.
    fn say_once(
        &mut self,
        keys: &Keys,
        message: OrderMessage,
        sent: &mut Vec<Signed<Message>>,
    ) -> Result<(), Memory>
        requires { (message_header message).sender ≡ self.old.me }
        ensures now { OnOk result (self.new ≡ with_more self.old (said_once keys.now self.old message)) }
        ensures sent { OnOk result (sent.new.items ≡ sent.old.items ++ as_messages (said_once keys.now self.old message)) }
        ensures err { OnErr result (self.new ≡ self.old) }
    {
        if self.is_there(&message) {
            return Ok(());
        }
        let signed = sign_order(self.alloc, keys, message)?;
        let kept = signed.try_clone(self.alloc)?;
        sent.push(signed.into_message())?;
        self.log.push(kept)
    }

    fn add_prepare(
        &mut self,
        keys: &Keys,
        vote: &Vote,
        sent: &mut Vec<Signed<Message>>,
    ) -> Result<(), Memory>
        ensures now { OnOk result (self.new ≡ with_more self.old (prepares_in keys.now self.old vote.now.view vote.now.number vote.now.digest)) }
        ensures sent { OnOk result (sent.new.items ≡ sent.old.items ++ as_messages (prepares_in keys.now self.old vote.now.view vote.now.number vote.now.digest)) }
        ensures err { OnErr result (self.new ≡ self.old) }
    {
        if self.me == self.leader(vote.view()) {
            return Ok(());
        }
        let own = self.own_vote(vote);
        self.say_once(keys, OrderMessage::Prepare(own), sent)
    }

    pub(crate) fn add_commit(
        &mut self,
        keys: &Keys,
        vote: &Vote,
        sent: &mut Vec<Signed<Message>>,
    ) -> Result<(), Memory>
        ensures now { OnOk result (self.new ≡ with_more self.old (commits_in keys.now self.old vote.now.view vote.now.number vote.now.digest)) }
        ensures sent { OnOk result (sent.new.items ≡ sent.old.items ++ as_messages (commits_in keys.now self.old vote.now.view vote.now.number vote.now.digest)) }
        ensures err { OnErr result (self.new ≡ self.old) }
    {
        if !self.is_prepared(vote) {
            return Ok(());
        }
        let own = self.own_vote(vote);
        self.say_once(keys, OrderMessage::Commit(own), sent)
    }

    // The same from this replica.
    fn own_vote(&self, vote: &Vote) -> Vote
        ensures { result ≡ own_vote self.now vote.now.view vote.now.number vote.now.digest }
    {
        Vote::new(self.me, vote.view(), vote.number(), *vote.digest())
    }

    fn is_prepared(&self, vote: &Vote) -> bool
        ensures { result ≡ prepared self.now.f self.now.me (known self.now) vote.now.view vote.now.number vote.now.digest }
    {
        self.log
            .is_prepared(self.f, self.me, vote.view(), vote.number(), vote.digest())
    }

    #[tactic(auto, using(std::proofs::lemmas::List::append_assoc, crate::proofs::Fronts::front_again))]
    fn add_votes(
        &mut self,
        keys: &Keys,
        vote: &Vote,
        sent: &mut Vec<Signed<Message>>,
    ) -> Result<(), Memory>
        ensures now { OnOk result (self.new ≡ with_more self.old (votes_in keys.now self.old vote.now.view vote.now.number vote.now.digest)) }
        ensures sent { OnOk result (sent.new.items ≡ sent.old.items ++ as_messages (votes_in keys.now self.old vote.now.view vote.now.number vote.now.digest)) }
        ensures err { OnErr result (self.new ≡ self.old) }
    {
        let before = self.log.messages().len();
        self.add_prepare(keys, vote, sent)?;
        if self.add_commit(keys, vote, sent).is_err() {
            self.log.truncate(before);
            return Err(Memory);
        }
        Ok(())
    }

    fn add_answers(
        &mut self,
        keys: &Keys,
        asked: &Asked,
        sent: &mut Vec<Signed<Message>>,
    ) -> Result<(), Memory>
        ensures now { OnOk result (self.new ≡ with_more self.old (asked_answers keys.now self.old asked.now)) }
        ensures sent { OnOk result (sent.new.items ≡ sent.old.items ++ as_messages (asked_answers keys.now self.old asked.now)) }
        ensures err { OnErr result (self.new ≡ self.old) }
    {
        match asked {
            Asked::Proposal(vote) => self.add_votes(keys, vote, sent),
            Asked::Prepared(vote) => self.add_commit(keys, vote, sent),
            _ => Ok(()),
        }
    }

    // Puts an accepted message in the log, with the answers to it behind it.
    fn add_with_answers(
        &mut self,
        keys: &Keys,
        signed: Signed<OrderMessage>,
        asked: &Asked,
    ) -> Result<Vec<Signed<Message>>, Memory>
        requires free { is_there self.old (header signed) ≡ false }
        requires sender { (header signed).sender < most_replicas }
        ensures now { OnOk result (self.new ≡ with_more (with_message self.old signed) (asked_answers keys.now (with_message self.old signed) asked.now)) }
        ensures sent { IfOk result (λ sent. sent.items ≡ as_messages (asked_answers keys.now (with_message self.old signed) asked.now)) }
        ensures err { OnErr result (self.new ≡ self.old) }
    {
        let mut sent = Vec::new(self.alloc);
        let before = self.log.messages().len();
        self.log.push(signed)?;
        if self.add_answers(keys, asked, &mut sent).is_err() {
            self.log.truncate(before);
            return Err(Memory);
        }
        Ok(sent)
    }

    /// Takes a message that `refusal` does not refuse, and gives what is to be sent to all other replicas. `Memory` if memory runs out;
    /// nothing has changed then.
    pub fn accept(
        &mut self,
        keys: &Keys,
        signed: Signed<OrderMessage>,
    ) -> Result<Vec<Signed<Message>>, Memory>
        requires free { is_there self.old (header signed) ≡ false }
        requires sender { (header signed).sender < most_replicas }
        ensures now { OnOk result (self.new ≡ (accepted keys.now self.old signed).now) }
        ensures sent { IfOk result (λ sent. sent.items ≡ as_messages ((accepted keys.now self.old signed).sent)) }
        ensures err { OnErr result (self.new ≡ self.old) }
    {
        let asked = asked_by(&signed.message);
        let sent = self.add_with_answers(keys, signed, &asked)?;
        self.settle(&asked);
        Ok(sent)
    }
}
