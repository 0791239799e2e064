//! Four replicas of which one may lie, a client that may lie, and one that doesn't: what is lied, and how they go on.
use crate::calm::{count_executed, execute, next_view, resend};
use crate::keys::{Known, MEMBERS};
use crate::voices::{Form, Voice};
use bfs_auth::{Keys, Principal};
use bfs_messages::{
    Checkpoint, Message, OrderMessage, PrePrepare, Signed, ViewChange, Vote, is_signed,
};
use bfs_testing_liars::liars::batch_of;
use bfs_testing_liars::sets::Set;
use bfs_testing_liars::world::{Flight, World};
use bfs_testing_nodes::calls::deliver;
use bfs_testing_nodes::members::null_request;
use bfs_testing_nodes::snapshots::{adopt, snapshot_of};
use bfs_types::Memory;
use std::alloc::Global;
use std::sync::Wait;
use std::thread::Threads;

/// What is lied.
#[derive(Clone, Copy, Debug, PartialEq, Eq)]
pub enum Lie {
    /// A request of client 1, once.
    Request,
    /// The PRE-PREPARE for number 1 in view 0, once.
    Proposal,
    /// The PREPARE for what was proposed last, once.
    Prepare,
    /// The COMMIT for what was proposed last, once.
    Commit,
    /// The CHECKPOINT behind number 16, once.
    Checkpoint,
    /// The VIEW-CHANGE for each next view.
    ViewChange,
}

impl Lie {
    /// Who lies: replica 0 as a primary, replica 3 as a backup, or no replica.
    pub fn liar(self) -> Option<u32> {
        match self {
            Lie::Request => None,
            Lie::Proposal => Some(0),
            Lie::Prepare | Lie::Commit | Lie::Checkpoint | Lie::ViewChange => Some(3),
        }
    }

    fn holder(self) -> Principal {
        match self.liar() {
            Some(number) => Principal::Replica(number),
            None => Principal::Client(1),
        }
    }

    // of what the liar's own replica sends
    fn kind(self) -> u32 {
        match self {
            Lie::Request => 1,
            Lie::Proposal => 2,
            Lie::Prepare => 3,
            Lie::Commit => 4,
            Lie::Checkpoint => 5,
            Lie::ViewChange => 6,
        }
    }
}

/// How the copies of a lie differ.
#[derive(Clone, Copy, Debug, PartialEq, Eq)]
pub enum Copies {
    /// All have its sender's own authenticator.
    Own,
    /// All have its sender's own, with a changed byte.
    Changed,
    /// All have a signature by a key that nobody knows.
    OfAnother,
    /// Each has keyed hashes that are right for its receiver alone.
    HashesForEach,
    /// One receiver's has its sender's own, and the others' have a changed byte.
    OwnFor(usize),
}

impl Copies {
    fn form_for(self, receiver: usize) -> Form {
        match self {
            Copies::Own => Form::Own,
            Copies::Changed => Form::Changed,
            Copies::OfAnother => Form::OfAnother,
            Copies::HashesForEach => Form::HashesFor(receiver),
            Copies::OwnFor(one) if one == receiver => Form::Own,
            Copies::OwnFor(_) => Form::Changed,
        }
    }
}

/// What happens.
#[derive(Clone, Copy)]
pub enum Step {
    /// These hear from now on, and go on.
    Hear(Set),
    /// A copy of the lie is on its way to each of these.
    Lie(Set),
    /// A replica proposes what waits.
    Propose(usize),
    /// All that is on its way comes, and what is sent then, and each executes what is committed.
    Settle,
    /// So many batches without requests are proposed by replica 0 and executed.
    Batches(u32),
    /// A replica adopts another one's stable snapshot, if there is one that is ahead.
    Adopt(usize, usize),
    /// From now on what that replica sends of that kind is lost.
    Lose(u32, u32),
    /// Nothing more is lost, and each of those that hear gives again what each other one lacks.
    Resend,
}

/// What came of it.
#[derive(Debug, PartialEq, Eq, Drop)]
pub struct Outcome {
    /// Whether a copy of the lie passed at some replicas and not at others.
    pub is_split: bool,
    /// What those that don't lie have refused of what others that don't lie have sent, for what it is: the tag of its text, and the number of
    /// the refusal; each once, in the order in which they came.
    pub refused: Vec<(u32, u32)>,
    /// How many views later all replicas that don't lie have executed the request that a client sends then; `None` where they haven't in two.
    pub views: Option<u32>,
}

/// A schedule under way.
#[derive(Drop)]
pub struct Scene {
    alloc: Global,
    world: World,
    receivers: Vec<Keys>,
    lie: Lie,
    copies: Copies,
    voice: Voice,
    client: Voice,
    heard: Set,
    lost: Option<(u32, u32)>,
    is_split: bool,
    refused: Vec<(u32, u32)>,
}

// the most rounds in which messages come and batches are executed
const ROUNDS: u32 = 40;

// the most messages that come in a round
const MESSAGES: u32 = 2_000;

// what a message is refused for whatever came before
fn is_for_what_it_is(code: u32) -> bool {
    code == 24 || code == 31 || code == 34
}

impl Scene {
    /// Replicas that have done nothing.
    pub fn new(alloc: Global, known: &Known, lie: Lie, copies: Copies) -> Result<Scene, Memory> {
        let liars = match lie.liar() {
            Some(number) => Set::of(number as usize),
            None => Set(0),
        };
        let mut world = World::new(alloc, MEMBERS, liars)?;
        world.nodes = known.replicas(alloc)?;
        let mut receivers = Vec::new(alloc);
        for me in 0..4 {
            receivers.push(known.keys(alloc, me)?)?;
        }
        Ok(Scene {
            alloc,
            world,
            receivers,
            lie,
            copies,
            voice: Voice::new(alloc, known, lie.holder())?,
            client: Voice::new(alloc, known, Principal::Client(0))?,
            heard: liars.others(),
            lost: None,
            is_split: false,
            refused: Vec::new(alloc),
        })
    }

    // those that don't lie
    fn correct(&self) -> Set {
        self.world.liars.others()
    }

    // the vote of the PRE-PREPARE that was sent last, as the liar's
    fn vote(&self) -> Option<Vote> {
        let on = self.world.proposed.last()?;
        Some(Vote::new(self.lie.liar()?, on.view(), on.number(), *on.digest()))
    }

    // what is lied
    fn text(&self) -> Result<Message, Memory> {
        let liar = self.lie.liar().unwrap_or(0);
        Ok(match self.lie {
            Lie::Request => Message::Request(null_request(self.alloc, 1, 1)?),
            Lie::Proposal => {
                let batch = batch_of(self.alloc, 1)?;
                Message::Order(OrderMessage::PrePrepare(PrePrepare::new(liar, 0, 1, batch)))
            }
            Lie::Prepare => Message::Order(OrderMessage::Prepare(self.vote().ok_or(Memory)?)),
            Lie::Commit => Message::Order(OrderMessage::Commit(self.vote().ok_or(Memory)?)),
            Lie::Checkpoint => {
                let digest = self.world.record.digest_at(16).ok_or(Memory)?;
                Message::Order(OrderMessage::Checkpoint(Checkpoint::new(liar, 16, digest)))
            }
            Lie::ViewChange => Message::ViewChange(ViewChange::new(
                liar,
                next_view(&self.world, self.correct()) % (1 << 63),
                0,
                Vec::new(self.alloc),
                Vec::new(self.alloc),
            )),
        })
    }

    // at how many of the four it passes
    fn passes(&self, signed: &Signed<Message>) -> u32 {
        let mut count = 0u32;
        for keys in &self.receivers {
            if is_signed(keys, signed) {
                count = count.saturating_add(1);
            }
        }
        count
    }

    fn tell_one(&mut self, receiver: usize) -> Result<(), Memory> {
        let text = self.text()?;
        let signed = self.voice.say(text, self.copies.form_for(receiver))?;
        let passes = self.passes(&signed);
        self.is_split = self.is_split || (passes != 0 && passes != 4);
        self.world.put(&signed, Set::of(receiver), true)
    }

    fn tell(&mut self, to: Set) -> Result<(), Memory> {
        for receiver in 0..4 {
            if to.has(receiver) && self.correct().has(receiver) {
                self.tell_one(receiver)?;
            }
        }
        Ok(())
    }

    // the liar's own replica sends none of what it lies
    fn is_lost(&self, flight: Flight) -> bool {
        let Some(sent) = self.world.sent.get(flight.which) else {
            return true;
        };
        let of = (sent.head.kind, sent.head.sender);
        let is_replaced = self.lie.liar() == Some(of.1) && self.lie.kind() == of.0;
        !self.heard.has(flight.to) || self.lost == Some(of) || (is_replaced && !sent.is_lie)
    }

    fn note(&mut self, kind: u32, code: u32) -> Result<(), Memory> {
        if is_for_what_it_is(code) && !self.refused.contains(&(kind, code)) {
            self.refused.push((kind, code))?;
        }
        Ok(())
    }

    fn send(&mut self, sender: usize, messages: &[Signed<Message>]) -> Result<(), Memory> {
        for signed in messages {
            match &signed.message {
                Message::Reply(_) => {}
                _ => self.world.put(signed, Set::of(sender).others(), false)?,
            }
        }
        Ok(())
    }

    fn arrive<R: Threads + Sync>(&mut self, rt: &R, flight: Flight) -> Result<(), Memory> {
        let (Some(node), Some(sent)) = (
            self.world.nodes.get_mut(flight.to),
            self.world.sent.get(flight.which),
        ) else {
            return Ok(());
        };
        let (kind, is_lie) = (sent.head.kind, sent.is_lie);
        match deliver(rt, node, &sent.bytes) {
            Ok(messages) => self.send(flight.to, &messages),
            Err(error) if !is_lie => self.note(kind, error.code()),
            Err(_) => Ok(()),
        }
    }

    // first come, first served
    fn hand_over<R: Threads + Sync>(&mut self, rt: &R) -> Result<(), Memory> {
        for _ in 0..MESSAGES {
            if self.world.on_their_way.is_empty() {
                return Ok(());
            }
            let flight = self.world.on_their_way.remove(0);
            if !self.is_lost(flight) {
                self.arrive(rt, flight)?;
            }
        }
        Ok(())
    }

    fn settle<R: Threads + Wait + Sync>(&mut self, rt: &R) -> Result<(), Memory> {
        for _ in 0..ROUNDS {
            self.hand_over(rt)?;
            execute(rt, &mut self.world, self.heard)?;
        }
        self.hand_over(rt)
    }

    fn order<R: Threads + Wait + Sync>(&mut self, rt: &R, count: u32) -> Result<(), Memory> {
        for _ in 0..count {
            self.world.propose(0)?;
            self.hand_over(rt)?;
            execute(rt, &mut self.world, self.heard)?;
        }
        self.hand_over(rt)
    }

    fn adopt<R: Threads + Sync>(
        &mut self,
        rt: &R,
        number: usize,
        from: usize,
    ) -> Result<(), Memory> {
        let last = self.world.last(number);
        let Some(node) = self.world.nodes.get(from) else {
            return Ok(());
        };
        if node.stable_number() <= last {
            return Ok(());
        }
        let Some(snapshot) = snapshot_of(self.alloc, node)? else {
            return Ok(());
        };
        let Some(node) = self.world.nodes.get_mut(number) else {
            return Ok(());
        };
        match adopt(rt, node, &snapshot.text, &snapshot.checkpoint) {
            Ok(()) => Ok(()),
            Err(error) => self.note(5, error.code()),
        }
    }

    fn take<R: Threads + Wait + Sync>(&mut self, rt: &R, step: Step) -> Result<(), Memory> {
        match step {
            Step::Hear(heard) => self.heard = heard,
            Step::Lie(to) => self.tell(to)?,
            Step::Propose(number) => self.world.propose(number)?,
            Step::Settle => self.settle(rt)?,
            Step::Batches(count) => self.order(rt, count)?,
            Step::Adopt(number, from) => self.adopt(rt, number, from)?,
            Step::Lose(kind, sender) => self.lost = Some((kind, sender)),
            Step::Resend => {
                self.lost = None;
                resend(&mut self.world, self.heard)?;
            }
        }
        Ok(())
    }

    // the client that doesn't lie asks all
    fn ask(&mut self) -> Result<(), Memory> {
        let text = Message::Request(null_request(self.alloc, 0, 1)?);
        let signed = self.client.say(text, Form::Own)?;
        self.world.put(&signed, Set::ALL, false)
    }

    // all that don't lie leave for the next view, and its primary proposes
    fn change_view<R: Threads + Wait + Sync>(&mut self, rt: &R) -> Result<(), Memory> {
        let view = next_view(&self.world, self.correct());
        if self.lie == Lie::ViewChange {
            self.tell(Set::ALL)?;
        }
        let correct = self.correct();
        self.world.leave(correct, view)?;
        self.settle(rt)?;
        let primary = self.world.primary(view);
        self.world.propose(primary)?;
        self.settle(rt)
    }

    // in how many views more they have executed what the client asks for
    fn go_on<R: Threads + Wait + Sync>(&mut self, rt: &R) -> Result<Option<u32>, Memory> {
        self.ask()?;
        let wanted = if self.lie.liar().is_some() { 3 } else { 4 };
        for views in 1..3 {
            self.change_view(rt)?;
            let correct = self.correct();
            if count_executed(&self.world, correct, 0, 1) == wanted {
                return Ok(Some(views));
            }
        }
        Ok(None)
    }

    fn outcome(&mut self, views: Option<u32>) -> Result<Outcome, Memory> {
        if self.world.record.is_wrong() {
            return Err(Memory);
        }
        Ok(Outcome {
            is_split: self.is_split,
            refused: std::mem::replace(&mut self.refused, Vec::new(self.alloc)),
            views,
        })
    }

    /// Plays some steps, and then two views more, in which the liar is silent but for what it lies in each of them.
    pub fn play<R: Threads + Wait + Sync>(
        &mut self,
        rt: &R,
        steps: &[Step],
    ) -> Result<Outcome, Memory> {
        for step in steps {
            self.take(rt, *step)?;
        }
        let views = self.go_on(rt)?;
        self.outcome(views)
    }
}
