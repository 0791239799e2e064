ghost use Rattle.std.specs.Prelude.{◌≡◌, [], map, true, IfOk, OnOk};
ghost use Rattle.bfs_frames.specs.Parcels.{told_by};
ghost use Rattle.bfs_service.specs.Acting.{IsOwn, IsTaking};
ghost use Rattle.bfs_service.specs.Journals.{Goes, Journals, all_told, with_no_steps};
ghost use Rattle.bfs_service.specs.Telling.{Tells};
ghost use Rattle.bfs_service.specs.Turns.{Takes, Turned};

use crate::acting::Actor;
use crate::delivering::requests_in;
use crate::fetching::Fetching;
use crate::giving::{Giving, show_stable};
use crate::notes::Notes;
use crate::queue::{Queue, Wanted};
use crate::resending::give_again;
use crate::standings::{Status, standing_of};
use crate::telling::parcels_of;
use crate::terms::Terms;
use bfs_frames::{Frame, Kind, Parcel, To, Turn};
use bfs_messages::{Message, Request, Signed};
use bfs_node::{Executor, Node};
use bfs_policy::{Decision, Facts, Policy};
use bfs_types::{Memory, Time};
use std::alloc::Global;
use std::marker::Model;
use std::sync::Wait;
use std::thread::Threads;

/// A replica as a process: a node, and when it does what. What it is seen as is its node, what that gave to be sent and nobody was told yet, and what it did in a turn
/// as bytes.
#[derive(Drop)]
pub struct Service {
    pub(crate) alloc: Global,
    pub(crate) actor: Actor,
    pub(crate) queue: Queue,
    pub(crate) policy: Policy,
    pub(crate) giving: Giving,
    pub(crate) fetching: Fetching,
    pub(crate) notes: Notes,
    // the number and the view of the last batch that it proposed
    pub(crate) proposed: u64,
    pub(crate) proposed_in: u64,
    // the view that the operator was told last
    told_view: u64,
}

impl Model for Service {
    ghost use Rattle.bfs_service.specs.Journals as model;
    ghost use Rattle.std.specs.Coded.{codes};
    ghost use Rattle.bfs_serial.specs.Codes.{inodes_code};

    ghost Value = { model.Doing };

    ghost coded = { Prim.hlevel (codes, inodes_code) };

    ghost view = { λ service. service.actor };
}

impl Service {
    /// A replica that has been told nothing yet. It takes no memory.
    pub fn new(alloc: Global, node: Node, executor: Executor, terms: Terms) -> Service
        ensures { result ≡ record { acting = record { node = node; sent = [] }; body = []; is_spelled = true } }
    {
        let policy = Policy::new(node.f(), node.number(), terms.patience);
        Service {
            alloc,
            actor: Actor::new(alloc, node, executor),
            queue: Queue::new(alloc, terms.most_batch_bytes),
            policy,
            giving: Giving::new(alloc),
            fetching: Fetching::new(alloc, terms.most_state_bytes),
            notes: Notes::new(alloc),
            proposed: 0,
            proposed_in: 0,
            told_view: 0,
        }
    }

    /// Its node as it is now.
    pub fn node(&self) -> &Node
        ensures { result.now ≡ self.now.acting.node }
    {
        self.actor.node()
    }

    /// What its node did in the turn that it took last, as bytes, if each of its calls has a text.
    pub fn steps(&self) -> &[u8]
        ensures { result.now ≡ self.now.body }
    {
        self.actor.steps()
    }

    /// Whether each of them has one: an adoption of a state has none.
    pub fn is_spelled(&self) -> bool
        ensures { result ≡ self.now.is_spelled }
    {
        self.actor.is_spelled()
    }

    /// Takes a turn, and gives what is to be told. The node takes the new REQUESTs for which there is room, and answers its clients' last ones again;
    /// then it takes each message of a replica, in the order of the frames;
    /// whatever is committed meanwhile is executed, with the checkpoints that are due. Then it adopts a state that has come, or settles a checkpoint that
    /// was shown to be stable, and does what is due by its `Policy`: it
    /// proposes all that waits as one batch of the turn's time, where it leads and its last batch is executed; it asks for a later view; it asks another one for
    /// its state; it tells where it stands; and it gives each other one what that may lack, once more. `Memory` if memory runs out: the process is to end
    /// then, and to tell nothing of this turn.
    pub fn take_turn<R: Threads + Wait + Sync>(
        &mut self,
        rt: &R,
        turn: &Turn,
    ) -> Result<Vec<Parcel>, Memory>
        ensures turned { IfOk result (λ parcels. Turned turn.now self.old.acting self.new.acting (map told_by parcels.items)) }
        // The steps are those of this turn.
        ensures journals { OnOk result (Journals (with_no_steps self.old) self.new) }
    {
        self.actor.begin();
        self.take_requests(rt, turn.time, &turn.frames)?;
        self.actor.deliver_all(rt, turn.time, &turn.frames)?;
        self.go_on(rt, turn.microseconds(), turn.time, &turn.frames)?;
        let parcels = self.tell()?;
        Ok(parcels)
    }

    #[tactic(auto, using(crate::proofs::Doing::goes_both, crate::proofs::Doing::goes_nowhere))]
    fn take_requests<R: Threads + Wait + Sync>(
        &mut self,
        rt: &R,
        time: Time,
        frames: &[Frame],
    ) -> Result<(), Memory>
        ensures { OnOk result (Goes IsTaking self.old self.new) }
    {
        let wanted = self.take_wanted(frames)?;
        self.answer_again(rt, wanted.again)?;
        self.give_requests(rt, time, &wanted.new)?;
        Ok(())
    }

    fn take_wanted(&mut self, frames: &[Frame]) -> Result<Wanted, Memory>
        ensures { self.new ≡ self.old }
    {
        let came = requests_in(self.alloc, frames)?;
        self.queue.push_all(came)?;
        self.queue.take_wanted(self.actor.node())
    }

    fn answer_again<R: Threads + Wait + Sync>(
        &mut self,
        rt: &R,
        requests: Vec<Signed<Request>>,
    ) -> Result<(), Memory>
        ensures { OnOk result (Goes IsTaking self.old self.new) }
    {
        self.actor.offer_all(rt, requests)
    }

    #[tactic(auto, using(crate::proofs::Doing::goes_nowhere))]
    fn give_requests<R: Threads + Wait + Sync>(
        &mut self,
        rt: &R,
        time: Time,
        requests: &[Signed<Message>],
    ) -> Result<(), Memory>
        ensures { OnOk result (Goes IsTaking self.old self.new) }
    {
        if requests.is_empty() {
            return Ok(());
        }
        // the batch is hashed beside only where it is the next one
        if self.may_propose() {
            self.actor.take_requests_for(rt, time, requests)
        } else {
            self.actor.take_requests(rt, requests)
        }
    }

    // what it does of itself, and what it does about frames that are no messages
    #[tactic(auto, using(crate::proofs::Doing::goes_nowhere))]
    fn go_on<R: Threads + Wait + Sync>(
        &mut self,
        rt: &R,
        now: u64,
        time: Time,
        frames: &[Frame],
    ) -> Result<(), Memory>
        ensures { OnOk result (Goes (IsOwn time) self.old self.new) }
    {
        self.advance(rt, time)?;
        self.hear_all(rt, now, time, frames)?;
        let due = self.look(now)?;
        self.propose(rt, time, due.proposes)?;
        self.leave(rt, time, due.leaving)?;
        Ok(())
    }

    // Executes what is committed, and makes checkpoints.
    pub(crate) fn advance<R: Threads + Wait + Sync>(
        &mut self,
        rt: &R,
        time: Time,
    ) -> Result<(), Memory>
        ensures { OnOk result (Goes (IsOwn time) self.old self.new) }
    {
        self.actor.advance(rt, time)
    }

    // Looks what is due. It asks for a state, and tells where it stands, if that is.
    fn look(&mut self, now: u64) -> Result<Decision, Memory>
        ensures { self.new ≡ self.old }
    {
        self.giving.forget(now);
        self.tell_view()?;
        let has_piece = self.fetching.take_has_piece();
        let facts = self.facts(now, has_piece);
        let due = self.policy.look(facts);
        self.tell_standing(due.tells)?;
        self.fetch(due.fetches_from)?;
        self.show_stable()?;
        Ok(due)
    }

    // how things stand
    fn facts(&self, now: u64, has_piece: bool) -> Facts {
        let node = self.actor.node();
        Facts {
            now,
            own: standing_of(node),
            waits: self.queue.has_new(node),
            may_propose: self.is_to_propose(),
            follow: node.view_to_follow(),
            is_behind: node.is_behind(),
            has_piece,
        }
    }

    fn fetch(&mut self, from: Option<u32>) -> Result<(), Memory>
        ensures { self.new ≡ self.old }
    {
        match from {
            Some(from) => self.fetching.ask(from, self.actor.node(), &mut self.notes),
            None => Ok(()),
        }
    }

    // Others are shown what is stable, where they may lack that.
    fn show_stable(&mut self) -> Result<(), Memory>
        ensures { self.new ≡ self.old }
    {
        show_stable(self.alloc, self.actor.node(), &self.policy, &mut self.notes)
    }

    // The others are told where it stands, if they are to be.
    fn tell_standing(&mut self, tells: bool) -> Result<(), Memory>
        ensures { self.new ≡ self.old }
    {
        if !tells {
            return Ok(());
        }
        let text = Status::of(self.actor.node()).text(self.alloc)?;
        self.notes.add(To::Replicas, Kind::Status, text)
    }

    // The operator is told of another view.
    fn tell_view(&mut self) -> Result<(), Memory>
        ensures { self.new ≡ self.old }
    {
        let view = self.actor.node().view();
        if view == self.told_view {
            return Ok(());
        }
        self.told_view = view;
        self.tell_operator("a view is entered: ", view)
    }

    pub(crate) fn tell_operator(&mut self, what: &str, number: u64) -> Result<(), Memory>
        ensures { self.new ≡ self.old }
    {
        let text = format!(in self.alloc; "{what}{number}")?;
        self.notes.add(To::Operator, Kind::Log, text.into_bytes())
    }

    // All that its node gave to be sent, then what that gives again, and then notes.
    #[tactic(auto, using(crate::proofs::Resent::all_told))]
    fn tell(&mut self) -> Result<Vec<Parcel>, Memory>
        ensures told { IfOk result (λ parcels. Tells self.old.acting (map told_by parcels.items)) }
        ensures left { OnOk result (self.new ≡ all_told self.old) }
    {
        let sent = self.actor.take_sent(self.alloc);
        let mut parcels = parcels_of(self.alloc, &sent)?;
        give_again(self.alloc, self.actor.node(), &self.policy, &mut parcels)?;
        self.notes.move_behind(&mut parcels)?;
        Ok(parcels)
    }
}
