ghost use Rattle.std.specs.Prelude.{◌≡◌};
ghost use Rattle.bfs_policy.specs.Standings.{goes_for, is_ahead};
ghost use Rattle.bfs_policy.specs.Policies as model;

use crate::facts::{Decision, Facts, Leaving, Standing};
use crate::fetching::Fetching;
use crate::peers::{Peer, look_at_all, tell_at};
use crate::telling::Telling;
use crate::timer::Timer;
use bfs_types::{MOST_FAULTS, MOST_REPLICAS};
use std::marker::Model;

/// When one of 3f + 1 replicas does what. It takes no memory.
#[derive(Drop)]
pub struct Policy {
    f: u32,
    me: u32,
    timer: Timer,
    // by the replicas' numbers
    peers: [Peer; MOST_REPLICAS],
    fetching: Fetching,
    telling: Telling,
}

impl Model for Policy {
    ghost use Rattle.std.specs.Prelude.{◌≤◌};
    ghost use Rattle.bfs_model.specs.Server.Limits.{most_faults};
    ghost use Rattle.bfs_policy.specs.Policies as model;

    ghost Value = { model.Policy };

    ghost view = { λ p. record { f = p.f; me = p.me; timer = p.timer; peers = p.peers; fetching = p.fetching; telling = p.telling } };

    ghost invariant = { λ p. p.f ≤ most_faults };
}

impl Policy {
    /// That of replica `me`, which waits so many microseconds for a request. f is at most 10.
    pub fn new(f: u32, me: u32, patience: u64) -> Policy
        ensures { result ≡ model.new_policy f me patience }
    {
        Policy {
            f: f.min(MOST_FAULTS),
            me,
            timer: Timer::new(patience),
            peers: [Peer::at(None); MOST_REPLICAS],
            fetching: Fetching::new(),
            telling: Telling::new(),
        }
    }

    /// A replica tells where it stands. What is told in this one's name, or of a number that none has, counts for nothing.
    pub fn hear(&mut self, from: u32, standing: Standing)
        ensures { self.new ≡ model.heard from standing self.old }
    {
        if from == self.me || 3 * self.f < from {
            return;
        }
        tell_at(&mut self.peers, from as usize, standing);
    }

    /// Looks what is due. What is told as due counts as done.
    pub fn look(&mut self, facts: Facts) -> Decision
        ensures now { self.new ≡ model.policy_after self.old facts }
        ensures decision { result ≡ model.decision_of self.old facts }
    {
        let waits = facts.waits && self.may_wait(facts.own);
        let is_behind = facts.is_behind || (self.f as usize) < self.count_ahead(facts.own.last);
        let has_executed = self.timer.has_executed(facts.own);
        self.timer.look(facts.own, waits, facts.now);
        self.fetching
            .see(has_executed, is_behind, facts.has_piece, facts.now);
        let is_held = is_behind && self.fetching.is_hopeful(self.f);
        let is_time_out = self.timer.is_late(facts.now) && !is_held;
        look_at_all(&mut self.peers, facts.own, facts.now);
        Decision {
            tells: self.telling.look(facts.own, facts.now),
            proposes: facts.may_propose,
            leaving: leaving_by(facts.follow, is_time_out),
            fetches_from: self
                .fetching
                .ask(self.f, self.me, facts.own.last, facts.now),
        }
    }

    // whether the view that it asks for is asked for by 2f + 1, if it asks for one
    fn may_wait(&self, own: Standing) -> bool
        ensures { result ≡ model.may_wait self.now own }
    {
        own.asked <= own.view || 2 * self.f as usize <= self.count_for(own.asked)
    }

    fn count_for(&self, view: u64) -> usize
        ensures { result ≡ model.telling_that (goes_for view) self.now }
    {
        self.peers.iter().filter(|peer| peer.goes_for(view)).count()
    }

    fn count_ahead(&self, last: u64) -> usize
        ensures { result ≡ model.telling_that (is_ahead last) self.now }
    {
        self.peers.iter().filter(|peer| peer.is_ahead(last)).count()
    }

    /// Where that replica stands, if what was said is to be given to it again.
    pub fn to_resend(&self, number: u32) -> Option<Standing>
        ensures { result ≡ model.to_resend self.now number }
    {
        self.peers.get(number as usize)?.given()
    }
}

fn leaving_by(follow: Option<u64>, is_time_out: bool) -> Leaving
    ensures { result ≡ model.leaving_by follow is_time_out }
{
    match follow {
        Some(view) => Leaving::Follows(view),
        None if is_time_out => Leaving::TimesOut,
        None => Leaving::Stays,
    }
}
