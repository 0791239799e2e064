ghost use Rattle.std.specs.Prelude.{◌≡◌, map};
ghost use Rattle.bfs_policy.specs.Peers as model;
ghost use Rattle.bfs_policy.specs.Standings.{goes_for, is_ahead, may_lack};

use crate::facts::Standing;
use crate::times::{has_lasted, since_when};
use bfs_types::CHECKPOINT_INTERVAL;

// how long it is waited for one that doesn't move, at first and at most, in microseconds
const LEAST_PAUSE: u64 = 300_000;

const MOST_PAUSE: u64 = 8_000_000;

/// Another replica, as far as it tells. Times are in microseconds.
#[derive(Clone, Copy)]
pub(crate) struct Peer {
    pub(crate) told: Option<Standing>,
    // since when it has not moved, or was given something again
    pub(crate) since: Option<u64>,
    pub(crate) pause: u64,
    // whether it is to be given something again
    pub(crate) is_due: bool,
}

impl Peer {
    /// One that has told so much.
    pub(crate) fn at(told: Option<Standing>) -> Peer
        ensures { result ≡ model.peer_at told }
    {
        Peer {
            told,
            since: None,
            pause: LEAST_PAUSE,
            is_due: false,
        }
    }

    // What it is once it tells that it stands there.
    fn telling(self, standing: Standing) -> Peer
        ensures { result ≡ model.peer_told standing self }
    {
        if self.stands_at(standing) {
            self
        } else {
            Peer::at(Some(standing))
        }
    }

    fn stands_at(&self, standing: Standing) -> bool
        ensures { result ≡ model.stands_at standing self.now.told }
    {
        match self.told {
            Some(told) => told.is_like(standing),
            None => false,
        }
    }

    /// Looks whether it is to be given again what was said.
    pub(crate) fn look(&mut self, own: Standing, now: u64)
        ensures { self.new ≡ model.peer_after own now self.old }
    {
        self.is_due = self.may_lack(own) && has_lasted(self.since, self.pause, now);
        if self.is_due {
            self.since = Some(now);
            self.pause = self.pause.saturating_mul(2).min(MOST_PAUSE);
        } else {
            self.since = since_when(self.since, self.told.is_some(), now);
        }
    }

    fn may_lack(&self, own: Standing) -> bool
        ensures { result ≡ model.tells_that (may_lack own) self.now }
    {
        match self.told {
            Some(told) => may_lack(own, told),
            None => false,
        }
    }

    /// Whether it is in that view or a later one, or asks for one.
    pub(crate) fn goes_for(&self, view: u64) -> bool
        ensures { result ≡ model.tells_that (goes_for view) self.now }
    {
        match self.told {
            Some(told) => view <= told.view || view <= told.asked,
            None => false,
        }
    }

    /// Whether its stable number is above that one.
    pub(crate) fn is_ahead(&self, last: u64) -> bool
        ensures { result ≡ model.tells_that (is_ahead last) self.now }
    {
        match self.told {
            Some(told) => last < told.stable,
            None => false,
        }
    }

    /// Where it stands, if it is to be given again what was said.
    pub(crate) fn given(&self) -> Option<Standing>
        ensures { result ≡ model.given_to self.now }
    {
        if self.is_due { self.told } else { None }
    }
}

fn may_lack(own: Standing, told: Standing) -> bool
    ensures { result ≡ may_lack own told }
{
    told.view <= own.view
        || told.view < own.asked
        || (CHECKPOINT_INTERVAL <= own.last && told.stable <= own.last - CHECKPOINT_INTERVAL)
}

/// The replica of that number tells where it stands, if it is one of these.
pub(crate) fn tell_at(peers: &mut [Peer], number: usize, standing: Standing)
    ensures { peers.new ≡ model.peers_told number standing peers.old }
{
    if let Some(peer) = peers.get(number) {
        peers[number] = peer.telling(standing);
    }
}

/// Looks which of them are to be given again what was said.
pub(crate) fn look_at_all(peers: &mut [Peer], own: Standing, now: u64)
    ensures { peers.new ≡ map (model.peer_after own now) peers.old }
{
    for peer in peers.iter_mut() {
        peer.look(own, now);
    }
}
