ghost use Rattle.std.specs.Prelude.{◌≡◌, ◌≤◌};
ghost use Rattle.bfs_model.specs.Server.Limits.{most_faults};
ghost use Rattle.bfs_policy.specs.Fetching as model;

use crate::times::{has_lasted, is_past, since_when};

// how long others are ahead before a state is asked for, in microseconds
const BEHIND: u64 = 300_000;

// how long the next piece of it is waited for
const PIECE: u64 = 500_000;

/// From whom a state is fetched. Times are in microseconds.
#[derive(Clone, Copy)]
pub(crate) struct Fetching {
    // since when others are ahead
    pub(crate) since: Option<u64>,
    // whom it asked last
    pub(crate) from: u32,
    // when it asked last, or got a piece
    pub(crate) asked_at: Option<u64>,
    // how often it has asked since it executed something
    pub(crate) asks: u32,
}

impl Fetching {
    /// Nothing is fetched.
    pub(crate) fn new() -> Fetching
        ensures { result ≡ model.nothing_fetched }
    {
        Fetching {
            since: None,
            from: 0,
            asked_at: None,
            asks: 0,
        }
    }

    /// Looks whether something was executed, whether others are ahead, and whether a piece has come.
    pub(crate) fn see(&mut self, has_executed: bool, is_behind: bool, has_piece: bool, now: u64)
        ensures { self.new ≡ model.fetching_seen has_executed is_behind has_piece now self.old }
    {
        if has_executed {
            self.since = None;
            self.asked_at = None;
            self.asks = 0;
        }
        if has_piece {
            self.asked_at = Some(now);
        }
        self.since = since_when(self.since, is_behind, now);
    }

    /// Whether it has not asked each other replica twice in vain.
    pub(crate) fn is_hopeful(&self, f: u32) -> bool
        requires { f ≤ most_faults }
        ensures { result ≡ model.is_hopeful f self.now }
    {
        self.asks < 6 * f
    }

    fn is_due(&self, f: u32, last: u64, now: u64) -> bool
        requires { f ≤ most_faults }
        ensures { result ≡ model.is_fetch_due f last now self.now }
    {
        (has_lasted(self.since, BEHIND, now) || (last == 0 && self.is_hopeful(f)))
            && is_past(self.asked_at, PIECE, now)
    }

    /// The replica that is to be asked, if one is: another one each time.
    pub(crate) fn ask(&mut self, f: u32, me: u32, last: u64, now: u64) -> Option<u32>
        requires { f ≤ most_faults }
        ensures now { self.new ≡ model.fetching_after f me last now self.old }
        ensures from { result ≡ model.fetched_from f me last now self.old }
    {
        if !self.is_due(f, last, now) {
            return None;
        }
        self.from = next_other(f, me, self.from);
        self.asked_at = Some(now);
        self.asks = self.asks.saturating_add(1).min(6 * f);
        Some(self.from)
    }
}

fn next_other(f: u32, me: u32, number: u32) -> u32
    requires { f ≤ most_faults }
    ensures { result ≡ model.next_other f me number }
{
    let next = next_of(f, number);
    if next == me { next_of(f, me) } else { next }
}

fn next_of(f: u32, number: u32) -> u32
    requires { f ≤ most_faults }
    ensures { result ≡ model.next_of f number }
{
    if number < 3 * f { number + 1 } else { 0 }
}
