ghost use Rattle.std.specs.Prelude.{◌≡◌};
ghost use Rattle.bfs_policy.specs.Standings.{stand_alike};

/// Where a replica stands.
#[derive(Clone, Copy, Debug)]
pub struct Standing {
    /// The view last entered.
    pub view: u64,
    /// The view last asked for: above the one entered while it leaves.
    pub asked: u64,
    /// The number last executed.
    pub last: u64,
    /// The number of its stable checkpoint.
    pub stable: u64,
}

impl Standing {
    /// Whether another one is the same.
    pub(crate) fn is_like(self, other: Standing) -> bool
        ensures { result ≡ stand_alike self other }
    {
        self.view == other.view
            && self.asked == other.asked
            && self.last == other.last
            && self.stable == other.stable
    }
}

/// How things stand at a replica when it looks what is due.
#[derive(Clone, Copy, Debug)]
pub struct Facts {
    /// The time, in microseconds.
    pub now: u64,
    pub own: Standing,
    /// Whether a request waits that it hasn't executed.
    pub waits: bool,
    /// Whether it leads its view and has something to propose, and its last batch is executed.
    pub may_propose: bool,
    /// The view that f + 1 others ask for, or a later one: the least of these, if they do.
    pub follow: Option<u64>,
    /// Whether it has CHECKPOINTs of f + 1 others above the number that it has executed last.
    pub is_behind: bool,
    /// Whether a piece of the state that it fetches has come since it looked last.
    pub has_piece: bool,
}

/// Whether it leaves its view.
#[derive(Clone, Copy, Debug, PartialEq, Eq)]
pub enum Leaving {
    /// It stays, or waits on.
    Stays,
    /// Its time has run out: it asks for the next view.
    TimesOut,
    /// It follows others to that view.
    Follows(u64),
}

/// What is due. `Policy::to_resend` tells beside it to whom what was said is to be given again.
#[derive(Clone, Copy, Debug, PartialEq, Eq)]
pub struct Decision {
    /// Whether the others are to be told where it stands.
    pub tells: bool,
    pub proposes: bool,
    pub leaving: Leaving,
    /// The replica that is to be asked for its state.
    pub fetches_from: Option<u32>,
}
