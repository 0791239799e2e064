//! What comes about in schedules.

/// What came about, that a schedule without events does not pass for a good one.
#[derive(Clone, Copy, Debug, PartialEq, Eq)]
pub struct Seen {
    /// Results that correct clients accepted.
    pub accepted: u32,
    /// How often a replica that doesn't lie entered a view, and adopted a snapshot.
    pub views: u32,
    pub adoptions: u32,
    /// Messages of liars, and requests of lying clients, that such a replica took.
    pub lies: u32,
    /// Lies of clients.
    pub lies_of_clients: u32,
    /// Wrong results that came to clients.
    pub wrong_results: u32,
    /// Requests that were executed before, of which another call of the timestamp was, and behind which a later one was.
    pub repeated: u32,
    pub contested: u32,
    pub late: u32,
}

impl Seen {
    pub const NOTHING: Seen = Seen {
        accepted: 0,
        views: 0,
        adoptions: 0,
        lies: 0,
        lies_of_clients: 0,
        wrong_results: 0,
        repeated: 0,
        contested: 0,
        late: 0,
    };

    /// That of both.
    pub fn and(self, more: Seen) -> Seen {
        Seen {
            accepted: self.accepted.saturating_add(more.accepted),
            views: self.views.saturating_add(more.views),
            adoptions: self.adoptions.saturating_add(more.adoptions),
            lies: self.lies.saturating_add(more.lies),
            lies_of_clients: self.lies_of_clients.saturating_add(more.lies_of_clients),
            wrong_results: self.wrong_results.saturating_add(more.wrong_results),
            repeated: self.repeated.saturating_add(more.repeated),
            contested: self.contested.saturating_add(more.contested),
            late: self.late.saturating_add(more.late),
        }
    }

    /// The less of each: so it is the other one exactly where this one reaches it.
    pub fn at_most(self, most: Seen) -> Seen {
        Seen {
            accepted: self.accepted.min(most.accepted),
            views: self.views.min(most.views),
            adoptions: self.adoptions.min(most.adoptions),
            lies: self.lies.min(most.lies),
            lies_of_clients: self.lies_of_clients.min(most.lies_of_clients),
            wrong_results: self.wrong_results.min(most.wrong_results),
            repeated: self.repeated.min(most.repeated),
            contested: self.contested.min(most.contested),
            late: self.late.min(most.late),
        }
    }
}
