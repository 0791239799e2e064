//! What is checked: that replicas that don't lie execute one batch for each number and come to one digest behind it, over all views, and give a
//! request one result; and that none of them takes two digests of one sender for one place.
use crate::heads::Head;
use crate::sets::Set;
use bfs_messages::Reply;
use bfs_types::Memory;
use std::alloc::Global;

/// What came about, that a schedule without events does not pass for a good one.
#[derive(Clone, Copy, Debug, PartialEq, Eq)]
pub struct Seen {
    /// Numbers that two or more replicas that don't lie have executed.
    pub numbers: u32,
    /// How often such a replica entered a view.
    pub views: u32,
    /// How often such a replica adopted a snapshot.
    pub adoptions: u32,
    /// How many messages of liars such a replica took.
    pub lies: u32,
}

impl Seen {
    pub const NOTHING: Seen = Seen {
        numbers: 0,
        views: 0,
        adoptions: 0,
        lies: 0,
    };

    /// That of both.
    pub fn and(self, more: Seen) -> Seen {
        Seen {
            numbers: self.numbers.saturating_add(more.numbers),
            views: self.views.saturating_add(more.views),
            adoptions: self.adoptions.saturating_add(more.adoptions),
            lies: self.lies.saturating_add(more.lies),
        }
    }

    /// Whether none is below.
    pub fn reaches(self, least: Seen) -> bool {
        least.numbers <= self.numbers
            && least.views <= self.views
            && least.adoptions <= self.adoptions
            && least.lies <= self.lies
    }
}

// A number, the digest behind it, and who came to it.
#[derive(Clone, Copy)]
struct Behind {
    number: u64,
    digest: [u8; 32],
    by: Set,
}

// A number, and the digest of the batch that is executed for it.
#[derive(Clone, Copy)]
struct Executed {
    number: u64,
    batch: [u8; 32],
}

/// A result of a client's request.
#[derive(Drop)]
pub struct Answer {
    pub client: u32,
    pub timestamp: u64,
    pub result: Vec<u8>,
}

/// What replicas that don't lie have come to.
#[derive(Drop)]
pub struct Record {
    alloc: Global,
    behind: Vec<Behind>,
    executed: Vec<Executed>,
    // the messages that tell a digest which each has taken
    taken: Vec<(usize, Head)>,
    answers: Vec<Answer>,
    seen: Seen,
    is_wrong: bool,
}

impl Record {
    pub fn new(alloc: Global) -> Record {
        Record {
            alloc,
            behind: Vec::new(alloc),
            executed: Vec::new(alloc),
            taken: Vec::new(alloc),
            answers: Vec::new(alloc),
            seen: Seen::NOTHING,
            is_wrong: false,
        }
    }

    /// Whether two have come to different things.
    pub fn is_wrong(&self) -> bool {
        self.is_wrong
    }

    /// What came about.
    pub fn seen(&self) -> Seen {
        let mut numbers = 0u32;
        for behind in &self.behind {
            if behind.by.0.count_ones() >= 2 {
                numbers = numbers.saturating_add(1);
            }
        }
        Seen {
            numbers,
            ..self.seen
        }
    }

    pub fn note_view(&mut self) {
        self.seen.views = self.seen.views.saturating_add(1);
    }

    pub fn note_adoption(&mut self) {
        self.seen.adoptions = self.seen.adoptions.saturating_add(1);
    }

    pub fn note_lie(&mut self) {
        self.seen.lies = self.seen.lies.saturating_add(1);
    }

    /// A replica has that digest behind a number.
    pub fn note(&mut self, replica: usize, number: u64, digest: [u8; 32]) -> Result<(), Memory> {
        for behind in self.behind.iter_mut() {
            if behind.number == number {
                behind.by = behind.by.with(replica);
                self.is_wrong = self.is_wrong || behind.digest != digest;
                return Ok(());
            }
        }
        let by = Set::of(replica);
        self.behind.push(Behind { number, digest, by })?;
        Ok(())
    }

    /// A replica has executed the batch with that digest for a number.
    pub fn note_batch(&mut self, number: u64, batch: [u8; 32]) -> Result<(), Memory> {
        for executed in &self.executed {
            if executed.number == number {
                self.is_wrong = self.is_wrong || executed.batch != batch;
                return Ok(());
            }
        }
        self.executed.push(Executed { number, batch })?;
        Ok(())
    }

    /// The digest of the batch that was executed for a number.
    pub fn batch_at(&self, number: u64) -> Option<[u8; 32]> {
        for executed in &self.executed {
            if executed.number == number {
                return Some(executed.batch);
            }
        }
        None
    }

    /// The digest behind a number.
    pub fn digest_at(&self, number: u64) -> Option<[u8; 32]> {
        for behind in &self.behind {
            if behind.number == number {
                return Some(behind.digest);
            }
        }
        None
    }

    /// What replicas that don't lie have told clients, once for each client and timestamp.
    pub fn answers(&self) -> &[Answer] {
        self.answers.as_slice()
    }

    /// A replica takes a message that tells a digest.
    pub fn note_taken(&mut self, replica: usize, head: Head) -> Result<(), Memory> {
        for (other, taken) in &self.taken {
            if *other == replica && taken.is_at_the_place_of(&head) {
                self.is_wrong = self.is_wrong || taken.digest != head.digest;
                return Ok(());
            }
        }
        self.taken.push((replica, head))?;
        Ok(())
    }

    /// A replica gives a result.
    pub fn note_reply(&mut self, reply: &Reply) -> Result<(), Memory> {
        for answer in &self.answers {
            if answer.client == reply.client() && answer.timestamp == reply.timestamp() {
                self.is_wrong = self.is_wrong || answer.result.as_slice() != reply.result();
                return Ok(());
            }
        }
        self.answers.push(Answer {
            client: reply.client(),
            timestamp: reply.timestamp(),
            result: reply.result().to_vec(self.alloc)?,
        })?;
        Ok(())
    }
}
