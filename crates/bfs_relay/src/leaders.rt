// Which replica is asked first.
ghost use Rattle.std.specs.Prelude.{◌≡◌, count_by, max, nat_le, if◌then◌else◌, IfOk};
ghost use Rattle.bfs_relay.specs.Leaders as model;

use bfs_frames::To;
use bfs_messages::{Message, Signed};
use bfs_types::{MOST_FAULTS, MOST_REPLICAS, Memory};
use std::alloc::Global;
use std::marker::Model;

/// The latest view that each replica told in its replies, by its number.
#[derive(Drop)]
pub(crate) struct Views {
    views: Vec<u64>,
}

impl Model for Views {
    ghost use Rattle.std.specs.Prelude.{ℕ, List};

    ghost Value = { List ℕ };

    ghost view = { λ all. all.views.items };
}

impl Views {
    /// No replica has told one yet. `Memory` if memory runs out.
    pub fn new(alloc: Global) -> Result<Views, Memory>
        ensures { IfOk result (λ views. views ≡ model.no_views) }
    {
        let mut views = Vec::new(alloc);
        views.resize(MOST_REPLICAS, 0)?;
        Ok(Views { views })
    }

    /// A message has come, and passes or doesn't. A REPLY that passes tells its sender's view; one of an earlier view comes late.
    pub fn hear(&mut self, signed: &Signed<Message>, passes: bool)
        ensures { self.new ≡ model.views_as signed.now.message passes self.old }
    {
        if let Message::Reply(reply) = &signed.message {
            if passes {
                self.tell(reply.sender(), reply.view());
            }
        }
    }

    fn tell(&mut self, sender: u32, view: u64)
        ensures { self.new ≡ model.with_view sender view self.old }
    {
        if let Some(told) = self.views.get_mut(sender as usize) {
            *told = view.max(*told);
        }
    }

    /// The primary of the latest view that f + 1 replicas have reached (OSDI 1999 section 4.1).
    pub fn leader(&self, f: u32) -> To
        ensures { result ≡ model.leader f self.now }
    {
        if f > MOST_FAULTS {
            return To::Replicas;
        }
        let count = 3 * u64::from(f) + 1;
        To::Replica((self.reached(f) % count) as u32)
    }

    #[tactic(auto, using(crate::proofs::Leading::reached_more))]
    fn reached(&self, f: u32) -> u64
        ensures { result ≡ model.view_reached f self.now }
    {
        let mut latest = 0;
        for view in &self.views {
            latest = self.latest_of(f, latest, *view);
        }
        latest
    }

    fn latest_of(&self, f: u32, latest: u64, view: u64) -> u64
        ensures { result ≡ if model.is_reached f self.now view then max latest view else latest }
    {
        if self.count_from(view) > f as usize {
            latest.max(view)
        } else {
            latest
        }
    }

    fn count_from(&self, view: u64) -> usize
        ensures { result ≡ count_by (λ told. nat_le view told) self.now }
    {
        self.views.iter().filter(|told| view <= **told).count()
    }
}
