// What is kept of VIEW-CHANGEs, part by part, and put together again.
ghost use Rattle.std.specs.Prelude.{◌≡◌, Some, None, true, if◌then◌else◌};
ghost use Rattle.std.specs.List.{list_all};
ghost use Rattle.bfs_view_change.specs.Changes.Restoring.{are_few, is_near, is_near_if_kept};

use crate::choice::last_in;
use crate::keeping::KeptViewChanges;
use bfs_messages::{Signed, ViewChange};
use bfs_types::{LOG_SIZE, MOST_REPLICAS};

impl KeptViewChanges {
    /// By senders the highest view that each has asked for, 0 where it has asked for none.
    pub fn asked(&self) -> &[u64]
        ensures { result.now ≡ self.now.asked }
    {
        self.asked.as_slice()
    }

    /// By senders the last VIEW-CHANGE of each for a view that the keeper leads. They are few, and each is near.
    #[tactic(auto, using(crate::proofs::Few::few))]
    pub fn changes(&self) -> &[Option<Signed<ViewChange>>]
        ensures value { result.now ≡ self.now.changes }
        ensures few { are_few self.now.changes ≡ true }
    {
        self.changes.as_slice()
    }

    /// What is kept, put together of its parts. None where there are VIEW-CHANGEs of more than `MOST_REPLICAS` senders, or one has a certificate
    /// beyond the `LOG_SIZE` numbers above its stable one: none such is kept.
    #[tactic(auto, using(crate::proofs::Few::are_kept))]
    pub fn from_parts(
        asked: Vec<u64>,
        changes: Vec<Option<Signed<ViewChange>>>,
        own: Option<Signed<ViewChange>>,
    ) -> Option<KeptViewChanges>
        ensures { result ≡ (if are_few changes.items then Some (record { asked = asked.items; changes = changes.items; own = own }) else None) }
    {
        if are_few(&changes) {
            Some(KeptViewChanges {
                asked,
                changes,
                own,
            })
        } else {
            None
        }
    }
}

fn are_few(changes: &[Option<Signed<ViewChange>>]) -> bool
    ensures { result ≡ are_few changes.now }
{
    changes.len() <= MOST_REPLICAS && are_near(changes)
}

fn are_near(changes: &[Option<Signed<ViewChange>>]) -> bool
    ensures { result ≡ list_all is_near_if_kept changes.now }
{
    changes.iter().all(|kept| is_near_if_kept(kept))
}

fn is_near_if_kept(kept: &Option<Signed<ViewChange>>) -> bool
    ensures { result ≡ is_near_if_kept kept.now }
{
    match kept {
        None => true,
        Some(change) => is_near(&change.message),
    }
}

// Whether it has no certificate beyond the window above its stable number.
fn is_near(change: &ViewChange) -> bool
    ensures { result ≡ is_near change.now }
{
    last_in(change.certificates()) <= change.stable() + LOG_SIZE as u64
}
