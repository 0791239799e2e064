// What a log proves: prepared, committed, stable.
ghost use Rattle.std.specs.Prelude.{◌≡◌, ◌≤◌};
ghost use Rattle.bfs_votes.specs.Tags.{checkpoint_tag};
ghost use Rattle.bfs_votes.specs.Votes.{backups, committed, is_backed, is_stable, prepared, primary, tellers};
ghost use Rattle.bfs_log.specs.Logs.{headers};
ghost use Rattle.bfs_model.specs.Server.Limits.{most_faults};

use crate::headers::Slot;
use crate::logs::Log;
use crate::places::Place;
use crate::rows::{count_others, count_tellers};
use bfs_messages::{CHECKPOINT_TAG, COMMIT_TAG, PRE_PREPARE_TAG, PREPARE_TAG};

/// Which replica leads a view, where `f` may be faulty.
pub fn primary_of(f: u32, view: u64) -> u32
    requires { f ≤ most_faults }
    ensures { result ≡ primary f view }
{
    (view % (3 * f + 1) as u64) as u32
}

impl Log {
    fn count_backups(&self, f: u32, view: u64, number: u64, digest: &[u8; 32]) -> usize
        requires { f ≤ most_faults }
        ensures { result ≡ backups f (headers self.now) view number digest.now }
    {
        let place = Place {
            number,
            view,
            tag: PREPARE_TAG,
        };
        self.messages_differ();
        count_others(self.row(place), digest, 3 * f + 1, primary_of(f, view))
    }

    fn count_tellers(&self, f: u32, tag: u32, view: u64, number: u64, digest: &[u8; 32]) -> usize
        requires { f ≤ most_faults }
        ensures { result ≡ tellers f (headers self.now) tag view number digest.now }
    {
        let place = Place { number, view, tag };
        self.messages_differ();
        count_tellers(self.row(place), digest, 3 * f + 1)
    }

    /// Whether the log has the primary's PRE-PREPARE and 2f matching PREPAREs of different backups.
    pub fn is_backed(&self, f: u32, view: u64, number: u64, digest: &[u8; 32]) -> bool
        requires { f ≤ most_faults }
        ensures { result ≡ is_backed f (headers self.now) view number digest.now }
    {
        let slot = Slot {
            tag: PRE_PREPARE_TAG,
            sender: primary_of(f, view),
            view,
            number,
        };
        self.is_told(slot, digest) && 2 * f as usize <= self.count_backups(f, view, number, digest)
    }

    /// Whether a batch is prepared at the replica `me`: backed, and by its own PREPARE, which a primary has none of.
    pub fn is_prepared(&self, f: u32, me: u32, view: u64, number: u64, digest: &[u8; 32]) -> bool
        requires { f ≤ most_faults }
        ensures { result ≡ prepared f me (headers self.now) view number digest.now }
    {
        let slot = Slot {
            tag: PREPARE_TAG,
            sender: me,
            view,
            number,
        };
        self.is_backed(f, view, number, digest)
            && (me == primary_of(f, view) || self.is_told(slot, digest))
    }

    /// Whether a batch is committed at the replica `me`: prepared, and told by 2f + 1 COMMITs, its own among them.
    pub fn is_committed(&self, f: u32, me: u32, view: u64, number: u64, digest: &[u8; 32]) -> bool
        requires { f ≤ most_faults }
        ensures { result ≡ committed f me (headers self.now) view number digest.now }
    {
        let slot = Slot {
            tag: COMMIT_TAG,
            sender: me,
            view,
            number,
        };
        self.is_prepared(f, me, view, number, digest)
            && (2 * f as usize + 1 <= self.count_tellers(f, COMMIT_TAG, view, number, digest)
                && self.is_told(slot, digest))
    }

    /// How many replicas have told that digest of a number by a CHECKPOINT.
    pub fn checkpoint_votes(&self, f: u32, number: u64, digest: &[u8; 32]) -> usize
        requires { f ≤ most_faults }
        ensures { result ≡ tellers f (headers self.now) checkpoint_tag 0 number digest.now }
    {
        self.count_tellers(f, CHECKPOINT_TAG, 0, number, digest)
    }

    /// Whether 2f + 1 CHECKPOINTs tell that digest of a number.
    pub fn is_checkpoint_stable(&self, f: u32, number: u64, digest: &[u8; 32]) -> bool
        requires { f ≤ most_faults }
        ensures { result ≡ is_stable f (headers self.now) number digest.now }
    {
        2 * f as usize + 1 <= self.checkpoint_votes(f, number, digest)
    }
}
