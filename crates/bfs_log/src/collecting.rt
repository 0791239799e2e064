// The certificates that a log shows, of all numbers by one walk through its messages.
ghost use Rattle.std.specs.Prelude.{◌≡◌, ◌≤◌, ◌<◌, ◌+◌, ◌∷◌, [], None, length, get_or, option_to_list, replicate, IfOk, OnOk, ℕ};
ghost use Rattle.std.specs.List.{filter_map, fold, range_with_len};
ghost use Rattle.std.specs.Option.{option_map};
ghost use Rattle.bfs_model.specs.Server.Limits.{most_faults, most_number};
ghost use Rattle.bfs_log.specs.Latest.{AreLatest};
ghost use Rattle.bfs_log.specs.Showing.{certificate_for, certificate_of, later, prepared_among};

use crate::logs::Log;
use crate::showing::{later_of, push_some};
use bfs_messages::{OrderMessage, PrePrepare, PreparedBatch, Signed};
use bfs_types::{Memory, TryClone};
use std::alloc::Global;

impl Log {
    /// Of each of so many numbers behind `low` the certificate of the highest view in which it is prepared at the replica `me`, in the order of
    /// the numbers: the primary's PRE-PREPARE, and the PREPAREs of backups that match it (OSDI 1999 section 4.4). A number that is prepared in
    /// no view has none. The index tells what is prepared, and batches are shared with the log. It walks through the log once. `Memory` if memory
    /// runs out.
    pub fn certificates(
        &self,
        f: u32,
        me: u32,
        low: u64,
        count: usize,
    ) -> Result<Vec<PreparedBatch>, Memory>
        requires faults { f ≤ most_faults }
        requires low { low ≤ most_number }
        requires count { count ≤ 1024 }
        ensures value { IfOk result (λ found. found.items ≡ filter_map (certificate_for f me self.now) (range_with_len (low + 1) count)) }
        ensures few { IfOk result (λ found. length found.items ≤ count) }
    {
        let latest = self.all_latest(f, me, low, count)?;
        let mut found = Vec::new(self.alloc);
        for place in 0..count {
            push_some(&mut found, self.certificate_of(f, &latest[place])?)?;
        }
        Ok(found)
    }

    // The certificate of a PRE-PREPARE, if there is one.
    fn certificate_of(
        &self,
        f: u32,
        proposal: &Option<Signed<PrePrepare>>,
    ) -> Result<Option<PreparedBatch>, Memory>
        requires { f ≤ most_faults }
        ensures { IfOk result (λ found. found ≡ option_map (certificate_of f self.now) proposal.now) }
    {
        let Some(proposal) = proposal else {
            return Ok(None);
        };
        let prepares = self.backing(f, proposal.message.vote())?;
        Ok(Some(PreparedBatch::new(proposal.try_clone(self.alloc)?, prepares)))
    }

    // Of each number the PRE-PREPARE of the highest view in which it is prepared.
    fn all_latest(
        &self,
        f: u32,
        me: u32,
        low: u64,
        count: usize,
    ) -> Result<Vec<Option<Signed<PrePrepare>>>, Memory>
        requires faults { f ≤ most_faults }
        requires low { low ≤ most_number }
        requires count { count ≤ 1024 }
        ensures { IfOk result (λ latest. AreLatest f me low count self.now self.now latest.items) }
    {
        let mut latest = none_yet(self.alloc, count)?;
        for signed in self.messages() {
            self.note(f, me, low, &mut latest, signed)?;
        }
        Ok(latest)
    }

    // One more message, which may be of a later view.
    fn note(
        &self,
        f: u32,
        me: u32,
        low: u64,
        latest: &mut Vec<Option<Signed<PrePrepare>>>,
        signed: &Signed<OrderMessage>,
    ) -> Result<(), Memory>
        requires { f ≤ most_faults }
        ensures len { OnOk result (length latest.new.items ≡ length latest.old.items) }
        ensures each { OnOk result ((k : ℕ) → k < length latest.old.items → get_or latest.new.items k None ≡ fold later (get_or latest.old.items k None) (prepared_among f me self.now (low + 1 + k) (signed.now ∷ []))) }
    {
        let number = signed.message.number();
        if number <= low {
            return Ok(());
        }
        let place = (number - low - 1) as usize;
        if place < latest.len() {
            let more = self.prepared_in(f, me, number, signed)?;
            put_later(&mut latest[place], more);
        }
        Ok(())
    }
}

// It is now the later one of both.
fn put_later(found: &mut Option<Signed<PrePrepare>>, more: Option<Signed<PrePrepare>>)
    ensures { found.new ≡ fold later found.old (option_to_list more) }
{
    let before = std::mem::replace(found, None);
    *found = later_of(before, more);
}

#[tactic(auto, using(std::proofs::lemmas::List::replicate_more))]
fn none_yet(alloc: Global, count: usize) -> Result<Vec<Option<Signed<PrePrepare>>>, Memory>
    ensures { IfOk result (λ all. all.items ≡ replicate count None) }
{
    let mut all = Vec::new(alloc);
    for _ in 0..count {
        all.push(None)?;
    }
    Ok(all)
}
