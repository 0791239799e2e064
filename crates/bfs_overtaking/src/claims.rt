// What calls that are not finished touch, so that whether one of them holds back a later call is found by that call's own fileids.
ghost use Rattle.std.specs.Prelude.{◌≡◌, true, false, [], List, map, take, IfOk, OnOk};
ghost use Rattle.bfs_footprint.specs.Seen.{footprint_seen};
ghost use Rattle.bfs_overtaking.specs.Machine.{Standing, is_held};
ghost use Rattle.bfs_overtaking.specs.Inside.Claims.{AreClaimed, AreSet, Sets, all_wait, any_before, is_among_claims, is_before, is_claim, is_written_before};

use bfs_footprint::Footprint;
use bfs_types::{FileId, Memory};
use std::alloc::Global;
use std::collections::BTreeSet;

// A claim on the inode of a fileid, or on all inodes as one, with the place in the group of the call that has it.
type Claim = (Option<u32>, usize);

// The claims of calls that are not finished: on what they write, and on what they read or write. Each call touches all inodes as one, and
// one that may touch any inode writes them so.
#[derive(Debug, Drop)]
pub(crate) struct Claims {
    pub(crate) writers: BTreeSet<Claim>,
    pub(crate) touchers: BTreeSet<Claim>,
}

impl Claims {
    pub(crate) fn new(alloc: Global) -> Claims
        ensures { AreClaimed result [] }
    {
        Claims {
            writers: BTreeSet::new(alloc),
            touchers: BTreeSet::new(alloc),
        }
    }

    // puts the claims of a call of that footprint
    fn put(&mut self, place: usize, footprint: &Footprint) -> Result<(), Memory>
        ensures { OnOk result (AreSet true self.old self.new place (footprint_seen footprint.now)) }
    {
        put(&mut self.touchers, None, place)?;
        match footprint {
            Footprint::Known { reads, writes } => {
                let writes = writes.as_slice();
                put_each(&mut self.touchers, reads.as_slice(), place)?;
                put_each(&mut self.touchers, writes, place)?;
                put_each(&mut self.writers, writes, place)?;
            }
            Footprint::Whole => put(&mut self.writers, None, place)?,
        }
        Ok(())
    }

    // takes away the claims of a call of that footprint
    pub(crate) fn remove(&mut self, place: usize, footprint: &Footprint)
        ensures { AreSet false self.old self.new place (footprint_seen footprint.now) }
    {
        remove(&mut self.touchers, None, place);
        match footprint {
            Footprint::Known { reads, writes } => {
                let writes = writes.as_slice();
                remove_each(&mut self.touchers, reads.as_slice(), place);
                remove_each(&mut self.touchers, writes, place);
                remove_each(&mut self.writers, writes, place);
            }
            Footprint::Whole => remove(&mut self.writers, None, place),
        }
    }

    // whether a call of an earlier place holds back one of that footprint, found by two look-ups for each of its fileids
    pub(crate) fn hold_back(&self, place: usize, footprint: &Footprint) -> bool
        ensures { (standings : List Standing) → AreClaimed self.now standings → result ≡ is_held (take place standings) (footprint_seen footprint.now) }
    {
        match footprint {
            Footprint::Known { reads, writes } => {
                self.is_written_before(reads.as_slice(), place)
                    || any_before(&self.touchers, writes.as_slice(), place)
            }
            Footprint::Whole => is_before(&self.touchers, None, place),
        }
    }

    // whether a call of an earlier place writes all inodes as one, or one of these
    fn is_written_before(&self, ids: &[FileId], place: usize) -> bool
        ensures { result ≡ is_written_before self.now ids.now place }
    {
        is_before(&self.writers, None, place) || any_before(&self.writers, ids, place)
    }
}

// the claims of calls of these footprints, all of which wait
pub(crate) fn claims_of(alloc: Global, footprints: &[Footprint]) -> Result<Claims, Memory>
    ensures { IfOk result (λ claims. AreClaimed claims (all_wait (map footprint_seen footprints.now))) }
{
    let mut claims = Claims::new(alloc);
    for place in 0..footprints.len() {
        claims.put(place, &footprints[place])?;
    }
    Ok(claims)
}

fn put(claims: &mut BTreeSet<Claim>, on: Option<u32>, place: usize) -> Result<(), Memory>
    ensures { OnOk result (Sets true (is_claim on place) claims.old claims.new) }
{
    claims.insert((on, place))?;
    Ok(())
}

fn put_each(claims: &mut BTreeSet<Claim>, ids: &[FileId], place: usize) -> Result<(), Memory>
    ensures { OnOk result (Sets true (is_among_claims ids.now place) claims.old claims.new) }
{
    for id in ids {
        put(claims, Some(id.number()), place)?;
    }
    Ok(())
}

fn remove(claims: &mut BTreeSet<Claim>, on: Option<u32>, place: usize)
    ensures { Sets false (is_claim on place) claims.old claims.new }
{
    claims.remove(&(on, place));
}

fn remove_each(claims: &mut BTreeSet<Claim>, ids: &[FileId], place: usize)
    ensures { Sets false (is_among_claims ids.now place) claims.old claims.new }
{
    for id in ids {
        remove(claims, Some(id.number()), place);
    }
}

// whether a call of an earlier place has that claim
fn is_before(claims: &BTreeSet<Claim>, on: Option<u32>, place: usize) -> bool
    ensures { result ≡ is_before claims.now on place }
{
    claims.range((on, 0)..(on, place)).next().is_some()
}

fn any_before(claims: &BTreeSet<Claim>, ids: &[FileId], place: usize) -> bool
    ensures { result ≡ any_before claims.now ids.now place }
{
    ids.iter()
        .any(|id| is_before(claims, Some(id.number()), place))
}
