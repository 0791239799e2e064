// VIEW-CHANGEs wait for their view to begin.
ghost use Rattle.std.specs.Prelude.{◌≡◌, ◌≤◌, ◌++◌, None, replicate, length, option_to_list, slice_set, get_or, ◌<◌, count_by, filter_map, is_some, map, IfOk, OnOk};
ghost use Rattle.std.specs.Option.{option_map};
ghost use Rattle.bfs_votes.specs.Votes.{replicas};
ghost use Rattle.bfs_model.specs.Server.Limits.{most_replicas, most_faults};
ghost use Rattle.bfs_view_change.specs.Inside.Near.{AreNear, IsNear, IsNearIfKept};
ghost use Rattle.bfs_view_change.specs.Changes.Keeping.{above_view, asked_above, changes_for, if_above, if_for, least_asked, least_of, nothing_kept, put_back, was_asked, with_asked, with_change, with_own};

use bfs_messages::{Signed, ViewChange};
use bfs_types::{Memory, TryClone};
use std::alloc::Global;
use std::marker::Model;

/// What a replica keeps of the VIEW-CHANGEs that come to it, by their senders (OSDI 1999 section 4.4): the highest view that each has asked
/// for, and its last VIEW-CHANGE for a view that the keeper leads. So a sender has one kept at most, however many views it asks for. Beside
/// these stands the one that the keeper has sent last.
#[derive(Drop)]
pub struct KeptViewChanges {
    pub(crate) asked: Vec<u64>,
    pub(crate) changes: Vec<Option<Signed<ViewChange>>>,
    pub(crate) own: Option<Signed<ViewChange>>,
}

impl Model for KeptViewChanges {
    ghost use Rattle.bfs_view_change.specs.Changes.Keeping as model;

    ghost Value = { model.Kept };

    ghost view = { λ kept. record { asked = kept.asked.items; changes = kept.changes.items; own = kept.own } };

    ghost use Rattle.bfs_view_change.specs.Inside.Near.{AreFew};

    ghost invariant = { λ kept. AreFew (record { asked = kept.asked.items; changes = kept.changes.items; own = kept.own }) };
}

/// What was kept of a sender before its last VIEW-CHANGE.
#[derive(Drop)]
pub struct Replaced {
    sender: u32,
    asked: u64,
    change: Option<Signed<ViewChange>>,
}

impl KeptViewChanges {
    /// Nothing of any of `3f + 1` replicas. `Memory` if memory runs out.
    pub fn new(alloc: Global, f: u32) -> Result<KeptViewChanges, Memory>
        requires { f ≤ most_faults }
        ensures { IfOk result (λ kept. kept ≡ nothing_kept f) }
    {
        let replicas = 3 * f + 1;
        Ok(KeptViewChanges {
            asked: none_asked(alloc, replicas)?,
            changes: none_kept(alloc, replicas)?,
            own: None,
        })
    }

    /// Whether its sender has asked for that view, or for a later one.
    pub fn was_asked(&self, change: &ViewChange) -> bool
        ensures { result ≡ was_asked self.now change.now }
    {
        match self.asked.get(change.sender() as usize) {
            Some(&view) => change.view() <= view,
            None => change.view() == 0,
        }
    }

    /// The least view above one that senders have asked for, if so many have asked for views above it (OSDI 1999 section 4.5.2). It takes no
    /// memory.
    pub fn least_asked(&self, view: u64, count: usize) -> Option<u64>
        ensures { result ≡ least_asked self.now view count }
    {
        if self.count_above(view) < count {
            return None;
        }
        self.least_above(view)
    }

    fn least_above(&self, view: u64) -> Option<u64>
        ensures { result ≡ least_of (asked_above self.now view) }
    {
        let mut least: Option<u64> = None;
        for asked in &self.asked {
            if view < *asked {
                least = Some(least.unwrap_or(*asked).min(*asked));
            }
        }
        least
    }

    fn count_above(&self, view: u64) -> usize
        ensures { result ≡ length (asked_above self.now view) }
    {
        self.asked.iter().filter(|asked| view < **asked).count()
    }

    /// Notes what its sender asks for: a view that another replica leads. It takes no memory.
    pub fn note(&mut self, change: &ViewChange)
        ensures { self.new ≡ with_asked self.old change.now }
    {
        put(&mut self.asked, change.sender(), change.view());
    }

    /// Keeps a VIEW-CHANGE for a view that the keeper leads, in the place of its sender's last one, and gives what it replaces. It takes no
    /// memory.
    pub fn keep(&mut self, change: Signed<ViewChange>) -> Replaced
        requires { IsNear change.message }
        ensures now { self.new ≡ with_change self.old change }
        ensures near { IsNearIfKept result.change }
        ensures back { put_back self.new result.sender result.asked result.change ≡ self.old }
    {
        let (sender, view) = (change.message.sender(), change.message.view());
        Replaced {
            sender,
            asked: put(&mut self.asked, sender, view),
            change: put(&mut self.changes, sender, Some(change)),
        }
    }

    /// Keeps again what `keep` has replaced. It takes no memory.
    pub fn take_back(&mut self, replaced: Replaced)
        requires { IsNearIfKept replaced.change }
        ensures { self.new ≡ put_back self.old replaced.sender replaced.asked replaced.change }
    {
        put(&mut self.asked, replaced.sender, replaced.asked);
        put(&mut self.changes, replaced.sender, replaced.change);
    }

    /// Keeps the VIEW-CHANGE that the keeper sends, in the place of its last one. It takes no memory.
    pub fn keep_own(&mut self, own: Signed<ViewChange>)
        ensures { self.new ≡ with_own self.old own }
    {
        self.own = Some(own);
    }

    /// The VIEW-CHANGE that the keeper has sent last, None before the first.
    pub fn own(&self) -> Option<&Signed<ViewChange>>
        ensures { option_map (λ own. own.now) result ≡ self.now.own }
    {
        self.own.as_ref()
    }

    /// Copies of those for a view, by rising senders; they share their batches with what is kept. `Memory` if memory runs out.
    pub fn changes_for(&self, alloc: Global, view: u64) -> Result<Vec<Signed<ViewChange>>, Memory>
        ensures value { IfOk result (λ changes. changes.items ≡ changes_for view self.now) }
        ensures near { IfOk result (λ changes. AreNear changes.items) }
        ensures few { IfOk result (λ changes. length changes.items ≤ most_replicas) }
    {
        copies_for(alloc, &self.changes, view)
    }

    /// Of how many senders there is one for a view. It takes no memory.
    pub fn count_for(&self, view: u64) -> usize
        ensures { result ≡ length (changes_for view self.now) }
    {
        count_of(&self.changes, view)
    }

    /// Forgets those for views that were entered or passed. It takes no memory.
    pub fn drop_up_to(&mut self, view: u64)
        ensures { self.new ≡ above_view view self.old }
    {
        drop_all_up_to(&mut self.changes, view);
    }
}

// what stood there; behind the last place nothing is put
fn put<T: Drop>(items: &mut Vec<T>, place: u32, item: T) -> T
    ensures now { items.new.items ≡ slice_set items.old.items place item }
    ensures back { slice_set items.new.items place result ≡ items.old.items }
    ensures there { (d : T) → place < length items.old.items → result ≡ get_or items.old.items place d }
    ensures past { length items.old.items ≤ place → result ≡ item }
{
    let place = place as usize;
    if place < items.len() {
        std::mem::replace(&mut items[place], item)
    } else {
        item
    }
}

fn copies_for(
    alloc: Global,
    kept: &[Option<Signed<ViewChange>>],
    view: u64,
) -> Result<Vec<Signed<ViewChange>>, Memory>
    ensures { IfOk result (λ changes. changes.items ≡ filter_map (if_for view) kept.now) }
{
    let mut changes = Vec::new(alloc);
    for one in kept {
        add_copy(alloc, &mut changes, one, view)?;
    }
    Ok(changes)
}

// a copy of one, if it is for the view
fn add_copy(
    alloc: Global,
    changes: &mut Vec<Signed<ViewChange>>,
    kept: &Option<Signed<ViewChange>>,
    view: u64,
) -> Result<(), Memory>
    ensures { OnOk result (changes.new.items ≡ changes.old.items ++ option_to_list (if_for view kept.now)) }
{
    if let Some(change) = for_view(kept, view) {
        changes.push(change.try_clone(alloc)?)?;
    }
    Ok(())
}

fn for_view(kept: &Option<Signed<ViewChange>>, view: u64) -> Option<&Signed<ViewChange>>
    ensures { option_map (λ change. change.now) result ≡ if_for view kept.now }
{
    match kept {
        Some(change) if change.message.view() == view => Some(change),
        _ => None,
    }
}

fn is_for(kept: &Option<Signed<ViewChange>>, view: u64) -> bool
    ensures { result ≡ is_some (if_for view kept.now) }
{
    for_view(kept, view).is_some()
}

fn count_of(changes: &[Option<Signed<ViewChange>>], view: u64) -> usize
    ensures { result ≡ count_by (λ kept. is_some (if_for view kept)) changes.now }
{
    changes.iter().filter(|kept| is_for(kept, view)).count()
}

fn drop_all_up_to(changes: &mut Vec<Option<Signed<ViewChange>>>, view: u64)
    ensures { changes.new.items ≡ map (if_above view) changes.old.items }
{
    for place in 0..changes.len() {
        drop_up_to(&mut changes[place], view);
    }
}

fn drop_up_to(kept: &mut Option<Signed<ViewChange>>, view: u64)
    ensures { kept.new ≡ if_above view kept.old }
{
    if let Some(change) = kept {
        if change.message.view() <= view {
            *kept = None;
        }
    }
}

#[tactic(auto, using(std::proofs::lemmas::List::replicate_more))]
fn none_asked(alloc: Global, replicas: u32) -> Result<Vec<u64>, Memory>
    ensures { IfOk result (λ all. all.items ≡ replicate replicas 0) }
{
    let mut all = Vec::new(alloc);
    for _ in 0..replicas {
        all.push(0)?;
    }
    Ok(all)
}

#[tactic(auto, using(std::proofs::lemmas::List::replicate_more))]
fn none_kept(alloc: Global, replicas: u32) -> Result<Vec<Option<Signed<ViewChange>>>, Memory>
    ensures { IfOk result (λ all. all.items ≡ replicate replicas None) }
{
    let mut all = Vec::new(alloc);
    for _ in 0..replicas {
        all.push(None)?;
    }
    Ok(all)
}
