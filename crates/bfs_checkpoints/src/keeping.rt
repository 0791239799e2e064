ghost use Rattle.std.specs.Prelude.{◌≡◌, ◌==◌, ◌-◌, ◌&&◌, ℕ, filter, find, length, take, nat_le, OnOk, OnErr, IfSome};
ghost use Rattle.std.specs.List.{list_any};
ghost use Rattle.std.specs.Option.{option_map};
ghost use Rattle.bfs_log.specs.Certificates.{MakesStable};
ghost use Rattle.bfs_checkpoints.specs.Keeping.{IsStable, Keeping, is_of, nothing_kept, settled, settles, snapshot_at, stable, stable_number, with_snapshot};
ghost use Rattle.bfs_checkpoints.specs.Snapshots.{Snapshot as Taken};

use crate::snapshots::Snapshot;
use bfs_log::StableCheckpoint;
use bfs_types::Memory;
use std::alloc::Global;
use std::marker::Model;

/// A snapshot that is kept, and the number of its checkpoint.
#[derive(Drop)]
pub struct Kept {
    number: u64,
    snapshot: Snapshot,
}

impl Model for Kept {
    ghost use Rattle.bfs_checkpoints.specs.Keeping as model;

    ghost Value = { model.Kept };

    ghost view = { λ kept. record { number = kept.number; snapshot = kept.snapshot } };
}

impl Kept {
    /// The snapshot of the checkpoint of that number.
    pub fn new(number: u64, snapshot: Snapshot) -> Kept
        ensures { result ≡ record { number = number; snapshot = snapshot } }
    {
        Kept { number, snapshot }
    }

    /// The number of the checkpoint.
    pub fn number(&self) -> u64
        ensures { result ≡ self.now.number }
    {
        self.number
    }

    /// The snapshot.
    pub fn snapshot(&self) -> &Snapshot
        ensures { result.now ≡ self.now.snapshot }
    {
        &self.snapshot
    }

    fn is_of(&self, number: u64, digest: &[u8; 32]) -> bool
        ensures { result ≡ is_of number digest.now self.now }
    {
        self.number == number && self.snapshot.digest() == digest
    }

    fn is_from(&self, number: u64) -> bool
        ensures { result ≡ nat_le number self.now.number }
    {
        number <= self.number
    }
}

/// What a replica was after a number, as 2f + 1 replicas have told: by it another one catches up (OSDI 1999 section 4.3).
#[derive(Clone, Copy)]
pub struct StableSnapshot<'a> {
    /// The snapshot, whose text is that of the last replies and of the file system.
    pub snapshot: &'a Snapshot,
    /// The number, and the digest of that state, with CHECKPOINTs of 2f + 1 replicas or more that tell them.
    pub checkpoint: &'a StableCheckpoint,
}

/// The snapshots that a replica keeps, in the order in which they came. Once one of them is stable it is kept with the CHECKPOINTs that
/// made it so, and those below it are dropped (OSDI 1999 section 4.3).
#[derive(Drop)]
pub struct Snapshots {
    f: u32,
    kept: Vec<Kept>,
    stable: Option<StableCheckpoint>,
}

impl Model for Snapshots {
    ghost use Rattle.bfs_checkpoints.specs.Keeping as model;

    ghost Value = { model.Keeping };

    ghost view = { λ s. record { f = s.f; kept = s.kept.items; stable = s.stable } };

    ghost invariant = { λ s. model.MayBeKept s.f s.stable };
}

impl Snapshots {
    /// None. At most `f` replicas are faulty.
    pub fn new(alloc: Global, f: u32) -> Snapshots
        ensures { result ≡ nothing_kept f }
    {
        Snapshots {
            f,
            kept: Vec::new(alloc),
            stable: None,
        }
    }

    /// These snapshots, with what makes one of them stable, if any is: as `kept` and `certificate` give them. At most `f` replicas are faulty.
    pub fn with_kept(f: u32, kept: Vec<Kept>, stable: Option<StableCheckpoint>) -> Snapshots
        requires { IfSome stable (MakesStable f) }
        ensures { result ≡ record { f = f; kept = kept.items; stable = stable } }
    {
        Snapshots { f, kept, stable }
    }

    /// The snapshots, in the order in which they came.
    pub fn kept(&self) -> &[Kept]
        ensures { result.now ≡ self.now.kept }
    {
        &self.kept
    }

    /// The CHECKPOINTs that make a snapshot stable. None where none is.
    pub fn certificate(&self) -> Option<&StableCheckpoint>
        ensures value { option_map (λ c. c.now) result ≡ self.now.stable }
        ensures certified { IfSome self.now.stable (MakesStable self.now.f) }
    {
        self.stable.as_ref()
    }

    /// How many replicas may be faulty at most.
    pub fn faults(&self) -> u32
        ensures { result ≡ self.now.f }
    {
        self.f
    }

    /// Puts a snapshot of the checkpoint of that number behind the others. `Memory` if memory runs out; then nothing changes.
    pub fn push(&mut self, number: u64, snapshot: Snapshot) -> Result<(), Memory>
        ensures ok { OnOk result (self.new ≡ with_snapshot self.old number snapshot) }
        ensures err { OnErr result (self.new ≡ self.old) }
    {
        Ok(self.kept.push(Kept::new(number, snapshot))?)
    }

    /// Forgets the last snapshot, as where the checkpoint that it was taken for is refused. It takes no memory.
    pub fn pop(&mut self)
        ensures now { self.new ≡ record self.old { kept = take (length self.old.kept - 1) self.old.kept } }
        ensures undone { (before : Keeping) (number : ℕ) (taken : Taken) → self.old ≡ with_snapshot before number taken → self.new ≡ before }
    {
        self.kept.pop();
    }

    /// Has the CHECKPOINTs that make a checkpoint stable kept, and drops the snapshots of lower numbers, where a snapshot of that number
    /// and digest is kept and none as high is stable. It takes no memory: the CHECKPOINTs were copied before.
    pub fn settle(&mut self, checkpoint: StableCheckpoint)
        requires { MakesStable self.old.f checkpoint }
        ensures { self.new ≡ settled checkpoint self.old }
    {
        if self.settles(&checkpoint) {
            drop_below(&mut self.kept, checkpoint.number());
            self.stable = Some(checkpoint);
        }
    }

    fn settles(&self, checkpoint: &StableCheckpoint) -> bool
        ensures { result ≡ settles checkpoint.now self.now }
    {
        stable_number(&self.stable) < checkpoint.number()
            && self.has(checkpoint.number(), checkpoint.digest())
    }

    fn has(&self, number: u64, digest: &[u8; 32]) -> bool
        ensures { result ≡ list_any (is_of number digest.now) self.now.kept }
    {
        self.kept.iter().any(|kept| kept.is_of(number, digest))
    }

    /// The snapshot of the checkpoint of that number, whether it is stable or not. None where none is kept. It takes no memory.
    pub fn snapshot_at(&self, number: u64) -> Option<&Snapshot>
        ensures { option_map (λ snapshot. snapshot.now) result ≡ snapshot_at number self.now }
    {
        let kept = find_at(&self.kept, number)?;
        Some(&kept.snapshot)
    }

    /// The stable snapshot, and the CHECKPOINTs of 2f + 1 replicas or more that tell its digest. It takes no memory.
    #[tactic(auto, using(crate::proofs::Stable::found_is_stable))]
    pub fn stable(&self) -> Option<StableSnapshot<'_>>
        ensures value { option_map (λ stable. (stable.snapshot.now.text, stable.checkpoint.now)) result ≡ stable self.now }
        ensures certified { IfSome result (λ stable. IsStable self.now.f stable.snapshot.now.text stable.checkpoint.now) }
    {
        let checkpoint = self.stable.as_ref()?;
        let kept = find_of(&self.kept, checkpoint.number(), checkpoint.digest())?;
        kept.snapshot.is_of_one_state();
        Some(StableSnapshot {
            snapshot: &kept.snapshot,
            checkpoint,
        })
    }
}

fn stable_number(stable: &Option<StableCheckpoint>) -> u64
    ensures { result ≡ stable_number stable.now }
{
    match stable {
        None => 0,
        Some(checkpoint) => checkpoint.number(),
    }
}

fn find_of<'a>(kept: &'a [Kept], number: u64, digest: &[u8; 32]) -> Option<&'a Kept>
    ensures { option_map (λ one. one.now) result ≡ find (is_of number digest.now) kept.now }
{
    kept.iter().find(|one| one.is_of(number, digest))
}

fn find_at(kept: &[Kept], number: u64) -> Option<&Kept>
    ensures { option_map (λ one. one.now) result ≡ find (λ one. one.number == number) kept.now }
{
    kept.iter().find(|one| one.number == number)
}

fn drop_below(kept: &mut Vec<Kept>, number: u64)
    ensures { kept.new.items ≡ filter (λ one. nat_le number one.number) kept.old.items }
{
    kept.retain(|one| one.is_from(number));
}
