//! Five lies that stop ordering for ever by keyed hashes, and don't by signatures; and one that doesn't by either.
use crate::keys::Known;
use crate::scenes::{Copies, Lie, Outcome, Scene, Step};
use bfs_testing::same;
use bfs_testing_liars::sets::Set;
use bfs_types::Memory;
use std::alloc::Global;
use std::sync::Wait;
use std::test::Fail;
use std::thread::Threads;

/// A lie, what happens, and what those that don't lie refuse of one another's by keyed hashes.
struct Attack {
    lie: Lie,
    steps: &'static [Step],
    refused: &'static [(u32, u32)],
}

// what a liar can make by signatures
static COPIES: [Copies; 5] = [
    Copies::Own,
    Copies::Changed,
    Copies::OfAnother,
    Copies::HashesForEach,
    Copies::OwnFor(1),
];

// that the lie passes at some alone, that this is refused, and that nothing is executed any more
fn stops(outcome: &Outcome, refused: &[(u32, u32)]) -> bool {
    outcome.is_split && outcome.refused.as_slice() == refused && outcome.views.is_none()
}

// that the lie passes at all or at none, that nothing is refused, and that it is executed in the next view
fn goes_on(outcome: &Outcome) -> bool {
    !outcome.is_split && outcome.refused.is_empty() && outcome.views == Some(1)
}

fn outcome_of<R: Threads + Wait + Sync>(
    rt: &R,
    alloc: Global,
    known: &Known,
    attack: &Attack,
    copies: Copies,
) -> Result<Outcome, Memory> {
    let mut scene = Scene::new(alloc, known, attack.lie, copies)?;
    scene.play(rt, attack.steps)
}

// whether ordering stops where each copy is right for its receiver alone, and goes on where each is right for all
fn by_hashes<R: Threads + Wait + Sync>(
    rt: &R,
    alloc: Global,
    attack: &Attack,
) -> Result<(bool, bool), Memory> {
    let known = Known::none(alloc);
    let wrong = outcome_of(rt, alloc, &known, attack, Copies::HashesForEach)?;
    let right = outcome_of(rt, alloc, &known, attack, Copies::Own)?;
    Ok((stops(&wrong, attack.refused), goes_on(&right)))
}

// the first form of copies with which it does not go on, and what came of it then
fn wrong_by_signatures<R: Threads + Wait + Sync>(
    rt: &R,
    alloc: Global,
    attack: &Attack,
) -> Result<Option<(Copies, Outcome)>, Memory> {
    let known = Known::all(alloc)?;
    for copies in COPIES.iter().copied() {
        let outcome = outcome_of(rt, alloc, &known, attack, copies)?;
        if !goes_on(&outcome) {
            return Ok(Some((copies, outcome)));
        }
    }
    Ok(None)
}

static REQUEST: Attack = Attack {
    lie: Lie::Request,
    steps: &[
        Step::Lie(Set::ALL),
        Step::Settle,
        Step::Propose(0),
        Step::Settle,
    ],
    refused: &[(2, 24)],
};

static PROPOSAL: Attack = Attack {
    lie: Lie::Proposal,
    steps: &[Step::Lie(Set::ALL), Step::Settle],
    refused: &[(6, 31)],
};

static PREPARE: Attack = Attack {
    lie: Lie::Prepare,
    steps: &[Step::Propose(0), Step::Lie(Set::ALL), Step::Settle],
    refused: &[(6, 31)],
};

// replica 2 hears nothing of 16 numbers; it refuses the snapshot, and what the others ask for
static CHECKPOINT: Attack = Attack {
    lie: Lie::Checkpoint,
    steps: &[
        Step::Hear(Set(0b1011)),
        Step::Batches(16),
        Step::Lie(Set::ALL),
        Step::Settle,
        Step::Hear(Set(0b0111)),
        Step::Adopt(2, 0),
        Step::Adopt(2, 1),
    ],
    refused: &[(5, 34), (6, 31)],
};

static VIEW_CHANGE: Attack = Attack {
    lie: Lie::ViewChange,
    steps: &[Step::Propose(0), Step::Settle],
    refused: &[(7, 31)],
};

// the first of the five with which ordering doesn't stop by copies that are right for one alone, or doesn't go on by those that are right for all
fn wrong_by_hashes<R: Threads + Wait + Sync>(rt: &R, alloc: Global) -> Result<Option<Lie>, Memory> {
    for attack in [&REQUEST, &PROPOSAL, &PREPARE, &CHECKPOINT, &VIEW_CHANGE] {
        if by_hashes(rt, alloc, attack)? != (true, true) {
            return Ok(Some(attack.lie));
        }
    }
    Ok(None)
}

#[test]
fn each_stops_by_keyed_hashes(rt: HostRuntime) -> Result<(), Fail> {
    same!(rt; wrong_by_hashes(&rt, rt.alloc())?, None);
    Ok(())
}

#[test]
fn a_request(rt: HostRuntime) -> Result<(), Fail> {
    same!(rt; wrong_by_signatures(&rt, rt.alloc(), &REQUEST)?, None);
    Ok(())
}

#[test]
fn a_proposal(rt: HostRuntime) -> Result<(), Fail> {
    same!(rt; wrong_by_signatures(&rt, rt.alloc(), &PROPOSAL)?, None);
    Ok(())
}

#[test]
fn a_prepare(rt: HostRuntime) -> Result<(), Fail> {
    same!(rt; wrong_by_signatures(&rt, rt.alloc(), &PREPARE)?, None);
    Ok(())
}

#[test]
fn a_checkpoint(rt: HostRuntime) -> Result<(), Fail> {
    same!(rt; wrong_by_signatures(&rt, rt.alloc(), &CHECKPOINT)?, None);
    Ok(())
}

#[test]
fn a_view_change(rt: HostRuntime) -> Result<(), Fail> {
    same!(rt; wrong_by_signatures(&rt, rt.alloc(), &VIEW_CHANGE)?, None);
    Ok(())
}

// replica 2's COMMITs come late: those that take the liar's execute before
static COMMIT: Attack = Attack {
    lie: Lie::Commit,
    steps: &[
        Step::Lose(4, 2),
        Step::Propose(0),
        Step::Lie(Set::ALL),
        Step::Settle,
        Step::Resend,
        Step::Settle,
    ],
    refused: &[],
};

// a COMMIT that is right for some alone, by keyed hashes or among signatures: it stops nobody
fn commits<R: Threads + Wait + Sync>(
    rt: &R,
    alloc: Global,
    known: &Known,
    copies: Copies,
) -> Result<(bool, Option<u32>, usize), Memory> {
    let outcome = outcome_of(rt, alloc, known, &COMMIT, copies)?;
    Ok((outcome.is_split, outcome.views, outcome.refused.len()))
}

#[test]
fn a_commit(rt: HostRuntime) -> Result<(), Fail> {
    let known = Known::none(rt.alloc());
    same!(rt; commits(&rt, rt.alloc(), &known, Copies::HashesForEach)?, (true, Some(1), 0));
    let known = Known::all(rt.alloc())?;
    same!(rt; commits(&rt, rt.alloc(), &known, Copies::HashesForEach)?, (true, Some(1), 0));
    same!(rt; commits(&rt, rt.alloc(), &known, Copies::OwnFor(0))?, (false, Some(1), 0));
    Ok(())
}
