//! Checkpoints, and replicas that adopt one. Where `.ci/refusals` runs these, only what comes behind the first batches is refused.
use crate::script::{ALL, Event, wrong_in};
use bfs_testing::same;
use bfs_testing_nodes::calls::Standing;
use std::test::Fail;

static FIFTEEN: [Event; 1] = [Event::Batches(ALL, 15)];

/// What comes before the batches of the next test.
#[test]
fn fifteen_batches(rt: HostRuntime) -> Result<(), Fail> {
    same!(rt; wrong_in(&rt, rt.alloc(), &FIFTEEN)?, None);
    Ok(())
}

static A_CHECKPOINT: [Event; 5] = [
    Event::Batches(ALL, 15),
    Event::Batches(ALL, 1),
    Event::Stand(ALL, Standing(0, 16, 0)),
    Event::HaveStable(ALL, 3),
    Event::Agree(ALL),
];

#[test]
fn a_checkpoint_becomes_stable(rt: HostRuntime) -> Result<(), Fail> {
    same!(rt; wrong_in(&rt, rt.alloc(), &A_CHECKPOINT)?, None);
    Ok(())
}

static SIXTEEN: [Event; 1] = [Event::Batches(ALL, 16)];

/// What comes before number 17 in the next test.
#[test]
fn sixteen_batches(rt: HostRuntime) -> Result<(), Fail> {
    same!(rt; wrong_in(&rt, rt.alloc(), &SIXTEEN)?, None);
    Ok(())
}

static THE_SEVENTEENTH: [Event; 7] = [
    Event::Batches(ALL, 16),
    Event::Ask(ALL, 7),
    Event::Commit(ALL),
    Event::Execute(ALL),
    Event::Mend(ALL),
    Event::Stand(ALL, Standing(0, 17, 0)),
    Event::Agree(ALL),
];

#[test]
fn one_that_has_failed_adopts(rt: HostRuntime) -> Result<(), Fail> {
    same!(rt; wrong_in(&rt, rt.alloc(), &THE_SEVENTEENTH)?, None);
    Ok(())
}

// of 2f + 1 others
static WITHOUT_ONE: [Event; 1] = [Event::Batches(&[0, 1, 2], 16)];

/// What comes before the adoption in the next test.
#[test]
fn sixteen_batches_without_one(rt: HostRuntime) -> Result<(), Fail> {
    same!(rt; wrong_in(&rt, rt.alloc(), &WITHOUT_ONE)?, None);
    Ok(())
}

static ONE_IS_BEHIND: [Event; 6] = [
    Event::Batches(&[0, 1, 2], 16),
    Event::Stand(&[3], Standing(0, 0, 0)),
    Event::Adopt(3, 1),
    Event::HaveStable(ALL, 3),
    Event::Stand(ALL, Standing(0, 16, 0)),
    Event::Agree(ALL),
];

#[test]
fn one_that_is_behind_adopts(rt: HostRuntime) -> Result<(), Fail> {
    same!(rt; wrong_in(&rt, rt.alloc(), &ONE_IS_BEHIND)?, None);
    Ok(())
}
