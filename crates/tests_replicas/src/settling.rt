//! Checkpoints whose CHECKPOINTs are lost: replicas go on by what others have told, and by their certificates. Where `.ci/refusals` runs these, only
//! what comes behind the first batches is refused.
use crate::script::{ALL, BACKUPS, Event, PRIMARY, wrong_in};
use bfs_testing::same;
use bfs_testing_nodes::calls::Standing;
use std::test::Fail;

/// Those that live, of which replica 3 has executed nothing.
const LIVING: &[usize] = &[0, 1, 3];

const EXECUTING: &[usize] = &[0, 1, 2];

static WITHOUT_ONE: [Event; 1] = [Event::Batches(EXECUTING, 15)];

/// What comes before the last batch of the next two tests.
#[test]
fn fifteen_batches_without_one(rt: HostRuntime) -> Result<(), Fail> {
    same!(rt; wrong_in(&rt, rt.alloc(), &WITHOUT_ONE)?, None);
    Ok(())
}

static ONE_CRASHES: [Event; 17] = [
    Event::Batches(EXECUTING, 15),
    Event::Commit(EXECUTING),
    // its CHECKPOINT comes to the one alone that lags, and then it is silent
    Event::MustExecute(&[2]),
    Event::HandOver(&[3]),
    Event::MustExecute(&[0, 1]),
    Event::HandOver(LIVING),
    Event::StableAt(&[0, 1], 0),
    Event::StableAt(&[3], 16),
    Event::HaveNone(LIVING),
    Event::AdoptTold(3, 0, 16),
    Event::SettleBy(0, 3),
    Event::SettleBy(1, 0),
    Event::HaveStable(LIVING, 3),
    Event::StableAt(LIVING, 16),
    Event::Batches(LIVING, 1),
    Event::Stand(LIVING, Standing(0, 17, 0)),
    Event::Agree(LIVING),
];

#[test]
fn what_was_told_is_adopted(rt: HostRuntime) -> Result<(), Fail> {
    same!(rt; wrong_in(&rt, rt.alloc(), &ONE_CRASHES)?, None);
    Ok(())
}

static ONE_ADOPTS: [Event; 14] = [
    Event::Batches(EXECUTING, 15),
    Event::Commit(EXECUTING),
    // its CHECKPOINT comes to the primary alone, and then it is silent
    Event::MustExecute(&[2]),
    Event::HandOver(PRIMARY),
    Event::MustExecute(&[0, 1]),
    Event::HandOver(&[0, 1]),
    // replica 3 adopts, and has no CHECKPOINT of its own that replica 1 could wait for
    Event::Adopt(3, 0),
    Event::StableAt(&[1], 0),
    Event::SettleBy(1, 3),
    Event::HaveStable(LIVING, 3),
    Event::StableAt(LIVING, 16),
    Event::Batches(LIVING, 1),
    Event::Stand(LIVING, Standing(0, 17, 0)),
    Event::Agree(LIVING),
];

#[test]
fn one_settles_by_one_that_has_adopted(rt: HostRuntime) -> Result<(), Fail> {
    same!(rt; wrong_in(&rt, rt.alloc(), &ONE_ADOPTS)?, None);
    Ok(())
}

static ONE_PASSES_ON: [Event; 15] = [
    Event::Batches(ALL, 15),
    Event::Commit(ALL),
    Event::MustExecute(BACKUPS),
    Event::PassOn(0),
    Event::HandOver(BACKUPS),
    Event::HaveStable(BACKUPS, 3),
    Event::Commit(ALL),
    Event::MustExecute(ALL),
    // it has passed number 16 without a checkpoint
    Event::StableAt(PRIMARY, 0),
    Event::SettleBy(0, 1),
    Event::StableAt(ALL, 16),
    Event::HaveNone(PRIMARY),
    Event::Batches(ALL, 1),
    Event::Stand(ALL, Standing(0, 18, 0)),
    Event::Agree(ALL),
];

#[test]
fn one_that_has_passed_on_settles(rt: HostRuntime) -> Result<(), Fail> {
    same!(rt; wrong_in(&rt, rt.alloc(), &ONE_PASSES_ON)?, None);
    Ok(())
}
