//! What a view begins with: what was proposed, executed or made stable before.
use crate::script::{ALL, BACKUPS, Event, wrong_in};
use bfs_testing::same;
use bfs_testing_nodes::calls::Standing;
use std::test::Fail;

static ONLY_PROPOSED: [Event; 12] = [
    Event::Ask(ALL, 7),
    Event::Propose(0),
    Event::HandOver(ALL),
    Event::Lose,
    Event::TimeOut(BACKUPS),
    Event::HandOver(BACKUPS),
    Event::NewView(3, 0),
    Event::Settle(BACKUPS),
    Event::Stand(BACKUPS, Standing(1, 0, 1)),
    Event::Propose(1),
    Event::Settle(BACKUPS),
    Event::Stand(BACKUPS, Standing(1, 1, 0)),
];

#[test]
fn what_was_only_proposed_waits_on(rt: HostRuntime) -> Result<(), Fail> {
    same!(rt; wrong_in(&rt, rt.alloc(), &ONLY_PROPOSED)?, None);
    Ok(())
}

static EXECUTED: [Event; 15] = [
    Event::Ask(ALL, 7),
    Event::Propose(0),
    Event::Settle(ALL),
    Event::Stand(ALL, Standing(0, 1, 0)),
    Event::Note(2),
    Event::TimeOut(BACKUPS),
    Event::HandOver(BACKUPS),
    Event::NewView(3, 1),
    Event::Settle(BACKUPS),
    Event::Stand(BACKUPS, Standing(1, 1, 0)),
    Event::AsNoted(BACKUPS),
    // the next number is free
    Event::Ask(BACKUPS, 8),
    Event::Propose(1),
    Event::Settle(BACKUPS),
    Event::Stand(BACKUPS, Standing(1, 2, 0)),
];

#[test]
fn what_was_executed_is_not_executed_again(rt: HostRuntime) -> Result<(), Fail> {
    same!(rt; wrong_in(&rt, rt.alloc(), &EXECUTED)?, None);
    Ok(())
}

static BEHIND_A_CHECKPOINT: [Event; 8] = [
    Event::Batches(ALL, 16),
    Event::Stand(ALL, Standing(0, 16, 0)),
    Event::TimeOut(BACKUPS),
    Event::HandOver(BACKUPS),
    Event::NewView(3, 0),
    Event::Propose(1),
    Event::Settle(BACKUPS),
    Event::Stand(BACKUPS, Standing(1, 17, 0)),
];

#[test]
fn a_view_begins_behind_a_checkpoint(rt: HostRuntime) -> Result<(), Fail> {
    same!(rt; wrong_in(&rt, rt.alloc(), &BEHIND_A_CHECKPOINT)?, None);
    Ok(())
}

// 16 and 32 are stable at replica 3 alone, which then falls silent
static A_CHECKPOINT_OF_ONE: [Event; 16] = [
    Event::Batches(ALL, 15),
    Event::Commit(ALL),
    Event::Execute(ALL),
    Event::HandOver(&[3]),
    Event::Batches(ALL, 15),
    Event::Commit(ALL),
    Event::Execute(ALL),
    Event::HandOver(&[3]),
    Event::TimeOut(BACKUPS),
    Event::HandOver(BACKUPS),
    Event::NewView(3, 0),
    Event::Settle(&[0, 1, 2]),
    Event::HaveStable(ALL, 3),
    Event::Propose(1),
    Event::Settle(&[0, 1, 2]),
    Event::Stand(&[0, 1, 2], Standing(1, 33, 0)),
];

#[test]
fn three_go_on_behind_a_checkpoint_of_the_fourth(rt: HostRuntime) -> Result<(), Fail> {
    same!(rt; wrong_in(&rt, rt.alloc(), &A_CHECKPOINT_OF_ONE)?, None);
    Ok(())
}

// no CHECKPOINT comes to replica 1, and nothing from number 32 on
static A_PRIMARY_LAGS: [Event; 21] = [
    Event::Batches(ALL, 15),
    Event::Commit(ALL),
    Event::Execute(ALL),
    Event::HandOver(&[0, 2, 3]),
    Event::Batches(ALL, 15),
    Event::Batches(&[0, 2, 3], 9),
    Event::Stand(&[1], Standing(0, 31, 0)),
    Event::Stand(&[0, 2, 3], Standing(0, 40, 0)),
    Event::TimeOut(BACKUPS),
    Event::HandOver(BACKUPS),
    Event::NewView(3, 8),
    Event::Settle(BACKUPS),
    Event::Stand(&[1], Standing(1, 31, 0)),
    // what it handed over above 32 is in its log
    Event::Adopt(1, 2),
    Event::Settle(BACKUPS),
    Event::Settle(BACKUPS),
    Event::Stand(BACKUPS, Standing(1, 40, 0)),
    Event::Agree(BACKUPS),
    Event::Propose(1),
    Event::Settle(BACKUPS),
    Event::Stand(BACKUPS, Standing(1, 41, 0)),
];

#[test]
fn a_primary_that_lags_takes_what_it_hands_over(rt: HostRuntime) -> Result<(), Fail> {
    same!(rt; wrong_in(&rt, rt.alloc(), &A_PRIMARY_LAGS)?, None);
    Ok(())
}

static TWO_HAVE_LEFT: [Event; 5] = [
    Event::TimeOut(&[2, 3]),
    Event::Lose,
    Event::Propose(0),
    Event::Settle(ALL),
    Event::Stand(ALL, Standing(0, 0, 0)),
];

#[test]
fn a_replica_that_has_left_takes_nothing_of_its_view(rt: HostRuntime) -> Result<(), Fail> {
    same!(rt; wrong_in(&rt, rt.alloc(), &TWO_HAVE_LEFT)?, None);
    Ok(())
}
