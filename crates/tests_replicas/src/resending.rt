//! What was lost comes again, and replicas that ask for other views come together.
use crate::script::{ALL, BACKUPS, Event, wrong_in_both};
use bfs_testing::same;
use bfs_testing_nodes::calls::Standing;
use std::test::Fail;

static A_COMMIT_IS_LOST: [Event; 12] = [
    Event::Ask(ALL, 7),
    Event::Propose(0),
    // PRE-PREPARE and PREPAREs come to all, and COMMITs not to replica 1
    Event::HandOver(ALL),
    Event::HandOver(ALL),
    Event::HandOver(&[0, 2, 3]),
    Event::Execute(ALL),
    Event::Stand(&[0, 2, 3], Standing(0, 1, 0)),
    Event::Stand(&[1], Standing(0, 0, 1)),
    Event::Resend(ALL),
    Event::Execute(ALL),
    Event::Stand(ALL, Standing(0, 1, 0)),
    Event::Agree(ALL),
];

#[test]
fn what_was_lost_is_executed_once_it_comes_again(rt: HostRuntime) -> Result<(), Fail> {
    same!(rt; wrong_in_both(&rt, rt.alloc(), &A_COMMIT_IS_LOST)?, (None, true));
    Ok(())
}

static ALL_IS_LOST: [Event; 11] = [
    Event::Ask(ALL, 7),
    Event::Propose(0),
    Event::Lose,
    Event::Resend(ALL),
    Event::Lose,
    Event::Resend(ALL),
    Event::Lose,
    Event::Resend(ALL),
    Event::Execute(ALL),
    Event::Stand(ALL, Standing(0, 1, 0)),
    Event::Agree(ALL),
];

#[test]
fn three_rounds_bring_all_that_was_said(rt: HostRuntime) -> Result<(), Fail> {
    same!(rt; wrong_in_both(&rt, rt.alloc(), &ALL_IS_LOST)?, (None, true));
    Ok(())
}

// the CHECKPOINTs of number 16 come to nobody before they are given again
static CHECKPOINTS_ARE_LOST: [Event; 8] = [
    Event::Batches(ALL, 15),
    Event::Commit(ALL),
    Event::Execute(ALL),
    Event::Lose,
    Event::Resend(ALL),
    Event::HaveStable(ALL, 3),
    Event::Stand(ALL, Standing(0, 16, 0)),
    Event::Agree(ALL),
];

#[test]
fn checkpoints_come_again(rt: HostRuntime) -> Result<(), Fail> {
    same!(rt; wrong_in_both(&rt, rt.alloc(), &CHECKPOINTS_ARE_LOST)?, (None, true));
    Ok(())
}

static ONE_IS_ALONE: [Event; 15] = [
    Event::Ask(ALL, 7),
    Event::TimeOut(&[2]),
    Event::HandOver(ALL),
    // one may lie
    Event::Follow(ALL),
    Event::Stand(ALL, Standing(0, 0, 1)),
    Event::TimeOut(&[3]),
    Event::Lose,
    // its VIEW-CHANGE is given again, as long as it is leaving
    Event::Resend(ALL),
    Event::Follow(ALL),
    Event::Settle(ALL),
    Event::Stand(ALL, Standing(1, 0, 1)),
    Event::Propose(1),
    Event::Settle(ALL),
    Event::Stand(ALL, Standing(1, 1, 0)),
    Event::Agree(ALL),
];

#[test]
fn one_that_left_alone_is_followed(rt: HostRuntime) -> Result<(), Fail> {
    same!(rt; wrong_in_both(&rt, rt.alloc(), &ONE_IS_ALONE)?, (None, true));
    Ok(())
}

static ALL_ASK_FOR_OTHERS: [Event; 13] = [
    Event::Ask(BACKUPS, 7),
    Event::LeaveFor(&[1], 1),
    Event::LeaveFor(&[2], 2),
    Event::LeaveFor(&[3], 4),
    Event::HandOver(ALL),
    // replica 0 follows for view 1, and replica 1 for view 2
    Event::Follow(ALL),
    Event::HandOver(ALL),
    // and now replica 0 for view 2, of which replica 2 is the primary
    Event::Follow(ALL),
    Event::Settle(ALL),
    Event::Stand(&[1, 2], Standing(2, 0, 1)),
    Event::Propose(2),
    Event::Settle(ALL),
    Event::Agree(&[0, 1, 2]),
];

#[test]
fn replicas_that_ask_for_other_views_come_together(rt: HostRuntime) -> Result<(), Fail> {
    same!(rt; wrong_in_both(&rt, rt.alloc(), &ALL_ASK_FOR_OTHERS)?, (None, true));
    Ok(())
}

static A_NEW_VIEW_IS_LOST: [Event; 11] = [
    Event::Ask(BACKUPS, 7),
    Event::TimeOut(BACKUPS),
    Event::HandOver(BACKUPS),
    Event::NewView(3, 0),
    // it comes to replica 2 alone
    Event::HandOver(&[2]),
    Event::Stand(&[3], Standing(0, 0, 1)),
    // replica 2 gives it again, and its primary doesn't
    Event::Resend(&[2, 3]),
    Event::Stand(BACKUPS, Standing(1, 0, 1)),
    Event::Propose(1),
    Event::Settle(BACKUPS),
    Event::Stand(BACKUPS, Standing(1, 1, 0)),
];

#[test]
fn a_new_view_that_was_lost_comes_of_another_one(rt: HostRuntime) -> Result<(), Fail> {
    same!(rt; wrong_in_both(&rt, rt.alloc(), &A_NEW_VIEW_IS_LOST)?, (None, true));
    Ok(())
}

// replica 0 alone executes number 1, replica 3 falls silent, and in view 1 the PREPAREs don't come to replica 0
static ONE_HAS_EXECUTED: [Event; 18] = [
    Event::Ask(ALL, 7),
    Event::Propose(0),
    Event::HandOver(ALL),
    Event::HandOver(ALL),
    Event::HandOver(&[0]),
    Event::Execute(ALL),
    Event::Stand(&[0], Standing(0, 1, 0)),
    Event::TimeOut(&[0, 1, 2]),
    Event::HandOver(&[0, 1, 2]),
    Event::HandOver(&[0, 1, 2]),
    Event::HandOver(&[1, 2]),
    Event::HandOver(&[0, 1, 2]),
    Event::Resend(&[0, 1, 2]),
    Event::Resend(&[0, 1, 2]),
    Event::Resend(&[0, 1, 2]),
    Event::Resend(&[0, 1, 2]),
    Event::Execute(&[0, 1, 2]),
    Event::Stand(&[0, 1, 2], Standing(1, 1, 0)),
];

#[test]
fn votes_come_to_one_that_has_executed_the_number(rt: HostRuntime) -> Result<(), Fail> {
    same!(rt; wrong_in_both(&rt, rt.alloc(), &ONE_HAS_EXECUTED)?, (None, true));
    Ok(())
}
