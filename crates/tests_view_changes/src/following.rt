//! Which view a replica leads, has asked for, and is to follow.
use crate::asked::{FOR_ANOTHER_VIEW, OF_ONE, OF_THREE, OF_TWO, PROPOSED};
use crate::parts::{Asked, Begun};
use crate::steps::{Outlook, Step, plays};
use bfs_testing_nodes::calls::{Said, Standing};
use std::test::Fail;

const OF_TWO_FOR_FIVE: Asked<'static> = Asked { view: 5, ..OF_TWO };

static TWO_ASK: [Step; 9] = [
    Step::Looks(Outlook(true, 0, None)),
    Step::Change(OF_TWO_FOR_FIVE, 2, Said::Sent(0)),
    // it may lie
    Step::Looks(Outlook(true, 0, None)),
    Step::Change(OF_THREE, 3, Said::Sent(0)),
    Step::Looks(Outlook(true, 0, Some(1))),
    Step::LeaveFor(1, Said::Sent(1)),
    // one alone asks for a later view
    Step::Looks(Outlook(false, 1, None)),
    Step::Change(FOR_ANOTHER_VIEW, 3, Said::Sent(0)),
    Step::Looks(Outlook(false, 1, Some(2))),
];

#[test]
fn the_least_view_is_followed_once_two_ask(rt: HostRuntime) -> Result<(), Fail> {
    plays(&rt, rt.alloc(), 1, 0, &TWO_ASK)
}

static THE_NEXT_PRIMARY: [Step; 6] = [
    Step::Looks(Outlook(false, 0, None)),
    Step::Change(OF_TWO, 2, Said::Sent(0)),
    Step::Change(OF_THREE, 3, Said::Sent(0)),
    Step::Looks(Outlook(false, 0, Some(1))),
    Step::TimeOut(Said::Sent(2)),
    Step::Looks(Outlook(true, 1, None)),
];

#[test]
fn the_primary_of_the_view_that_it_begins_leads(rt: HostRuntime) -> Result<(), Fail> {
    plays(&rt, rt.alloc(), 1, 1, &THE_NEXT_PRIMARY)
}

const RIGHT: Begun = Begun(1, &[OF_ONE, OF_TWO, OF_THREE], PROPOSED);

static A_BACKUP: [Step; 12] = [
    Step::TimeOut(Said::Sent(1)),
    Step::TimeOut(Said::Sent(1)),
    // it has asked for view 2, and comes back to none below
    Step::Looks(Outlook(false, 2, None)),
    Step::NewView(RIGHT, Said::Refused(25)),
    Step::Change(OF_TWO_FOR_FIVE, 2, Said::Sent(0)),
    Step::Change(FOR_SIX, 0, Said::Sent(0)),
    Step::Looks(Outlook(false, 2, Some(5))),
    // in one step
    Step::LeaveFor(2, Said::Refused(25)),
    Step::LeaveFor(5, Said::Sent(1)),
    Step::LeaveFor(5, Said::Refused(25)),
    Step::Looks(Outlook(false, 5, None)),
    Step::Stands(Standing(0, 0, 0)),
];

const FOR_SIX: Asked<'static> = Asked {
    sender: 0,
    view: 6,
    ..OF_ONE
};

#[test]
fn what_is_followed_is_above_what_was_asked_for(rt: HostRuntime) -> Result<(), Fail> {
    plays(&rt, rt.alloc(), 1, 3, &A_BACKUP)
}

static ENTERED: [Step; 4] = [
    Step::TimeOut(Said::Sent(1)),
    // its PREPARE for number 1
    Step::NewView(RIGHT, Said::Sent(1)),
    Step::Stands(Standing(1, 0, 0)),
    Step::Looks(Outlook(false, 1, None)),
];

#[test]
fn a_view_that_is_entered_was_asked_for(rt: HostRuntime) -> Result<(), Fail> {
    plays(&rt, rt.alloc(), 1, 3, &ENTERED)
}

static ALONE: [Step; 3] = [
    // its VIEW-CHANGE and its NEW-VIEW
    Step::TimeOut(Said::Sent(2)),
    Step::TimeOut(Said::Sent(2)),
    Step::Stands(Standing(2, 0, 0)),
];

#[test]
fn a_replica_that_is_alone_begins_the_next_view_at_once(rt: HostRuntime) -> Result<(), Fail> {
    plays(&rt, rt.alloc(), 0, 0, &ALONE)
}
