//! By which NEW-VIEWs a view is entered, and which are refused.
use crate::asked::{
    A_PREPARE_LESS, FOR_ANOTHER_VIEW, OF_ONE, OF_THREE, OF_TWO, PROPOSED, STABLE_OF_TWO,
};
use crate::parts::{Asked, Batch, Begun};
use crate::steps::{Step, plays};
use bfs_testing_nodes::calls::{Said, Standing};
use std::test::Fail;

const CHANGES: &[Asked<'static>] = &[OF_ONE, OF_TWO, OF_THREE];

const RIGHT: Begun = Begun(1, CHANGES, PROPOSED);

const FROM_TWO: Begun = Begun(1, &[OF_ONE, OF_TWO], PROPOSED);

const FROM_ONE_TWICE: Begun = Begun(1, &[OF_ONE, OF_TWO, OF_TWO], PROPOSED);

const FOR_TWO_VIEWS: Begun = Begun(1, &[OF_ONE, OF_TWO, FOR_ANOTHER_VIEW], PROPOSED);

const WITH_A_PREPARE_LESS: Begun = Begun(1, &[OF_ONE, OF_TWO, A_PREPARE_LESS], PROPOSED);

static AT_A_BACKUP: [Step; 9] = [
    Step::NewView(Begun(2, CHANGES, PROPOSED), Said::Refused(24)),
    Step::NewView(FROM_TWO, Said::Refused(30)),
    Step::NewView(FROM_ONE_TWICE, Said::Refused(30)),
    Step::NewView(FOR_TWO_VIEWS, Said::Refused(31)),
    Step::NewView(WITH_A_PREPARE_LESS, Said::Refused(31)),
    // a number less
    Step::NewView(Begun(1, CHANGES, &[]), Said::Refused(32)),
    // its PREPARE for number 1
    Step::NewView(RIGHT, Said::Sent(1)),
    Step::NewView(RIGHT, Said::Refused(25)),
    Step::NewView(FROM_TWO, Said::Refused(30)),
];

#[test]
fn a_new_view_is_refused_for_its_first_fault(rt: HostRuntime) -> Result<(), Fail> {
    plays(&rt, rt.alloc(), 1, 3, &AT_A_BACKUP)
}

static BEYOND_IT: [Step; 4] = [
    Step::TimeOut(Said::Sent(1)),
    Step::TimeOut(Said::Sent(1)),
    Step::NewView(RIGHT, Said::Refused(25)),
    Step::Stands(Standing(0, 0, 0)),
];

#[test]
fn a_view_below_the_one_asked_for_is_not_entered(rt: HostRuntime) -> Result<(), Fail> {
    plays(&rt, rt.alloc(), 1, 3, &BEYOND_IT)
}

const BEHIND_16: Begun = Begun(
    1,
    &[OF_ONE, STABLE_OF_TWO, OF_THREE],
    &[(17, Batch::Null), (18, Batch::At(5))],
);

static BEHIND_A_CHECKPOINT: [Step; 6] = [
    Step::Entered(None, 0),
    // its PREPAREs for both numbers
    Step::NewView(BEHIND_16, Said::Sent(2)),
    Step::Entered(Some((1, 3)), 16),
    Step::Stands(Standing(1, 0, 0)),
    Step::NewView(RIGHT, Said::Refused(25)),
    Step::Entered(Some((1, 3)), 16),
];

static BEGUN_BEHIND_A_CHECKPOINT: [Step; 5] = [
    Step::Change(STABLE_OF_TWO, 2, Said::Sent(0)),
    Step::Change(OF_THREE, 3, Said::Sent(0)),
    Step::Entered(None, 0),
    // its VIEW-CHANGE and its NEW-VIEW
    Step::TimeOut(Said::Sent(2)),
    Step::Entered(Some((1, 3)), 16),
];

#[test]
fn the_low_mark_rises_to_what_a_view_change_shows(rt: HostRuntime) -> Result<(), Fail> {
    plays(&rt, rt.alloc(), 1, 3, &BEHIND_A_CHECKPOINT)?;
    plays(&rt, rt.alloc(), 1, 1, &BEGUN_BEHIND_A_CHECKPOINT)
}
