//! Which VIEW-CHANGEs are kept, and which are refused.
use crate::asked::{A_PREPARE_LESS, FOR_ANOTHER_VIEW, OF_THREE, OF_TWO};
use crate::parts::Asked;
use crate::steps::{Step, plays};
use bfs_testing_nodes::calls::{Said, Standing};
use std::test::Fail;

const FOR_VIEW_ZERO: Asked<'static> = Asked {
    view: 0,
    ..OF_THREE
};

const FOR_VIEW_FIVE: Asked<'static> = Asked {
    view: 5,
    ..OF_THREE
};

static AT_THE_NEXT_PRIMARY: [Step; 8] = [
    Step::Change(OF_THREE, 2, Said::Refused(24)),
    Step::Change(FOR_VIEW_ZERO, 3, Said::Refused(25)),
    // it is not noted
    Step::Change(A_PREPARE_LESS, 3, Said::Refused(31)),
    Step::Change(OF_THREE, 3, Said::Sent(0)),
    Step::Change(OF_THREE, 3, Said::Refused(29)),
    Step::Change(FOR_VIEW_FIVE, 3, Said::Sent(0)),
    Step::Change(OF_THREE, 3, Said::Refused(29)),
    Step::Change(OF_TWO, 2, Said::Sent(0)),
];

#[test]
fn a_view_change_is_refused_for_its_first_fault(rt: HostRuntime) -> Result<(), Fail> {
    plays(&rt, rt.alloc(), 1, 1, &AT_THE_NEXT_PRIMARY)
}

static AT_ANOTHER: [Step; 3] = [
    Step::Change(OF_THREE, 3, Said::Sent(0)),
    Step::Change(OF_THREE, 3, Said::Refused(29)),
    Step::Change(FOR_ANOTHER_VIEW, 3, Said::Sent(0)),
];

#[test]
fn those_for_anothers_view_are_noted(rt: HostRuntime) -> Result<(), Fail> {
    plays(&rt, rt.alloc(), 1, 0, &AT_ANOTHER)
}

static A_CHANGED_ENTRY: [Step; 3] = [
    Step::Spoiled(OF_THREE, 1, Said::Refused(24)),
    // an entry for another one
    Step::Spoiled(OF_THREE, 0, Said::Sent(0)),
    Step::Change(OF_THREE, 3, Said::Refused(29)),
];

#[test]
fn one_with_a_changed_entry_is_not_taken(rt: HostRuntime) -> Result<(), Fail> {
    plays(&rt, rt.alloc(), 1, 1, &A_CHANGED_ENTRY)
}

static TWO_AND_ITS_OWN: [Step; 4] = [
    Step::Change(OF_TWO, 2, Said::Sent(0)),
    Step::Change(OF_THREE, 3, Said::Sent(0)),
    // its VIEW-CHANGE and its NEW-VIEW
    Step::TimeOut(Said::Sent(2)),
    Step::Stands(Standing(1, 0, 0)),
];

#[test]
fn two_and_its_own_begin_a_view(rt: HostRuntime) -> Result<(), Fail> {
    plays(&rt, rt.alloc(), 1, 1, &TWO_AND_ITS_OWN)
}
