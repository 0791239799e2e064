//! Which VIEW-CHANGEs are valid: each rule with its neighbours.
use crate::parts::{Asked, Batch, Prepared, Told, keys_of};
use bfs_messages::{Signed, ViewChange};
use bfs_testing::asserts::compared;
use bfs_types::Memory;
use bfs_view_change::valid_view_change;
use std::alloc::Global;
use std::test::Fail;

/// A VIEW-CHANGE of replica 2: what is particular about it, its view, its stable number with the CHECKPOINTs for it, and its certificates; and
/// whether it is valid for replica 3.
struct Case(
    &'static str,
    u64,
    u64,
    &'static [Told],
    &'static [Prepared],
    bool,
);

fn is_valid(alloc: Global, change: &Signed<ViewChange>) -> Result<bool, Memory> {
    Ok(valid_view_change(&keys_of(alloc, 3)?, change))
}

fn is_as_told(alloc: Global, case: &Case) -> Result<bool, Memory> {
    let Case(_, view, stable, told, held, wanted) = case;
    let asked = Asked {
        sender: 2,
        view: *view,
        stable: *stable,
        told: *told,
        held: *held,
    };
    Ok(is_valid(alloc, &asked.change(alloc)?)? == *wanted)
}

// what is particular about the first that is not as it is told
fn first_wrong(alloc: Global, cases: &[Case]) -> Result<Option<&'static str>, Memory> {
    for case in cases {
        if !is_as_told(alloc, case)? {
            return Ok(Some(case.0));
        }
    }
    Ok(None)
}

fn are_as_told(alloc: Global, cases: &[Case]) -> Result<(), Fail> {
    compared(first_wrong(alloc, cases)?, None)?;
    Ok(())
}

const AT_FIVE: Batch = Batch::At(5);

static OF_BACKUPS: [Case; 7] = [
    Case(
        "2f",
        1,
        0,
        &[],
        &[Prepared(0, 2, 0, &[1, 2], AT_FIVE)],
        true,
    ),
    Case(
        "one more",
        1,
        0,
        &[],
        &[Prepared(0, 2, 0, &[1, 2, 3], AT_FIVE)],
        true,
    ),
    Case(
        "one less",
        1,
        0,
        &[],
        &[Prepared(0, 2, 0, &[1], AT_FIVE)],
        false,
    ),
    Case(
        "one twice",
        1,
        0,
        &[],
        &[Prepared(0, 2, 0, &[1, 2, 2], AT_FIVE)],
        false,
    ),
    Case(
        "the primary's",
        1,
        0,
        &[],
        &[Prepared(0, 2, 0, &[0, 1, 2], AT_FIVE)],
        false,
    ),
    Case(
        "another primary",
        1,
        0,
        &[],
        &[Prepared(0, 2, 1, &[2, 3], AT_FIVE)],
        false,
    ),
    Case(
        "no replica",
        1,
        0,
        &[],
        &[Prepared(0, 2, 0, &[1, 4], AT_FIVE)],
        false,
    ),
];

#[test]
fn a_certificate_has_prepares_of_2f_backups(rt: HostRuntime) -> Result<(), Fail> {
    are_as_told(rt.alloc(), &OF_BACKUPS)
}

static OF_VIEWS: [Case; 2] = [
    Case(
        "that view",
        1,
        0,
        &[],
        &[Prepared(1, 2, 1, &[2, 3], AT_FIVE)],
        false,
    ),
    Case(
        "an earlier one",
        2,
        0,
        &[],
        &[Prepared(1, 2, 1, &[2, 3], AT_FIVE)],
        true,
    ),
];

#[test]
fn a_certificate_is_of_an_earlier_view(rt: HostRuntime) -> Result<(), Fail> {
    are_as_told(rt.alloc(), &OF_VIEWS)
}

const TWO: Prepared = Prepared(0, 2, 0, &[1, 2], AT_FIVE);

const THREE: Prepared = Prepared(0, 3, 0, &[1, 2], AT_FIVE);

const OF_THREE: &[Told] = &[Told(0, 16), Told(1, 16), Told(3, 16)];

static OF_NUMBERS: [Case; 7] = [
    Case("rising", 1, 0, &[], &[TWO, THREE], true),
    Case("one twice", 1, 0, &[], &[TWO, TWO], false),
    Case("falling", 1, 0, &[], &[THREE, TWO], false),
    Case(
        "the last one",
        1,
        0,
        &[],
        &[Prepared(0, 32, 0, &[1, 2], AT_FIVE)],
        true,
    ),
    Case(
        "above it",
        1,
        0,
        &[],
        &[Prepared(0, 33, 0, &[1, 2], AT_FIVE)],
        false,
    ),
    Case(
        "the stable one",
        1,
        16,
        OF_THREE,
        &[Prepared(0, 16, 0, &[1, 2], AT_FIVE)],
        false,
    ),
    Case(
        "the ends above a stable one",
        1,
        16,
        OF_THREE,
        &[
            Prepared(0, 17, 0, &[1, 2], AT_FIVE),
            Prepared(0, 48, 0, &[1, 2], AT_FIVE),
        ],
        true,
    ),
];

#[test]
fn numbers_rise_in_the_window(rt: HostRuntime) -> Result<(), Fail> {
    are_as_told(rt.alloc(), &OF_NUMBERS)
}

static OF_CHECKPOINTS: [Case; 7] = [
    Case("2f + 1", 1, 16, OF_THREE, &[], true),
    Case("one less", 1, 16, &[Told(0, 16), Told(1, 16)], &[], false),
    Case(
        "one twice",
        1,
        16,
        &[Told(0, 16), Told(1, 16), Told(1, 16)],
        &[],
        false,
    ),
    Case(
        "another number",
        1,
        16,
        &[Told(0, 32), Told(1, 32), Told(3, 32)],
        &[],
        false,
    ),
    Case("none", 1, 16, &[], &[], false),
    Case(
        "some of number 0",
        1,
        0,
        &[Told(0, 0), Told(1, 0), Told(3, 0)],
        &[],
        false,
    ),
    Case("none of number 0", 1, 0, &[], &[], true),
];

#[test]
fn a_stable_number_has_2f_and_one_checkpoints(rt: HostRuntime) -> Result<(), Fail> {
    are_as_told(rt.alloc(), &OF_CHECKPOINTS)
}

static OF_REQUESTS: [Case; 2] = [
    Case(
        "its client's",
        1,
        0,
        &[],
        &[Prepared(0, 1, 0, &[1, 2], Batch::SignedBy(1))],
        true,
    ),
    Case(
        "another's",
        1,
        0,
        &[],
        &[Prepared(0, 1, 0, &[1, 2], Batch::SignedBy(0))],
        false,
    ),
];

#[test]
fn requests_within_it_are_signed(rt: HostRuntime) -> Result<(), Fail> {
    are_as_told(rt.alloc(), &OF_REQUESTS)
}

// a VIEW-CHANGE of a sender for view 1, with nothing prepared
fn empty(alloc: Global, sender: u32) -> Result<Signed<ViewChange>, Memory> {
    let asked = Asked {
        sender,
        view: 1,
        stable: 0,
        told: &[],
        held: &[],
    };
    asked.change(alloc)
}

// that of replica 2 with the entries of another one
fn with_entries_of(alloc: Global, sender: u32) -> Result<bool, Memory> {
    let mut change = empty(alloc, 2)?;
    change.auth = empty(alloc, sender)?.auth;
    is_valid(alloc, &change)
}

#[test]
fn it_is_signed_itself(rt: HostRuntime) -> Result<(), Fail> {
    compared(with_entries_of(rt.alloc(), 2)?, true)?;
    compared(with_entries_of(rt.alloc(), 1)?, false)?;
    Ok(())
}
