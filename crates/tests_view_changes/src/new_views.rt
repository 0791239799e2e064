//! Which NEW-VIEWs are right: each refusal with the ones before and behind it.
use crate::choices::{
    A_PREPARE_LESS, FOR_ANOTHER_VIEW, OF_ONE, OF_THREE, OF_TWO, Outcome, comes_to,
};
use crate::parts::{Asked, Batch, Begun, changes, keys_of};
use bfs_codec::{decode, encode};
use bfs_messages::{Message, NewView, Signed};
use bfs_testing::asserts::compared;
use bfs_types::Memory;
use bfs_view_change::{check_new_view, choice_of, make_new_view};
use std::alloc::Global;
use std::test::Fail;

// whether that comes of a NEW-VIEW for replica 3
fn comes_of(alloc: Global, signed: &Signed<NewView>, wanted: Outcome) -> Result<bool, Memory> {
    comes_to(check_new_view(alloc, &keys_of(alloc, 3)?, signed), wanted)
}

/// What is particular about a NEW-VIEW, what it says, and what comes of it.
struct Case(&'static str, Begun, Outcome);

fn is_as_told(alloc: Global, begun: Begun, wanted: Outcome) -> Result<bool, Memory> {
    comes_of(alloc, &begun.signed(alloc)?, wanted)
}

// what is particular about the first of which something else comes
fn first_wrong(alloc: Global, cases: &[Case]) -> Result<Option<&'static str>, Memory> {
    for Case(name, begun, wanted) in cases {
        if !is_as_told(alloc, *begun, *wanted)? {
            return Ok(Some(*name));
        }
    }
    Ok(None)
}

const CHANGES: &[Asked<'static>] = &[OF_ONE, OF_TWO, OF_THREE];

const NULL: (u64, Batch) = (1, Batch::Null);

const PREPARED: (u64, Batch) = (2, Batch::At(5));

const RIGHT: Begun = Begun(1, CHANGES, &[NULL, PREPARED]);

const CHOSEN: Outcome = Outcome::Chosen(0, &[(1, 0), (2, 5)]);

static CASES: [Case; 19] = [
    Case("the right one", RIGHT, CHOSEN),
    Case(
        "of a backup",
        Begun(2, CHANGES, &[NULL, PREPARED]),
        Outcome::Refused(24),
    ),
    Case(
        "of a backup, from too few",
        Begun(2, &[OF_ONE], &[]),
        Outcome::Refused(24),
    ),
    Case(
        "of a backup, from one that is not valid",
        Begun(2, &[OF_ONE, A_PREPARE_LESS, OF_THREE], &[NULL, PREPARED]),
        Outcome::Refused(24),
    ),
    Case(
        "of a backup, proposing less",
        Begun(2, CHANGES, &[PREPARED]),
        Outcome::Refused(24),
    ),
    Case(
        "from one that is not valid, proposing less",
        Begun(1, &[OF_ONE, A_PREPARE_LESS, OF_THREE], &[PREPARED]),
        Outcome::Refused(31),
    ),
    Case(
        "from two, of which one is for another view",
        Begun(1, &[OF_ONE, FOR_ANOTHER_VIEW], &[NULL]),
        Outcome::Refused(31),
    ),
    Case(
        "from one that is not valid",
        Begun(1, &[OF_ONE, A_PREPARE_LESS, OF_THREE], &[NULL, PREPARED]),
        Outcome::Refused(31),
    ),
    Case(
        "from too few, of which one is not valid",
        Begun(1, &[OF_ONE, A_PREPARE_LESS], &[NULL, PREPARED]),
        Outcome::Refused(31),
    ),
    Case(
        "from one for another view",
        Begun(
            1,
            &[OF_ONE, OF_TWO, OF_THREE, FOR_ANOTHER_VIEW],
            &[NULL, PREPARED],
        ),
        Outcome::Refused(31),
    ),
    Case(
        "from too few",
        Begun(1, &[OF_ONE, OF_TWO], &[NULL, PREPARED]),
        Outcome::Refused(30),
    ),
    Case(
        "from too few, proposing less",
        Begun(1, &[OF_ONE, OF_TWO], &[]),
        Outcome::Refused(30),
    ),
    Case(
        "without the null request",
        Begun(1, CHANGES, &[PREPARED]),
        Outcome::Refused(32),
    ),
    Case(
        "another batch",
        Begun(1, CHANGES, &[NULL, (2, Batch::At(6))]),
        Outcome::Refused(32),
    ),
    Case(
        "the null request twice",
        Begun(1, CHANGES, &[NULL, (2, Batch::Null)]),
        Outcome::Refused(32),
    ),
    Case(
        "out of order",
        Begun(1, CHANGES, &[PREPARED, NULL]),
        Outcome::Refused(32),
    ),
    Case(
        "one more",
        Begun(1, CHANGES, &[NULL, PREPARED, (3, Batch::Null)]),
        Outcome::Refused(32),
    ),
    Case("one less", Begun(1, CHANGES, &[NULL]), Outcome::Refused(32)),
    Case("nothing", Begun(1, CHANGES, &[]), Outcome::Refused(32)),
];

#[test]
fn what_is_proposed_is_the_choice(rt: HostRuntime) -> Result<(), Fail> {
    compared(first_wrong(rt.alloc(), &CASES)?, None)?;
    Ok(())
}

// as it is read again
fn is_taken_as_it_is_read(alloc: Global) -> Result<bool, Memory> {
    let bytes = encode(alloc, &RIGHT.message(alloc)?)?;
    let Ok(Signed { message, auth }) = decode(alloc, &bytes) else {
        return Ok(false);
    };
    match message {
        Message::NewView(message) => comes_of(alloc, &Signed { message, auth }, CHOSEN),
        _ => Ok(false),
    }
}

#[test]
fn it_is_taken_as_it_is_read(rt: HostRuntime) -> Result<(), Fail> {
    compared(is_taken_as_it_is_read(rt.alloc())?, true)?;
    Ok(())
}

// with the entries of another NEW-VIEW
fn comes_with_other_entries(alloc: Global, wanted: Outcome) -> Result<bool, Memory> {
    let mut signed = RIGHT.signed(alloc)?;
    signed.auth = Begun(1, &[OF_ONE, OF_TWO], &[]).signed(alloc)?.auth;
    comes_of(alloc, &signed, wanted)
}

#[test]
fn one_with_the_entries_of_another_is_not_taken(rt: HostRuntime) -> Result<(), Fail> {
    compared(
        comes_with_other_entries(rt.alloc(), Outcome::Refused(24))?,
        true,
    )?;
    Ok(())
}

// the NEW-VIEW that replica 1 makes
fn made(alloc: Global) -> Result<Signed<NewView>, Memory> {
    let changes = changes(alloc, CHANGES)?;
    let choice = choice_of(alloc, &changes)?;
    if changes.len() > 31 || choice.chosen().len() > 32 {
        return Err(Memory);
    }
    make_new_view(alloc, &keys_of(alloc, 1)?, 1, 1, &changes, &choice)
}

/// `.ci/refusals` runs this one with each growth of memory refused in turn.
#[test]
fn what_a_primary_makes_is_right(rt: HostRuntime) -> Result<(), Fail> {
    let signed = made(rt.alloc())?;
    compared(comes_of(rt.alloc(), &signed, CHOSEN)?, true)?;
    compared(signed.message.proposals().len(), 2)?;
    Ok(())
}
