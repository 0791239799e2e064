//! What is chosen from VIEW-CHANGEs.
use crate::parts::{Asked, Batch, Prepared, Told, changes, keys_of};
use bfs_messages::{Signed, ViewChange};
use bfs_testing::asserts::compared;
use bfs_types::Memory;
use bfs_view_change::{Choice, Chosen, ViewError, choice_of, choose, latest_checkpoint};
use std::alloc::Global;
use std::test::Fail;

/// The VIEW-CHANGEs of replicas 1, 2 and 3 for view 1; replica 2 has a certificate for number 2.
pub const OF_ONE: Asked<'static> = Asked {
    sender: 1,
    view: 1,
    stable: 0,
    told: &[],
    held: &[],
};

pub const OF_TWO: Asked<'static> = Asked {
    sender: 2,
    held: &[Prepared(0, 2, 0, &[1, 2], Batch::At(5))],
    ..OF_ONE
};

pub const OF_THREE: Asked<'static> = Asked {
    sender: 3,
    ..OF_ONE
};

/// That of replica 2 with a PREPARE less than its certificate wants.
pub const A_PREPARE_LESS: Asked<'static> = Asked {
    held: &[Prepared(0, 2, 0, &[1], Batch::At(5))],
    ..OF_TWO
};

/// One for view 2.
pub const FOR_ANOTHER_VIEW: Asked<'static> = Asked {
    sender: 0,
    view: 2,
    ..OF_ONE
};

/// What comes of VIEW-CHANGEs.
#[derive(Clone, Copy)]
pub enum Outcome {
    /// The number of the refusal.
    Refused(u32),
    /// Min-s, and of what is chosen above it the numbers and the seconds at which the batches are, 0 for the null request.
    Chosen(u64, &'static [(u64, u32)]),
}

fn second_of(chosen: &Chosen) -> u32 {
    match chosen.batch().time() {
        None => 0,
        Some(time) => time.seconds(),
    }
}

fn is_as_told(chosen: &Chosen, wanted: (u64, u32)) -> bool {
    chosen.number() == wanted.0 && second_of(chosen) == wanted.1
}

fn is_told_at(chosen: &[Chosen], place: usize, wanted: (u64, u32)) -> bool {
    match chosen.get(place) {
        Some(one) => is_as_told(one, wanted),
        None => false,
    }
}

fn are_as_told(chosen: &[Chosen], wanted: &[(u64, u32)]) -> bool {
    for (place, one) in wanted.iter().enumerate() {
        if !is_told_at(chosen, place, *one) {
            return false;
        }
    }
    chosen.len() == wanted.len()
}

/// Whether that came of VIEW-CHANGEs. `Memory` where memory ran out.
pub fn comes_to(given: Result<Choice, ViewError>, wanted: Outcome) -> Result<bool, Memory> {
    match (given, wanted) {
        (Err(ViewError::Memory), _) => Err(Memory),
        (Ok(choice), Outcome::Chosen(min_s, chosen)) => {
            Ok(choice.min_s() == min_s && are_as_told(choice.chosen(), chosen))
        }
        (Err(error), Outcome::Refused(number)) => Ok(error.code() == number),
        _ => Ok(false),
    }
}

/// What is particular about VIEW-CHANGEs, these, and what comes of them.
struct Case(&'static str, &'static [Asked<'static>], Outcome);

// for replica 0
fn chooses(alloc: Global, asked: &[Asked<'_>], wanted: Outcome) -> Result<bool, Memory> {
    let changes = changes(alloc, asked)?;
    comes_to(choose(alloc, &keys_of(alloc, 0)?, &changes), wanted)
}

// what is particular about the first of which something else comes
fn first_wrong(alloc: Global, cases: &[Case]) -> Result<Option<&'static str>, Memory> {
    for Case(name, asked, wanted) in cases {
        if !chooses(alloc, *asked, *wanted)? {
            return Ok(Some(*name));
        }
    }
    Ok(None)
}

static CASES: [Case; 10] = [
    Case(
        "what one has prepared",
        &[OF_ONE, OF_TWO, OF_THREE],
        Outcome::Chosen(0, &[(1, 0), (2, 5)]),
    ),
    Case("two", &[OF_ONE, OF_TWO], Outcome::Refused(30)),
    Case(
        "three, but of two senders",
        &[OF_ONE, OF_TWO, OF_ONE],
        Outcome::Refused(30),
    ),
    Case("none", &[], Outcome::Refused(30)),
    Case(
        "one that is not valid",
        &[OF_ONE, A_PREPARE_LESS, OF_THREE],
        Outcome::Refused(31),
    ),
    Case(
        "two, and one is not valid",
        &[OF_ONE, A_PREPARE_LESS],
        Outcome::Refused(31),
    ),
    Case(
        "one for another view",
        &[OF_ONE, OF_TWO, OF_THREE, FOR_ANOTHER_VIEW],
        Outcome::Refused(31),
    ),
    Case(
        "two, for different views",
        &[OF_ONE, FOR_ANOTHER_VIEW],
        Outcome::Refused(31),
    ),
    Case(
        "all for view 2",
        &[
            FOR_ANOTHER_VIEW,
            Asked { view: 2, ..OF_ONE },
            Asked {
                view: 2,
                ..OF_THREE
            },
        ],
        Outcome::Chosen(0, &[]),
    ),
    Case(
        "numbers up to the latest stable one",
        &[
            Asked {
                held: &[Prepared(0, 7, 0, &[1, 2], Batch::At(5))],
                ..OF_ONE
            },
            Asked {
                sender: 2,
                view: 1,
                stable: 16,
                told: &[Told(0, 16), Told(1, 16), Told(3, 16)],
                held: &[Prepared(0, 18, 0, &[1, 2], Batch::At(5))],
            },
            OF_THREE,
        ],
        Outcome::Chosen(16, &[(17, 0), (18, 5)]),
    ),
];

#[test]
fn a_view_begins_with_what_was_prepared(rt: HostRuntime) -> Result<(), Fail> {
    compared(first_wrong(rt.alloc(), &CASES)?, None)?;
    Ok(())
}

/// `.ci/refusals` runs this one with each growth of memory refused in turn.
#[test]
fn what_one_has_prepared_is_chosen(rt: HostRuntime) -> Result<(), Fail> {
    let wanted = Outcome::Chosen(0, &[(1, 0), (2, 5)]);
    compared(
        chooses(rt.alloc(), &[OF_ONE, OF_TWO, OF_THREE], wanted)?,
        true,
    )?;
    Ok(())
}

/// What is particular about two certificates for number 1, these by the senders that show them, their views and the seconds of their batches,
/// and the second of the batch that is chosen.
struct Rivalry(&'static str, [(u32, u64, u32); 2], u32);

static RIVALS: [Rivalry; 4] = [
    Rivalry("the higher view", [(1, 3, 7), (2, 4, 8)], 8),
    Rivalry("the lower sender", [(3, 4, 7), (2, 4, 8)], 8),
    Rivalry("the lower text", [(2, 4, 8), (2, 4, 7)], 7),
    Rivalry("the lower text first", [(2, 4, 7), (2, 4, 8)], 7),
];

// a VIEW-CHANGE for view 9 with a certificate
fn rival(alloc: Global, sender: u32, view: u64, second: u32) -> Result<Signed<ViewChange>, Memory> {
    let asked = Asked {
        sender,
        view: 9,
        stable: 0,
        told: &[],
        held: &[Prepared(view, 1, 0, &[], Batch::At(second))],
    };
    asked.change(alloc)
}

// which of them is chosen, where nothing is checked
fn chosen_second(alloc: Global, changes: &[Signed<ViewChange>]) -> Result<u32, Memory> {
    match choice_of(alloc, changes)?.chosen() {
        [only] => Ok(second_of(only)),
        _ => Ok(0),
    }
}

fn winner(alloc: Global, rivals: &[(u32, u64, u32)]) -> Result<u32, Memory> {
    let mut changes = Vec::new(alloc);
    for (sender, view, second) in rivals {
        changes.push(rival(alloc, *sender, *view, *second)?)?;
    }
    chosen_second(alloc, &changes)
}

fn first_wrong_winner(alloc: Global) -> Result<Option<&'static str>, Memory> {
    for Rivalry(name, rivals, wanted) in &RIVALS {
        if winner(alloc, rivals)? != *wanted {
            return Ok(Some(*name));
        }
    }
    Ok(None)
}

#[test]
fn the_higher_view_the_lower_sender_the_first_text(rt: HostRuntime) -> Result<(), Fail> {
    compared(first_wrong_winner(rt.alloc())?, None)?;
    Ok(())
}

const BEHIND_16: Asked<'static> = Asked {
    stable: 16,
    told: &[Told(0, 16), Told(1, 16), Told(2, 16)],
    ..OF_TWO
};

const ALSO_BEHIND_16: Asked<'static> = Asked {
    stable: 16,
    told: &[Told(0, 16), Told(1, 16), Told(2, 16), Told(3, 16)],
    ..OF_THREE
};

const BEHIND_32: Asked<'static> = Asked {
    stable: 32,
    told: &[Told(1, 32), Told(2, 32), Told(3, 32)],
    ..OF_THREE
};

// the number behind which a view begins, and how many CHECKPOINTs tell it
fn behind(alloc: Global, asked: &[Asked<'_>]) -> Result<Option<(u64, usize)>, Memory> {
    match latest_checkpoint(alloc, &changes(alloc, asked)?)? {
        None => Ok(None),
        Some(stable) => Ok(Some((stable.number(), stable.checkpoints().len()))),
    }
}

#[test]
fn the_first_of_the_latest_checkpoints_is_taken(rt: HostRuntime) -> Result<(), Fail> {
    let alloc = rt.alloc();
    compared(behind(alloc, &[OF_ONE, OF_TWO, OF_THREE])?, None)?;
    compared(
        behind(alloc, &[OF_ONE, BEHIND_16, ALSO_BEHIND_16])?,
        Some((16, 3)),
    )?;
    compared(behind(alloc, &[ALSO_BEHIND_16, BEHIND_16])?, Some((16, 4)))?;
    compared(
        behind(alloc, &[OF_ONE, BEHIND_16, BEHIND_32])?,
        Some((32, 3)),
    )?;
    Ok(())
}
