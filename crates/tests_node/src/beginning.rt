//! With what a replica begins: its keys, which the settings may give too, and a backup's text.
use crate::replica::{
    CLIENTS, members, place_of, replica_from, replica_with, said_first, stable_numbers,
};
use crate::texts::{
    ANOTHER_LINK, ANOTHER_OWNER, EARLIER_VERSION, LATER_VERSION, Snapshot, Text, of_sixteen_batches,
};
use bfs_node::Node;
use bfs_testing::asserts::compared;
use bfs_testing_nodes::calls::{Standing, digest_of, standing_of};
use bfs_types::Memory;
use std::alloc::Global;
use std::sync::Wait;
use std::test::Fail;
use std::thread::Threads;

/// A replica: f, and its number.
struct Place(u32, u32);

static PLACES: [Place; 5] = [
    Place(0, 0),
    // the primary, and a backup
    Place(1, 0),
    Place(1, 3),
    Place(10, 0),
    Place(10, 30),
];

// Both are at that place and have one digest. They send the same: so they have the same keys too.
fn are_alike<R: Threads + Sync>(
    rt: &R,
    alloc: Global,
    place: (u32, u32, u32),
    one: &mut Node,
    other: &mut Node,
) -> Result<bool, Memory> {
    let digest = digest_of(rt, one);
    let said = said_first(alloc, one)?;
    Ok(
        place_of(one) == place
            && place_of(other) == place
            && digest.is_ok()
            && digest == digest_of(rt, other)
            && !said.is_empty()
            && said == said_first(alloc, other)?,
    )
}

fn are_alike_at<R: Threads + Sync>(rt: &R, alloc: Global, place: &Place) -> Result<bool, Memory> {
    let Place(f, me) = *place;
    let mut one = members(f).replica(alloc, me)?;
    let mut other = replica_with(alloc, members(f).keys_of(alloc, me)?)?;
    are_alike(rt, alloc, (f, me, CLIENTS), &mut one, &mut other)
}

// the first place where they are not
fn first_unlike<R: Threads + Sync>(rt: &R, alloc: Global) -> Result<Option<usize>, Memory> {
    for (number, place) in PLACES.iter().enumerate() {
        if !are_alike_at(rt, alloc, place)? {
            return Ok(Some(number));
        }
    }
    Ok(None)
}

#[test]
fn settings_give_the_keys_of_a_replica(rt: HostRuntime) -> Result<(), Fail> {
    compared(first_unlike(&rt, rt.alloc())?, None)?;
    Ok(())
}

/// What comes of it where a replica is to begin with a text.
#[derive(Clone, Copy, Debug, PartialEq, Eq)]
enum Begun {
    /// It has the digest of the snapshot.
    Same,
    /// It has another digest.
    Other,
    /// The number of the refusal.
    Refused(u32),
    /// It stands as none does that has just begun.
    Wrong,
}

/// How many clients there are, and the text.
struct Case(u32, Text, Begun);

static CASES: [Case; 8] = [
    Case(16, Text::Right, Begun::Same),
    Case(15, Text::Right, Begun::Refused(20)),
    Case(17, Text::Right, Begun::Refused(20)),
    Case(16, Text::Word, Begun::Refused(20)),
    Case(16, EARLIER_VERSION, Begun::Refused(22)),
    Case(16, LATER_VERSION, Begun::Refused(22)),
    Case(16, ANOTHER_LINK, Begun::Refused(21)),
    Case(16, ANOTHER_OWNER, Begun::Other),
];

// it has executed and ordered nothing, and has no snapshot
fn has_just_begun(node: &Node, clients: u32) -> bool {
    place_of(node) == (1, 3, clients)
        && standing_of(node) == Standing(0, 0, 0)
        && stable_numbers(node) == (0, None)
}

fn begun_of<R: Threads + Sync>(rt: &R, node: &Node, clients: u32, wanted: &[u8; 32]) -> Begun {
    if !has_just_begun(node, clients) {
        return Begun::Wrong;
    }
    match digest_of(rt, node) {
        Ok(digest) if digest == *wanted => Begun::Same,
        Ok(_) => Begun::Other,
        Err(_) => Begun::Wrong,
    }
}

fn is_as_told<R: Threads + Sync>(
    rt: &R,
    alloc: Global,
    snapshot: &Snapshot,
    case: &Case,
) -> Result<bool, Memory> {
    let Case(clients, text, wanted) = *case;
    let text = snapshot.bytes(alloc, text)?;
    let begun = match replica_from(alloc, clients, &text) {
        Ok(node) => begun_of(rt, &node, clients, &snapshot.digest),
        Err(code) => Begun::Refused(code),
    };
    Ok(begun == wanted)
}

// the place of the first case that does not come as it is told
fn first_wrong<R: Threads + Wait + Sync>(rt: &R, alloc: Global) -> Result<Option<usize>, Memory> {
    let snapshot = of_sixteen_batches(rt, alloc)?;
    for (place, case) in CASES.iter().enumerate() {
        if !is_as_told(rt, alloc, &snapshot, case)? {
            return Ok(Some(place));
        }
    }
    Ok(None)
}

#[test]
fn a_replica_begins_with_the_text_of_another_one(rt: HostRuntime) -> Result<(), Fail> {
    compared(first_wrong(&rt, rt.alloc())?, None)?;
    Ok(())
}
