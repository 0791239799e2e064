//! Messages that were cut, changed, mixed and lengthened at random: which of them are read is decided by a reading of the format that shares
//! nothing with the code, and what is read is written again to the same bytes.
use crate::readings::spell_a_message;
use crate::spelled::{EACH, MALFORMED, PREPARE};
use bfs_auth::{Keys, Principal};
use bfs_codec::{DecodeError, decode, encode};
use bfs_messages::is_signed;
use bfs_testing::asserts::compared;
use bfs_testing::changes::{Change, Changes};
use bfs_testing::{holds, same};
use bfs_types::Memory;
use std::alloc::Global;
use std::test::Fail;

// whether the bytes are read as they are to be, and whether they spell a message
fn is_read_rightly(alloc: Global, bytes: &[u8]) -> Result<(bool, bool), Memory> {
    let wanted = spell_a_message(bytes);
    match decode(alloc, bytes) {
        Ok(signed) => Ok((wanted && encode(alloc, &signed)?.as_slice() == bytes, true)),
        Err(DecodeError::Malformed) => Ok((!wanted, false)),
        Err(DecodeError::Memory) => Err(Memory),
    }
}

#[test]
fn the_reading_of_the_tests_knows_messages(rt: HostRuntime) -> Result<(), Fail> {
    let alloc = rt.alloc();
    for text in EACH.iter() {
        holds!(rt; spell_a_message(hex::decode(alloc, *text)?.as_slice()));
    }
    for (_why, text) in MALFORMED.iter() {
        holds!(rt; !spell_a_message(hex::decode(alloc, *text)?.as_slice()));
    }
    Ok(())
}

// of so many changes of a message: how many are read. It fails where one is not read as it is to be, or is read though it was cut or lengthened
fn read_of(
    alloc: Global,
    changes: &mut Changes,
    bytes: &[u8],
    others: &[u8],
    count: u32,
) -> Result<u32, Fail> {
    let mut read: u32 = 0;
    for _ in 0..count {
        let (change, changed) = changes.changed(alloc, bytes, others)?;
        let (right, is_message) = is_read_rightly(alloc, changed.as_slice())?;
        let may = !is_message || !matches!(change, Change::Cut | Change::Lengthen);
        compared((change, right, may), (change, true, true))?;
        if is_message {
            read = read.wrapping_add(1);
        }
    }
    Ok(read)
}

#[test]
fn changed_messages_are_read_as_the_format_tells(rt: HostRuntime) -> Result<(), Fail> {
    let alloc = rt.alloc();
    let mut changes = Changes { state: 34 };
    let mut read: u32 = 0;
    for text in EACH.iter() {
        let bytes = hex::decode(alloc, *text)?;
        for other in EACH.iter() {
            let others = hex::decode(alloc, *other)?;
            let more = read_of(alloc, &mut changes, bytes.as_slice(), others.as_slice(), 40)?;
            read = read.wrapping_add(more);
        }
    }
    // of 3,240, some of both
    holds!(rt; 200 < read && read < 3_000);
    Ok(())
}

fn keys_of(alloc: Global, replica: u32) -> Result<Keys, Memory> {
    Keys::derive(alloc, &[0; 32], Principal::Replica(replica), 4, 16)
}

// whether a replica takes a message as its sender's
fn is_taken(alloc: Global, replica: u32, bytes: &[u8]) -> Result<bool, Memory> {
    match decode(alloc, bytes) {
        Ok(signed) => Ok(is_signed(&keys_of(alloc, replica % 4)?, &signed)),
        Err(_) => Err(Memory),
    }
}

// behind the body and the count of entries
const FIRST_ENTRY: usize = 60;

fn with_change(alloc: Global, bytes: &[u8], place: usize) -> Result<Vec<u8>, Memory> {
    let mut changed = bytes.to_vec(alloc)?;
    if let Some(byte) = changed.get_mut(place) {
        *byte ^= 1;
    }
    Ok(changed)
}

// the bytes of the first entry
#[test]
fn a_changed_keyed_hash_is_read_and_fails_at_its_replica(rt: HostRuntime) -> Result<(), Fail> {
    let alloc = rt.alloc();
    let bytes = hex::decode(alloc, PREPARE)?;
    same!(rt; bytes.len(), FIRST_ENTRY + 4 * 32);
    holds!(rt; is_taken(alloc, 0, bytes.as_slice())?);
    for place in FIRST_ENTRY..FIRST_ENTRY + 32 {
        let changed = with_change(alloc, bytes.as_slice(), place)?;
        holds!(rt; !is_taken(alloc, 0, changed.as_slice())?);
        holds!(rt; is_taken(alloc, 1, changed.as_slice())?);
    }
    Ok(())
}
