//! What spells no message, and what is read of a message that was changed on the way.
use crate::spelled::{EACH, MALFORMED, NEW_VIEW, PREPARE};
use bfs_codec::{DecodeError, decode, encode};
use bfs_messages::{Message, Signed};
use bfs_testing::{holds, same};
use bfs_types::Memory;
use bfs_xdr::put_u32;
use std::alloc::Global;
use std::test::Fail;

fn is_malformed(alloc: Global, bytes: &[u8]) -> bool {
    match decode(alloc, bytes) {
        Err(DecodeError::Malformed) => true,
        Err(DecodeError::Memory) => false,
        Ok(_) => false,
    }
}

// whether the bytes spell no message, or one that is spelled by just these bytes
fn spells_another(alloc: Global, bytes: &[u8]) -> Result<bool, Memory> {
    match decode(alloc, bytes) {
        Err(DecodeError::Malformed) => Ok(true),
        Err(DecodeError::Memory) => Err(Memory),
        Ok(signed) => Ok(encode(alloc, &signed)?.as_slice() == bytes),
    }
}

// a message with zeros for as many entries, whatever it had
fn with_entries(alloc: Global, count: u32) -> Result<Vec<u8>, Fail> {
    let mut bytes = hex::decode(alloc, PREPARE)?;
    bytes.truncate(56);
    put_u32(&mut bytes, count)?;
    for _ in 0..count {
        bytes.extend_from_slice(&[0; 32])?;
    }
    Ok(bytes)
}

#[test]
fn the_number_of_the_refusal_is_23(rt: HostRuntime) -> Result<(), Fail> {
    let given = match decode(rt.alloc(), &[]) {
        Ok(_) => 0,
        Err(error) => error.code(),
    };
    same!(rt; given, 23);
    Ok(())
}

#[test]
fn what_spells_no_message_is_malformed(rt: HostRuntime) -> Result<(), Fail> {
    let alloc = rt.alloc();
    for (_why, text) in MALFORMED.iter() {
        let bytes = hex::decode(alloc, *text)?;
        holds!(rt; is_malformed(alloc, bytes.as_slice()));
    }
    Ok(())
}

#[test]
fn a_message_that_is_cut_anywhere_is_malformed(rt: HostRuntime) -> Result<(), Fail> {
    let alloc = rt.alloc();
    for text in EACH.iter() {
        let bytes = hex::decode(alloc, *text)?;
        for length in 0..bytes.len() {
            holds!(rt; is_malformed(alloc, &bytes[..length]));
        }
    }
    Ok(())
}

#[test]
fn a_message_with_bytes_behind_it_is_malformed(rt: HostRuntime) -> Result<(), Fail> {
    let alloc = rt.alloc();
    for text in EACH.iter() {
        let mut bytes = hex::decode(alloc, *text)?;
        for _ in 0..5u32 {
            bytes.push(0)?;
            holds!(rt; is_malformed(alloc, bytes.as_slice()));
        }
    }
    Ok(())
}

#[test]
fn a_message_with_a_changed_byte_is_malformed_or_another(rt: HostRuntime) -> Result<(), Fail> {
    let alloc = rt.alloc();
    for text in EACH.iter() {
        let mut bytes = hex::decode(alloc, *text)?;
        for index in 0..bytes.len() {
            let byte = bytes[index];
            bytes[index] = byte ^ 1;
            holds!(rt; spells_another(alloc, bytes.as_slice())?);
            bytes[index] = byte ^ 0x80;
            holds!(rt; spells_another(alloc, bytes.as_slice())?);
            bytes[index] = byte;
        }
    }
    Ok(())
}

#[test]
fn at_most_31_entries_are_taken(rt: HostRuntime) -> Result<(), Fail> {
    let alloc = rt.alloc();
    holds!(rt; spells_another(alloc, with_entries(alloc, 31)?.as_slice())?);
    holds!(rt; !is_malformed(alloc, with_entries(alloc, 31)?.as_slice()));
    holds!(rt; is_malformed(alloc, with_entries(alloc, 32)?.as_slice()));
    Ok(())
}
