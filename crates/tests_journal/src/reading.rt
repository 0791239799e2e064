//! What is read of a journal that is whole, cut, changed, or followed by other bytes.
use crate::records::{ENDS, RECORDS, journal};
use bfs_journal::{Rest, read_journal};
use bfs_testing::changes::{Change, Changes};
use bfs_testing::{holds, same};
use std::alloc::{AllocError, Global};
use std::test::Fail;

// how many records are read of the bytes, where they end, and what stands behind them
fn read(alloc: Global, bytes: &[u8]) -> Result<(usize, usize, Rest), AllocError> {
    let found = read_journal(alloc, bytes)?;
    Ok((found.bodies.len(), found.end, found.rest))
}

#[test]
fn a_whole_journal_is_read(rt: HostRuntime) -> Result<(), Fail> {
    let alloc = rt.alloc();
    let [first, second, _] = RECORDS;
    let text = format!(in alloc; "{first}{second}")?;
    let bytes = hex::decode(alloc, text.as_str())?;
    let found = read_journal(alloc, bytes.as_slice())?;
    let told = format!(in alloc; "{found:?}")?;
    holds!(rt; told.as_str() == "Recovered { bodies: [[97, 98, 99], []], end: 83, rest: Empty }");
    same!(rt; read(alloc, &[])?, (0, 0, Rest::Empty));
    Ok(())
}

// how many of the records end within so many bytes, and where the last of them ends
fn ended(count: usize) -> (usize, usize) {
    let mut records: usize = 0;
    let mut last: usize = 0;
    for end in ENDS {
        if end <= count {
            records = records.wrapping_add(1);
            last = end;
        }
    }
    (records, last)
}

#[test]
fn a_journal_is_read_wherever_it_is_cut(rt: HostRuntime) -> Result<(), Fail> {
    let alloc = rt.alloc();
    let bytes = journal(alloc)?;
    for count in 0..=bytes.len() {
        let (records, end) = ended(count);
        let rest = if end == count { Rest::Empty } else { Rest::Cut };
        same!(rt; read(alloc, &bytes[..count])?, (records, end, rest));
    }
    Ok(())
}

// bytes behind a journal, and what they are taken for
static BEHIND: &[(&str, Rest)] = &[
    // too few to tell a length
    ("ff", Rest::Cut),
    ("00000001000000", Rest::Cut),
    // a record of an empty body, and of one of the greatest length, without an end
    ("0000000000000000", Rest::Cut),
    ("4000000040000000", Rest::Cut),
    // lengths that are not the same, or of no body
    ("0000000100000000", Rest::Damaged),
    ("4000000140000001", Rest::Damaged),
    ("ffffffffffffffff", Rest::Damaged),
    // a record with another digest, and one byte fewer than that
    (
        "00000000000000000000000000000000000000000000000000000000000000000000000000000000",
        Rest::Damaged,
    ),
    (
        "000000000000000000000000000000000000000000000000000000000000000000000000000000",
        Rest::Cut,
    ),
];

#[test]
fn records_are_read_whatever_stands_behind_them(rt: HostRuntime) -> Result<(), Fail> {
    let alloc = rt.alloc();
    let [first, second, third] = RECORDS;
    for (behind, rest) in BEHIND.iter() {
        let text = format!(in alloc; "{first}{second}{third}{behind}")?;
        let bytes = hex::decode(alloc, text.as_str())?;
        same!(rt; read(alloc, bytes.as_slice())?, (3, 179, *rest));
    }
    Ok(())
}

// the same as `read` tells, by the texts of records that are known, and without what stands behind them
fn known(alloc: Global, bytes: &[u8]) -> Result<(usize, usize), Fail> {
    let text = hex::encode(alloc, bytes)?;
    let mut left = text.as_str();
    let mut records: usize = 0;
    for _ in 0..bytes.len() {
        let Some(behind) = without_record(left) else {
            break;
        };
        records = records.wrapping_add(1);
        left = behind;
    }
    Ok((records, bytes.len().wrapping_sub(left.len() / 2)))
}

fn without_record(text: &str) -> Option<&str> {
    let [first, second, third] = RECORDS;
    text.strip_prefix(first)
        .or(text.strip_prefix(second))
        .or(text.strip_prefix(third))
}

// what may stand behind the records of a journal of three, that was changed so
fn may_be(change: Change, records: usize, rest: Rest) -> bool {
    match change {
        Change::Cut => rest != Rest::Damaged,
        Change::Flip => records < 3 && rest == Rest::Damaged,
        Change::Word => records == 3 && rest == Rest::Empty || records < 3 && rest == Rest::Damaged,
        Change::Lengthen => records == 3,
        Change::Splice => true,
    }
}

#[test]
fn a_changed_journal_is_told_from_one_that_was_cut(rt: HostRuntime) -> Result<(), Fail> {
    let alloc = rt.alloc();
    let bytes = journal(alloc)?;
    let mut changes = Changes { state: 7 };
    for _ in 0..100_000 {
        let (change, changed) = changes.changed(alloc, bytes.as_slice(), bytes.as_slice())?;
        let (records, end, rest) = read(alloc, changed.as_slice())?;
        same!(rt; (records, end), known(alloc, changed.as_slice())?);
        holds!(rt; may_be(change, records, rest));
        holds!(rt; (rest == Rest::Empty) == (end == changed.len()));
    }
    Ok(())
}
