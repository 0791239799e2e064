//! Texts that no file system has, and the number by which each is refused.
use crate::texts::{bytes_of, refusal};
use bfs_testing::asserts::compared;
use bfs_testing::texts::{NEW, SOME};
use std::alloc::Global;
use std::test::Fail;

fn put_word(bytes: &mut [u8], place: usize, word: u32) -> Result<(), Fail> {
    let mut at = place;
    for byte in word.to_be_bytes() {
        *bytes.get_mut(at).ok_or("a place")? = byte;
        at = at.saturating_add(1);
    }
    Ok(())
}

/// The text with a word in the place of one.
pub(crate) fn with_word(
    alloc: Global,
    text: &str,
    place: usize,
    word: u32,
) -> Result<Vec<u8>, Fail> {
    let mut bytes = bytes_of(alloc, text)?;
    put_word(bytes.as_mut_slice(), place, word)?;
    Ok(bytes)
}

/// A word in the place of one of a text, and the number by which the text is then refused, 0 where it is not.
struct Word(usize, u32, u32);

fn is_as_told(alloc: Global, text: &str, word: &Word) -> Result<bool, Fail> {
    let bytes = with_word(alloc, text, word.0, word.1)?;
    Ok(refusal(alloc, bytes.as_slice()) == word.2)
}

// the place of the first of which something else is said
fn first_wrong(alloc: Global, text: &str, words: &[Word]) -> Result<Option<usize>, Fail> {
    for (place, word) in words.iter().enumerate() {
        if !is_as_told(alloc, text, word)? {
            return Ok(Some(place));
        }
    }
    Ok(None)
}

fn are_as_told(alloc: Global, text: &str, words: &[Word]) -> Result<(), Fail> {
    compared(first_wrong(alloc, text, words)?, None)?;
    Ok(())
}

/// A text, and the number by which it is refused.
struct Text(&'static str, u32);

fn is_refused(alloc: Global, text: &Text) -> Result<bool, Fail> {
    Ok(refusal(alloc, bytes_of(alloc, text.0)?.as_slice()) == text.1)
}

fn first_wrong_text(alloc: Global, texts: &[Text]) -> Result<Option<usize>, Fail> {
    for (place, text) in texts.iter().enumerate() {
        if !is_refused(alloc, text)? {
            return Ok(Some(place));
        }
    }
    Ok(None)
}

// nothing, and `BFSS` and `BFST` with and without a version
static SHORT: [Text; 4] = [
    Text("", 20),
    Text("42465353", 20),
    Text("4246535300000003", 22),
    Text("4246535400000003", 20),
];

static VERSIONS: [Word; 4] = [Word(4, 1, 0), Word(4, 2, 0), Word(4, 3, 22), Word(4, 0, 22)];

#[test]
fn looks_at_the_version_first(rt: HostRuntime) -> Result<(), Fail> {
    compared(first_wrong_text(rt.alloc(), &SHORT)?, None)?;
    are_as_told(rt.alloc(), NEW, &VERSIONS)
}

static OUT_OF_RANGE: [Word; 7] = [
    // the next ordinal
    Word(12, 2, 20),
    Word(8, 1, 20),
    // microseconds of the last time, and of the first time of the root
    Word(20, 1_000_000, 20),
    Word(56, 1_000_000, 20),
    // a fileid, a type and permissions
    Word(28, 1, 20),
    Word(32, 3, 20),
    Word(36, 4096, 20),
];

#[test]
fn refuses_numbers_out_of_range(rt: HostRuntime) -> Result<(), Fail> {
    are_as_told(rt.alloc(), NEW, &OUT_OF_RANGE)
}

static COUNTS: [Word; 6] = [
    Word(24, 2, 20),
    Word(24, 65_536, 20),
    Word(24, u32::MAX, 20),
    Word(80, 2, 20),
    Word(80, 65_536, 20),
    Word(80, u32::MAX, 20),
];

static COUNTS_OF_SOME: [Word; 3] = [
    Word(24, 2, 20),
    Word(24, 65_536, 20),
    Word(24, u32::MAX, 20),
];

#[test]
fn reserves_nothing_by_counts(rt: HostRuntime) -> Result<(), Fail> {
    are_as_told(rt.alloc(), NEW, &COUNTS)?;
    are_as_told(rt.alloc(), SOME, &COUNTS_OF_SOME)
}

static NOT_FORMED: [Word; 5] = [
    // the links of the root, and more than an inode may have
    Word(40, 3, 21),
    Word(40, 32_768, 21),
    Word(40, u32::MAX, 21),
    // the root's parent, and a root that is no inode
    Word(76, 3, 21),
    Word(28, 3, 21),
];

#[test]
fn refuses_file_systems_that_are_not_well_formed(rt: HostRuntime) -> Result<(), Fail> {
    are_as_told(rt.alloc(), NEW, &NOT_FORMED)
}

// a new file system with the next ordinal 4 and one entry in its root
fn with_entry(alloc: Global, entry: &str) -> Result<Vec<u8>, Fail> {
    let mut bytes = with_word(alloc, NEW, 12, 4)?;
    put_word(bytes.as_mut_slice(), 80, 1)?;
    bytes.extend_from_slice(bytes_of(alloc, entry)?.as_slice())?;
    Ok(bytes)
}

fn is_refused_entry(alloc: Global, entry: &Text) -> Result<bool, Fail> {
    Ok(refusal(alloc, with_entry(alloc, entry.0)?.as_slice()) == entry.1)
}

fn first_wrong_entry(alloc: Global, entries: &[Text]) -> Result<Option<usize>, Fail> {
    for (place, entry) in entries.iter().enumerate() {
        if !is_refused_entry(alloc, entry)? {
            return Ok(Some(place));
        }
    }
    Ok(None)
}

static ENTRIES: [Text; 4] = [
    // of nothing, and padded with another byte than 0
    Text("00000003000000016100000000000003", 21),
    Text("00000003000000016100000100000003", 20),
    // the cookie of no request
    Text("00000002000000016100000000000003", 20),
    // the root as its own entry
    Text("00000003000000016100000000000002", 21),
];

#[test]
fn refuses_entries_that_name_nothing(rt: HostRuntime) -> Result<(), Fail> {
    compared(first_wrong_entry(rt.alloc(), &ENTRIES)?, None)?;
    Ok(())
}

fn is_malformed_at(alloc: Global, text: &[u8], length: usize) -> bool {
    match text.get(..length) {
        Some(front) => refusal(alloc, front) == 20,
        None => false,
    }
}

/// The first length at which a text that is cut there is not malformed.
pub(crate) fn first_length(alloc: Global, text: &[u8]) -> Option<usize> {
    for length in 0..text.len() {
        if !is_malformed_at(alloc, text, length) {
            return Some(length);
        }
    }
    None
}

// the two first entries of `SOME`'s root have the names `d` and `l`
const SECOND_NAME: usize = 108;

#[test]
fn reads_to_the_end_before_it_says_that_a_name_is_repeated(rt: HostRuntime) -> Result<(), Fail> {
    let repeated = with_word(rt.alloc(), SOME, SECOND_NAME, 0x6400_0000)?;
    compared(refusal(rt.alloc(), repeated.as_slice()), 21)?;
    compared(first_length(rt.alloc(), repeated.as_slice()), None)?;
    Ok(())
}
