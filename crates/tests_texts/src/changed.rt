//! Texts of file systems that were cut, changed, mixed and lengthened at random. A reading of the format that shares nothing with the code decides
//! which of them are malformed (20) and which are of another version (22). It does not look whether the others are well formed: of these each
//! is refused for that (21), or read and written again to the same bytes.
use crate::hostile::with_word;
use crate::texts::{bytes_of, refusal, told_again};
use bfs_testing::asserts::compared;
use bfs_testing::changes::{Change, Changes};
use bfs_testing::cursors::Cursor;
use bfs_testing::holds;
use bfs_testing::texts::{NEARLY_SPENT, NEW, SOME};
use std::alloc::Global;
use std::test::Fail;

fn time(cursor: &mut Cursor<'_>) -> Option<()> {
    cursor.word()?;
    cursor.word_up_to(999_999)?;
    Some(())
}

// a number above the last one
fn rising(cursor: &mut Cursor<'_>, last: u32) -> Option<u32> {
    let number = cursor.word()?;
    if last < number { Some(number) } else { None }
}

// the cookie of an entry, which is above the last one
fn entry(cursor: &mut Cursor<'_>, last: u32) -> Option<u32> {
    let cookie = rising(cursor, last)?;
    cursor.opaque(255)?;
    cursor.word()?;
    Some(cookie)
}

fn directory(cursor: &mut Cursor<'_>) -> Option<()> {
    cursor.word()?;
    let mut cookie = 2;
    for _entry in 0..cursor.word_up_to(65_536)? {
        cookie = entry(cursor, cookie)?;
    }
    Some(())
}

// what stands behind the fileid of an inode, where a file has at most so many bytes
fn inode(cursor: &mut Cursor<'_>, most: u32) -> Option<()> {
    let kind = cursor.word()?;
    cursor.word_up_to(4_095)?;
    cursor.take(12)?;
    for _time in 0u32..3 {
        time(cursor)?;
    }
    match kind {
        1 => cursor.opaque(most).map(|_| ()),
        2 => directory(cursor),
        5 => cursor.opaque(1_024).map(|_| ()),
        _ => None,
    }
}

// what stands behind the version, where a file has at most so many bytes
fn file_system(cursor: &mut Cursor<'_>, most: u32) -> Option<()> {
    let next = cursor.double()?;
    if next < 3 || 4_294_967_296 < next {
        return None;
    }
    time(cursor)?;
    let mut fileid = 1;
    for _inode in 0..cursor.word()? {
        fileid = rising(cursor, fileid)?;
        inode(cursor, most)?;
    }
    if cursor.left().is_empty() {
        Some(())
    } else {
        None
    }
}

// the number by which a text is refused that is malformed or of another version
fn wanted(text: &[u8]) -> Option<u32> {
    let mut cursor = Cursor::new(text);
    if cursor.take(4) != Some(b"BFSS".as_slice()) {
        return Some(20);
    }
    match cursor.word() {
        None => Some(20),
        Some(1) if file_system(&mut cursor, 1_048_576).is_some() => None,
        Some(2) if file_system(&mut cursor, 16_777_216).is_some() => None,
        Some(1 | 2) => Some(20),
        Some(_) => Some(22),
    }
}

// whether it has the text that it was restored from, but for the version, which is the latest
fn is_told_again(alloc: Global, text: &[u8]) -> Result<bool, Fail> {
    let (_, behind) = text.split_at_checked(8).ok_or("a version")?;
    let told = told_again(alloc, text)?;
    Ok(told.as_slice().strip_prefix(b"BFSS\0\0\0\x02".as_slice()) == Some(behind))
}

// whether a text is rightly refused by that number, or restored where it is 0
fn is_right(alloc: Global, text: &[u8], given: u32) -> Result<bool, Fail> {
    match wanted(text) {
        Some(refused) => Ok(given == refused),
        None if given == 0 => is_told_again(alloc, text),
        None => Ok(given == 21),
    }
}

// a text that is longer is malformed or of another version
fn may_be(change: Change, given: u32) -> bool {
    change != Change::Lengthen || given == 20 || given == 22
}

// the number by which a text is refused, which is as it is to be
fn judged(alloc: Global, change: Change, text: &[u8]) -> Result<u32, Fail> {
    let given = refusal(alloc, text);
    let right = is_right(alloc, text, given)? && may_be(change, given);
    compared((change, given, right), (change, given, true))?;
    Ok(given)
}

/// How many were restored, and refused by 20, 21 and 22.
#[derive(Clone, Copy)]
struct Counts {
    restored: u32,
    malformed: u32,
    not_formed: u32,
    others: u32,
}

impl Counts {
    fn count(&mut self, refusal: u32) {
        match refusal {
            0 => self.restored = self.restored.wrapping_add(1),
            20 => self.malformed = self.malformed.wrapping_add(1),
            21 => self.not_formed = self.not_formed.wrapping_add(1),
            _ => self.others = self.others.wrapping_add(1),
        }
    }

    // each came often
    fn are_many(self) -> bool {
        100 < self.restored && 100 < self.malformed && 100 < self.not_formed && 10 < self.others
    }
}

fn judge(
    alloc: Global,
    changes: &mut Changes,
    text: &[u8],
    others: &[u8],
    counts: &mut Counts,
) -> Result<(), Fail> {
    let (change, changed) = changes.changed(alloc, text, others)?;
    counts.count(judged(alloc, change, changed.as_slice())?);
    Ok(())
}

fn judge_all(alloc: Global, text: &[u8], others: &[u8], counts: &mut Counts) -> Result<(), Fail> {
    let mut changes = Changes { state: 35 };
    for _ in 0u32..1_000 {
        judge(alloc, &mut changes, text, others, counts)?;
    }
    Ok(())
}

/// A text, its version, and another text.
struct Pair(&'static str, u32, &'static str);

static PAIRS: [Pair; 4] = [
    Pair(NEW, 2, SOME),
    Pair(SOME, 1, SOME),
    Pair(SOME, 2, NEW),
    Pair(NEW, 1, NEARLY_SPENT),
];

fn judge_pair(alloc: Global, pair: &Pair, counts: &mut Counts) -> Result<(), Fail> {
    let text = with_word(alloc, pair.0, 4, pair.1)?;
    let others = bytes_of(alloc, pair.2)?;
    judge_all(alloc, text.as_slice(), others.as_slice(), counts)
}

#[test]
fn changed_texts_are_read_as_the_format_tells(rt: HostRuntime) -> Result<(), Fail> {
    let mut counts = Counts {
        restored: 0,
        malformed: 0,
        not_formed: 0,
        others: 0,
    };
    for pair in &PAIRS {
        judge_pair(rt.alloc(), pair, &mut counts)?;
    }
    holds!(rt; counts.are_many());
    Ok(())
}
