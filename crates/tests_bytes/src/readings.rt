//! Which bytes spell a message: a reading of the format that shares nothing with the code.
use bfs_testing::cursors::Cursor;
use sha2::{Digest, Sha256};

// a view, or a number
fn number(cursor: &mut Cursor<'_>) -> Option<()> {
    cursor.word_up_to(0x7fff_ffff)?;
    cursor.word()?;
    Some(())
}

fn entries(cursor: &mut Cursor<'_>) -> Option<()> {
    let count = cursor.word_up_to(31)?;
    cursor.take(32 * count as usize)?;
    Some(())
}

fn request(cursor: &mut Cursor<'_>) -> Option<()> {
    cursor.just(1)?;
    cursor.word()?;
    cursor.double()?;
    cursor.opaque(16_384)?;
    entries(cursor)
}

fn batch(cursor: &mut Cursor<'_>) -> Option<()> {
    if cursor.word_up_to(1)? == 0 {
        return Some(());
    }
    cursor.word()?;
    cursor.word_up_to(999_999)?;
    for _request in 0..cursor.word_up_to(1_024)? {
        request(cursor)?;
    }
    Some(())
}

// of a PREPARE, a COMMIT, and before the keyed hashes of a PRE-PREPARE: the digest
fn vote<'a>(cursor: &mut Cursor<'a>, tag: u32) -> Option<&'a [u8]> {
    cursor.just(tag)?;
    cursor.word()?;
    number(cursor)?;
    number(cursor)?;
    cursor.take(32)
}

fn proposal(cursor: &mut Cursor<'_>) -> Option<()> {
    let digest = vote(cursor, 2)?;
    entries(cursor)?;
    let from = cursor.left();
    batch(cursor)?;
    let (bytes, _) = from.split_at_checked(from.len().checked_sub(cursor.left().len())?)?;
    if Sha256::digest(bytes).as_slice() == digest {
        Some(())
    } else {
        None
    }
}

fn signed_vote(cursor: &mut Cursor<'_>, tag: u32) -> Option<()> {
    vote(cursor, tag)?;
    entries(cursor)
}

fn checkpoint(cursor: &mut Cursor<'_>) -> Option<()> {
    cursor.just(5)?;
    cursor.word()?;
    number(cursor)?;
    cursor.take(32)?;
    entries(cursor)
}

fn certificate(cursor: &mut Cursor<'_>) -> Option<()> {
    proposal(cursor)?;
    for _prepare in 0..cursor.word_up_to(31)? {
        signed_vote(cursor, 3)?;
    }
    Some(())
}

fn view_change(cursor: &mut Cursor<'_>) -> Option<()> {
    cursor.just(6)?;
    cursor.word()?;
    number(cursor)?;
    number(cursor)?;
    for _checkpoint in 0..cursor.word_up_to(31)? {
        checkpoint(cursor)?;
    }
    for _certificate in 0..cursor.word_up_to(32)? {
        certificate(cursor)?;
    }
    entries(cursor)
}

fn new_view(cursor: &mut Cursor<'_>) -> Option<()> {
    cursor.just(7)?;
    cursor.word()?;
    number(cursor)?;
    for _change in 0..cursor.word_up_to(31)? {
        view_change(cursor)?;
    }
    for _proposal in 0..cursor.word_up_to(32)? {
        proposal(cursor)?;
    }
    entries(cursor)
}

fn reply(cursor: &mut Cursor<'_>) -> Option<()> {
    cursor.just(8)?;
    cursor.word()?;
    number(cursor)?;
    cursor.word()?;
    cursor.double()?;
    cursor.opaque(16_384)?;
    entries(cursor)
}

fn message(bytes: &[u8], cursor: &mut Cursor<'_>) -> Option<()> {
    match Cursor::new(bytes).word()? {
        1 => request(cursor),
        2 => proposal(cursor),
        5 => checkpoint(cursor),
        6 => view_change(cursor),
        7 => new_view(cursor),
        8 => reply(cursor),
        tag => {
            if tag == 3 || tag == 4 {
                signed_vote(cursor, tag)
            } else {
                None
            }
        }
    }
}

/// Whether the bytes spell a message, all of them.
pub fn spell_a_message(bytes: &[u8]) -> bool {
    let mut cursor = Cursor::new(bytes);
    message(bytes, &mut cursor).is_some() && cursor.left().is_empty()
}
