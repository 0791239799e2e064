// What a record tells before its body, and what stands where no whole record does.
ghost use Rattle.std.specs.Prelude.{◌≡◌, ◌+◌, ◌≤◌, length};
ghost use Rattle.bfs_journal.specs.Rests.{is_front_of_record, rest_of, told_length, word_at};

use crate::writing::MOST_BODY_BYTES;

/// What stands behind the last whole record of a journal.
#[derive(Clone, Copy, Debug, PartialEq, Eq)]
pub enum Rest {
    /// Nothing.
    Empty,
    /// Fewer bytes than the record has that they begin with, or too few to tell its length: what a crash leaves of one append. The journal is to be cut
    /// there before it grows again.
    Cut,
    /// Anything else. No append that was cut leaves it: the disk lost or changed bytes, so records that were kept may be among them, and a replica that goes on
    /// without those may contradict what it said.
    Damaged,
}

// bytes before a body
pub(crate) const HEAD_BYTES: usize = 40;

/// Which of the three the bytes are.
pub(crate) fn rest_of(bytes: &[u8]) -> Rest
    ensures { result ≡ rest_of bytes.now }
{
    if bytes.is_empty() {
        Rest::Empty
    } else if is_front_of_record(bytes) {
        Rest::Cut
    } else {
        Rest::Damaged
    }
}

fn is_front_of_record(bytes: &[u8]) -> bool
    ensures { result ≡ is_front_of_record bytes.now }
{
    if bytes.len() < 8 {
        return true;
    }
    match told_length(bytes) {
        Some(len) => bytes.len() < HEAD_BYTES + len,
        None => false,
    }
}

/// The length of its body that a record at the front tells, if it tells one, both times.
pub(crate) fn told_length(bytes: &[u8]) -> Option<usize>
    requires { 8 ≤ length bytes.now }
    ensures { result ≡ told_length bytes.now }
{
    let len = word_at(bytes, 0);
    if len == word_at(bytes, 4) && len <= MOST_BODY_BYTES {
        Some(len)
    } else {
        None
    }
}

// the number in four bytes from a place on
fn word_at(bytes: &[u8], place: usize) -> usize
    requires { place + 4 ≤ length bytes.now }
    ensures { result ≡ word_at place bytes.now }
{
    u32::from_be_bytes([
        bytes[place],
        bytes[place + 1],
        bytes[place + 2],
        bytes[place + 3],
    ]) as usize
}
