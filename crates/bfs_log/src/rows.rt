// Who says what at one place.
ghost use Rattle.std.specs.Prelude.{◌≡◌, ◌==◌, ◌&&◌, not, bytes_eq, count_by, find, nat_lt};
ghost use Rattle.std.specs.Option.{option_map};
ghost use Rattle.std.specs.List.{list_any};
ghost use Rattle.bfs_log.specs.Rows.{is_from, tells};

use crate::said::Said;

pub(crate) fn find_from(row: &[Said], sender: u32) -> Option<&Said>
    ensures { option_map (λ said. said.now) result ≡ find (is_from sender) row.now }
{
    row.iter().find(|said| said.sender() == sender)
}

pub(crate) fn has_from(row: &[Said], sender: u32) -> bool
    ensures { result ≡ list_any (is_from sender) row.now }
{
    row.iter().any(|said| said.sender() == sender)
}

pub(crate) fn does_tell(row: &[Said], digest: &[u8; 32], sender: u32) -> bool
    ensures { result ≡ tells row.now digest.now sender }
{
    row.iter()
        .any(|said| said.sender() == sender && said.digest() == digest)
}

/// How many of the senders below a number tell a digest.
pub(crate) fn count_tellers(row: &[Said], digest: &[u8; 32], senders: u32) -> usize
    ensures { result ≡ count_by (λ said. nat_lt said.sender senders && bytes_eq said.digest digest.now) row.now }
{
    row.iter()
        .filter(|said| said.sender() < senders && said.digest() == digest)
        .count()
}

/// How many of the senders below a number, but for one of them, tell a digest.
pub(crate) fn count_others(row: &[Said], digest: &[u8; 32], senders: u32, one: u32) -> usize
    ensures { result ≡ count_by (λ said. nat_lt said.sender senders && (not (said.sender == one) && bytes_eq said.digest digest.now)) row.now }
{
    row.iter()
        .filter(|said| {
            said.sender() < senders && (said.sender() != one && said.digest() == digest)
        })
        .count()
}
