ghost use Rattle.std.specs.Prelude.{◌≡◌};
ghost use Rattle.bfs_trace.specs.Operands.{set_time_spelled, time_spelled};

use crate::numbers::parse_number;
use crate::words::Words;
use bfs_types::{SetTime, Time};

/// Reads `S.UUUUUU`: seconds below 2^32, and six digits of microseconds.
#[tactic(auto, unfolding(crate::specs::Operands::time_spelled))]
pub(crate) fn parse_time(word: &[u8]) -> Option<Time>
    ensures { result ≡ time_spelled word.now }
{
    let mut parts = Words::new(word, b'.');
    let seconds = parts.next_word()?;
    let useconds = parts.last_word()?;
    if useconds.len() != 6 {
        return None;
    }
    let seconds = parse_number(u32::MAX as u64, seconds)?;
    let useconds = parse_number(999_999, useconds)?;
    Time::new(seconds as u32, useconds as u32)
}

/// Reads a time that a call sets: `now`, or `S.UUUUUU`.
#[tactic(auto, unfolding(crate::specs::Operands::set_time_spelled))]
pub(crate) fn parse_set_time(word: &[u8]) -> Option<SetTime>
    ensures { result ≡ set_time_spelled word.now }
{
    if word == b"now".as_slice() {
        return Some(SetTime {
            seconds: 0,
            useconds: 1_000_000,
        });
    }
    let time = parse_time(word)?;
    Some(SetTime {
        seconds: time.seconds(),
        useconds: time.useconds(),
    })
}
