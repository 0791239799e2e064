// The words behind a verb.
ghost use Rattle.std.specs.Prelude.{◌≡◌, option_map};
ghost use Rattle.bfs_trace.specs.Operands.{file_in, file_spelled, most_number, mode_in, number_in, number_setting_in, settings_in, time_setting_in};
ghost use Rattle.bfs_trace.specs.Words.{number_spelled};

use crate::numbers::{parse_number, parse_octal};
use crate::times::parse_set_time;
use crate::words::Words;
use bfs_types::{FileId, SetTime, Settings};

/// Reads a number below 2^32.
fn parse_word(word: &[u8]) -> Option<u32>
    ensures { result ≡ number_spelled most_number word.now }
{
    let number = parse_number(u32::MAX as u64, word)?;
    Some(number as u32)
}

/// Reads `H`: `#` and a fileid.
#[tactic(auto, unfolding(crate::specs::Operands::file_spelled))]
fn parse_file(word: &[u8]) -> Option<FileId>
    ensures { result ≡ file_spelled word.now }
{
    let [b'#', digits @ ..] = word else {
        return None;
    };
    Some(FileId::new(parse_word(digits)?))
}

impl<'a> Words<'a> {
    /// Reads `H`: `#` and a fileid.
    pub(crate) fn file(&mut self) -> Option<FileId>
        ensures { option_map (λ file. (file, self.new)) result ≡ file_in self.old }
    {
        let word = self.next_word()?;
        parse_file(word)
    }

    /// Reads a number below 2^32.
    pub(crate) fn number(&mut self) -> Option<u32>
        ensures { option_map (λ number. (number, self.new)) result ≡ number_in self.old }
    {
        let word = self.next_word()?;
        parse_word(word)
    }

    #[tactic(auto, unfolding(crate::specs::Operands::mode_in))]
    fn mode(&mut self) -> Option<Option<u32>>
        ensures { option_map (λ mode. (mode, self.new)) result ≡ mode_in self.old }
    {
        let word = self.next_word()?;
        if word == b"-".as_slice() {
            return Some(None);
        }
        let mode = parse_octal(u32::MAX as u64, word)?;
        Some(Some(mode as u32))
    }

    #[tactic(auto, unfolding(crate::specs::Operands::number_setting_in))]
    fn number_setting(&mut self) -> Option<Option<u32>>
        ensures { option_map (λ number. (number, self.new)) result ≡ number_setting_in self.old }
    {
        let word = self.next_word()?;
        if word == b"-".as_slice() {
            return Some(None);
        }
        Some(Some(parse_word(word)?))
    }

    #[tactic(auto, unfolding(crate::specs::Operands::time_setting_in))]
    fn time_setting(&mut self) -> Option<Option<SetTime>>
        ensures { option_map (λ time. (time, self.new)) result ≡ time_setting_in self.old }
    {
        let word = self.next_word()?;
        if word == b"-".as_slice() {
            return Some(None);
        }
        let time = parse_set_time(word)?;
        Some(Some(time))
    }

    /// Reads `SATTR`: mode, uid, gid, size, atime and mtime.
    #[tactic(auto, unfolding(crate::specs::Operands::settings_in))]
    pub(crate) fn settings(&mut self) -> Option<Settings>
        ensures { option_map (λ settings. (settings, self.new)) result ≡ settings_in self.old }
    {
        Some(Settings {
            mode: self.mode()?,
            uid: self.number_setting()?,
            gid: self.number_setting()?,
            size: self.number_setting()?,
            atime: self.time_setting()?,
            mtime: self.time_setting()?,
        })
    }
}
