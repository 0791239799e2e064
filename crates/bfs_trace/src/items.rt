// The parts of a call's arguments, as they are written.
ghost use Rattle.std.specs.Prelude.{◌≡◌, ◌++◌, option_map};
ghost use Rattle.bfs_model.specs.Bytes.Arguments.{handle};
ghost use Rattle.bfs_model.specs.Bytes.Items.{counted};
ghost use Rattle.bfs_trace.specs.Inside.Writing.{Appends, Puts};
ghost use Rattle.bfs_trace.specs.Messages.{seconds_word, setting_word, settings_item, useconds_word};
ghost use Rattle.bfs_trace.specs.Texts.{text_spelled};

use crate::buffer::Buffer;
use crate::texts::put_text;
use bfs_types::{FileId, SetTime, Settings};
use bfs_wire::handle_bytes;

// the word of a setting that is not set (RFC 1094 section 2.3.6)
const NOT_SET: u32 = u32::MAX;

/// Appends the handle of a file.
pub(crate) fn put_handle(out: &mut Buffer, file: FileId) -> Option<()>
    ensures { Puts result out.old out.new (handle file) }
{
    out.push(&handle_bytes(file))
}

/// Appends the handle of a directory, and a name in it, as a word spells it.
#[tactic(auto, using(std::proofs::lemmas::List::append_assoc, crate::proofs::Room::length_of_both))]
pub(crate) fn put_named(out: &mut Buffer, dir: FileId, name: &[u8]) -> Option<()>
    ensures { Appends result out.old out.new (option_map (λ text. handle dir ++ counted text) (text_spelled name.now)) }
{
    put_handle(out, dir)?;
    put_text(name, out)
}

/// Appends what a call sets.
#[tactic(auto, unfolding(crate::specs::Messages::settings_item))]
pub(crate) fn put_settings(out: &mut Buffer, settings: Settings) -> Option<()>
    ensures { Puts result out.old out.new (settings_item settings) }
{
    out.push_words(&[
        setting_word(settings.mode),
        setting_word(settings.uid),
        setting_word(settings.gid),
        setting_word(settings.size),
        seconds_word(settings.atime),
        useconds_word(settings.atime),
        seconds_word(settings.mtime),
        useconds_word(settings.mtime),
    ])
}

fn setting_word(setting: Option<u32>) -> u32
    ensures { result ≡ setting_word setting }
{
    setting.unwrap_or(NOT_SET)
}

fn seconds_word(time: Option<SetTime>) -> u32
    ensures { result ≡ seconds_word time }
{
    match time {
        Some(time) => time.seconds,
        None => NOT_SET,
    }
}

fn useconds_word(time: Option<SetTime>) -> u32
    ensures { result ≡ useconds_word time }
{
    match time {
        Some(time) => time.useconds,
        None => NOT_SET,
    }
}
