// The parts of a call's arguments, one after another.
ghost use Rattle.std.specs.Prelude.{◌≡◌, ◌≤◌, ℕ, List, false, length, IfSome};
ghost use Rattle.std.specs.Option.{option_map};
ghost use Rattle.std.specs.Result.{result_ok};
ghost use Rattle.bfs_model.specs.Bytes.Arguments as model;
ghost use Rattle.bfs_model.specs.Bytes.Items.{opaque_at, word_at};
ghost use Rattle.bfs_model.specs.Server.Limits.{most_name_bytes, most_path_bytes, most_data_bytes};

pub(crate) mod attributes;
pub(crate) mod data;
pub(crate) mod making;
pub(crate) mod names;
pub(crate) mod removing;
pub(crate) mod renaming;
pub(crate) mod status;

use crate::handle::handle_id;
use bfs_types::{FileId, MOST_DATA_BYTES, MOST_NAME_BYTES, MOST_PATH_BYTES, SetTime, Settings};
use bfs_xdr::Reader;
use std::marker::Model;

// the length of a file handle in bytes (RFC 1094 section 2.3.3)
const HANDLE_BYTES: u32 = 32;

// the word of a setting that is not set (RFC 1094 section 2.3.6)
const NOT_SET: u32 = u32::MAX;

// the bytes of a call's arguments that are left; those of the padding may have any value
#[derive(Drop)]
pub(crate) struct Arguments<'a> {
    reader: Reader<'a>,
}

impl<'a> Model for Arguments<'a> {
    ghost Value = { List ℕ };

    ghost view = { λ arguments. arguments.reader.left };

    ghost invariant = { λ arguments. arguments.reader.strict ≡ false };
}

impl<'a> Arguments<'a> {
    pub(crate) fn new(bytes: &'a [u8]) -> Arguments<'a>
        ensures { result ≡ bytes.now }
    {
        Arguments {
            reader: Reader::new(bytes),
        }
    }

    // the bytes that are left
    pub(crate) fn rest(&self) -> &'a [u8]
        ensures { result.now ≡ self.now }
    {
        self.reader.rest()
    }

    // a file handle, as the file that it leads to
    #[tactic(auto, unfolding(bfs_model::specs::Bytes::Arguments::handle_at))]
    pub(crate) fn file(&mut self) -> Option<Option<FileId>>
        ensures { option_map (λ file. (file, self.new)) result ≡ model.handle_at self.old }
    {
        let handle = self.reader.fixed(HANDLE_BYTES).ok()?;
        Some(handle_id(handle))
    }

    // an unsigned integer
    pub(crate) fn word(&mut self) -> Option<u32>
        ensures { option_map (λ word. (word, self.new)) result ≡ result_ok (word_at self.old) }
    {
        self.reader.u32().ok()
    }

    // at most so many bytes, behind their length (RFC 4506 sections 4.10 and 4.11)
    #[tactic(auto, using(crate::proofs::Lengths::opaque_within))]
    fn opaque(&mut self, most: u32) -> Option<&'a [u8]>
        ensures value { option_map (λ bytes. (bytes.now, self.new)) result ≡ result_ok (opaque_at false most self.old) }
        ensures short { IfSome result (λ bytes. length bytes.now ≤ most) }
    {
        self.reader.opaque(most).ok()
    }

    // a name (RFC 1094 section 2.3.7)
    pub(crate) fn name(&mut self) -> Option<&'a [u8]>
        ensures value { option_map (λ name. (name.now, self.new)) result ≡ model.name_at self.old }
        ensures short { IfSome result (λ name. length name.now ≤ most_name_bytes) }
    {
        self.opaque(MOST_NAME_BYTES as u32)
    }

    // a path (RFC 1094 section 2.3.8)
    pub(crate) fn path(&mut self) -> Option<&'a [u8]>
        ensures value { option_map (λ path. (path.now, self.new)) result ≡ model.path_at self.old }
        ensures short { IfSome result (λ path. length path.now ≤ most_path_bytes) }
    {
        self.opaque(MOST_PATH_BYTES as u32)
    }

    // a file's bytes (RFC 1094 section 2.2.9, nfsdata)
    pub(crate) fn data(&mut self) -> Option<&'a [u8]>
        ensures value { option_map (λ bytes. (bytes.now, self.new)) result ≡ model.data_at self.old }
        ensures short { IfSome result (λ bytes. length bytes.now ≤ most_data_bytes) }
    {
        self.opaque(MOST_DATA_BYTES as u32)
    }

    // what a call sets (RFC 1094 section 2.3.6, sattr)
    #[tactic(auto, unfolding(bfs_model::specs::Bytes::Arguments::settings_at))]
    pub(crate) fn settings(&mut self) -> Option<Settings>
        ensures { option_map (λ settings. (settings, self.new)) result ≡ model.settings_at self.old }
    {
        let mode = self.word()?;
        let uid = self.word()?;
        let gid = self.word()?;
        let size = self.word()?;
        let atime_seconds = self.word()?;
        let atime_useconds = self.word()?;
        let mtime_seconds = self.word()?;
        let mtime_useconds = self.word()?;
        Some(Settings {
            mode: word_set(mode),
            uid: word_set(uid),
            gid: word_set(gid),
            size: word_set(size),
            atime: time_set(atime_seconds, atime_useconds),
            mtime: time_set(mtime_seconds, mtime_useconds),
        })
    }
}

fn word_set(word: u32) -> Option<u32>
    ensures { result ≡ model.word_set word }
{
    if word == NOT_SET { None } else { Some(word) }
}

fn time_set(seconds: u32, useconds: u32) -> Option<SetTime>
    ensures { result ≡ model.time_set seconds useconds }
{
    if seconds == NOT_SET || useconds == NOT_SET {
        None
    } else {
        Some(SetTime { seconds, useconds })
    }
}
