// A strict reader of a text, and what is read of it without memory.
ghost use Rattle.std.specs.Prelude.{◌≡◌, ◌≤◌, length, IfOk};
ghost use Rattle.bfs_model.specs.Bytes.Formats.{bytes_from, word_from, hyper_from};
ghost use Rattle.bfs_digest.specs.Inside.RecordReading.{entry_from, head_from, time_from};
ghost use Rattle.bfs_digest.specs.Inside.TextReading.{is_nothing, numbers_from, version_from};
ghost use Rattle.bfs_digest.specs.Inside.Taking.{Reads, entry_seen, head_seen};
ghost use Rattle.bfs_types.specs.declared.limits.TheConstants.{MOST_PERMISSIONS};
ghost use Rattle.bfs_model.specs.Server.Limits.{most_name_bytes};

use crate::errors::Malformed;
use crate::headers::{Header, MAGIC};
use bfs_inode::{FileId, Metadata, Time};
use bfs_types::{MOST_NAME_BYTES, MOST_PERMISSIONS, Ordinal};
use bfs_xdr::Reader;
use std::marker::Model;

/// Reads a text from its front on.
#[derive(Drop)]
pub(crate) struct TextReader<'a> {
    reader: Reader<'a>,
}

impl<'a> Model for TextReader<'a> {
    ghost use Rattle.std.specs.Prelude.{◌≡◌, ℕ, List, true};

    ghost Value = { List ℕ };

    ghost view = { λ text. text.reader.left };

    ghost invariant = { λ text. text.reader.strict ≡ true };
}

/// An entry of a directory, whose name is borrowed from the text.
#[derive(Clone, Copy)]
pub(crate) struct EntryText<'a> {
    pub(crate) cookie: u32,
    pub(crate) name: &'a [u8],
    pub(crate) child: FileId,
}

/// What stands in front of what an inode holds.
#[derive(Clone, Copy)]
pub(crate) struct HeadText {
    pub(crate) fileid: FileId,
    /// The number of the type (RFC 1094 section 2.3.2), or any other one.
    pub(crate) kind: u32,
    pub(crate) metadata: Metadata,
}

impl<'a> TextReader<'a> {
    pub(crate) fn new(bytes: &'a [u8]) -> TextReader<'a>
        ensures { result ≡ bytes.now }
    {
        TextReader {
            reader: Reader::strict(bytes),
        }
    }

    /// What is left of the text.
    pub(crate) fn rest(&self) -> &'a [u8]
        ensures { result.now ≡ self.now }
    {
        self.reader.rest()
    }

    pub(crate) fn is_at_end(&self) -> bool
        ensures { result ≡ is_nothing self.now }
    {
        self.reader.rest().is_empty()
    }

    pub(crate) fn word(&mut self) -> Result<u32, Malformed>
        ensures { Reads (λ x. x) result (word_from self.old) self.new }
    {
        Ok(self.reader.u32()?)
    }

    pub(crate) fn double(&mut self) -> Result<u64, Malformed>
        ensures { Reads (λ x. x) result (hyper_from self.old) self.new }
    {
        Ok(self.reader.u64()?)
    }

    /// Opaque data of at most so many bytes, behind its length (RFC 4506 section 4.10).
    pub(crate) fn bytes(&mut self, most: u32) -> Result<&'a [u8], Malformed>
        ensures value { Reads (λ x. x.now) result (bytes_from most self.old) self.new }
        ensures within { IfOk result (λ bytes. length bytes.now ≤ most) }
    {
        Ok(self.reader.opaque(most)?)
    }

    #[tactic(auto, unfolding(crate::specs::Inside::RecordReading::time_from))]
    pub(crate) fn time(&mut self) -> Result<Time, Malformed>
        ensures { Reads (λ x. x) result (time_from self.old) self.new }
    {
        let seconds = self.word()?;
        let useconds = self.word()?;
        match Time::new(seconds, useconds) {
            Some(time) => Ok(time),
            None => Err(Malformed),
        }
    }

    #[tactic(auto, unfolding(crate::specs::Inside::RecordReading::entry_from))]
    pub(crate) fn entry(&mut self) -> Result<EntryText<'a>, Malformed>
        ensures value { Reads entry_seen result (entry_from self.old) self.new }
        ensures within { IfOk result (λ entry. length entry.name.now ≤ most_name_bytes) }
    {
        let cookie = self.word()?;
        let name = self.bytes(MOST_NAME_BYTES as u32)?;
        let child = FileId::new(self.word()?);
        Ok(EntryText {
            cookie,
            name,
            child,
        })
    }

    #[tactic(auto, unfolding(crate::specs::Inside::RecordReading::head_from))]
    pub(crate) fn head(&mut self) -> Result<HeadText, Malformed>
        ensures value { Reads head_seen result (head_from self.old) self.new }
        ensures within { IfOk result (λ head. head.metadata.permissions ≤ MOST_PERMISSIONS) }
    {
        let fileid = FileId::new(self.word()?);
        let kind = self.word()?;
        let metadata = Metadata {
            permissions: self.word()?,
            links: self.word()?,
            uid: self.word()?,
            gid: self.word()?,
            atime: self.time()?,
            mtime: self.time()?,
            ctime: self.time()?,
        };
        if fileid < FileId::root() || metadata.permissions > MOST_PERMISSIONS {
            return Err(Malformed);
        }
        Ok(HeadText {
            fileid,
            kind,
            metadata,
        })
    }

    /// The version of a text.
    #[tactic(auto, unfolding(crate::specs::Inside::TextReading::version_from))]
    pub(crate) fn version(&mut self) -> Result<u32, Malformed>
        ensures { Reads (λ x. x) result (version_from self.old) self.new }
    {
        let first = self.word()?;
        let version = self.word()?;
        if first == MAGIC {
            Ok(version)
        } else {
            Err(Malformed)
        }
    }

    /// What stands between the version and the records.
    #[tactic(auto, unfolding(crate::specs::Inside::TextReading::numbers_from))]
    pub(crate) fn numbers(&mut self) -> Result<Header, Malformed>
        ensures { Reads (λ x. x) result (numbers_from self.old) self.new }
    {
        let next_ordinal = self.double()?;
        let last_time = self.time()?;
        let count = self.word()?;
        if next_ordinal < Ordinal::first().number() || Ordinal::new(next_ordinal).is_none() {
            return Err(Malformed);
        }
        Ok(Header {
            next_ordinal,
            last_time,
            count,
        })
    }
}
