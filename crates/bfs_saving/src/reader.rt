// The bytes of a saved replica, read from their front on.
ghost use Rattle.std.specs.Prelude.{◌≡◌, ◌≤◌, length, nat_lt, not, IfOk};
ghost use Rattle.bfs_model.specs.Bytes.Formats.{boolean_from, hyper_from, items_from, word_from};
ghost use Rattle.bfs_model.specs.Server.Limits.{most_number};
ghost use Rattle.bfs_codec.specs.Codes.{Reads};
ghost use Rattle.bfs_codec.specs.Parts.{digest_from, number_from, tag_from, time_from};
ghost use Rattle.bfs_saving.specs.Items.{long_from, many_from};
ghost use Rattle.bfs_saving.specs.Messages.{message_from};

use crate::items::Saved;
use bfs_codec::{DecodeError, decode};
use bfs_messages::{Message, Signed};
use bfs_types::{MOST_NUMBER, Time};
use bfs_xdr::Reader;
use std::alloc::Global;
use std::marker::Model;

/// A strict reader of what is saved: bytes from their front on, in the items of XDR (RFC 4506). What it refuses is malformed, and after an error it is to be used no more.
#[derive(Drop)]
pub struct SavedReader<'a> {
    alloc: Global,
    reader: Reader<'a>,
}

impl<'a> Model for SavedReader<'a> {
    ghost use Rattle.std.specs.Prelude.{◌≡◌, ℕ, List, true};

    ghost Value = { List ℕ };

    ghost view = { λ saved. saved.reader.left };

    ghost invariant = { λ saved. saved.reader.strict ≡ true };
}

impl<'a> SavedReader<'a> {
    /// A reader of those bytes. What is read takes its memory of that allocator.
    pub fn new(alloc: Global, bytes: &'a [u8]) -> SavedReader<'a>
        ensures { result ≡ bytes.now }
    {
        SavedReader {
            alloc,
            reader: Reader::strict(bytes),
        }
    }

    /// Of what is read.
    pub(crate) fn alloc(&self) -> Global {
        self.alloc
    }

    /// Whether no byte is left.
    pub fn is_at_end(&self) -> bool
        ensures { result ≡ not (nat_lt 0 (length self.now)) }
    {
        self.reader.rest().is_empty()
    }

    /// An unsigned integer (RFC 4506 section 4.2).
    pub fn u32(&mut self) -> Result<u32, DecodeError>
        ensures { Reads (λ x. x) result (word_from self.old) self.new }
    {
        match self.reader.u32() {
            Ok(word) => Ok(word),
            Err(_) => Err(DecodeError::Malformed),
        }
    }

    /// An unsigned hyper integer (RFC 4506 section 4.5).
    pub fn u64(&mut self) -> Result<u64, DecodeError>
        ensures { Reads (λ x. x) result (hyper_from self.old) self.new }
    {
        match self.reader.u64() {
            Ok(hyper) => Ok(hyper),
            Err(_) => Err(DecodeError::Malformed),
        }
    }

    /// A boolean (RFC 4506 section 4.4).
    pub fn boolean(&mut self) -> Result<bool, DecodeError>
        ensures { Reads (λ x. x) result (boolean_from self.old) self.new }
    {
        match self.reader.boolean() {
            Ok(boolean) => Ok(boolean),
            Err(_) => Err(DecodeError::Malformed),
        }
    }

    /// The number of a view, or of a batch in the order.
    pub fn number(&mut self) -> Result<u64, DecodeError>
        ensures read { Reads (λ x. x) result (number_from self.old) self.new }
        ensures within { IfOk result (λ number. number ≤ most_number) }
    {
        let number = self.u64()?;
        if number > MOST_NUMBER {
            return Err(DecodeError::Malformed);
        }
        Ok(number)
    }

    /// Seconds and microseconds, of which there are fewer than 1,000,000.
    #[tactic(auto, unfolding(bfs_codec::specs::Parts::time_from))]
    pub fn time(&mut self) -> Result<Time, DecodeError>
        ensures { Reads (λ x. x) result (time_from self.old) self.new }
    {
        let seconds = self.u32()?;
        let useconds = self.u32()?;
        match Time::new(seconds, useconds) {
            Some(time) => Ok(time),
            None => Err(DecodeError::Malformed),
        }
    }

    /// Just that word.
    pub fn tag(&mut self, tag: u32) -> Result<(), DecodeError>
        ensures { Reads (λ _. tag) result (tag_from tag self.old) self.new }
    {
        if self.u32()? != tag {
            return Err(DecodeError::Malformed);
        }
        Ok(())
    }

    /// 32 bytes.
    #[tactic(auto, using(crate::proofs::Loops::fixed_long))]
    pub fn digest(&mut self) -> Result<[u8; 32], DecodeError>
        ensures { Reads (λ x. x) result (digest_from self.old) self.new }
    {
        match self.reader.fixed(32) {
            Ok(bytes) => {
                let mut digest = [0; 32];
                digest.copy_from_slice(bytes);
                Ok(digest)
            }
            Err(_) => Err(DecodeError::Malformed),
        }
    }

    /// Bytes behind their number. They are not copied.
    #[tactic(auto, unfolding(crate::specs::Items::long_from))]
    pub fn long(&mut self) -> Result<&'a [u8], DecodeError>
        ensures { Reads (λ bytes. bytes.now) result (long_from self.old) self.new }
    {
        let count = self.u64()?;
        let left = self.reader.rest();
        if (left.len() as u64) < count {
            return Err(DecodeError::Malformed);
        }
        let (bytes, rest) = left.split_at(count as usize);
        self.reader = Reader::strict(rest);
        Ok(bytes)
    }

    /// A message behind its length.
    pub fn message(&mut self) -> Result<Signed<Message>, DecodeError>
        ensures { Reads (λ signed. signed) result (message_from self.old) self.new }
    {
        let bytes = self.long()?;
        decode(self.alloc, bytes)
    }

    /// Things behind their number. Memory is taken as they are read, whatever number is claimed.
    #[tactic(auto, unfolding(crate::specs::Items::many_from))]
    pub fn many<T: Saved>(&mut self) -> Result<Vec<T>, DecodeError>
        ensures { Reads (λ list. list.items) result (many_from T.from self.old) self.new }
    {
        let count = self.u64()?;
        self.items(count)
    }

    fn items<T: Saved>(&mut self, count: u64) -> Result<Vec<T>, DecodeError>
        ensures { Reads (λ list. list.items) result (items_from T.from count self.old) self.new }
    {
        let mut items = Vec::new(self.alloc);
        for _item in 0..count {
            items.push(T::read(self)?)?;
        }
        Ok(items)
    }
}
