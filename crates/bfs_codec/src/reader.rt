// The bytes of one message, read from their front on.
ghost use Rattle.std.specs.Prelude.{◌≡◌, ◌≤◌, ◌<◌, ◌^◌, Some, None, length, vec_len, IfOk, IfSome, bytes_eq, nat_lt, not, if◌then◌else◌};
ghost use Rattle.std.specs.Arc.{arc_value};
ghost use Rattle.sha2.specs.Sha256.{sha256};
ghost use Rattle.bfs_model.specs.Bytes.Formats.{bytes_from, hyper_from, items_from, list_from, word_from};
ghost use Rattle.bfs_model.specs.Server.Limits.{most_number};
ghost use Rattle.bfs_messages.specs.Batches.{batch_text};
ghost use Rattle.bfs_codec.specs.Codes.{Finds, Passes, Reads, behind};
ghost use Rattle.bfs_codec.specs.Parts.{batch_from, batch_of_from, count_from, digest_from, number_from, tag_from, time_from};

use crate::batches::{read_batch, skip_batch};
use crate::error::{DecodeError, Malformed};
use crate::parts::Read;
use bfs_messages::OrderedBatch;
use bfs_types::{MOST_NUMBER, Memory, Time};
use bfs_xdr::Reader;
use sha2::{Digest, Sha256};
use std::alloc::Global;
use std::marker::Model;
use std::sync::Arc;

/// A batch that was read of a message, and the bytes that spelled it there. A VIEW-CHANGE and a NEW-VIEW may spell one batch many times.
#[derive(Drop)]
struct KnownBatch<'a> {
    bytes: &'a [u8],
    digest: [u8; 32],
    batch: Arc<OrderedBatch>,
}

impl<'a> Model for KnownBatch<'a> {
    ghost use Rattle.std.specs.Prelude.{◌≡◌};
    ghost use Rattle.std.specs.Arc.{arc_value};
    ghost use Rattle.sha2.specs.Sha256.{sha256};
    ghost use Rattle.bfs_messages.specs.Messages.{Batch};
    ghost use Rattle.bfs_messages.specs.Batches.{batch_text};
    ghost use Rattle.bfs_messages.specs.Limits.{FitsBatch};

    ghost Value = { Batch };

    ghost view = { λ known. arc_value known.batch };

    ghost invariant = { λ known. FitsBatch (arc_value known.batch) × (known.bytes.now ≡ batch_text (arc_value known.batch)) × (known.digest ≡ sha256 known.bytes.now) };
}

impl<'a> KnownBatch<'a> {
    // A batch that was read from some bytes, of which the rest is left.
    fn new(
        alloc: Global,
        batch: OrderedBatch,
        bytes: &'a [u8],
        rest: &[u8],
    ) -> Result<KnownBatch<'a>, Memory>
        requires { batch_from bytes.now ≡ Some (batch, rest.now) }
        ensures { IfOk result (λ known. known ≡ batch) }
    {
        let bytes = &bytes[..bytes.len() - rest.len()];
        Ok(KnownBatch {
            bytes,
            digest: Sha256::digest(bytes),
            batch: Arc::new(alloc, batch)?,
        })
    }

    fn has_digest(&self, digest: &[u8; 32]) -> bool
        ensures { result ≡ bytes_eq digest.now (sha256 (batch_text self.now)) }
    {
        *digest == self.digest
    }

    // What is left behind it of bytes that begin with it, where it has that digest.
    fn strip<'b>(&self, digest: &[u8; 32], bytes: &'b [u8]) -> Option<&'b [u8]>
        ensures { IfSome result (λ rest. batch_of_from digest.now bytes.now ≡ Some (self.now, rest.now)) }
    {
        if !self.has_digest(digest) {
            return None;
        }
        bytes.strip_prefix(self.bytes)
    }

    fn share(&self) -> Result<Arc<OrderedBatch>, Memory>
        ensures { IfOk result (λ batch. arc_value batch ≡ self.now) }
    {
        Ok(Arc::try_clone(&self.batch)?)
    }
}

// The batch of that digest with which the bytes begin, if it is known, and what is left behind it.
fn find_known<'a>(
    batches: &[KnownBatch<'_>],
    digest: &[u8; 32],
    bytes: &'a [u8],
) -> Result<Option<(Arc<OrderedBatch>, &'a [u8])>, Memory>
    ensures { IfOk result (λ found. IfSome found (λ found. batch_of_from digest.now bytes.now ≡ Some (arc_value found.0, found.1.now))) }
{
    for known in batches {
        if let Some(rest) = known.strip(digest, bytes) {
            return Ok(Some((known.share()?, rest)));
        }
    }
    Ok(None)
}

// Whether a batch has that digest that was passed over at the front of some bytes, of which the rest is left.
fn is_batch_of(digest: &[u8; 32], bytes: &[u8], rest: &[u8]) -> bool
    requires { behind (batch_from bytes.now) ≡ Some rest.now }
    ensures { behind (batch_of_from digest.now bytes.now) ≡ (if result then Some rest.now else None) }
{
    let text = &bytes[..bytes.len() - rest.len()];
    *digest == Sha256::digest(text)
}

/// A strict reader of a message.
#[derive(Drop)]
pub(crate) struct MessageReader<'a> {
    alloc: Global,
    reader: Reader<'a>,
    batches: Vec<KnownBatch<'a>>,
}

impl<'a> Model for MessageReader<'a> {
    ghost use Rattle.std.specs.Prelude.{◌≡◌, ℕ, List, true};

    ghost Value = { List ℕ };

    ghost view = { λ message. message.reader.left };

    ghost invariant = { λ message. message.reader.strict ≡ true };
}

impl<'a> MessageReader<'a> {
    pub(crate) fn new(alloc: Global, bytes: &'a [u8]) -> MessageReader<'a>
        ensures { result ≡ bytes.now }
    {
        MessageReader {
            alloc,
            reader: Reader::strict(bytes),
            batches: Vec::new(alloc),
        }
    }

    /// Of what is read.
    pub(crate) fn alloc(&self) -> Global {
        self.alloc
    }

    pub(crate) fn is_at_end(&self) -> bool
        ensures { result ≡ not (nat_lt 0 (length self.now)) }
    {
        self.reader.rest().is_empty()
    }

    pub(crate) fn u32(&mut self) -> Result<u32, Malformed>
        ensures { Finds (λ x. x) result (word_from self.old) self.new }
    {
        Ok(self.reader.u32()?)
    }

    pub(crate) fn u64(&mut self) -> Result<u64, Malformed>
        ensures { Finds (λ x. x) result (hyper_from self.old) self.new }
    {
        Ok(self.reader.u64()?)
    }

    /// Opaque data of at most so many bytes, behind its length (RFC 4506 section 4.10).
    pub(crate) fn bytes(&mut self, most: u32) -> Result<&'a [u8], Malformed>
        ensures value { Finds (λ x. x.now) result (bytes_from most self.old) self.new }
        ensures within { IfOk result (λ bytes. length bytes.now ≤ most) }
    {
        Ok(self.reader.opaque(most)?)
    }

    /// The number of a view, or of a batch in the order.
    pub(crate) fn number(&mut self) -> Result<u64, Malformed>
        ensures read { Finds (λ x. x) result (number_from self.old) self.new }
        ensures within { IfOk result (λ number. number ≤ most_number) }
    {
        let number = self.u64()?;
        if number > MOST_NUMBER {
            return Err(Malformed);
        }
        Ok(number)
    }

    #[tactic(auto, using(crate::proofs::Loops::fixed_long))]
    pub(crate) fn digest(&mut self) -> Result<[u8; 32], Malformed>
        ensures { Finds (λ x. x) result (digest_from self.old) self.new }
    {
        let bytes = self.reader.fixed(32)?;
        let mut digest = [0; 32];
        digest.copy_from_slice(bytes);
        Ok(digest)
    }

    #[tactic(auto, unfolding(crate::specs::Parts::time_from))]
    pub(crate) fn time(&mut self) -> Result<Time, Malformed>
        ensures { Finds (λ x. x) result (time_from self.old) self.new }
    {
        let seconds = self.u32()?;
        let useconds = self.u32()?;
        Time::new(seconds, useconds).ok_or(Malformed)
    }

    /// The tag of a message within another.
    pub(crate) fn tag(&mut self, tag: u32) -> Result<(), Malformed>
        ensures { Finds (λ _. tag) result (tag_from tag self.old) self.new }
    {
        if self.u32()? != tag {
            return Err(Malformed);
        }
        Ok(())
    }

    /// The number of parts that follow, at most so many.
    pub(crate) fn count(&mut self, most: u32) -> Result<u32, Malformed>
        ensures read { Finds (λ x. x) result (count_from most self.old) self.new }
        ensures within { IfOk result (λ count. count ≤ most) }
    {
        let count = self.u32()?;
        if count > most {
            return Err(Malformed);
        }
        Ok(count)
    }

    /// At most so many parts, behind their number. Memory is taken as they are read, whatever number is claimed.
    #[tactic(auto, unfolding(bfs_model::specs::Bytes::Formats::list_from))]
    pub(crate) fn list<T: Read>(&mut self, most: u32) -> Result<Vec<T>, DecodeError>
        ensures read { Reads (λ list. list.items) result (list_from most T.from self.old) self.new }
        ensures few { IfOk result (λ list. vec_len list ≤ most) }
    {
        let count = self.count(most)?;
        self.parts(count)
    }

    fn parts<T: Read>(&mut self, count: u32) -> Result<Vec<T>, DecodeError>
        ensures read { Reads (λ list. list.items) result (items_from T.from count self.old) self.new }
        ensures count { IfOk result (λ list. vec_len list ≡ count) }
    {
        let mut parts = Vec::new(self.alloc);
        for _part in 0..count {
            parts.push(T::read(self)?)?;
        }
        Ok(parts)
    }

    /// Passes over at most so many parts, behind their number.
    #[tactic(auto, unfolding(bfs_model::specs::Bytes::Formats::list_from))]
    pub(crate) fn skip_list<T: Read>(&mut self, most: u32) -> Result<(), Malformed>
        ensures { Passes result (list_from most T.from self.old) self.new }
    {
        let count = self.count(most)?;
        self.skip_parts::<T>(count)
    }

    /// Passes over so many parts.
    pub(crate) fn skip_parts<T: Read>(&mut self, count: u32) -> Result<(), Malformed>
        ensures { Passes result (items_from T.from count self.old) self.new }
    {
        for _part in 0..count {
            T::skip(self)?;
        }
        Ok(())
    }

    /// The batch of that digest. Batches that are spelled alike in the message are one value, which is read and hashed once.
    pub(crate) fn batch_of(&mut self, digest: &[u8; 32]) -> Result<Arc<OrderedBatch>, DecodeError>
        ensures { Reads arc_value result (batch_of_from digest.now self.old) self.new }
    {
        if let Some((batch, rest)) = find_known(&self.batches, digest, self.reader.rest())? {
            self.reader = Reader::strict(rest);
            return Ok(batch);
        }
        self.new_batch_of(digest)
    }

    fn new_batch_of(&mut self, digest: &[u8; 32]) -> Result<Arc<OrderedBatch>, DecodeError>
        ensures { Reads arc_value result (batch_of_from digest.now self.old) self.new }
    {
        let bytes = self.reader.rest();
        let batch = read_batch(self)?;
        let known = KnownBatch::new(self.alloc, batch, bytes, self.reader.rest())?;
        if !known.has_digest(digest) {
            return Err(DecodeError::Malformed);
        }
        let batch = known.share()?;
        self.batches.push(known)?;
        Ok(batch)
    }

    /// Passes over a batch of that digest, which is hashed where it stands.
    pub(crate) fn skip_batch_of(&mut self, digest: &[u8; 32]) -> Result<(), Malformed>
        ensures { Passes result (batch_of_from digest.now self.old) self.new }
    {
        let bytes = self.reader.rest();
        skip_batch(self)?;
        if !is_batch_of(digest, bytes, self.reader.rest()) {
            return Err(Malformed);
        }
        Ok(())
    }
}
