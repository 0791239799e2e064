// The text of a table, read strictly.
ghost use Rattle.std.specs.Prelude.{◌≡◌, ◌≤◌, ◌↔◌, Some, None, true, length, is_some, IfOk, IfSome, IsErrOf, IsSome};
ghost use Rattle.bfs_model.specs.Bytes.Formats.{bytes_from, items_from};
ghost use Rattle.bfs_model.specs.Server.Limits.{most_reply_bytes};
ghost use Rattle.bfs_replies.specs.Errors.{read_code_of};
ghost use Rattle.bfs_replies.specs.Parsing.{Reads, last_seen};
ghost use Rattle.bfs_replies.specs.TextReading.{last_from, table_from};

use crate::skipping::skip_lasts;
use crate::tables::{Last, ReplyTable};
use bfs_types::{MOST_CLIENTS, MOST_REPLY_BYTES, Memory};
use bfs_xdr::{Reader, XdrError};
use std::alloc::Global;
use thiserror::Error;

/// Why no table is read.
#[derive(Clone, Copy, Debug, PartialEq, Eq, Error)]
pub enum ReadError {
    /// The bytes don't begin with the text of a table.
    #[error("the bytes spell no table of replies")]
    Malformed,
    /// Memory ran out.
    #[error("out of memory")]
    Memory,
}

impl ReadError {
    /// The number of the refusal.
    pub fn code(self) -> u32
        ensures { result ≡ read_code_of self }
    {
        match self {
            ReadError::Malformed => 20,
            ReadError::Memory => 40,
        }
    }
}

/// What a text spells of a client of which a request was executed.
#[derive(Clone, Copy)]
pub(crate) struct LastText<'a> {
    timestamp: u64,
    reply: &'a [u8],
}

impl ReplyTable {
    /// The table with whose text the bytes begin, and the bytes behind it. `Malformed` if they begin with no table's text; that is found
    /// out before anything is built. `Memory` if memory runs out.
    #[tactic(auto, unfolding(crate::specs::TextReading::table_from))]
    pub fn read(alloc: Global, bytes: &[u8]) -> Result<(ReplyTable, &[u8]), ReadError>
        ensures read { IfOk result (λ read. table_from bytes.now ≡ Some (read.0, read.1.now)) }
        ensures malformed { IsErrOf result ReadError.Malformed ↔ (table_from bytes.now ≡ None) }
    {
        let mut reader = Reader::strict(bytes);
        let Ok(count) = reader.u32() else {
            return Err(ReadError::Malformed);
        };
        if count > MOST_CLIENTS || skip_lasts(count, reader.rest()).is_none() {
            return Err(ReadError::Malformed);
        }
        match read_lasts(alloc, count, &mut reader) {
            Ok(clients) => Ok((ReplyTable { alloc, clients }, reader.rest())),
            Err(Memory) => Err(ReadError::Memory),
        }
    }
}

// so many, which the bytes are known to begin with
fn read_lasts(
    alloc: Global,
    count: u32,
    reader: &mut Reader<'_>,
) -> Result<Vec<Option<Last>>, Memory>
    requires strict { reader.old.strict ≡ true }
    requires spelled { IsSome (items_from last_from count reader.old.left) }
    ensures { IfOk result (λ lasts. items_from last_from count reader.old.left ≡ Some (lasts.items, reader.new.left)) }
{
    let mut lasts = Vec::with_capacity(alloc, count as usize)?;
    for _last in 0..count {
        let Ok(last) = read_last(reader) else {
            unreachable!();
        };
        lasts.push(kept(alloc, last)?)?;
    }
    Ok(lasts)
}

#[tactic(auto, unfolding(crate::specs::TextReading::last_from, crate::specs::TextReading::reply_from))]
pub(crate) fn read_last<'a>(reader: &mut Reader<'a>) -> Result<Option<LastText<'a>>, XdrError>
    requires { reader.old.strict ≡ true }
    ensures read { Reads last_seen reader.new result (last_from reader.old.left) }
    ensures short { IfOk result (λ last. IfSome last (λ text. length text.reply.now ≤ most_reply_bytes)) }
{
    if !reader.boolean()? {
        return Ok(None);
    }
    let timestamp = reader.u64()?;
    let reply = read_reply(reader)?;
    Ok(Some(LastText { timestamp, reply }))
}

fn read_reply<'a>(reader: &mut Reader<'a>) -> Result<&'a [u8], XdrError>
    requires { reader.old.strict ≡ true }
    ensures read { Reads (λ bytes. bytes.now) reader.new result (bytes_from most_reply_bytes reader.old.left) }
    ensures short { IfOk result (λ bytes. length bytes.now ≤ most_reply_bytes) }
{
    Ok(reader.opaque(MOST_REPLY_BYTES as u32)?)
}

// a copy
fn kept(alloc: Global, last: Option<LastText<'_>>) -> Result<Option<Last>, Memory>
    requires { IfSome last (λ text. length text.reply.now ≤ most_reply_bytes) }
    ensures { IfOk result (λ kept. kept ≡ last_seen last.entry) }
{
    match last {
        None => Ok(None),
        Some(text) => Ok(Some(Last::new(alloc, text.timestamp, text.reply)?)),
    }
}
