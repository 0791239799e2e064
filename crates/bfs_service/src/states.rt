// What ASK-STATEs and STATEs say, as items of XDR (RFC 4506).
use bfs_codec::{DecodeError, decode, encode};
use bfs_messages::{Checkpoint, Message, OrderMessage, Signed};
use bfs_types::{MOST_REPLICAS, Memory, TryClone};
use bfs_xdr::{Reader, XdrError, put_u32, put_u64};
use std::alloc::Global;

/// A replica wants a state.
#[derive(Clone, Copy, Drop)]
pub(crate) struct Ask {
    pub(crate) asker: u32,
    /// A state of a number above this one.
    pub(crate) above: u64,
    /// The number of the state of which it has the first bytes, or 0.
    pub(crate) number: u64,
    /// How many bytes it has.
    pub(crate) offset: u64,
}

impl Ask {
    pub(crate) fn read(payload: &[u8]) -> Result<Ask, XdrError> {
        let mut reader = Reader::new(payload);
        Ok(Ask {
            asker: reader.u32()?,
            above: reader.u64()?,
            number: reader.u64()?,
            offset: reader.u64()?,
        })
    }

    pub(crate) fn text(&self, alloc: Global) -> Result<Vec<u8>, Memory> {
        let mut text = Vec::new(alloc);
        put_u32(&mut text, self.asker)?;
        put_u64(&mut text, self.above)?;
        put_u64(&mut text, self.number)?;
        put_u64(&mut text, self.offset)?;
        Ok(text)
    }
}

/// Bytes of a state's text; or, where these are all before the offset, the CHECKPOINTs that tell its digest.
#[derive(Clone, Copy, Drop)]
pub(crate) struct Piece<'a> {
    pub(crate) sender: u32,
    pub(crate) number: u64,
    /// Of the whole text.
    pub(crate) length: u64,
    pub(crate) offset: u64,
    pub(crate) bytes: &'a [u8],
}

impl<'a> Piece<'a> {
    pub(crate) fn read(payload: &'a [u8]) -> Result<Piece<'a>, XdrError> {
        let mut reader = Reader::new(payload);
        Ok(Piece {
            sender: reader.u32()?,
            number: reader.u64()?,
            length: reader.u64()?,
            offset: reader.u64()?,
            bytes: reader.rest(),
        })
    }

    pub(crate) fn text(&self, alloc: Global) -> Result<Vec<u8>, Memory> {
        let mut text = Vec::new(alloc);
        put_u32(&mut text, self.sender)?;
        put_u64(&mut text, self.number)?;
        put_u64(&mut text, self.length)?;
        put_u64(&mut text, self.offset)?;
        text.extend_from_slice(self.bytes)?;
        Ok(text)
    }
}

/// CHECKPOINTs, each behind the length of its text.
pub(crate) fn checkpoints_text(
    alloc: Global,
    checkpoints: &[Signed<Checkpoint>],
) -> Result<Vec<u8>, Memory> {
    let mut text = Vec::new(alloc);
    for signed in checkpoints {
        let message = encode(alloc, &as_message(alloc, signed)?)?;
        if let Ok(length) = u32::try_from(message.len()) {
            put_u32(&mut text, length)?;
            text.extend_from_slice(message.as_slice())?;
        }
    }
    Ok(text)
}

fn as_message(alloc: Global, signed: &Signed<Checkpoint>) -> Result<Signed<Message>, Memory> {
    Ok(Signed {
        message: Message::Order(OrderMessage::Checkpoint(signed.message.try_clone(alloc)?)),
        auth: signed.auth.try_clone(alloc)?,
    })
}

/// The CHECKPOINTs that bytes spell, at most as many as there may be replicas. What is none is passed over.
pub(crate) fn checkpoints_in(
    alloc: Global,
    bytes: &[u8],
) -> Result<Vec<Signed<Checkpoint>>, Memory> {
    let mut reader = Reader::new(bytes);
    let mut checkpoints = Vec::new(alloc);
    for _ in 0..MOST_REPLICAS {
        let Some(text) = next_text(&mut reader) else {
            break;
        };
        if let Some(checkpoint) = checkpoint_in(alloc, text)? {
            checkpoints.push(checkpoint)?;
        }
    }
    Ok(checkpoints)
}

fn next_text<'a>(reader: &mut Reader<'a>) -> Option<&'a [u8]> {
    let Ok(length) = reader.u32() else {
        return None;
    };
    match reader.fixed(length) {
        Ok(text) => Some(text),
        Err(_) => None,
    }
}

fn checkpoint_in(alloc: Global, text: &[u8]) -> Result<Option<Signed<Checkpoint>>, Memory> {
    match decode(alloc, text) {
        Ok(signed) => checkpoint_of(alloc, &signed),
        Err(DecodeError::Malformed) => Ok(None),
        Err(DecodeError::Memory) => Err(Memory),
    }
}

fn checkpoint_of(
    alloc: Global,
    signed: &Signed<Message>,
) -> Result<Option<Signed<Checkpoint>>, Memory> {
    match &signed.message {
        Message::Order(OrderMessage::Checkpoint(checkpoint)) => Ok(Some(Signed {
            message: checkpoint.try_clone(alloc)?,
            auth: signed.auth.try_clone(alloc)?,
        })),
        _ => Ok(None),
    }
}
