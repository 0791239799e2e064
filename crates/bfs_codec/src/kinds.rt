// What stands behind the tags of messages that hold no others.
ghost use Rattle.bfs_codec.specs.Codes.{Finds};
ghost use Rattle.bfs_codec.specs.Parts.{checkpoint_from, reply_from, request_from, vote_from};

use crate::error::{DecodeError, Malformed};
use crate::parts::Read;
use crate::reader::MessageReader;
use bfs_messages::{Checkpoint, Reply, Request, Vote};
use bfs_types::{MOST_REPLY_BYTES, MOST_REQUEST_BYTES};

impl Read for Request {
    ghost from = { request_from };

    #[tactic(auto, unfolding(crate::specs::Parts::request_from))]
    fn read(reader: &mut MessageReader<'_>) -> Result<Request, DecodeError> {
        let client = reader.u32()?;
        let timestamp = reader.u64()?;
        let call = reader.bytes(MOST_REQUEST_BYTES as u32)?;
        Ok(Request::new(reader.alloc(), client, timestamp, call)?)
    }

    #[tactic(auto, unfolding(crate::specs::Parts::request_from))]
    fn skip(reader: &mut MessageReader<'_>) -> Result<(), Malformed> {
        reader.u32()?;
        reader.u64()?;
        reader.bytes(MOST_REQUEST_BYTES as u32)?;
        Ok(())
    }
}

impl Read for Vote {
    ghost from = { vote_from };

    fn read(reader: &mut MessageReader<'_>) -> Result<Vote, DecodeError> {
        Ok(read_vote(reader)?)
    }

    fn skip(reader: &mut MessageReader<'_>) -> Result<(), Malformed> {
        read_vote(reader)?;
        Ok(())
    }
}

/// Reads a vote. No memory is taken.
#[tactic(auto, unfolding(crate::specs::Parts::vote_from))]
pub(crate) fn read_vote(reader: &mut MessageReader<'_>) -> Result<Vote, Malformed>
    ensures { Finds (λ vote. vote) result (vote_from reader.old) reader.new }
{
    let sender = reader.u32()?;
    let view = reader.number()?;
    let number = reader.number()?;
    let digest = reader.digest()?;
    Ok(Vote::new(sender, view, number, digest))
}

impl Read for Checkpoint {
    ghost from = { checkpoint_from };

    #[tactic(auto, unfolding(crate::specs::Parts::checkpoint_from))]
    fn read(reader: &mut MessageReader<'_>) -> Result<Checkpoint, DecodeError> {
        let sender = reader.u32()?;
        let number = reader.number()?;
        let digest = reader.digest()?;
        Ok(Checkpoint::new(sender, number, digest))
    }

    #[tactic(auto, unfolding(crate::specs::Parts::checkpoint_from))]
    fn skip(reader: &mut MessageReader<'_>) -> Result<(), Malformed> {
        reader.u32()?;
        reader.number()?;
        reader.digest()?;
        Ok(())
    }
}

impl Read for Reply {
    ghost from = { reply_from };

    #[tactic(auto, unfolding(crate::specs::Parts::reply_from))]
    fn read(reader: &mut MessageReader<'_>) -> Result<Reply, DecodeError> {
        let sender = reader.u32()?;
        let view = reader.number()?;
        let client = reader.u32()?;
        let timestamp = reader.u64()?;
        let bytes = reader.bytes(MOST_REPLY_BYTES as u32)?;
        Ok(Reply::new(reader.alloc(), sender, view, client, timestamp, bytes)?)
    }

    #[tactic(auto, unfolding(crate::specs::Parts::reply_from))]
    fn skip(reader: &mut MessageReader<'_>) -> Result<(), Malformed> {
        reader.u32()?;
        reader.number()?;
        reader.u32()?;
        reader.u64()?;
        reader.bytes(MOST_REPLY_BYTES as u32)?;
        Ok(())
    }
}
