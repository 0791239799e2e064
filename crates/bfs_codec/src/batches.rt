// Batches, and the proposals that hold them.
ghost use Rattle.bfs_codec.specs.ChangeReading.{behind_proposal_from, proposal_from};
ghost use Rattle.bfs_codec.specs.Codes.{Passes, Reads};
ghost use Rattle.bfs_codec.specs.Parts.{batch_from, some_requests_from};

use crate::error::{DecodeError, Malformed};
use crate::kinds::read_vote;
use crate::parts::Read;
use crate::reader::MessageReader;
use bfs_auth::Authenticator;
use bfs_messages::{OrderedBatch, PRE_PREPARE_TAG, PrePrepare, Request, Signed, Vote};
use bfs_types::MOST_REQUESTS;

#[tactic(auto, unfolding(crate::specs::Parts::batch_from))]
pub(crate) fn read_batch(reader: &mut MessageReader<'_>) -> Result<OrderedBatch, DecodeError>
    ensures { Reads (λ batch. batch) result (batch_from reader.old) reader.new }
{
    match reader.u32()? {
        0 => Ok(OrderedBatch::null()),
        1 => read_requests(reader),
        _ => Err(DecodeError::Malformed),
    }
}

#[tactic(auto, unfolding(crate::specs::Parts::some_requests_from, crate::specs::Parts::requests_from))]
fn read_requests(reader: &mut MessageReader<'_>) -> Result<OrderedBatch, DecodeError>
    ensures { Reads (λ batch. batch) result (some_requests_from reader.old) reader.new }
{
    let time = reader.time()?;
    let requests = reader.list(MOST_REQUESTS as u32)?;
    Ok(OrderedBatch::new(time, requests))
}

#[tactic(auto, unfolding(crate::specs::Parts::batch_from))]
pub(crate) fn skip_batch(reader: &mut MessageReader<'_>) -> Result<(), Malformed>
    ensures { Passes result (batch_from reader.old) reader.new }
{
    match reader.u32()? {
        0 => Ok(()),
        1 => skip_requests(reader),
        _ => Err(Malformed),
    }
}

#[tactic(auto, unfolding(crate::specs::Parts::some_requests_from, crate::specs::Parts::requests_from))]
fn skip_requests(reader: &mut MessageReader<'_>) -> Result<(), Malformed>
    ensures { Passes result (some_requests_from reader.old) reader.new }
{
    reader.time()?;
    reader.skip_list::<Signed<Request>>(MOST_REQUESTS as u32)
}

impl Read for Signed<PrePrepare> {
    ghost from = { proposal_from };

    fn read(reader: &mut MessageReader<'_>) -> Result<Signed<PrePrepare>, DecodeError> {
        reader.tag(PRE_PREPARE_TAG)?;
        read_behind_proposal(reader)
    }

    fn skip(reader: &mut MessageReader<'_>) -> Result<(), Malformed> {
        reader.tag(PRE_PREPARE_TAG)?;
        skip_behind_proposal(reader)
    }
}

/// Reads what stands behind the tag of a PRE-PREPARE, with its authenticator and its batch.
#[tactic(auto, unfolding(crate::specs::ChangeReading::behind_proposal_from))]
pub(crate) fn read_behind_proposal(
    reader: &mut MessageReader<'_>,
) -> Result<Signed<PrePrepare>, DecodeError>
    ensures { Reads (λ signed. signed) result (behind_proposal_from reader.old) reader.new }
{
    let vote = Vote::read(reader)?;
    let auth = Authenticator::read(reader)?;
    let batch = reader.batch_of(vote.digest())?;
    Ok(Signed {
        message: PrePrepare::from_vote(vote, batch),
        auth,
    })
}

/// Passes over what stands behind the tag of a PRE-PREPARE, with its authenticator and its batch.
#[tactic(auto, unfolding(crate::specs::ChangeReading::behind_proposal_from))]
pub(crate) fn skip_behind_proposal(reader: &mut MessageReader<'_>) -> Result<(), Malformed>
    ensures { Passes result (behind_proposal_from reader.old) reader.new }
{
    let vote = read_vote(reader)?;
    Authenticator::skip(reader)?;
    reader.skip_batch_of(vote.digest())
}
