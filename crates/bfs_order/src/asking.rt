ghost use Rattle.bfs_log.specs.Headers.{message_header};
ghost use Rattle.bfs_order.specs.Inside.Asking.{Asks};

use bfs_messages::{Checkpoint, OrderMessage, Vote};

/// What an accepted message asks for.
#[derive(Drop)]
pub(crate) enum Asked {
    /// A PREPARE, and a COMMIT once it is prepared.
    Proposal(Vote),
    /// A COMMIT once it is prepared.
    Prepared(Vote),
    /// That the checkpoint is stable, once enough replicas tell so.
    Stable(Checkpoint),
    Nothing,
}

pub(crate) fn asked_by(message: &OrderMessage) -> Asked
    ensures { Asks result (message_header message.now) }
{
    match message {
        OrderMessage::PrePrepare(proposal) => Asked::Proposal(*proposal.vote()),
        OrderMessage::Prepare(vote) => Asked::Prepared(*vote),
        OrderMessage::Checkpoint(checkpoint) => Asked::Stable(*checkpoint),
        OrderMessage::Commit(_) => Asked::Nothing,
    }
}
