// Agreement of states. The bodies do nothing: what is said is the contracts.
ghost use Rattle.bfs_agreement.specs.Laws.{StatesAgree};

use bfs_votes::quorums::quorums_meet;

/// Any two replicas that reach a number, by executing or by adopting the state of a stable checkpoint, in whatever views, have one state
/// there, and it comes of batches that were executed as the numbers up to it.
pub fn states_agree()
    ensures { StatesAgree }
{
    quorums_meet();
}
