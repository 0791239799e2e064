// Agreement in one view, which comes out of the theory of all views. The bodies do nothing: what is said is the contracts.
ghost use Rattle.bfs_agreement.specs.Laws.{AgreesInView, ExecutesCommitted, SaysOneDigest};

use crate::agreement::calls_agree;

/// For each number of a view the PRE-PREPAREs that a correct replica sends, in its NEW-VIEW too, and its PREPARE and COMMIT tell one digest.
pub fn a_replica_says_one_digest()
    ensures { SaysOneDigest }
{}

/// What a replica executes is committed in its log: COMMITs of 2f + 1 replicas tell its digest.
pub fn what_is_executed_is_committed()
    ensures { ExecutesCommitted }
{}

/// Any two replicas that execute a batch for a number in one view execute one digest.
pub fn one_view_agrees()
    ensures { AgreesInView }
{
    calls_agree();
}
