// What is stable at members. The bodies do nothing: what is said is the contracts.
ghost use Rattle.bfs_liveness.specs.LawsOfMarks.{WhatIsStableWasExecuted};

use crate::below::what_is_below;
use bfs_order::the_stable_checkpoint_has_its_certificate;

/// Whatever calls and deliveries there were, and whoever lies: of what is stable at any node a member has executed, or adopted, as much at least. For of
/// 2f + 1 CHECKPOINTs one is a member's.
pub fn what_is_stable_was_executed()
    ensures { WhatIsStableWasExecuted }
{
    what_is_below();
    the_stable_checkpoint_has_its_certificate();
}
