// Members come up to one stable number. The bodies do nothing: what is said is the contracts.
ghost use Rattle.bfs_liveness.specs.LawsOfCatching.{MembersComeUp, ToldSnapshotsStay, ViewsBeginBehind};

use crate::below::what_is_below;
use bfs_nodes_agree::node_calls::laws::{new_views_are_taken_whole, what_is_resent_was_sent};
use bfs_order::certificates_make_checkpoints_stable;
use bfs_votes::quorums::quorums_meet;

/// Whatever calls and deliveries there were, and whoever lies: of each CHECKPOINT that a node has sent it keeps the snapshot, until a later number is
/// stable there. For what drops a snapshot raises the low mark above its number.
pub fn told_snapshots_stay()
    ensures { ToldSnapshotsStay }
{
    what_is_below();
}

/// Whatever calls and deliveries there were, and whoever lies: the number behind which a node's view begins is stable there, or a later one is.
pub fn views_begin_behind()
    ensures { ViewsBeginBehind }
{
    what_is_below();
    new_views_are_taken_whole();
}

/// Members that are together in a view come up to the greatest number that one of them has stable. Of the 2f + 1 whose CHECKPOINTs its log shows one
/// is a member, which keeps the snapshot still: so each member takes one turn, by those CHECKPOINTs and that state. They stay together, their view has
/// no batch up to that number, and what waits at each stays.
pub fn members_come_up()
    ensures { MembersComeUp }
{
    what_is_below();
    what_is_resent_was_sent();
    new_views_are_taken_whole();
    quorums_meet();
    certificates_make_checkpoints_stable();
}
