// What members execute, by ways of theirs. The bodies do nothing: what is said is the contracts.
ghost use Rattle.bfs_liveness.specs.LawsOfExecuting.{ExchangesCommit, FullWindowsAreEmptied, NoneIsBeyond, NoneIsLeftOut, WhatIsStableIsSettled, WhatWaitsIsExecuted};

use crate::below::what_is_below;
use bfs_agreement::agreement::quorums_are_carried;
use bfs_nodes_agree::node_calls::laws::{
    new_views_are_taken_whole, nodes_agree, steps_are_turns, turns_may_be_taken,
    what_is_resent_was_sent,
};
use bfs_order::a_replica_stays_itself;
use bfs_view_change::{prepared_is_chosen, views_begin_behind_what_is_stable};

/// Whatever calls and deliveries there were, and whoever lies: a correct primary that has entered its view has a PRE-PREPARE for each number between
/// its low mark, or what the view begins behind, and the next one that it will propose. For it proposes number after number, a NEW-VIEW hands over
/// each number up to its last, and what comes under its own name it has said.
pub fn none_is_left_out()
    ensures { NoneIsLeftOut }
{
    what_is_below();
    views_begin_behind_what_is_stable();
    prepared_is_chosen();
    new_views_are_taken_whole();
}

/// Whatever calls and deliveries there were, and whoever lies: what a correct node has executed above its low mark is below the next number of the
/// primary of its view, if that is correct and has entered it. What 2f + 1 have committed the NEW-VIEWs of later views hand over.
pub fn none_is_beyond()
    ensures { NoneIsBeyond }
{
    what_is_below();
    steps_are_turns();
    turns_may_be_taken();
    quorums_are_carried();
}

/// The low mark of an order rises as soon as CHECKPOINTs of 2f + 1 replicas tell one digest of a number above it.
pub fn what_is_stable_is_settled()
    ensures { WhatIsStableIsSettled }
{
    a_replica_stays_itself();
}

/// For members that are even: in three exchanges, in which each gives to each other one what it has said in their view, all that its primary has
/// proposed is committed at each, and they are even still.
pub fn exchanges_commit()
    ensures { ExchangesCommit }
{
    what_is_below();
    what_is_resent_was_sent();
}

/// For members that are even: the primary of their view proposes what waits there, in three exchanges it is committed at each, with all that was
/// proposed before, and each member executes it. It is that very batch, and the last one that each has executed then.
pub fn what_waits_is_executed()
    ensures { WhatWaitsIsExecuted }
{
    what_is_below();
    what_is_resent_was_sent();
    none_is_left_out();
    none_is_beyond();
    steps_are_turns();
}

/// For members that are even, where the primary of their view has proposed the last number of its window: in three exchanges all of it is committed,
/// each member executes it and tells the checkpoint there, and that becomes stable at the primary, as which it has room again.
pub fn full_windows_are_emptied()
    ensures { FullWindowsAreEmptied }
{
    what_is_below();
    what_is_resent_was_sent();
    none_is_left_out();
    none_is_beyond();
    what_is_stable_is_settled();
    steps_are_turns();
    nodes_agree();
}
