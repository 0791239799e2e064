// Full windows go on. The bodies do nothing: what is said is the contracts.
ghost use Rattle.bfs_liveness.specs.LawsOfWindows.{CatchingUpProposesNothing, CheckpointsAreOfMultiples, FullWindowsGoOn, WhatIsStableIsAMultiple, WindowsAreBounded};

use crate::below::what_is_below;
use crate::catching::members_come_up;
use crate::executing::full_windows_are_emptied;
use crate::meeting::ways_are_runs;
use crate::waiting::what_waits_stays;
use bfs_nodes_agree::node_calls::laws::new_views_are_taken_whole;
use bfs_order::the_stable_checkpoint_has_its_certificate;

/// Whatever calls and deliveries there were, and whoever lies: each CHECKPOINT that a node has sent is of a multiple of the interval. For it takes a
/// checkpoint only there.
pub fn checkpoints_are_of_multiples()
    ensures { CheckpointsAreOfMultiples }
{
    what_is_below();
}

/// So is each low mark: of the 2f + 1 whose CHECKPOINTs made it stable one is a member.
pub fn what_is_stable_is_a_multiple()
    ensures { WhatIsStableIsAMultiple }
{
    what_is_below();
    the_stable_checkpoint_has_its_certificate();
}

/// Whatever calls and deliveries there were, and whoever lies: no next number lies more than one above the high mark of its node. For PRE-PREPAREs and what
/// was handed over lie within the marks.
pub fn windows_are_bounded()
    ensures { WindowsAreBounded }
{
    what_is_below();
    new_views_are_taken_whole();
}

/// By a certificate that is installed the next number rises at most to the one behind the certificate's: it brings no PRE-PREPARE.
pub fn catching_up_proposes_nothing()
    ensures { CatchingUpProposesNothing }
{}

/// Where the primary of the view of even members has proposed all that its window takes: there is a way by which they execute all of it, and are even
/// again with the number at its end. The primary can propose again there. What waited at each waits there still, but what it has executed.
pub fn full_windows_go_on()
    ensures { FullWindowsGoOn }
{
    full_windows_are_emptied();
    members_come_up();
    ways_are_runs();
    windows_are_bounded();
    what_is_stable_is_a_multiple();
    what_waits_stays();
}
