// What waits is executed, from every state. The bodies do nothing: what is said is the contracts.
ghost use Rattle.bfs_liveness.specs.LawsOfProgress.{EachRequestIsExecuted, EachStateIsServed, MembersGetReady, WhatWaitsAtOneIsExecuted, WhatWaitsIsServed};

use crate::catching::members_come_up;
use crate::executing::what_waits_is_executed;
use crate::marks::what_is_stable_was_executed;
use crate::meeting::{members_meet, members_meet_in, ways_are_runs};
use crate::window::full_windows_go_on;
use bfs_nodes_agree::node_calls::laws::{nodes_agree, steps_are_turns};

/// From every state that nodes can come into, whoever lies: by a way of theirs members meet in a view that one of them leads, and come up to one
/// stable number there. What waits at each waits there still.
pub fn members_get_ready()
    ensures { MembersGetReady }
{
    members_meet();
    ways_are_runs();
    members_come_up();
    what_is_stable_was_executed();
}

/// And where the window of that view's primary has place, they go on to execute all that waited at it: one finite schedule of turns, from every
/// state, behind which each member has executed the batch.
pub fn what_waits_is_served()
    ensures { WhatWaitsIsServed }
{
    what_waits_is_executed();
}

/// From every state that nodes can come into, whoever lies: by one finite schedule of turns members meet in a view that one of them leads, come up to one
/// stable number, empty the window of the view's primary where it is full, and each executes the batch of all that waits at that primary then. No request
/// that waits at a member in the beginning is lost: it waits there still before that batch, or was executed there with the window.
pub fn each_state_is_served()
    ensures { EachStateIsServed }
{
    members_get_ready();
    full_windows_go_on();
    what_waits_is_executed();
}

/// From every state that nodes can come into, whoever lies: by one finite schedule of turns each request that waits at all members is executed. A member
/// has executed a batch with it, or with one of the same client and timestamp, and no correct node another one as that number. Each member has executed
/// the same, or taken up a state that comes of it, and the request is new to none.
pub fn each_request_is_executed()
    ensures { EachRequestIsExecuted }
{
    each_state_is_served();
    steps_are_turns();
    nodes_agree();
}

/// And so it is with what waits at one member alone, whichever: in a view that this one leads they meet.
pub fn what_waits_at_one_is_executed()
    ensures { WhatWaitsAtOneIsExecuted }
{
    members_meet_in();
    ways_are_runs();
    members_come_up();
    what_is_stable_was_executed();
    full_windows_go_on();
    what_waits_is_executed();
    steps_are_turns();
    nodes_agree();
}
