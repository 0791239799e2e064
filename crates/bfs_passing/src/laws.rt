// Where all sign, what waits is executed. The bodies do nothing: what is said is the contracts.
ghost use Rattle.bfs_passing.specs.Laws.{EachRequestIsExecutedWhereAllSign, EachStateIsServedWhereAllSign, OwnSignaturesPass, SignedInTimePasses, SignedPassesAlike, SignersAreHeard, WhatWaitsAtOneIsExecutedWhereAllSign};

use crate::below::what_is_below;
use bfs_auth::{an_index_is_of_one_place, what_a_key_signs_passes};
use bfs_liveness::progress::{
    each_request_is_executed, each_state_is_served, what_waits_at_one_is_executed,
};
use bfs_nodes_agree::node_calls::laws::what_is_resent_was_sent;
use bfs_order::{slots_differ, the_stable_checkpoint_has_its_certificate};

/// Where replicas know the same public keys, one of each replica and of each client, whatever is signed passes by the keys of each or of none: a client's
/// REQUEST; a replica's PRE-PREPARE, PREPARE, CHECKPOINT, VIEW-CHANGE and NEW-VIEW, with all that they carry. COMMITs have keyed hashes, which each receiver
/// checks by a key of its own.
pub fn signed_passes_alike()
    ensures { SignedPassesAlike }
{}

/// What a replica signs by its key passes by its own keys, in the views that the key has, and of the numbers that it has in each: so much may a replica
/// say before its key is spent.
pub fn signed_in_time_passes()
    ensures { SignedInTimePasses }
{
    what_a_key_signs_passes();
    an_index_is_of_one_place();
}

/// So what members have signed of all that they can show passes by their own keys, where each has such a key, and nothing under its own name is of a view or a
/// number that the key has not.
pub fn own_signatures_pass()
    ensures { OwnSignaturesPass }
{
    signed_in_time_passes();
}

/// So members hear one another, whatever liars and clients give to them, where what each has signed passes by its own keys. What a node keeps of others it
/// has checked by its keys, so it passes at each: in every run each message of a node's log, its VIEW-CHANGE and the NEW-VIEW of its view, with all
/// that is within them, pass by its keys or are its own. Its COMMITs it has made itself, since none comes back; their keyed hashes pass where both have the
/// same key.
pub fn signers_are_heard()
    ensures { SignersAreHeard }
{
    what_is_below();
    signed_passes_alike();
    what_is_resent_was_sent();
    slots_differ();
    the_stable_checkpoint_has_its_certificate();
}

/// From every state that nodes can come into, whoever lies: by one finite schedule of turns members meet in a view that one of them leads, and each executes
/// the batch of all that waits at its primary then.
pub fn each_state_is_served_where_all_sign()
    ensures { EachStateIsServedWhereAllSign }
{
    signers_are_heard();
    each_state_is_served();
}

/// From every state that nodes can come into, whoever lies: by one finite schedule of turns each request that waits at all members is executed.
pub fn each_request_is_executed_where_all_sign()
    ensures { EachRequestIsExecutedWhereAllSign }
{
    signers_are_heard();
    each_request_is_executed();
}

/// And so it is with what waits at one member alone, whichever.
pub fn what_waits_at_one_is_executed_where_all_sign()
    ensures { WhatWaitsAtOneIsExecutedWhereAllSign }
{
    signers_are_heard();
    what_waits_at_one_is_executed();
}
