// Members meet in a view, by ways of theirs. The bodies do nothing: what is said is the contracts.
ghost use Rattle.bfs_liveness.specs.LawsOfMeeting.{AMemberLeads, MembersMeet, MembersMeetIn, WaysAreRuns};

use crate::below::what_is_below;
use bfs_nodes_agree::node_calls::laws::what_is_resent_was_sent;

/// Whatever calls and deliveries there were, and whoever lies: by turns of members that hear one another the run goes on. What a member gives to
/// another one was sent, so nothing is forged; and what it gives keeps the limits of messages, which a request of a client need not.
pub fn ways_are_runs()
    ensures { WaysAreRuns }
{
    what_is_below();
    what_is_resent_was_sent();
}

/// Of f + 1 views in a row a member leads one: beside 2f + 1 members are at most f others.
pub fn a_member_leads()
    ensures { AMemberLeads }
{}

/// In each later view that a member leads members meet: each leaves for it, the VIEW-CHANGEs of the others come to its primary, which begins it, and its
/// NEW-VIEW comes to them. What waits at a member stays, and what it has executed. That all this passes is needed: a member's VIEW-CHANGE with a liar's
/// PREPARE in it, of which the keyed hash is right for that member alone, is refused by the primary, each time.
pub fn members_meet_in()
    ensures { MembersMeetIn }
{
    what_is_below();
    what_is_resent_was_sent();
}

/// From every state that nodes can come into members meet in a view: at most f + 1 views above the latest that one of them has asked for. So many have to be
/// left, of which there are 2^63: others may lead the next f.
pub fn members_meet()
    ensures { MembersMeet }
{
    what_is_below();
    what_is_resent_was_sent();
}
