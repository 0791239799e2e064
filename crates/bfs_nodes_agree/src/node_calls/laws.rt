// Agreement of nodes. The bodies do nothing: what is said is the contracts.
ghost use Rattle.bfs_nodes_agree.specs.Nodes.Answers.{NodesAnswer};
ghost use Rattle.bfs_nodes_agree.specs.Nodes.Laws.{FairIsAuthentic, NewViewsAreTakenWhole, NodesAgree, StepsAreTurns, TurnsMayBeTaken, ViewsAreEnteredWhole, WhatIsKeptIsValid, WhatIsSentIsFair};
ghost use Rattle.bfs_nodes_agree.specs.Nodes.Resending.{WhatIsResentIsFair, WhatIsResentWasSent};

use crate::view_calls::laws::{nothing_is_passed_over, replicas_agree};
use bfs_codec::{batches_with_one_text, message_was_written};
use bfs_order::{
    a_replica_stays_itself, certificates_make_checkpoints_stable, views_are_entered,
    what_is_resent_is_its_own,
};
use bfs_votes::quorums::quorums_meet;

/// Whatever nodes do is what turns of their orders do.
pub fn steps_are_turns()
    ensures { StepsAreTurns }
{}

/// Where what passes is authentic, the NEW-VIEWs by which nodes enter views, and those that they begin, are ones of which agreement is proved.
pub fn turns_may_be_taken()
    ensures { TurnsMayBeTaken }
{
    a_replica_stays_itself();
    views_are_entered();
    message_was_written();
    batches_with_one_text();
}

/// A node that enters a view has all PRE-PREPAREs of its NEW-VIEW in its log then, but for numbers that are stable there, and its low mark is not
/// below the number that the view begins behind: by any NEW-VIEW that it takes, and over every list of calls by each step by which it enters a
/// view, whether it leads it or not. For each VIEW-CHANGE that it keeps is valid by its keys, or its own.
pub fn new_views_are_taken_whole()
    ensures taken { NewViewsAreTakenWhole }
    ensures entered { ViewsAreEnteredWhole }
    ensures kept { WhatIsKeptIsValid }
{
    nothing_is_passed_over();
    a_replica_stays_itself();
    views_are_entered();
    message_was_written();
}

/// Over every list of calls of 3f + 1 nodes and deliveries of bytes to them, of which at most f are faulty: any two correct ones that execute
/// a batch as a number, in whatever views, execute the same one, and any two that reach a number, by executing or by adopting, have the same
/// file system and table there, and the same digest.
pub fn nodes_agree()
    ensures { NodesAgree }
{
    steps_are_turns();
    turns_may_be_taken();
    replicas_agree();
    quorums_meet();
    certificates_make_checkpoints_stable();
    a_replica_stays_itself();
    views_are_entered();
    message_was_written();
    batches_with_one_text();
}

/// A run in which nodes are given only what was sent is authentic. Whoever passes a message on, each part of it with a right keyed hash of a correct
/// sender has to stand in what some correct replica gave to be sent; what one gave itself does, with all that is within it. So who runs
/// nodes has to show only that what comes is what was sent, or comes of liars who forge no keyed hash.
pub fn what_was_sent_is_authentic()
    ensures sent { WhatIsSentIsFair }
    ensures run { FairIsAuthentic }
{
    a_replica_stays_itself();
    views_are_entered();
    message_was_written();
    batches_with_one_text();
}

/// Over every list of calls of nodes and deliveries of bytes: each REPLY that a node has sent gives the answer to a request in a batch that it
/// executed, on a state that it had reached, or once more the last reply to its client that such a state has; and each request in such a batch
/// has a right authenticator of the client that it names.
pub fn nodes_answer()
    ensures { NodesAnswer }
{
    a_replica_stays_itself();
    views_are_entered();
    message_was_written();
    batches_with_one_text();
}

/// What a node gives again it has sent before: a message that says the same, to the letter but for the batch of a PRE-PREPARE and for authenticators.
/// Or it is the NEW-VIEW by which it has entered its view, which it has sent or which came to it. It may be given to any node, with all that is
/// within it. It holds of each correct node, whoever the other one is, where there are others.
pub fn what_is_resent_was_sent()
    ensures said { WhatIsResentWasSent }
    ensures fair { WhatIsResentIsFair }
{
    a_replica_stays_itself();
    views_are_entered();
    message_was_written();
    batches_with_one_text();
    what_is_resent_is_its_own();
}
