// What goes on, of nodes. The bodies do nothing: what is said is the contracts. They are over every run (`IsARun`): calls of 3f + 1 nodes, more than
// one, and deliveries of bytes and messages to them, of which at most f lie, and nothing that passes under a correct one's name is forged. "Members"
// are 2f + 1 correct nodes or more, and the view's primary is one of them.
ghost use Rattle.bfs_nodes_progress.specs.Laws.{AnswersAreSaid, AnswersAreTheTheorys, ChangesAreGiven, CommittedIsExecuted, EntersTogether, NewViewsAreEntered, NewViewsAreGiven, ProposalsStand, QuietIsCommitted, RequestsAreExecuted, RoundsCommit, ViewsAreBegun, VotesAreResent, WhatIsDueIsBegun};
ghost use Rattle.bfs_nodes_progress.specs.LawsOfCatchingUp.{AllComeUp, CatchingUpInstalls, CheckpointsTellSnapshots, SnapshotsAreOfStates, UpStaysUp, WhoIsBehindComesUp};
ghost use Rattle.bfs_nodes_progress.specs.LawsOfFollowing.{AllAsk, AllFollow, FewAreAhead, NoneLags, WhatIsHeardWasAsked};

use crate::below::what_is_below;
use bfs_checkpoints::right_checkpoints_are_collected;
use bfs_nodes_agree::node_calls::laws::nodes_agree;

/// What an order answers to a message that it takes is, by headers, what a replica answers in the theory of agreement.
#[tactic(auto, using(crate::proofs::Answers::taken_alike))]
pub fn answers_are_the_theorys()
    ensures { AnswersAreTheTheorys }
{}

/// Whatever calls and deliveries there were, and whoever lies: a correct node that has a PRE-PREPARE of its view in its log has its own PREPARE to it
/// there, unless it is the primary, and where that is prepared it has its own COMMIT.
pub fn answers_are_said()
    ensures { AnswersAreSaid }
{
    what_is_below();
}

/// What a node has said of a number in its view it gives again, by `Node::resend`, to one that tells that it is in that view and has not executed the
/// number.
pub fn votes_are_resent()
    ensures { VotesAreResent }
{}

/// What the primary proposes stands in its log, for its next number, by the digest of a batch of the requests that wait.
#[tactic(auto, using(crate::proofs::Standing::proposals_stand))]
pub fn proposals_stand()
    ensures { ProposalsStand }
{}

/// For members that are in one view: where the primary has a PRE-PREPARE for a number above all their low marks, and each has in its log what any of
/// them has said of it, the number is committed at each.
pub fn quiet_is_committed()
    ensures { QuietIsCommitted }
{
    what_is_below();
}

/// For members that stay in one view: where the primary has a PRE-PREPARE for a number that stays between the marks of each, and in three rounds what
/// they have said of it comes to each other one and passes there, whatever else comes meanwhile, the number is committed at each.
pub fn rounds_commit()
    ensures { RoundsCommit }
{
    what_is_below();
}

/// Over every list of calls and deliveries, and whoever lies: a node that leads the view that it has asked for, and has not entered it, keeps
/// VIEW-CHANGEs of fewer than 2f + 1 replicas for it. With one more it begins the view in the same step. (A call that answers want of memory is no
/// step: it changes nothing, and what came has to come again.)
pub fn what_is_due_is_begun()
    ensures { WhatIsDueIsBegun }
{}

/// For members of which each has asked for one view and for none later: where a VIEW-CHANGE of each for it, that is right by the primary's keys, has
/// come to its primary, at whatever time, the primary has begun the view, whatever VIEW-CHANGEs of liars came before or between them.
pub fn views_are_begun()
    ensures { ViewsAreBegun }
{
    what_is_below();
}

/// For members that have asked for one view, and not entered it: where its primary has begun the view, a NEW-VIEW that is right by its keys comes to
/// each other one, of whatever VIEW-CHANGEs, and none asks for a later view meanwhile, they are together in it, whatever else comes.
pub fn new_views_are_entered()
    ensures { NewViewsAreEntered }
{
    what_is_below();
}

/// A node that has asked for a view, and has not entered it, keeps its VIEW-CHANGE for it, and gives it again by `Node::resend` to whoever asks.
pub fn changes_are_given()
    ensures { ChangesAreGiven }
{
    what_is_below();
}

/// A node that is in a later view than view 0 keeps the NEW-VIEW by which it has entered it, its own where it leads the view, and gives it again by
/// `Node::resend` to one that tells that it is in an earlier view. The view's primary has said it, if that is correct. It is right for each replica
/// by whose keys it passes, and each VIEW-CHANGE and each PRE-PREPARE in it does.
pub fn new_views_are_given()
    ensures { NewViewsAreGiven }
{
    what_is_below();
}

/// For members that have asked for one view, and not entered it: where a VIEW-CHANGE of each, right by the primary's keys, has come to its primary, in
/// whatever order and whatever liars send between them, and then the NEW-VIEW that the primary keeps comes to each other member, by whose keys it
/// passes with what is in it, and none asks for a later view meanwhile, they are together in it. It has to pass at each, for keyed hashes within the
/// VIEW-CHANGE of a liar may be right for the primary alone.
pub fn enters_together()
    ensures { EntersTogether }
{
    what_is_below();
}

/// A correct node with a live file system, at which the numbers behind the one that it executed last are committed in its view, executes them by as
/// many calls.
pub fn committed_is_executed()
    ensures { CommittedIsExecuted }
{
    what_is_below();
}

/// For members that are together in a view: where its primary proposes, what waits there is one batch, for its next number. Where they stay together,
/// the number stays between the marks of each, and what they have said of it comes to each other one and passes there in three rounds, whatever else
/// comes, each of them with a live file system at which the numbers up to that one are committed or executed executes a batch of that digest as
/// that number, by as many calls.
pub fn requests_are_executed()
    ensures { RequestsAreExecuted }
{
    what_is_below();
}

/// Whatever calls and deliveries there were, and whoever lies: by the VIEW-CHANGEs that came to a node no correct one asks for a later view than it
/// has asked for.
pub fn what_is_heard_was_asked()
    ensures { WhatIsHeardWasAsked }
{
    what_is_below();
}

/// For members, of which f + 1 have asked for a view and are heard: one that has asked for less has a view to follow to
/// (`Node::view_to_follow`, OSDI 1999 section 4.5.2). That is later than its own, and none past all that members have asked for.
pub fn none_lags()
    ensures { NoneLags }
{
    what_is_below();
}

/// A member that has no view to follow to, and has heard of the members that have asked for a later view than it, has at most f of them before it. So
/// where following ends f + 1 members at least have asked for the least view that one has asked for.
pub fn few_are_ahead()
    ensures { FewAreAhead }
{
    what_is_below();
}

/// For members, of which f + 1 have asked for a view and are heard, and none for a later one: by rounds in which each follows once, as far as it
/// may, all come to ask for that view. There are as many rounds as the least view that one has asked for lies below it, whatever liars ask for.
pub fn all_ask()
    ensures { AllAsk }
{
    what_is_below();
}

/// For members: where f + 1 of them have asked for a view, and their VIEW-CHANGEs for it or for later ones come to each other one, by whose keys
/// they are valid, whatever else comes, then once none has a view to follow to each has asked for that view or a later one.
pub fn all_follow()
    ensures { AllFollow }
{
    what_is_below();
}

/// By a checkpoint that is shown to a node by its keys, with a state of its digest, the node's marks rise to the checkpoint's number, each where it
/// is below: where it has executed up to it by `Node::settle`, and else by `Node::adopt`, by which it holds that state.
#[tactic(auto, using(crate::proofs::CatchingUp::installs))]
pub fn catching_up_installs()
    ensures { CatchingUpInstalls }
{}

/// Each snapshot that a node keeps is of a state that it was in at that number, by executing or adopting; and each CHECKPOINT of that number that
/// a correct node has sent tells its digest, where no two batches and no two states of one number have one digest.
pub fn checkpoints_tell_snapshots()
    ensures states { SnapshotsAreOfStates }
    ensures digests { CheckpointsTellSnapshots }
{
    what_is_below();
    nodes_agree();
}

/// A node that is given a snapshot that a correct one keeps (`Node::told`), and CHECKPOINTs of its number: where those of 2f + 1 correct nodes are
/// right by its keys, whatever others are among them, it collects what shows the checkpoint (`Node::collect`), and by one turn it comes up to that
/// number, wherever it was.
pub fn who_is_behind_comes_up()
    ensures { WhoIsBehindComesUp }
{
    what_is_below();
    nodes_agree();
    right_checkpoints_are_collected();
}

/// A node that is up to a number stays so, whatever comes to it: neither its low mark nor the number last executed falls.
pub fn up_stays_up()
    ensures { UpStaysUp }
{
    what_is_below();
}

/// For members, to each of which a checkpoint of one number and state is shown by its keys: once each has taken its turn by that, all are up to
/// that number, and the next one has room at each, where no mark was above it before.
pub fn all_come_up()
    ensures { AllComeUp }
{
    what_is_below();
}
