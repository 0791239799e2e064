// What goes on. The bodies do nothing: what is said is the contracts. They are over every run (`IsARun`): calls and deliveries of 3f + 1 replicas,
// more than one, of which at most f lie, and nothing that passes under a correct one's name is forged, in a NEW-VIEW either. "Members" are 2f + 1
// correct replicas or more, and the view's primary is one of them.
ghost use Rattle.bfs_progress.specs.Laws.{AllAsk, EachBatchCanBeCommitted, EntersTogether, ExchangeCommits, NewViewsAreEntered, NoStateIsADeadEnd, NoneLags, ProposalCommits, QuietIsCommitted, RoundsCommit};

/// For members that are in one view: where the primary has a PRE-PREPARE for a number above all their low marks, and each has in its log what any of
/// them has said of it, the number is committed at each.
#[tactic(auto, using(crate::proofs::Quiet::quiet_is_committed))]
pub fn quiet_is_committed()
    ensures { QuietIsCommitted }
{}

/// For members that stay in one view: where the primary has a PRE-PREPARE for a number that stays between the marks of each, and in three rounds what
/// their logs have of their own of it comes to each other one, whatever else comes meanwhile, the number is committed at each.
#[tactic(auto, using(crate::proofs::Rounds::rounds_commit))]
pub fn rounds_commit()
    ensures { RoundsCommit }
{}

/// For members that are in one view: where the primary has a PRE-PREPARE for a number between the marks of each, and they send one another once more
/// what their logs have of it, all that comes was sent, they stay together, and the number is committed at each.
pub fn exchange_commits()
    ensures { ExchangeCommits }
{}

/// For members that are in one view: where the primary's next number lies between the marks of each, the batch that it proposes is committed at each
/// once they have so heard one another.
#[tactic(auto, using(crate::proofs::Exchange::proposal_commits))]
pub fn proposal_commits()
    ensures { ProposalCommits }
{}

/// For members that have asked for one view, and not entered it: they have sent VIEW-CHANGEs that make a NEW-VIEW; and by any that make one, those of
/// liars among them, its primary begins the view, and its NEW-VIEW takes the others into it, whatever liars have put into their logs.
#[tactic(auto, using(crate::proofs::Entrance::enters_together))]
pub fn enters_together()
    ensures { EntersTogether }
{}

/// For members that have asked for one view, and not entered it: where a NEW-VIEW for it comes to each, of whatever VIEW-CHANGEs, and none asks for a
/// later view meanwhile, they are together in it, whatever else comes.
#[tactic(auto, using(crate::proofs::NewViews::new_views_are_entered))]
pub fn new_views_are_entered()
    ensures { NewViewsAreEntered }
{}

/// For 2f + 1 replicas that have heard what each of them has asked for, and of others anything: one that asks for less than f + 1 of them may follow
/// to what these ask for, and where one may follow to, one of them has asked for.
pub fn none_lags()
    ensures { NoneLags }
{}

/// For members that have heard what each has asked for, and of others anything: where f + 1 of them have asked for a view, and none for a later one,
/// all have asked for it once each has followed.
pub fn all_ask()
    ensures { AllAsk }
{}

/// For members in any state: they come to be together in any view that none of them has gone past, by turns of theirs in which nothing comes but what
/// was sent.
#[tactic(auto, using(crate::proofs::Asking::no_state_is_a_dead_end))]
pub fn no_state_is_a_dead_end()
    ensures { NoStateIsADeadEnd }
{}

/// For members in any state: there is a way on to any view that none of them has gone past, on which a batch of any digest is committed at each, with all
/// before it, so that each can execute it. On it a number is taken for stable only where it is so at one of them, or where each can execute up to it.
#[tactic(auto, using(crate::proofs::Anywhere::each_batch_can_be_committed))]
pub fn each_batch_can_be_committed()
    ensures { EachBatchCanBeCommitted }
{}
