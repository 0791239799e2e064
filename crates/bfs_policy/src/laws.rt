//! What holds whatever a replica is told. The bodies do nothing: what is said is their contracts.
ghost use Rattle.bfs_policy.specs.Laws.{ExecutionEndsPatience, FollowsAsTold, PatienceIsBounded, TimesOutOnlyWaiting};

/// A replica at which nothing waits doesn't time out.
#[tactic(auto, using(crate::proofs::Rules::times_out_only_waiting))]
pub fn times_out_only_waiting()
    ensures { TimesOutOnlyWaiting }
{}

/// No patience is above the greatest one, or below the least.
#[tactic(auto, using(crate::proofs::Rules::patience_is_bounded))]
pub fn patience_is_bounded()
    ensures { PatienceIsBounded }
{}

/// Where something was executed, the patience is the least.
#[tactic(auto, using(crate::proofs::Rules::execution_ends_patience))]
pub fn execution_ends_patience()
    ensures { ExecutionEndsPatience }
{}

/// A replica that is told of a view to follow to leaves for that very view at once, whatever else it is told, and it follows to no other.
#[tactic(auto, using(crate::proofs::Rules::follows_as_told))]
pub fn the_policy_follows()
    ensures { FollowsAsTold }
{}
