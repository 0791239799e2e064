// What holds of a relay over all its lives.
ghost use Rattle.bfs_relaying.specs.Lives.{TimestampsRise};
ghost use Rattle.bfs_relaying.specs.Origins.{WhatLeavesHasItsOrigin};

use bfs_relay::what_is_told_has_its_origin;

/// A relay signs no timestamp of a client in two of its lives: each request that it tells has a timestamp that was not yet reserved when this life began,
/// and is reserved when the request leaves; and each life begins at what is reserved, or above. The body is empty: what is said is its contract.
#[tactic(auto, using(crate::proofs::Rising::timestamps_rise))]
pub fn timestamps_rise_over_lives()
    ensures { TimestampsRise }
{}

/// Each request that leaves in a life was signed for a call that came in it, and each answer is the relay's own, or what f + 1 replicas sent in reply to the
/// request that was signed for that call.
pub fn what_leaves_has_its_origin()
    ensures { WhatLeavesHasItsOrigin }
{
    what_is_told_has_its_origin();
}
