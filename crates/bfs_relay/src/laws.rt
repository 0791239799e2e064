// What holds of a relay whatever comes. The body is empty: what is said is its contract.
ghost use Rattle.bfs_relay.specs.Origins.{WhatIsToldHasItsOrigin};

/// Each request that a relay tells was signed for a call that came. Each answer is its own reply to the call of that ticket, or what f + 1 replicas sent in
/// reply to the request that was signed for that call. So it is whatever comes, in whichever order.
#[tactic(auto, using(crate::proofs::Answering::what_is_told_has_its_origin))]
pub fn what_is_told_has_its_origin()
    ensures { WhatIsToldHasItsOrigin }
{}
