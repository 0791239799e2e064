// What holds of a relay that signs, over all its lives. The bodies do nothing: what is said is each contract.
ghost use Rattle.bfs_signing.specs.Lives.{IndexesRise};
ghost use Rattle.bfs_signing.specs.Origins.{WhatLeavesIsSigned};

use bfs_relay::what_is_told_has_its_origin;
use bfs_signatures::what_is_signed_verifies;

/// A relay uses no index of its key twice, in whichever of its lives: each that it uses was not yet reserved when this life began, and is reserved when the texts
/// leave that it signs. So no two different texts leave under one index.
#[tactic(auto, using(crate::proofs::Rising::indexes_rise))]
pub fn indexes_rise_over_lives()
    ensures { IndexesRise }
{}

/// Each request that leaves in a life was signed by a client for a call that came in it, and is signed by an index that was used, so that it passes by the key's
/// public key; each answer is the relay's own, or what f + 1 replicas sent in reply to the request that was signed for that call.
pub fn what_leaves_is_signed()
    ensures { WhatLeavesIsSigned }
{
    what_is_told_has_its_origin();
    what_is_signed_verifies();
}
