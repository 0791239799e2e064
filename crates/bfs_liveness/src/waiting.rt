// What waits at a node. The body does nothing: what is said is the contract.
ghost use Rattle.bfs_liveness.specs.Waiting.{WhatWaitsStays};

/// Whatever comes to a node, from whomever, and whatever it does: it loses no request that waits but by executing a batch in which it stands, or where
/// its host has it forget what was answered or proposed.
pub fn what_waits_stays()
    ensures { WhatWaitsStays }
{}
