// What repeated requests do. The body does nothing: what is said is the contract.
ghost use Rattle.bfs_one_server.specs.Examples.{LaterFirst, OneTimestampTwice, SentTwice};

/// A request that is ordered twice takes effect once. Where a client's later request is executed first, the earlier one never takes effect. Of two
/// calls of one timestamp the second one is answered with the first one's reply: so a correct client signs one.
#[tactic(auto, using(crate::proofs::Repeated::sent_twice, crate::proofs::Repeated::later_first, crate::proofs::Repeated::one_timestamp_twice))]
pub fn what_repeated_requests_do()
    ensures sent_twice { SentTwice }
    ensures later_first { LaterFirst }
    ensures one_timestamp_twice { OneTimestampTwice }
{}
