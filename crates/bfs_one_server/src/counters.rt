// What a client's counter gives: `bfs_clients::Counter` counts the timestamps of its requests.
ghost use Rattle.bfs_one_server.specs.Counters.{CountedRequestsAreFirst};

/// A request with the timestamp of a counter is the first of that timestamp, where all that the client has signed so far is below it.
#[tactic(auto, using(crate::proofs::Timestamps::counted_requests_are_first))]
pub fn counted_requests_are_first()
    ensures { CountedRequestsAreFirst }
{}
