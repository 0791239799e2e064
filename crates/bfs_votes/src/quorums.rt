ghost use Rattle.bfs_votes.specs.Laws.{QuorumsMeet};

/// Any two sets of 2f + 1 replicas share one that is not faulty, where at most f are.
#[tactic(auto, using(crate::proofs::Counts::quorums_meet))]
pub fn quorums_meet()
    ensures { QuorumsMeet }
{}
