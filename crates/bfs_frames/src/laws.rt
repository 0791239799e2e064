//! What is said of all turns.
ghost use Rattle.bfs_frames.specs.Frames.{BeginWithOneTurn};

/// Bytes begin with one turn at most, so what is read is what was sent. The body is empty: what is said is its contract.
#[tactic(auto, using(crate::proofs::Unique::one_turn))]
pub fn one_turn()
    ensures { BeginWithOneTurn }
{}
