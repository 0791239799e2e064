ghost use Rattle.std.specs.Prelude.{◌≡◌, bytes_eq};
ghost use Rattle.std.specs.List.{list_all};
ghost use Rattle.bfs_replay.specs.Outcomes.{failure_of_outcome, outcome_of};

use crate::failure::Failure;

/// How a run ended.
#[derive(Clone, Copy, Debug, PartialEq, Eq)]
pub enum Outcome {
    /// All replicas that were compared have the same digest, as one has with itself.
    Agree,
    /// Two of them have different digests.
    Differ,
}

impl Outcome {
    /// Why a run that ended so did not do its work, if it did not.
    pub fn failure(self) -> Option<Failure>
        ensures { result ≡ failure_of_outcome self }
    {
        match self {
            Outcome::Agree => None,
            Outcome::Differ => Some(Failure::Differ),
        }
    }
}

/// Compares the digests of replicas, or of none.
pub fn compare(digests: &[[u8; 32]]) -> Outcome
    ensures { result ≡ outcome_of digests.now }
{
    match digests {
        [first, others @ ..] if !are_all(others, first) => Outcome::Differ,
        _ => Outcome::Agree,
    }
}

fn are_all(digests: &[[u8; 32]], digest: &[u8; 32]) -> bool
    ensures { result ≡ list_all (λ other. bytes_eq other digest.now) digests.now }
{
    digests.iter().all(
        |other: &[u8; 32]| -> bool
            ensures { result ≡ bytes_eq other.now digest.entry.now }
        { other == digest },
    )
}
