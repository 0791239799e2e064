ghost use Rattle.std.specs.Prelude.{◌≡◌};
ghost use Rattle.bfs_service.specs.Terms.{terms_of, vote_bytes};

use bfs_auth::MOST_SIGNATURE_BYTES;
use bfs_frames::Limits;
use bfs_types::{LOG_SIZE, MOST_REPLICAS};

// the bytes of a state that is fetched
const MOST_STATE_BYTES: u64 = 1 << 32;

// the bytes of a vote beside its authenticator
const VOTE_BYTES: usize = 128;

// the bytes of an authenticator: a signature, and keyed hashes for all replicas
const SIGNATURE_BYTES: usize = 8 + MOST_SIGNATURE_BYTES;

const HASHES_BYTES: usize = 4 + 32 * MOST_REPLICAS;

/// How a replica serves.
#[derive(Clone, Copy, Debug)]
pub struct Terms {
    /// How long a request waits before the next view is asked for, in microseconds.
    pub patience: u64,
    /// The bytes of the requests that wait at the node, which are those of its next batch.
    pub most_batch_bytes: usize,
    /// The bytes of a state that is fetched.
    pub most_state_bytes: u64,
}

impl Terms {
    /// For a replica that waits so many milliseconds, among 3f + 1 that sign, or have keyed hashes alone. A batch is so small that its PRE-PREPARE fits in a
    /// frame, and that NEW-VIEWs do which have 2f + 1 VIEW-CHANGEs with a whole log each, and a log of their own (OSDI 1999 section 4.4), with 2f + 1 votes for
    /// each number. It has no bytes where these votes alone leave no room.
    pub fn of(f: u32, patience: u32, limits: &Limits, are_signed: bool) -> Terms
        ensures { result ≡ terms_of f patience limits.now are_signed }
    {
        let logs = 2 * f as usize + 2;
        let votes = (2 * f as usize + 1) * vote_bytes(are_signed);
        let in_a_view = (limits.new_view as usize / (logs * LOG_SIZE)).saturating_sub(votes);
        let in_a_frame = limits.order as usize / 2;
        Terms {
            patience: u64::from(patience) * 1_000,
            most_batch_bytes: in_a_view.min(in_a_frame),
            most_state_bytes: MOST_STATE_BYTES,
        }
    }
}

// the most bytes of a vote
fn vote_bytes(is_signed: bool) -> usize
    ensures { result ≡ vote_bytes is_signed }
{
    if is_signed {
        VOTE_BYTES + SIGNATURE_BYTES
    } else {
        VOTE_BYTES + HASHES_BYTES
    }
}
