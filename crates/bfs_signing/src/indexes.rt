// Which indexes of a key are left.
ghost use Rattle.std.specs.Prelude.{◌≡◌, ◌∷◌, [], ◌++◌, map, OnOk};
ghost use Rattle.bfs_frames.specs.Parcels.{told_by};
ghost use Rattle.bfs_signing.specs.Indexes as model;

use bfs_frames::{Frame, Kind, Parcel, To};
use bfs_types::Memory;
use lms::Signer;
use std::alloc::Global;

/// Whether at most a sixteenth of the indexes is left: as many as a fifteenth of those that were used.
pub(crate) fn is_low(signer: &Signer, next: u64) -> bool
    ensures { result ≡ model.is_low signer.now next }
{
    let behind = next.saturating_add(next / 15);
    behind == u64::MAX || !signer.has_index(behind)
}

// what the operator reads
#[tactic(auto, unfolding(crate::specs::Indexes::low_line))]
fn low_line() -> &'static [u8]
    ensures { result.now ≡ model.low_line }
{
    b"at most a sixteenth of the signing key's indexes is left"
}

/// The operator is told that few indexes are left. `Memory` if memory runs out.
pub(crate) fn tell_low(alloc: Global, parcels: &mut Vec<Parcel>) -> Result<(), Memory>
    ensures { OnOk result (map told_by parcels.new.items ≡ map told_by parcels.old.items ++ model.low_told ∷ []) }
{
    let payload = Vec::from_slice(alloc, low_line())?;
    parcels.push(Parcel {
        to: To::Operator,
        frame: Frame {
            kind: Kind::Log,
            payload,
        },
    })?;
    Ok(())
}
