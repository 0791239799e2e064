// The digest behind the text of a saved replica, by which bytes that were cut or changed are told.
ghost use Rattle.std.specs.Prelude.{◌≡◌, ◌-◌, ◌≤◌, bytes_eq, drop, length, OnOk};
ghost use Rattle.std.specs.Option.{option_map};
ghost use Rattle.sha2.specs.Sha256.{sha256};
ghost use Rattle.bfs_saving.specs.Saved.{sealed, unsealed};

use bfs_types::Memory;
use sha2::{Digest, Sha256};

/// Appends the SHA-256 (FIPS 180-4) of all that is there. `Memory` if memory runs out.
pub fn seal(out: &mut Vec<u8>) -> Result<(), Memory>
    ensures { OnOk result (out.new.items ≡ sealed out.old.items) }
{
    let digest = Sha256::digest(&*out);
    Ok(out.extend_from_slice(&digest)?)
}

/// What stands in front of its digest. None where the digest is another one, or is lacking.
#[tactic(auto, unfolding(crate::specs::Saved::unsealed))]
pub(crate) fn unsealed(bytes: &[u8]) -> Option<&[u8]>
    ensures { option_map (λ body. body.now) result ≡ unsealed bytes.now }
{
    if bytes.len() < 32 {
        return None;
    }
    let (body, digest) = bytes.split_at(bytes.len() - 32);
    if Sha256::digest(body).as_slice() == digest {
        Some(body)
    } else {
        None
    }
}
