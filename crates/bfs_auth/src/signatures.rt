// Signatures of texts are those of their leaves.
ghost use Rattle.std.specs.Prelude.{◌≡◌};
ghost use Rattle.bfs_signatures.specs.Hashes.{leaf_hash};

use crate::texts::Text;
use bfs_signatures::leaf_hasher;
use sha2::{Digest, Sha256};

/// The leaf of a text in the tree whose root is signed.
pub(crate) fn leaf_hash<T: Text>(text: &T) -> [u8; 32]
    ensures { result ≡ leaf_hash (T.text text.now) }
{
    let mut hasher = leaf_hasher();
    text.hash(&mut hasher);
    hasher.finalize()
}
