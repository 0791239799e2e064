// Hashes of a tree over texts.
ghost use Rattle.std.specs.Prelude.{◌≡◌, ◌+◌, ◌*◌, ◌≤◌, [], ◌∷◌, length};
ghost use Rattle.sha2.specs.Hashers.{Holds256};
ghost use Rattle.lms.specs.Bytes.{hash_at};
ghost use Rattle.bfs_signatures.specs.Hashes.{climbed, leaf_hash, node_above, node_hash};

use sha2::{Digest, Sha256};

/// A hasher that a text is fed to, in pieces or whole: what it ends with is the text's leaf.
pub fn leaf_hasher() -> Sha256
    ensures { Holds256 result (0 ∷ []) }
{
    let mut hasher = Sha256::new();
    hasher.update([0]);
    hasher
}

/// The leaf of a text (RFC 9162 section 2.1.1).
pub fn leaf_hash(text: &[u8]) -> [u8; 32]
    ensures { result ≡ leaf_hash text.now }
{
    let mut hasher = leaf_hasher();
    hasher.update(text);
    hasher.finalize()
}

// the node over two
pub(crate) fn node_hash(left: &[u8], right: &[u8]) -> [u8; 32]
    ensures { result ≡ node_hash left.now right.now }
{
    let mut hasher = Sha256::new();
    hasher.update([1]);
    hasher.update(left);
    hasher.update(right);
    hasher.finalize()
}

// the node over that of the number and its sibling
fn node_above(number: u32, node: &[u8; 32], sibling: &[u8]) -> [u8; 32]
    ensures { result ≡ node_above number node.now sibling.now }
{
    if number % 2 == 1 {
        node_hash(sibling, node)
    } else {
        node_hash(node, sibling)
    }
}

// the hash of that number, where hashes stand one behind another
fn hash_at(hashes: &[u8], number: usize) -> &[u8]
    requires { 32 * number + 32 ≤ length hashes.now }
    ensures { result.now ≡ hash_at number hashes.now }
{
    let place = 32 * number;
    &hashes[place..place + 32]
}

// the node so many levels above, by the siblings on the way
pub(crate) fn climb(mut number: u32, mut node: [u8; 32], path: &[u8], levels: u32) -> [u8; 32]
    requires { length path.now ≡ 32 * levels }
    ensures { result ≡ climbed number node path.now levels }
{
    for level in 0..levels {
        node = node_above(number, &node, hash_at(path, level as usize));
        number /= 2;
    }
    node
}
