// Trees of hashes (LMS).
ghost use Rattle.std.specs.Prelude.{◌≡◌, ◌*◌, length};
ghost use Rattle.lms.specs.Trees.{climbed, inner_node, leaf_node, node_above};

use crate::bytes::hash_at;
use crate::chains::hasher_at;
use sha2::Digest;

// what stands before what is hashed of leaves and of other nodes
const LEAF: u16 = 0x8282;

const INNER: u16 = 0x8383;

pub(crate) fn leaf_node(id: &[u8; 16], number: u32, key: &[u8; 32]) -> [u8; 32]
    ensures { result ≡ leaf_node id.now number key.now }
{
    let mut hasher = hasher_at(id, number, LEAF);
    hasher.update(key);
    hasher.finalize()
}

pub(crate) fn inner_node(id: &[u8; 16], number: u32, left: &[u8], right: &[u8]) -> [u8; 32]
    ensures { result ≡ inner_node id.now number left.now right.now }
{
    let mut hasher = hasher_at(id, number, INNER);
    hasher.update(left);
    hasher.update(right);
    hasher.finalize()
}

// the node over that of the number and its sibling
fn node_above(id: &[u8; 16], number: u32, node: &[u8; 32], sibling: &[u8]) -> [u8; 32]
    ensures { result ≡ node_above id.now number node.now sibling.now }
{
    if number % 2 == 1 {
        inner_node(id, number / 2, sibling, node)
    } else {
        inner_node(id, number / 2, node, sibling)
    }
}

// the node so many levels above, by the siblings on the way
pub(crate) fn climb(
    id: &[u8; 16],
    mut number: u32,
    mut node: [u8; 32],
    path: &[u8],
    levels: u32,
) -> [u8; 32]
    requires { length path.now ≡ 32 * levels }
    ensures { result ≡ climbed id.now number node path.now levels }
{
    for level in 0..levels {
        node = node_above(id, number, &node, hash_at(path, level as usize));
        number /= 2;
    }
    node
}
