// Nodes of a tree, from the last leaf down to the root, each made from those before it.
ghost use Rattle.std.specs.Prelude.{◌≡◌, ◌-◌, ◌<◌, ◌≤◌, [], ◌∷◌, ◌++◌, length, slice_index_or};
ghost use Rattle.lms.specs.Nodes.{HasNodes, node_count};

use crate::private_key::PrivateKey;
use crate::signing::one_time_key;
use crate::trees::{inner_node, leaf_node};

// how many nodes a tree has
pub(crate) fn node_count(key: &PrivateKey) -> u32
    ensures { result ≡ node_count key.now }
{
    2 * key.lms.leaf_count() - 1
}

// the node of that number, where it is made
pub(crate) fn node_at<'a>(key: &PrivateKey, nodes: &'a [[u8; 32]], number: u32) -> &'a [u8; 32]
    requires within { number ≤ node_count key.now }
    requires made { node_count key.now - number < length nodes.now }
    ensures { result.now ≡ slice_index_or nodes.now (node_count key.now - number) [] }
{
    &nodes[(node_count(key) - number) as usize]
}

// the node that comes behind these
pub(crate) fn next_node(key: &PrivateKey, nodes: &[[u8; 32]]) -> [u8; 32]
    requires room { length nodes.now < node_count key.now }
    requires made { HasNodes key.now nodes.now }
    ensures { HasNodes key.now (nodes.now ++ result ∷ []) }
{
    let number = node_count(key) - nodes.len() as u32;
    let leaves = key.lms.leaf_count();
    if number < leaves {
        let left = node_at(key, nodes, 2 * number);
        let right = node_at(key, nodes, 2 * number + 1);
        inner_node(&key.id, number, left, right)
    } else {
        leaf_node(&key.id, number, &one_time_key(key, number - leaves))
    }
}
