// The tree over the leaves of many texts.
ghost use Rattle.std.specs.Prelude.{◌≡◌, ◌-◌, ◌*◌, ◌^◌, ◌<◌, ◌≤◌, ◌++◌, [], ◌∷◌, length, replicate, take, IfOk, OnOk};
ghost use Rattle.lms.specs.Chains.{joined};
ghost use Rattle.lms.specs.Secrets.{sibling};
ghost use Rattle.bfs_signatures.specs.Signature.{most_height};
ghost use Rattle.bfs_signatures.specs.Signing.{beside, height_of, least_height, root, signature_under};
ghost use Rattle.bfs_signatures.specs.Nodes.{HasNodes, node_count};

use crate::hashes::node_hash;
use std::alloc::{AllocError, Global};
use std::marker::Model;

/// A tree over leaves. To a contract it is its leaves.
#[derive(Drop)]
pub(crate) struct Tree {
    leaf_count: usize,
    height: u32,
    nodes: Vec<[u8; 32]>,
}

impl Model for Tree {
    ghost use Rattle.std.specs.Prelude.{◌^◌, ◌≤◌, ℕ, List, take};
    ghost use Rattle.bfs_signatures.specs.Nodes.{IsTreeOver};

    ghost Value = { List (List ℕ) };

    ghost view = { λ tree. take tree.leaf_count tree.nodes.items };

    ghost invariant = { λ tree. (tree.leaf_count ≤ 2 ^ tree.height) × IsTreeOver (take tree.leaf_count tree.nodes.items) tree.height tree.nodes.items };
}

impl Tree {
    pub(crate) fn over(alloc: Global, leaves: &[[u8; 32]]) -> Result<Tree, AllocError>
        requires { length leaves.now ≤ 2 ^ most_height }
        ensures { IfOk result (λ tree. tree ≡ leaves.now) }
    {
        let height = height_for(leaves.len());
        Ok(Tree {
            leaf_count: leaves.len(),
            height,
            nodes: nodes_over(alloc, leaves, height)?,
        })
    }

    pub(crate) fn leaf_count(&self) -> usize
        ensures { result ≡ length self.now }
    {
        self.leaf_count
    }

    pub(crate) fn root(&self) -> &[u8; 32]
        ensures { result.now ≡ root self.now }
    {
        &self.nodes[self.nodes.len() - 1]
    }

    /// The signature of the text with the leaf of that number.
    pub(crate) fn signature(
        &self,
        alloc: Global,
        leaf: usize,
        root_signature: &[u8],
    ) -> Result<Vec<u8>, AllocError>
        requires { leaf < length self.now }
        ensures { IfOk result (λ bytes. bytes.items ≡ signature_under root_signature.now self.now leaf) }
    {
        let length = 8 + 32 * self.height as usize;
        let mut out = Vec::with_capacity(alloc, length.saturating_add(root_signature.len()))?;
        out.extend_from_slice(&(leaf as u32).to_be_bytes())?;
        out.extend_from_slice(&self.height.to_be_bytes())?;
        self.put_path(&mut out, leaf)?;
        out.extend_from_slice(root_signature)?;
        Ok(out)
    }

    // appends the nodes beside the way from a leaf to the root
    fn put_path(&self, out: &mut Vec<u8>, leaf: usize) -> Result<(), AllocError>
        requires { leaf < length self.now }
        ensures { OnOk result (out.new.items ≡ out.old.items ++ joined (beside self.now leaf) (height_of self.now)) }
    {
        let leaves = 1 << self.height;
        let mut place = leaf;
        for _level in 0..self.height {
            out.extend_from_slice(&self.nodes[sibling(place)])?;
            place = leaves + place / 2;
        }
        Ok(())
    }
}

// the number of the node beside that of the number
fn sibling(number: usize) -> usize
    requires { number < 2 ^ 31 }
    ensures { result ≡ sibling number }
{
    if number % 2 == 1 {
        number - 1
    } else {
        number + 1
    }
}

// the least height of a tree with room for so many leaves
fn height_for(count: usize) -> u32
    requires { count ≤ 2 ^ most_height }
    ensures { result ≡ least_height most_height count }
{
    let mut height = 0;
    while 1 << height < count {
        height += 1;
    }
    height
}

// the leaves, and what stands for those that are missing
fn padded(alloc: Global, leaves: &[[u8; 32]], height: u32) -> Result<Vec<[u8; 32]>, AllocError>
    requires height { height ≤ most_height }
    requires room { length leaves.now ≤ 2 ^ height }
    ensures { IfOk result (λ nodes. nodes.items ≡ leaves.now ++ replicate (2 ^ height - length leaves.now) (replicate 32 0)) }
{
    let width = 1 << height;
    let mut nodes = Vec::with_capacity(alloc, 2 * width - 1)?;
    nodes.extend_from_slice(leaves)?;
    for _missing in leaves.len()..width {
        nodes.push([0; 32])?;
    }
    Ok(nodes)
}

// the nodes of a tree over the leaves, level after level: above the leaves, the node behind so many others is over the two that stand at twice that number
fn nodes_over(alloc: Global, leaves: &[[u8; 32]], height: u32) -> Result<Vec<[u8; 32]>, AllocError>
    requires height { height ≤ most_height }
    requires room { length leaves.now ≤ 2 ^ height }
    ensures whole { IfOk result (λ nodes. length nodes.items ≡ node_count height) }
    ensures leaves { IfOk result (λ nodes. take (length leaves.now) nodes.items ≡ leaves.now) }
    ensures made { IfOk result (λ nodes. HasNodes leaves.now height nodes.items) }
{
    let mut nodes = padded(alloc, leaves, height)?;
    for number in 0..nodes.len() - 1 {
        let node = node_hash(&nodes[2 * number], &nodes[2 * number + 1]);
        nodes.push(node)?;
    }
    Ok(nodes)
}
