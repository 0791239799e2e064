ghost use Rattle.std.specs.Prelude.{◌≡◌, ◌↔◌, ◌^◌, ◌<◌, ◌≤◌, ◌++◌, length, IfOk, OnOk};
ghost use Rattle.lms.specs.Chains.{joined};
ghost use Rattle.lms.specs.Nodes.{HasNodes, node_count};
ghost use Rattle.lms.specs.Secrets.{beside, public_key, sibling, signature_of};
ghost use Rattle.lms.specs.Types.{height, leaf_count};

use crate::error::SignError;
use crate::nodes::{next_node, node_at, node_count};
use crate::one_time::text_hash;
use crate::private_key::PrivateKey;
use crate::public_key::PublicKey;
use crate::signing::put_values;
use crate::verifying::signature_length;
use std::alloc::{AllocError, Global};
use std::marker::Model;

/// A private key of one tree with all nodes of its tree, each of 32 bytes, twice as many as it has leaves but one. To a contract it is its key.
#[derive(Drop)]
pub struct Tree {
    key: PrivateKey,
    nodes: Vec<[u8; 32]>,
}

impl Model for Tree {
    ghost use Rattle.std.specs.Prelude.{◌≡◌, length};
    ghost use Rattle.lms.specs.declared.private_key.PrivateKey.{PrivateKey};
    ghost use Rattle.lms.specs.Nodes.{HasNodes, node_count};

    ghost Value = { PrivateKey };

    ghost view = { λ tree. tree.key };

    ghost invariant = { λ tree. (length tree.nodes.items ≡ node_count tree.key) × HasNodes tree.key tree.nodes.items };
}

impl Tree {
    /// Makes the tree of a key, which takes long: of height 10 with chains of 15 steps, a million compressions of SHA-256. The error is want of memory.
    pub fn new(alloc: Global, key: PrivateKey) -> Result<Tree, AllocError>
        ensures { IfOk result (λ tree. tree ≡ key) }
    {
        Growing::new(alloc, key).finish()
    }

    /// A copy. The error is want of memory.
    pub(crate) fn try_clone(&self, alloc: Global) -> Result<Tree, AllocError>
        ensures { IfOk result (λ copy. copy ≡ self.now) }
    {
        Ok(Tree {
            key: self.key,
            nodes: Vec::from_slice(alloc, &self.nodes)?,
        })
    }

    pub(crate) fn key(&self) -> &PrivateKey
        ensures { result.now ≡ self.now }
    {
        &self.key
    }

    /// The public key (RFC 8554 section 5.3).
    pub fn public_key(&self) -> PublicKey
        ensures { result ≡ public_key self.now }
    {
        PublicKey {
            lms: self.key.lms,
            ots: self.key.ots,
            id: self.key.id,
            root: *node_at(&self.key, &self.nodes, 1),
        }
    }

    /// The signature of a text by a leaf (RFC 8554 section 5.4.1), with the randomizer that the seed gives. A leaf may sign one text only. `NoIndex` where the tree has
    /// no such leaf, `Memory` where memory runs out.
    pub fn sign(&self, alloc: Global, leaf: u32, text: &[u8]) -> Result<Vec<u8>, SignError>
        ensures ok { IfOk result (λ bytes. bytes.items ≡ signature_of self.now leaf text.now) }
        ensures no_index { (result ≡ Err SignError.NoIndex) ↔ (leaf_count self.now.lms ≤ leaf) }
    {
        if leaf >= self.key.lms.leaf_count() {
            return Err(SignError::NoIndex);
        }
        let length = signature_length(self.key.lms, self.key.ots);
        let mut out = Vec::with_capacity(alloc, length)?;
        self.put_signature(&mut out, leaf, text)?;
        Ok(out)
    }

    /// Appends the signature of a text by a leaf.
    pub(crate) fn put_signature(
        &self,
        out: &mut Vec<u8>,
        leaf: u32,
        text: &[u8],
    ) -> Result<(), AllocError>
        requires { leaf < leaf_count self.now.lms }
        ensures { OnOk result (out.new.items ≡ out.old.items ++ signature_of self.now leaf text.now) }
    {
        let key = &self.key;
        let randomizer = key.randomizer(leaf);
        let hash = text_hash(&key.id, leaf, &randomizer, text);
        out.extend_from_slice(&leaf.to_be_bytes())?;
        out.extend_from_slice(&key.ots.code().to_be_bytes())?;
        out.extend_from_slice(&randomizer)?;
        put_values(out, key, leaf, &hash)?;
        out.extend_from_slice(&key.lms.code().to_be_bytes())?;
        put_path(out, key, &self.nodes, leaf)
    }
}

// the number of the node beside that of the number
fn sibling(number: u32) -> u32
    requires { number < 2 ^ 31 }
    ensures { result ≡ sibling number }
{
    if number % 2 == 1 {
        number - 1
    } else {
        number + 1
    }
}

// appends the nodes beside the way from a leaf to the root
fn put_path(
    out: &mut Vec<u8>,
    key: &PrivateKey,
    nodes: &[[u8; 32]],
    leaf: u32,
) -> Result<(), AllocError>
    requires leaf { leaf < leaf_count key.now.lms }
    requires whole { length nodes.now ≡ node_count key.now }
    requires made { HasNodes key.now nodes.now }
    ensures { OnOk result (out.new.items ≡ out.old.items ++ joined (beside key.now leaf) (height key.now.lms)) }
{
    let mut number = key.lms.leaf_count() + leaf;
    for _level in 0..key.lms.height() {
        out.extend_from_slice(node_at(key, nodes, sibling(number)))?;
        number /= 2;
    }
    Ok(())
}

/// A tree that is being made, a node at a time. To a contract it is its key.
#[derive(Drop)]
pub(crate) struct Growing {
    key: PrivateKey,
    nodes: Vec<[u8; 32]>,
}

impl Model for Growing {
    ghost use Rattle.std.specs.Prelude.{◌≤◌, length};
    ghost use Rattle.lms.specs.declared.private_key.PrivateKey.{PrivateKey};
    ghost use Rattle.lms.specs.Nodes.{HasNodes, node_count};

    ghost Value = { PrivateKey };

    ghost view = { λ tree. tree.key };

    ghost invariant = { λ tree. (length tree.nodes.items ≤ node_count tree.key) × HasNodes tree.key tree.nodes.items };
}

impl Growing {
    pub(crate) fn new(alloc: Global, key: PrivateKey) -> Growing
        ensures { result ≡ key }
    {
        Growing {
            key,
            nodes: Vec::new(alloc),
        }
    }

    pub(crate) fn key(&self) -> &PrivateKey
        ensures { result.now ≡ self.now }
    {
        &self.key
    }

    // with the nodes of a tree
    pub(crate) fn of_tree(tree: Tree) -> Growing
        ensures { result ≡ tree }
    {
        let Tree { key, nodes } = tree;
        Growing { key, nodes }
    }

    // a copy as far as it has grown
    pub(crate) fn try_clone(&self, alloc: Global) -> Result<Growing, AllocError>
        ensures { IfOk result (λ copy. copy ≡ self.now) }
    {
        Ok(Growing {
            key: self.key,
            nodes: Vec::from_slice(alloc, &self.nodes)?,
        })
    }

    // whether all nodes are made
    pub(crate) fn is_whole(&self) -> bool {
        self.nodes.len() >= node_count(&self.key) as usize
    }

    // makes one leaf, which takes a thousand compressions of SHA-256 where its chains have 15 steps, or once all are made some of the nodes over them
    pub(crate) fn grow(&mut self) -> Result<(), AllocError>
        ensures { self.new ≡ self.old }
    {
        let leaves = self.key.lms.leaf_count() as usize;
        let count = if self.nodes.len() < leaves { 1 } else { 256 };
        let most = node_count(&self.key) as usize;
        let end = self.nodes.len().saturating_add(count).min(most);
        make_until(&self.key, &mut self.nodes, end)
    }

    // makes the nodes that are missing
    pub(crate) fn finish(self) -> Result<Tree, AllocError>
        ensures { IfOk result (λ tree. tree ≡ self) }
    {
        let Growing { key, mut nodes } = self;
        let count = node_count(&key) as usize;
        make_until(&key, &mut nodes, count)?;
        Ok(Tree { key, nodes })
    }
}

// makes nodes until there are so many
fn make_until(key: &PrivateKey, nodes: &mut Vec<[u8; 32]>, count: usize) -> Result<(), AllocError>
    requires few { length nodes.old.items ≤ count }
    requires count { count ≤ node_count key.now }
    requires made { HasNodes key.now nodes.old.items }
    ensures whole { OnOk result (length nodes.new.items ≡ count) }
    ensures few { length nodes.new.items ≤ count }
    ensures made { HasNodes key.now nodes.new.items }
{
    nodes.reserve(count - nodes.len())?;
    while nodes.len() < count {
        let node = next_node(key, nodes);
        nodes.push(node)?;
    }
    Ok(())
}
