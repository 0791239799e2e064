ghost use Rattle.std.specs.Prelude.{◌≡◌, ◌↔◌, ◌<◌, ◌≤◌, length, IfOk, IsTrue};
ghost use Rattle.lms.specs.Levels.{most_levels};
ghost use Rattle.lms.specs.Signers.{hss_public_key, hss_signature_of, index_count};

use crate::error::SignError;
use crate::growing_trees::GrowingTrees;
use crate::hss::HssPublicKey;
use crate::links::{Link, put_heads, tree_at};
use crate::private_key::PrivateKey;
use crate::renewal::{renew, split_index};
use crate::tree::Tree;
use crate::types::TreeTypes;
use std::alloc::{AllocError, Global};
use std::marker::Model;
use std::sync::Mutex;

/// A private key of one to eight levels (HSS, RFC 8554 section 6), with the trees that signed by its last index, and others that grow before they sign. To a contract it
/// is its key: the private key of the first tree, from whose seed all others are made, and the types of the trees of the levels below.
#[derive(Drop)]
pub struct Signer {
    pub(crate) first: Tree,
    pub(crate) below: Vec<TreeTypes>,
    pub(crate) links: Vec<Link>,
    pub(crate) growing: Mutex<GrowingTrees>,
    // the index that signed last
    pub(crate) last: u64,
}

impl Model for Signer {
    ghost use Rattle.std.specs.Prelude.{◌<◌, ◌≤◌, length};
    ghost use Rattle.lms.specs.Levels.{most_levels};
    ghost use Rattle.lms.specs.Signers.{HssKey};

    ghost Value = { HssKey };

    ghost view = { λ signer. record { first = signer.first; below = signer.below.items } };

    ghost invariant = { λ signer. (length signer.below.items < most_levels) × (length signer.links.items ≤ length signer.below.items) };
}

impl Signer {
    /// Makes the first tree, which takes long, as `Tree::new` says. The error is want of memory.
    pub fn new(alloc: Global, first: PrivateKey, below: &[TreeTypes]) -> Result<Signer, AllocError>
        requires { length below.now < most_levels }
        ensures { IfOk result (λ signer. signer ≡ record { first = first; below = below.now }) }
    {
        let first = Tree::new(alloc, first)?;
        Ok(Signer {
            first,
            below: below.to_vec(alloc)?,
            links: Vec::new(alloc),
            growing: Mutex::new(GrowingTrees::new(alloc)),
            last: 0,
        })
    }

    /// Another signer of the key. It makes no tree anew: the first one is copied, and of those below `copy_trees` takes copies. The error is want of memory.
    pub fn try_clone(&self, alloc: Global) -> Result<Signer, AllocError>
        ensures { IfOk result (λ copy. copy ≡ self.now) }
    {
        Ok(Signer {
            first: self.first.try_clone(alloc)?,
            below: Vec::from_slice(alloc, &self.below)?,
            links: Vec::new(alloc),
            growing: Mutex::new(GrowingTrees::new(alloc)),
            last: 0,
        })
    }

    /// The public key (RFC 8554 section 6.1).
    pub fn public_key(&self) -> HssPublicKey
        ensures { result ≡ hss_public_key self.now }
    {
        HssPublicKey {
            levels: self.below.len() as u32 + 1,
            key: self.first.public_key(),
        }
    }

    /// Whether its key is this one: the private key of the first tree, and the types of the trees of the levels below.
    pub fn is_of(&self, first: &PrivateKey, below: &[TreeTypes]) -> bool
        ensures { IsTrue result ↔ (self.now ≡ record { first = first.now; below = below.now }) }
    {
        *self.first.key() == *first && *self.below == *below
    }

    /// Whether the key has the index: it has as many as its trees of the last level have leaves, by the product of all levels' leaves.
    #[tactic(auto, using(crate::proofs::Ways::leaf_within, crate::proofs::Ways::within_leaf))]
    pub fn has_index(&self, index: u64) -> bool
        ensures { IsTrue result ↔ (index < index_count self.now) }
    {
        let (leaf, _) = split_index(&self.below, index);
        leaf < u64::from(self.first.key().lms.leaf_count())
    }

    /// The signature of a text by an index (RFC 8554 section 6.2). An index may sign one text only: who has signatures of two texts by one index can make more. `NoIndex`
    /// where the key has no such index, `Memory` where memory runs out. It takes long where trees are made for it, since they neither signed last nor have grown.
    pub fn sign(&mut self, alloc: Global, index: u64, text: &[u8]) -> Result<Vec<u8>, SignError>
        ensures ok { IfOk result (λ bytes. bytes.items ≡ hss_signature_of self.old index text.now) }
        ensures no_index { (result ≡ Err SignError.NoIndex) ↔ (index_count self.old ≤ index) }
        ensures same { self.new ≡ self.old }
    {
        if !self.has_index(index) {
            return Err(SignError::NoIndex);
        }
        self.last = index;
        let leaf = renew(
            alloc,
            &self.first,
            &self.growing,
            &mut self.links,
            &self.below,
            index,
        )?;
        let mut out = Vec::new(alloc);
        out.extend_from_slice(&(self.links.len() as u32).to_be_bytes())?;
        put_heads(&mut out, &self.links)?;
        tree_at(&self.first, &self.links, self.links.len()).put_signature(&mut out, leaf, text)?;
        Ok(out)
    }
}
