// Trees below leaves of others, as a signer of several levels keeps them.
ghost use Rattle.std.specs.Prelude.{◌≡◌, ◌<◌, ◌≤◌, ◌++◌, length, IfOk, OnOk, Some};
ghost use Rattle.std.specs.List.{flat_map};
ghost use Rattle.lms.specs.Signers.{child_of, head_of, key_at};
ghost use Rattle.lms.specs.Types.{leaf_count};

use crate::place::Place;
use crate::tree::Tree;
use std::alloc::{AllocError, Global};
use std::marker::Model;

/// A tree below a leaf of another one, with what shows it: the leaf's signature of its public key, and that key.
#[derive(Drop)]
pub(crate) struct Link {
    place: Place,
    tree: Tree,
    head: Vec<u8>,
}

impl Model for Link {
    ghost use Rattle.std.specs.Prelude.{◌≡◌};
    ghost use Rattle.lms.specs.declared.place.Place.{Place};
    ghost use Rattle.lms.specs.Signers.{child_of, head_of};

    ghost Value = { Place };

    ghost view = { λ link. link.place };

    ghost invariant = { λ link. (link.tree ≡ child_of link.place) × (link.head.items ≡ head_of link.place) };
}

impl Link {
    pub(crate) fn new(
        alloc: Global,
        parent: &Tree,
        place: Place,
        tree: Tree,
    ) -> Result<Link, AllocError>
        requires leaf { place.leaf < leaf_count parent.now.lms }
        requires parent { place.parent ≡ parent.now }
        requires tree { tree ≡ child_of place }
        ensures { IfOk result (λ link. link ≡ place) }
    {
        let public_key = tree.public_key().to_bytes();
        let mut head = Vec::new(alloc);
        parent.put_signature(&mut head, place.leaf, &public_key)?;
        head.extend_from_slice(&public_key)?;
        Ok(Link { place, tree, head })
    }

    pub(crate) fn place(&self) -> Place
        ensures { result ≡ self.now }
    {
        self.place
    }

    pub(crate) fn tree(&self) -> &Tree
        ensures { result.now ≡ child_of self.now }
    {
        &self.tree
    }

    pub(crate) fn head(&self) -> &[u8]
        ensures { result.now ≡ head_of self.now }
    {
        &self.head
    }
}

// the tree at a level
pub(crate) fn tree_at<'a>(first: &'a Tree, links: &'a [Link], level: usize) -> &'a Tree
    requires { level ≤ length links.now }
    ensures { key_at first.now links.now level ≡ Some result.now }
{
    if level == 0 {
        first
    } else {
        links[level - 1].tree()
    }
}

// appends what shows each tree
pub(crate) fn put_heads(out: &mut Vec<u8>, links: &[Link]) -> Result<(), AllocError>
    ensures { OnOk result (out.new.items ≡ out.old.items ++ flat_map head_of links.now) }
{
    for link in links {
        out.extend_from_slice(link.head())?;
    }
    Ok(())
}
