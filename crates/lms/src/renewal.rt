// The trees that sign with an index, made where they are not kept.
ghost use Rattle.std.specs.Prelude.{◌≡◌, ◌+◌, ◌*◌, ◌/◌, ◌%◌, ◌^◌, ◌<◌, ◌≤◌, [], ◌∷◌, ◌++◌, length, max, take, IfNone, IfOk, IfSome, OnOk, Some};
ghost use Rattle.lms.specs.Levels.{most_levels};
ghost use Rattle.lms.specs.Signers.{count_below, key_at, last_key, last_leaf, places_of};
ghost use Rattle.lms.specs.Types.{leaf_count};

use crate::growing_trees::GrowingTrees;
use crate::links::{Link, tree_at};
use crate::place::Place;
use crate::private_key::PrivateKey;
use crate::tree::{Growing, Tree};
use crate::types::TreeTypes;
use std::alloc::{AllocError, Global};
use std::sync::Mutex;

// how many texts are signed below one leaf. `None` where they are more than indexes are told apart.
fn count_below(below: &[TreeTypes]) -> Option<u64>
    requires { length below.now < most_levels }
    ensures some { IfSome result (λ count. (count ≡ count_below below.now) × (0 < count)) }
    ensures none { IfNone result (2 ^ 64 ≤ count_below below.now) }
{
    let mut bits = 0;
    for types in below {
        bits += types.lms.height();
    }
    if bits < 64 { Some(1 << bits) } else { None }
}

// the leaf that signs with an index, and what is left of the index below it
#[tactic(auto, using(crate::proofs::Ways::no_quotient, crate::proofs::Ways::all_left))]
pub(crate) fn split_index(below: &[TreeTypes], index: u64) -> (u64, u64)
    requires { length below.now < most_levels }
    ensures leaf { result.0 ≡ index / count_below below.now }
    ensures left { result.1 ≡ index % count_below below.now }
{
    match count_below(below) {
        Some(count) => (index / count, index % count),
        None => (0, index),
    }
}

// makes the trees those that sign with the index, and gives the leaf of the last one
#[tactic(auto, using(crate::proofs::Ways::leaf_within))]
pub(crate) fn renew(
    alloc: Global,
    first: &Tree,
    growing: &Mutex<GrowingTrees>,
    links: &mut Vec<Link>,
    below: &[TreeTypes],
    index: u64,
) -> Result<u32, AllocError>
    requires levels { length below.now < most_levels }
    requires few { length links.old.items ≤ length below.now }
    requires index { index < leaf_count first.now.lms * count_below below.now }
    ensures places { OnOk result (links.new.items ≡ places_of first.now below.now index) }
    ensures leaf { IfOk result (λ leaf. leaf ≡ last_leaf below.now index) }
    ensures last { OnOk result (key_at first.now links.new.items (length links.new.items) ≡ Some (last_key first.now below.now index)) }
    ensures within { IfOk result (λ leaf. leaf < leaf_count (last_key first.now below.now index).lms) }
    ensures few { length links.new.items ≤ length below.now }
{
    let mut key = *first.key();
    let mut rest = index;
    for level in 0..below.len() {
        let (leaf, left) = split_index(&below[level..], rest);
        let place = Place {
            parent: key,
            types: below[level],
            leaf: leaf as u32,
        };
        renew_link(alloc, first, growing, links, level, place)?;
        key = place.key();
        rest = left;
    }
    Ok(rest as u32)
}

// makes the tree at a level the one at the place
fn renew_link(
    alloc: Global,
    first: &Tree,
    growing: &Mutex<GrowingTrees>,
    links: &mut Vec<Link>,
    level: usize,
    place: Place,
) -> Result<(), AllocError>
    requires level { level ≤ length links.old.items }
    requires parent { key_at first.now links.old.items level ≡ Some place.parent }
    requires leaf { place.leaf < leaf_count place.parent.lms }
    ensures place { OnOk result (take (level + 1) links.new.items ≡ take level links.old.items ++ place ∷ []) }
    ensures few { length links.new.items ≤ max (length links.old.items) (level + 1) }
{
    if level < links.len() && links[level].place() == place {
        return Ok(());
    }
    let tree = take_tree(alloc, growing, place.key())?;
    let link = Link::new(alloc, tree_at(first, links, level), place, tree)?;
    put_link(links, level, link)
}

// the tree of a key: the one that grows, or made anew
fn take_tree(
    alloc: Global,
    growing: &Mutex<GrowingTrees>,
    key: PrivateKey,
) -> Result<Tree, AllocError>
    ensures { IfOk result (λ tree. tree ≡ key) }
{
    match take_growing(growing, &key) {
        Some(tree) => tree.finish(),
        None => Tree::new(alloc, key),
    }
}

fn take_growing(growing: &Mutex<GrowingTrees>, key: &PrivateKey) -> Option<Growing>
    ensures { IfSome result (λ tree. tree ≡ key.now) }
{
    let mut trees = growing.try_lock()?;
    trees.take(key)
}

fn put_link(links: &mut Vec<Link>, level: usize, link: Link) -> Result<(), AllocError>
    requires { level ≤ length links.old.items }
    ensures link { OnOk result (take (level + 1) links.new.items ≡ take level links.old.items ++ link ∷ []) }
    ensures few { length links.new.items ≤ max (length links.old.items) (level + 1) }
{
    if level < links.len() {
        links[level] = link;
    } else {
        links.push(link)?;
    }
    Ok(())
}

// the key of the tree that signs at a level with an index. `None` where there is none.
pub(crate) fn key_with(
    first: PrivateKey,
    below: &[TreeTypes],
    index: u64,
    level: usize,
) -> Option<PrivateKey>
    requires levels { length below.now < most_levels }
    requires level { level < length below.now }
{
    let mut key = first;
    let mut rest = index;
    for number in 0..=level {
        let (leaf, left) = split_index(&below[number..], rest);
        let leaf = u32::try_from(leaf).ok()?;
        if leaf >= key.lms.leaf_count() {
            return None;
        }
        key = key.child(below[number], leaf);
        rest = left;
    }
    Some(key)
}

// An index that a next tree of these levels signs with, once that is to grow: of the last level always, and above it behind the half of a tree, so that one level's
// growing is left time beside another's. `None` where there is none.
pub(crate) fn index_ahead(below: &[TreeTypes], index: u64) -> Option<u64>
    requires { length below.now < most_levels }
{
    let count = count_below(below)?;
    index.checked_add(if below.len() == 1 { count } else { count / 2 })
}
