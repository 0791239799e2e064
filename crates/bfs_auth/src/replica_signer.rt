// What a replica signs by its own key.
ghost use Rattle.std.specs.Prelude.{◌≡◌, ◌+◌, ◌*◌, ◌^◌, ◌≤◌, ◌<◌, length, vec_len, Err, IfOk};
ghost use Rattle.lms.specs.Levels.{most_levels};
ghost use Rattle.lms.specs.Signers.{count_below, hss_signature_of, index_count};
ghost use Rattle.lms.specs.declared.error.SignError.TheVariants as error;
ghost use Rattle.bfs_auth.specs.Authenticators.{signed_at};
ghost use Rattle.bfs_auth.specs.Places.{index_at, index_below, index_in_view, index_of, view_count};

use crate::authenticators::{MOST_SIGNATURE_BYTES, SignatureBytes};
use crate::places::Place;
use crate::signatures::leaf_hash;
use crate::texts::Text;
use bfs_types::Memory;
use lms::{PrivateKey, SignError, Signer, TreeTypes};
use std::alloc::{AllocError, Global};
use std::marker::Model;
use std::sync::Mutex;

/// A private key of one to eight levels, of which each text is signed by the index of its place. To a contract it is that key. Beside it stand the trees that signed
/// last, and those that grow: for votes, for CHECKPOINTs and for changes of the view, since each of these goes through its indexes in rising order.
#[derive(Drop)]
pub(crate) struct ReplicaSigner {
    first: PrivateKey,
    below: Vec<TreeTypes>,
    pub(crate) votes: Mutex<Signer>,
    pub(crate) checkpoints: Mutex<Signer>,
    pub(crate) changes: Mutex<Signer>,
    // in which view and behind which number all trees are ready
    pub(crate) ready: Mutex<Option<(u64, u64)>>,
}

impl Model for ReplicaSigner {
    ghost use Rattle.std.specs.Prelude.{◌<◌, length};
    ghost use Rattle.lms.specs.Levels.{most_levels};
    ghost use Rattle.lms.specs.Signers.{HssKey};

    ghost Value = { HssKey };

    ghost view = { λ signer. record { first = signer.first; below = signer.below.items } };

    ghost invariant = { λ signer. length signer.below.items < most_levels };
}

impl ReplicaSigner {
    // makes the first tree, which takes long
    pub(crate) fn new(
        alloc: Global,
        first: PrivateKey,
        below: Vec<TreeTypes>,
    ) -> Result<ReplicaSigner, AllocError>
        requires { vec_len below < most_levels }
        ensures { IfOk result (λ signer. signer ≡ record { first = first; below = below.items }) }
    {
        let votes = Signer::new(alloc, first, &below)?;
        Ok(ReplicaSigner {
            first,
            checkpoints: Mutex::new(votes.try_clone(alloc)?),
            changes: Mutex::new(votes.try_clone(alloc)?),
            votes: Mutex::new(votes),
            ready: Mutex::new(None),
            below,
        })
    }

    // the signature of a leaf by an index. `NoIndex` where the key has no such index, `Memory` where memory runs out.
    fn sign_leaf(
        &self,
        alloc: Global,
        trees: &Mutex<Signer>,
        index: u64,
        leaf: &[u8; 32],
    ) -> Result<Vec<u8>, SignError>
        ensures ok { IfOk result (λ bytes. bytes.items ≡ hss_signature_of self.now index leaf.now) }
        ensures no_index { result ≡ Err error.NoIndex → index_count self.now ≤ index }
    {
        if let Some(mut trees) = trees.try_lock() {
            // they always are
            if trees.is_of(&self.first, &self.below) {
                return trees.sign(alloc, index, leaf);
            }
        }
        Signer::new(alloc, self.first, &self.below)?.sign(alloc, index, leaf)
    }

    // the trees that signed last what is of such a place
    fn trees(&self, place: Place) -> &Mutex<Signer> {
        match place {
            Place::Vote { .. } => &self.votes,
            Place::Checkpoint { .. } => &self.checkpoints,
            Place::ViewChange { .. } | Place::NewView { .. } => &self.changes,
        }
    }

    // the index that signs what is of the place
    #[tactic(auto, unfolding(crate::specs::Places::index_of))]
    pub(crate) fn index_of(&self, place: Place) -> Option<u64>
        ensures { result ≡ index_of self.now place }
    {
        match place {
            Place::ViewChange { view } => self.index_in_view(view, 0),
            Place::NewView { view } => self.index_in_view(view, 1),
            Place::Vote { view, number } => self.index_in_view(view, number.checked_add(2)?),
            Place::Checkpoint { number } => self.index_below(self.view_count(), number),
        }
    }

    fn view_count(&self) -> u32
        ensures { result ≡ view_count self.now }
    {
        self.first.lms.leaf_count() - 1
    }

    fn index_in_view(&self, view: u64, number: u64) -> Option<u64>
        ensures { result ≡ index_in_view self.now view number }
    {
        if view < u64::from(self.view_count()) {
            self.index_below(view as u32, number)
        } else {
            None
        }
    }

    // the index of that number below a leaf
    fn index_below(&self, leaf: u32, number: u64) -> Option<u64>
        ensures { result ≡ index_below self.now leaf number }
    {
        index_below(u64::from(leaf), height_below(&self.below), number)
    }

    // the signature of a text by the index of the place; `None` where the key is spent there, or the signature is too long
    #[tactic(auto, using(crate::proofs::Indexes::index_within))]
    pub(crate) fn sign<T: Text>(
        &self,
        alloc: Global,
        place: Place,
        text: &T,
    ) -> Result<Option<SignatureBytes>, Memory>
        ensures { IfOk result (λ made. made ≡ signed_at self.now place (T.text text.now)) }
    {
        let Some(index) = self.index_of(place) else {
            return Ok(None);
        };
        if let Place::Vote { .. } = place {
            self.share_changes(alloc, index);
        }
        let signed = match self.sign_leaf(alloc, self.trees(place), index, &leaf_hash(text)) {
            Ok(signed) => signed,
            Err(SignError::NoIndex) => unreachable!(),
            Err(SignError::Memory) => return Err(Memory),
        };
        let mut bytes = Vec::new(alloc);
        bytes.extend_from_slice(&[0; 8])?;
        bytes.extend_from_slice(&signed)?;
        if bytes.len() > MOST_SIGNATURE_BYTES {
            return Ok(None);
        }
        Ok(Some(SignatureBytes::new(alloc, &bytes)?))
    }
}

// the height of all levels below a leaf together
fn height_below(below: &[TreeTypes]) -> u32
    requires { length below.now < most_levels }
    ensures value { 2 ^ result ≡ count_below below.now }
    ensures within { result ≤ 175 }
{
    let mut height = 0;
    for types in below {
        height += types.lms.height();
    }
    height
}

// the index of that number below a leaf, where 2 to that height are below each
fn index_below(leaf: u64, height: u32, number: u64) -> Option<u64>
    requires { height ≤ 175 }
    ensures { result ≡ index_at (2 ^ height) leaf number }
{
    if height >= 64 {
        return if leaf == 0 { Some(number) } else { None };
    }
    let count = 1 << height;
    if number < count {
        leaf.checked_mul(count)?.checked_add(number)
    } else {
        None
    }
}
