ghost use Rattle.std.specs.Prelude.{◌≡◌, true};
ghost use Rattle.lms.specs.Verifying.{is_signed, one_time_key_in, root_candidate, verifies};
ghost use Rattle.lms.specs.Keys.{is_formed, path_place, signature_length};

use crate::bytes::word_at;
use crate::one_time::{key_candidate, text_hash};
use crate::public_key::PublicKey;
use crate::trees::{climb, leaf_node};
use crate::types::{LmsType, OtsType};

/// Whether these are bytes of a public key of one tree, and of a signature of the text by it (RFC 8554 section 5.4.2). `false` where they are malformed in any
/// way: of another length, of unknown types, of other types than the key's, of a leaf that its tree has not. It takes no memory.
pub fn verify(public_key: &[u8], text: &[u8], signature: &[u8]) -> bool
    ensures { result ≡ verifies public_key.now text.now signature.now }
{
    match PublicKey::from_bytes(public_key) {
        Some(key) => key.verify(text, signature),
        None => false,
    }
}

impl PublicKey {
    /// Whether these are bytes of a signature of the text by this key, as `verify` says.
    #[tactic(auto, unfolding(crate::specs::Verifying::is_signed))]
    pub fn verify(&self, text: &[u8], signature: &[u8]) -> bool
        ensures { result ≡ is_signed self.now text.now signature.now }
    {
        is_formed(self.lms, self.ots, signature)
            && root_candidate(self, text, signature).as_slice() == self.root.as_slice()
    }
}

// where a signature has its second typecode
fn path_place(ots: OtsType) -> usize
    ensures { result ≡ path_place ots }
{
    40 + 32 * ots.chain_count() as usize
}

pub(crate) fn signature_length(lms: LmsType, ots: OtsType) -> usize
    ensures { result ≡ signature_length lms ots }
{
    path_place(ots) + 4 + 32 * lms.height() as usize
}

pub(crate) fn is_formed(lms: LmsType, ots: OtsType, signature: &[u8]) -> bool
    ensures { result ≡ is_formed lms ots signature.now }
{
    signature.len() == signature_length(lms, ots)
        && word_at(signature, 4) == ots.code()
        && word_at(signature, path_place(ots)) == lms.code()
        && word_at(signature, 0) < lms.leaf_count()
}

// the root that the signature tells
fn root_candidate(key: &PublicKey, text: &[u8], signature: &[u8]) -> [u8; 32]
    requires { is_formed key.now.lms key.now.ots signature.now ≡ true }
    ensures { result ≡ root_candidate key.now text.now signature.now }
{
    let leaf = word_at(signature, 0);
    let place = path_place(key.ots);
    let hash = text_hash(&key.id, leaf, &signature[8..40], text);
    let one_time = key_candidate(key.ots, &key.id, leaf, &hash, &signature[40..place]);
    let number = key.lms.leaf_count() + leaf;
    let node = leaf_node(&key.id, number, &one_time);
    climb(
        &key.id,
        number,
        node,
        &signature[place + 4..],
        key.lms.height(),
    )
}
