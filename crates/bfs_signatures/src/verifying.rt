ghost use Rattle.std.specs.Prelude.{◌≡◌, ◌+◌, ◌*◌, ◌≤◌, length, option_map, true};
ghost use Rattle.lms.specs.Bytes.{word_at};
ghost use Rattle.bfs_signatures.specs.Signature.{height_in, is_formed, is_signature_of_leaf, number_in, root_in, root_of, root_signature_in, root_signature_of};

use crate::hashes::climb;
use lms::hss_verify;

/// How many texts are signed at once at most.
pub const MOST_TEXTS: usize = 4096;

// how many levels a tree has at most above its leaves
const MOST_HEIGHT: u32 = 12;

/// Whether these are bytes of a public key of one to eight levels, and of a signature of the text with that leaf by it. `false` where they are malformed in any
/// way: too short, of a tree with room for more than `MOST_TEXTS`, of a leaf that the tree has not, or as `lms::hss_verify` says. It takes no memory.
pub fn verify_leaf(public_key: &[u8], leaf: &[u8; 32], signature: &[u8]) -> bool
    ensures { result ≡ is_signature_of_leaf public_key.now leaf.now signature.now }
{
    is_formed(signature)
        && hss_verify(
            public_key,
            &root_in(leaf, signature),
            root_signature_in(signature),
        )
}

/// The root that a signature of the text with that leaf tells, whether or not the root is signed. `None` where it is malformed: too short, of a tree with room for more
/// than `MOST_TEXTS`, or of a leaf that the tree has not.
pub fn root_of(leaf: &[u8; 32], signature: &[u8]) -> Option<[u8; 32]>
    ensures { result ≡ root_of leaf.now signature.now }
{
    if is_formed(signature) {
        Some(root_in(leaf, signature))
    } else {
        None
    }
}

/// The signature of the root in a text's signature. `None` as `root_of` says.
pub fn root_signature_of(signature: &[u8]) -> Option<&[u8]>
    ensures { option_map (λ bytes. bytes.now) result ≡ root_signature_of signature.now }
{
    if is_formed(signature) {
        Some(root_signature_in(signature))
    } else {
        None
    }
}

fn word_at(bytes: &[u8], place: usize) -> u32
    requires { place + 4 ≤ length bytes.now }
    ensures { result ≡ word_at place bytes.now }
{
    let mut word = [0; 4];
    word.copy_from_slice(&bytes[place..place + 4]);
    u32::from_be_bytes(word)
}

fn is_formed(signature: &[u8]) -> bool
    ensures { result ≡ is_formed signature.now }
{
    if signature.len() < 8 {
        return false;
    }
    let height = word_at(signature, 4);
    height <= MOST_HEIGHT
        && word_at(signature, 0) < 1 << height
        && signature.len() >= 8 + 32 * height as usize
}

// where the signature of the root begins
fn path_end(signature: &[u8]) -> usize
    requires { is_formed signature.now ≡ true }
    ensures value { result ≡ 8 + 32 * height_in signature.now }
    ensures within { result ≤ length signature.now }
{
    8 + 32 * word_at(signature, 4) as usize
}

fn root_signature_in(signature: &[u8]) -> &[u8]
    requires { is_formed signature.now ≡ true }
    ensures { result.now ≡ root_signature_in signature.now }
{
    &signature[path_end(signature)..]
}

fn root_in(leaf: &[u8; 32], signature: &[u8]) -> [u8; 32]
    requires { is_formed signature.now ≡ true }
    ensures { result ≡ root_in leaf.now signature.now }
{
    let path = &signature[8..path_end(signature)];
    climb(word_at(signature, 0), *leaf, path, word_at(signature, 4))
}
