ghost use Rattle.std.specs.Prelude.{◌≡◌, ◌+◌, ◌<◌, ◌≤◌, Some, IfNone, IfSome, length, take};
ghost use Rattle.lms.specs.Bytes.{word_at};
ghost use Rattle.lms.specs.Levels.{hss_is_signed, hss_public_key_bytes, hss_public_key_in, hss_verifies, is_formed_over, most_levels};
ghost use Rattle.lms.specs.UpperLevels.{LeadTo, SignsNothing};

use crate::bytes::{put_at, word_at};
use crate::levels::{Level, last_level};
use crate::public_key::PublicKey;
use crate::verifying::{is_formed, signature_length};

/// How many levels a key has at most (RFC 8554 section 6).
pub const MOST_LEVELS: u32 = 8;

/// A public key of one to eight levels (HSS, RFC 8554 section 6.1): that of its first tree.
#[derive(Clone, Copy, Debug, PartialEq, Eq)]
pub struct HssPublicKey {
    /// How many levels it has.
    pub levels: u32,
    /// The public key of the tree that signs the public keys of the second level or, of one level alone, texts.
    pub key: PublicKey,
}

/// Whether these are bytes of a public key of one to eight levels, and of a signature of the text by it (RFC 8554 section 6.3). `false` where they are malformed
/// in any way, as `verify` says, or tell different numbers of levels, or more than eight. It takes no memory.
pub fn hss_verify(public_key: &[u8], text: &[u8], signature: &[u8]) -> bool
    ensures { result ≡ hss_verifies public_key.now text.now signature.now }
{
    match HssPublicKey::from_bytes(public_key) {
        Some(key) => key.verify(text, signature),
        None => false,
    }
}

impl HssPublicKey {
    /// How many bytes a public key has.
    pub const LENGTH: usize = 60;

    /// The public key that the bytes are. `None` where they are not 60, tell no levels or more than eight, or hold no public key of a tree.
    pub fn from_bytes(bytes: &[u8]) -> Option<HssPublicKey>
        ensures { result ≡ hss_public_key_in bytes.now }
    {
        if bytes.len() < 4 {
            return None;
        }
        let levels = word_at(bytes, 0);
        if levels == 0 || levels > MOST_LEVELS {
            return None;
        }
        let key = PublicKey::from_bytes(&bytes[4..])?;
        Some(HssPublicKey { levels, key })
    }

    /// Its bytes: the number of its levels, and the public key of its first tree.
    pub fn to_bytes(&self) -> [u8; 60]
        ensures { result ≡ hss_public_key_bytes self.now }
    {
        let mut bytes = [0; 60];
        put_at(&mut bytes, 0, &self.levels.to_be_bytes());
        put_at(&mut bytes, 4, &self.key.to_bytes());
        bytes
    }

    /// Whether these are bytes of a signature of the text by this key, as `hss_verify` says.
    pub fn verify(&self, text: &[u8], signature: &[u8]) -> bool
        ensures { result ≡ hss_is_signed self.now text.now signature.now }
    {
        let Some(last) = self.last_level(signature) else {
            return false;
        };
        last.verify(text, signature)
    }

    // The last level of a signature by this key. `None` where the levels above it don't pass, or where it is malformed: nothing is hashed then.
    pub(crate) fn last_level(&self, signature: &[u8]) -> Option<Level>
        ensures place { IfSome result (λ last. last.place ≤ length signature.now) }
        ensures some { IfSome result (λ last. LeadTo self.now (take last.place signature.now) last.key) }
        ensures none { IfNone result (SignsNothing self.now signature.now) }
    {
        let below = self.levels_below(signature)?;
        let bytes = &signature[4..];
        if !is_formed_over(below, self.key, bytes) {
            return None;
        }
        let last = last_level(below, self.key, bytes)?;
        Some(Level {
            key: last.key,
            place: 4 + last.place,
        })
    }

    // the number of levels below the first one that a signature tells, if it is this key's
    #[tactic(auto, unfolding(crate::specs::Levels::hss_is_signed))]
    fn levels_below(&self, signature: &[u8]) -> Option<u32>
        ensures there { IfSome result (λ below. (4 ≤ length signature.now) × (below ≡ word_at 0 signature.now)) }
        ensures fits { IfSome result (λ below. (below < most_levels) × (below + 1 ≡ self.now.levels)) }
        ensures none { IfNone result (SignsNothing self.now signature.now) }
    {
        if signature.len() < 4 {
            return None;
        }
        let below = word_at(signature, 0);
        if below < MOST_LEVELS && below + 1 == self.levels {
            Some(below)
        } else {
            None
        }
    }
}

// whether the bytes may be the signatures by a key with so many levels below it, of which nothing is hashed
fn is_formed_over(below: u32, mut key: PublicKey, bytes: &[u8]) -> bool
    requires { below < most_levels }
    ensures { result ≡ is_formed_over below (Some key) bytes.now }
{
    let mut rest = bytes;
    for _level in 0..below {
        let length = signature_length(key.lms, key.ots);
        if rest.len() < length + PublicKey::LENGTH {
            return false;
        }
        let (signature, behind) = rest.split_at(length);
        let (next, behind) = behind.split_at(PublicKey::LENGTH);
        if !is_formed(key.lms, key.ots, signature) {
            return false;
        }
        match PublicKey::from_bytes(next) {
            Some(next) => key = next,
            None => return false,
        }
        rest = behind;
    }
    is_formed(key.lms, key.ots, rest)
}
