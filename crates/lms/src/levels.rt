// The levels of a signature, one after another.
ghost use Rattle.std.specs.Prelude.{◌≡◌, ◌+◌, ◌<◌, ◌≤◌, ℕ, suc, false, true, List, length, take, drop, Some, IfNone, IfSome};
ghost use Rattle.lms.specs.Keys.{public_key_in, signature_length};
ghost use Rattle.lms.specs.Levels.{first_signature, is_signed_over, most_levels, next_key};
ghost use Rattle.lms.specs.UpperLevels.{LeadOver};
ghost use Rattle.lms.specs.Verifying.{is_signed};

use crate::public_key::PublicKey;
use crate::verifying::signature_length;

/// The public key of a level's tree, and where among the bytes that level begins.
#[derive(Clone, Copy)]
pub(crate) struct Level {
    pub(crate) key: PublicKey,
    pub(crate) place: usize,
}

impl Level {
    // whether it is the last level of a signature of the text
    pub(crate) fn verify(&self, text: &[u8], signature: &[u8]) -> bool
        requires { self.now.place ≤ length signature.now }
        ensures { result ≡ is_signed self.now.key text.now (drop self.now.place signature.now) }
    {
        self.key.verify(text, &signature[self.place..])
    }
}

// the last level of signatures by a key that has so many levels below it. `None` where a level above that doesn't pass.
pub(crate) fn last_level(below: u32, mut key: PublicKey, bytes: &[u8]) -> Option<Level>
    requires { below < most_levels }
    ensures place { IfSome result (λ last. last.place ≤ length bytes.now) }
    ensures some { IfSome result (λ last. LeadOver below key (take last.place bytes.now) last.key) }
    ensures none { IfNone result ((text : List ℕ) → is_signed_over below (Some key) text bytes.now ≡ false) }
{
    let mut place = 0;
    for _level in 0..below {
        let next = next_level(&key, &bytes[place..])?;
        key = next.key;
        place += next.place;
    }
    Some(Level { key, place })
}

// the level below the first one. `None` where its public key isn't signed by the key.
fn next_level(key: &PublicKey, bytes: &[u8]) -> Option<Level>
    ensures place { IfSome result (λ next. next.place ≡ signature_length key.now.lms key.now.ots + 56) }
    ensures within { IfSome result (λ next. next.place ≤ length bytes.now) }
    ensures signed { IfSome result (λ next. is_signed key.now (next_key key.now bytes.now) (first_signature key.now bytes.now) ≡ true) }
    ensures key { IfSome result (λ next. public_key_in (next_key key.now bytes.now) ≡ Some next.key) }
    ensures none { IfNone result ((n : ℕ) (text : List ℕ) → is_signed_over (suc n) (Some key.now) text bytes.now ≡ false) }
{
    let length = signature_length(key.lms, key.ots);
    if bytes.len() < length + PublicKey::LENGTH {
        return None;
    }
    let (signature, behind) = bytes.split_at(length);
    let (next, _) = behind.split_at(PublicKey::LENGTH);
    if !key.verify(next, signature) {
        return None;
    }
    let next = PublicKey::from_bytes(next)?;
    Some(Level {
        key: next,
        place: length + PublicKey::LENGTH,
    })
}
