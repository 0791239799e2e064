// Signatures of several levels whose upper levels are hashed once.
ghost use Rattle.std.specs.Prelude.{◌≡◌, ◌≤◌, true, List, length, take, IfSome};
ghost use Rattle.lms.specs.Levels.{hss_is_signed};
ghost use Rattle.lms.specs.UpperLevels.{HavePassed, LeadTo};

use crate::hss::HssPublicKey;
use crate::levels::Level;
use crate::public_key::PublicKey;
use std::alloc::{AllocError, Global};
use std::sync::Mutex;

/// The levels of signatures above the last one that passed last. They stay the same until a tree of the last level is spent, so of most signatures by one key only the
/// last level is hashed. What is kept takes no more than the bytes of one signature, and several threads may verify by it at once.
#[derive(Drop)]
pub struct UpperLevels {
    alloc: Global,
    passed: Mutex<Option<Passed>>,
}

// the bytes of a signature in front of its last level, and the public key of that level's tree
#[derive(Drop)]
struct Passed {
    key: HssPublicKey,
    front: Vec<u8>,
    last: PublicKey,
    ghost leads: { LeadTo key front.items last },
    ghost passed: { ∥ HavePassed key front.items ∥₁ },
}

impl UpperLevels {
    /// None: the first signature is hashed whole.
    pub fn new(alloc: Global) -> UpperLevels {
        UpperLevels {
            alloc,
            passed: Mutex::new(None),
        }
    }

    /// Whether these are bytes of a signature of the text by the key, as `HssPublicKey::verify` says, whatever was kept. The upper levels of a signature that passes are
    /// kept in place of others, unless memory is refused or another thread is at them; one that doesn't pass changes nothing.
    pub fn verify(&self, key: &HssPublicKey, text: &[u8], signature: &[u8]) -> bool
        ensures { result ≡ hss_is_signed key.now text.now signature.now }
    {
        if let Some(last) = self.last_level(key, signature) {
            return last.verify(text, signature);
        }
        let Some(last) = key.last_level(signature) else {
            return false;
        };
        let passes = last.verify(text, signature);
        if passes {
            self.keep(key, signature, last);
        }
        passes
    }

    // the last level of a signature by the key whose upper levels are kept
    fn last_level(&self, key: &HssPublicKey, signature: &[u8]) -> Option<Level>
        ensures place { IfSome result (λ last. last.place ≤ length signature.now) }
        ensures some { IfSome result (λ last. LeadTo key.now (take last.place signature.now) last.key) }
    {
        match &*self.passed.try_lock()? {
            Some(passed) => passed.last_level(key, signature),
            None => None,
        }
    }

    fn keep(&self, key: &HssPublicKey, signature: &[u8], last: Level)
        requires place { last.place ≤ length signature.now }
        requires leads { LeadTo key.now (take last.place signature.now) last.key }
        requires passed { HavePassed key.now (take last.place signature.now) }
    {
        if let Ok(passed) = Passed::new(self.alloc, key, signature, last) {
            if let Some(mut kept) = self.passed.try_lock() {
                *kept = Some(passed);
            }
        }
    }
}

impl Passed {
    fn new(
        alloc: Global,
        key: &HssPublicKey,
        signature: &[u8],
        last: Level,
    ) -> Result<Passed, AllocError>
        requires place { last.place ≤ length signature.now }
        requires leads { LeadTo key.now (take last.place signature.now) last.key }
        requires passed { HavePassed key.now (take last.place signature.now) }
    {
        Ok(Passed {
            key: *key,
            front: signature[..last.place].to_vec(alloc)?,
            last: last.key,
        })
    }

    // `None` where the signature is by another key or begins with other bytes
    fn last_level(&self, key: &HssPublicKey, signature: &[u8]) -> Option<Level>
        ensures place { IfSome result (λ last. last.place ≤ length signature.now) }
        ensures some { IfSome result (λ last. LeadTo key.now (take last.place signature.now) last.key) }
    {
        if self.key == *key && signature.starts_with(&self.front) {
            Some(Level {
                key: self.last,
                place: self.front.len(),
            })
        } else {
            None
        }
    }
}
