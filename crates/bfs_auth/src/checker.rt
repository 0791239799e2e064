// Authenticators that are checked one after another: a root's signature that was verified is not verified again.
ghost use Rattle.std.specs.Prelude.{◌≡◌, IfSome};
ghost use Rattle.std.specs.Bool.{OnTrue};
ghost use Rattle.lms.specs.Levels.{hss_public_key_bytes, hss_verifies};
ghost use Rattle.bfs_signatures.specs.Signature.{is_signature, is_signature_of_leaf, root_signature_in};
ghost use Rattle.bfs_auth.specs.Authenticators.{is_signed_by, passes, signature_in};

use crate::authenticators::{Authenticator, SignatureBytes};
use crate::checking::is_hashed;
use crate::kept_levels::is_root_signed;
use crate::pairwise::Keys;
use crate::principals::Principal;
use crate::signatures::leaf_hash;
use crate::texts::Text;
use bfs_signatures::{root_of, root_signature_of};
use lms::{HssPublicKey, UpperLevels};

/// Checks authenticators one after another. Texts that are signed at once have one root and one signature of it, whose verifying takes nearly all
/// of the time: of those that come one behind another by one public key it verifies the first alone.
#[derive(Drop)]
pub struct Checker {
    last: Option<Verified>,
}

// a root's signature that was verified, and whether it passed
#[derive(Drop)]
struct Verified {
    public_key: [u8; 60],
    root: [u8; 32],
    // a text's, with that root's signature in it
    signature: SignatureBytes,
    answer: bool,
    ghost told: { answer ≡ hss_verifies public_key root (root_signature_in signature) },
}

impl Checker {
    /// One that has verified nothing.
    pub fn new() -> Checker {
        Checker { last: None }
    }

    /// What `check_text` answers. It keeps a share of a signature's bytes until it verifies another one, and the keys keep the upper levels of one that passes.
    #[tactic(auto, unfolding(crate::specs::Authenticators::passes))]
    pub fn check_text<T: Text>(
        &mut self,
        keys: &Keys,
        sender: Principal,
        text: &T,
        auth: &Authenticator,
    ) -> bool
        ensures { result ≡ passes keys.now sender (T.text text.now) auth.now }
    {
        match keys.public_key_of(sender, text) {
            Some(public_key) => {
                let levels = keys.upper_levels_of(sender, text);
                self.is_signed_by(levels, public_key, text, auth)
            }
            None => is_hashed(keys, sender, text, auth),
        }
    }

    fn is_signed_by<T: Text>(
        &mut self,
        levels: Option<&UpperLevels>,
        public_key: &HssPublicKey,
        text: &T,
        auth: &Authenticator,
    ) -> bool
        ensures { result ≡ is_signed_by (hss_public_key_bytes public_key.now) (T.text text.now) (signature_in auth.now) }
    {
        match auth.signature_bytes() {
            Some(signature) => self.is_signature(levels, public_key, text, signature),
            None => false,
        }
    }

    fn is_signature<T: Text>(
        &mut self,
        levels: Option<&UpperLevels>,
        public_key: &HssPublicKey,
        text: &T,
        signature: &SignatureBytes,
    ) -> bool
        ensures { result ≡ is_signature (hss_public_key_bytes public_key.now) (T.text text.now) signature.now }
    {
        self.is_signature_of_leaf(levels, &public_key.to_bytes(), &leaf_hash(text), signature)
    }

    #[tactic(auto, using(crate::proofs::Rooted::by_root, crate::proofs::Rooted::no_root, crate::proofs::Rooted::no_root_signature))]
    fn is_signature_of_leaf(
        &mut self,
        levels: Option<&UpperLevels>,
        public_key: &[u8; 60],
        leaf: &[u8; 32],
        signature: &SignatureBytes,
    ) -> bool
        ensures { result ≡ is_signature_of_leaf public_key.now leaf.now signature.now }
    {
        let Some(root) = root_of(leaf, signature.as_slice()) else {
            return false;
        };
        let Some(root_signature) = root_signature_of(signature.as_slice()) else {
            return false;
        };
        if let Some(answer) = self.told(public_key, &root, root_signature) {
            return answer;
        }
        let answer = is_root_signed(levels, public_key, &root, root_signature);
        self.last = remembered(public_key, root, signature, answer);
        answer
    }

    // what was answered last, if that was asked
    fn told(&self, public_key: &[u8; 60], root: &[u8; 32], root_signature: &[u8]) -> Option<bool>
        ensures { IfSome result (λ answer. answer ≡ hss_verifies public_key.now root.now root_signature.now) }
    {
        match &self.last {
            Some(last) => last.answer_to(public_key, root, root_signature),
            None => None,
        }
    }
}

impl Verified {
    // none where something else was asked
    fn answer_to(
        &self,
        public_key: &[u8; 60],
        root: &[u8; 32],
        root_signature: &[u8],
    ) -> Option<bool>
        ensures { IfSome result (λ answer. answer ≡ hss_verifies public_key.now root.now root_signature.now) }
    {
        if are_equal(self.public_key.as_slice(), public_key.as_slice())
            && are_equal(self.root.as_slice(), root.as_slice())
            && has_root_signature(&self.signature, root_signature)
        {
            Some(self.answer)
        } else {
            None
        }
    }
}

fn are_equal(one: &[u8], other: &[u8]) -> bool
    ensures { OnTrue result (one.now ≡ other.now) }
{
    one == other
}

#[tactic(auto, using(crate::proofs::Rooted::root_signature_is))]
fn has_root_signature(signature: &SignatureBytes, root_signature: &[u8]) -> bool
    ensures { OnTrue result (root_signature_in signature.now ≡ root_signature.now) }
{
    match root_signature_of(signature.as_slice()) {
        Some(own) => are_equal(own, root_signature),
        None => false,
    }
}

// none where its bytes can't be shared
fn remembered(
    public_key: &[u8; 60],
    root: [u8; 32],
    signature: &SignatureBytes,
    answer: bool,
) -> Option<Verified>
    requires { answer ≡ hss_verifies public_key.now root (root_signature_in signature.now) }
{
    match signature.share() {
        Ok(signature) => Some(Verified {
            public_key: *public_key,
            root,
            signature,
            answer,
        }),
        Err(_) => None,
    }
}
