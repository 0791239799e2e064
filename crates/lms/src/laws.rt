//! What is said of all keys and texts. The bodies are empty: what is said is each contract.
ghost use Rattle.lms.specs.Laws.{HssSignedVerifies, SignedVerifies};

/// What a private key of one tree signs by any of its leaves passes by its public key.
#[tactic(auto, using(crate::proofs::Signed::signed_verifies))]
pub fn what_is_signed_verifies()
    ensures { SignedVerifies }
{}

/// What a private key of one to eight levels signs by any of its indexes passes by its public key.
#[tactic(auto, using(crate::proofs::SignedLevels::hss_signed_verifies))]
pub fn what_levels_sign_verifies()
    ensures { HssSignedVerifies }
{}
