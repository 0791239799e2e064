//! What is said of all keys and texts. The bodies are empty: what is said is each contract.
ghost use Rattle.bfs_signatures.specs.Laws.{HeightIsLeast, PassesLike, RootTellsTexts, SignedTextsVerify};

/// Of two signatures with one root and one signature of it, one passes where the other does: who has checked one need not check the other's again.
#[tactic(auto, using(crate::proofs::Alike::passes_like))]
pub fn passes_like()
    ensures { PassesLike }
{}

/// What a private key of one to eight levels signs of some texts, by any of its indexes, passes by its public key: each signature, with its text.
#[tactic(auto, using(crate::proofs::Signed::signed_texts_verify))]
pub fn what_is_signed_verifies()
    ensures { SignedTextsVerify }
{}

/// A tree is no higher than its leaves need.
pub fn height_is_least()
    ensures { HeightIsLeast }
{}

/// Where no two of what is hashed have one hash, a signature that tells the root of a tree is of the text among the tree's that its number says: who signs a root
/// signs no other text.
#[tactic(auto, using(crate::proofs::Telling::root_tells_texts))]
pub fn a_root_tells_its_texts()
    ensures { RootTellsTexts }
{}
