//! One signature for all texts of a turn: they are leaves of a tree of hashes (RFC 9162 section 2.1), whose root is signed once (`lms`). Each text's signature holds
//! the way from its leaf to the root, so that it is checked alone. Checking takes no memory.
#![tactic(auto)]

mod hashes;
mod laws;
mod signing;
mod tree;
mod verifying;

pub use hashes::{leaf_hash, leaf_hasher};
pub use laws::{a_root_tells_its_texts, height_is_least, passes_like, what_is_signed_verifies};
pub use signing::sign_all;
pub use verifying::{MOST_TEXTS, root_of, root_signature_of, verify_leaf};
