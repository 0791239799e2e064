//! Signatures of hashes alone: LMS with LM-OTS (RFC 8554), with SHA-256 and hashes of 32 bytes. Which signatures pass is the standard's algorithm, of any bytes;
//! what is malformed does not pass. Checking takes no memory but for what `UpperLevels` keeps.
#![tactic(auto)]

mod bytes;
mod chains;
mod digits;
mod error;
mod growing;
mod growing_trees;
mod hss;
mod laws;
mod levels;
mod links;
mod nodes;
mod one_time;
mod place;
mod private_key;
mod public_key;
mod renewal;
mod signer;
mod signing;
mod tree;
mod trees;
mod types;
mod upper_levels;
mod verifying;

pub use error::SignError;
pub use hss::{HssPublicKey, MOST_LEVELS, hss_verify};
pub use laws::{what_is_signed_verifies, what_levels_sign_verifies};
pub use private_key::PrivateKey;
pub use public_key::PublicKey;
pub use signer::Signer;
pub use tree::Tree;
pub use types::{LmsType, OtsType, TreeTypes};
pub use upper_levels::UpperLevels;
pub use verifying::verify;
