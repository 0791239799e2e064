//! A replica's process that outlives a crash: what changed its node is kept before one byte of the turn's answer leaves, and a later life begins with the very
//! node that was kept.
#![tactic(auto)]

mod error;
mod folder;
mod keeping;
mod laws;
mod recovering;
mod storing;

pub use error::RecoverError;
pub use folder::Folder;
pub use keeping::Keeping;
pub use laws::{lives_agree, lives_say_one_text, the_node_comes_back};
pub use recovering::recover;
