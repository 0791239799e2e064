//! What a replica keeps and tells of its state at a checkpoint (OSDI 1999 section 4.3): the file system and the last replies.
#![tactic(auto)]

mod adoption;
mod certificates;
mod collecting;
mod digests;
mod keeping;
mod laws;
mod reading;
mod snapshots;
mod states;

pub use adoption::{AdoptError, Adopted, adopt};
pub use certificates::{certificate_with, checkpoints_told};
pub use collecting::collect;
pub use digests::digest_node;
pub use keeping::{Kept, Snapshots, StableSnapshot};
pub use laws::{
    a_node_has_one_text, a_stable_checkpoint_has_a_certificate, a_text_spells_one_node,
    live_nodes_are_read_again, right_checkpoints_are_collected,
};
pub use reading::read_node;
pub use snapshots::{Snapshot, restore_snapshot, take_snapshot};
pub use states::{put_state, read_state};
