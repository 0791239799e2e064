//! The tree of a file system's inodes, and the trait of all stores of inodes.
#![tactic(auto)]

mod ancestry;
mod boxed;
mod boxes;
mod counts;
mod inodes;
mod places;
mod slots;
mod store;
mod trees;
mod well_formed;

pub use ancestry::{is_below, is_directory};
pub use boxed::BoxedInode;
pub use boxes::Boxes;
pub use inodes::Inodes;
pub use store::Store;
pub use trees::Tree;
pub use well_formed::{are_children, directories_among, is_limited};
