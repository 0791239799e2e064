//! A gate that finds no memory.
ghost use Rattle.std.specs.Prelude.{⊤};

use bfs_handover::{Done, Job};
use bfs_node::Gate;
use bfs_tree::Tree;
use bfs_types::Memory;
use std::alloc::Global;

/// Runs no job, as where memory runs out.
#[derive(Clone, Copy, Debug)]
pub struct NoRoom;

impl Gate for NoRoom {
    ghost ran = { λ _ _. ⊤ };

    fn run(&self, _alloc: Global, _tree: &Tree, _job: Job<'_>) -> Result<Done, Memory> {
        Err(Memory)
    }
}
