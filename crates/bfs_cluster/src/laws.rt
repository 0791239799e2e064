// What holds of the definitions. The bodies do nothing: what is said is the contracts.
ghost use Rattle.std.specs.Prelude.{Option};
ghost use Rattle.bfs_cluster.specs.Laws.Settling.{SettlesToOneWorld};
ghost use Rattle.bfs_node.specs.Executing.{Runs};
ghost use Rattle.bfs_parallel.specs.declared.engine.Engine.{Engine};

use bfs_checkpoints::{a_text_spells_one_node, live_nodes_are_read_again};
use bfs_node::Gate;

/// What a world settles to depends neither on the number of steps that are made, nor on the engines and the gates by which batches are
/// executed.
pub fn a_world_settles_once<First: Gate, Second: Gate>()
    ensures { (first second : Option Engine) → SettlesToOneWorld (Runs First.ran first) (Runs Second.ran second) }
{
    a_text_spells_one_node();
    live_nodes_are_read_again();
}
