// What clients see. The bodies do nothing: what is said is the contracts.
ghost use Rattle.bfs_one_server.specs.Laws.{ClientsSeeOneServer};

use bfs_nodes_agree::node_calls::laws::{nodes_agree, nodes_answer};

/// Over every list of what 3f + 1 replicas, their clients and the network do, of which at most f replicas and any clients lie. There is one
/// sequence of requests that take effect, those of the batches that correct replicas executed, and one server that answers them one after
/// another gives the same replies. What a correct client accepts for a request that it signed is the reply there. No request takes effect
/// twice, and what was accepted before another request was signed takes effect before it.
pub fn clients_see_one_server()
    ensures { ClientsSeeOneServer }
{
    nodes_agree();
    nodes_answer();
}
