// What the run of a trace shows its clients. The body does nothing: what is said is the contract.
ghost use Rattle.std.specs.Prelude.{Option};
ghost use Rattle.bfs_node.specs.Executing.{Runs};
ghost use Rattle.bfs_parallel.specs.declared.engine.Engine.{Engine};
ghost use Rattle.bfs_run.specs.Laws.{TheRunSeesOneServer};

use bfs_node::Gate;
use bfs_nodes_agree::node_calls::laws::what_was_sent_is_authentic;
use bfs_one_server::laws::clients_see_one_server;
use bfs_order::a_replica_stays_itself;

/// What the run of a trace does is steps of 3f + 1 correct replicas and acts of their clients, who see one server. Of each client that asks one request
/// of a timestamp, each result that is printed is the reply to it, where one server answers the requests one after another; and what is printed
/// before such a client first asks something comes before that. It holds where all that is sent has a text, and where no two batches and no two
/// states collide.
pub fn the_run_sees_one_server<G: Gate>()
    ensures { (engine : Option Engine) → TheRunSeesOneServer (Runs G.ran engine) }
{
    clients_see_one_server();
    what_was_sent_is_authentic();
    a_replica_stays_itself();
}
