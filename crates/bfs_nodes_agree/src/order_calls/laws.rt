// Agreement over the calls of orders. The bodies do nothing: what is said is the contracts.
ghost use Rattle.bfs_nodes_agree.specs.Orders.Laws.{DeedsAreMoves, OrderedBatchesAgree, OrdersAgree};

use bfs_agreement::agreement::moves_agree;
use bfs_order::a_replica_stays_itself;

/// Whatever a replica's order does is a list of moves that are allowed: what it sends, executes and knows then is what they make of it.
pub fn deeds_are_moves()
    ensures { DeedsAreMoves }
{}

/// Over every list of calls on the orders of 3f + 1 replicas, of which at most f are faulty, any two that execute a batch for a number, in
/// whatever views, execute one digest.
pub fn orders_agree()
    ensures { OrdersAgree }
{
    moves_agree();
    a_replica_stays_itself();
    deeds_are_moves();
}

/// They execute one batch by its text, where no two texts of batches have one digest.
pub fn ordered_batches_agree()
    ensures { OrderedBatchesAgree }
{
    orders_agree();
}
