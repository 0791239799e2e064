// What the proofs take from the crates below.
ghost use Rattle.bfs_nodes_progress.specs.Inside.Below.{Below};

use bfs_codec::{batches_with_one_text, message_was_written};
use bfs_nodes_agree::order_calls::laws::deeds_are_moves;
use bfs_nodes_agree::view_calls::laws::{made_tells_what_is_prepared, right_new_views_are_valid};
use bfs_order::{a_replica_stays_itself, numbers_lie_in_the_window, views_are_entered};

pub(crate) fn what_is_below()
    ensures { Below }
{
    a_replica_stays_itself();
    views_are_entered();
    numbers_lie_in_the_window();
    message_was_written();
    batches_with_one_text();
    deeds_are_moves();
    made_tells_what_is_prepared();
    right_new_views_are_valid();
}
