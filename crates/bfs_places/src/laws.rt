// One text of each place. The bodies do nothing: what is said is the contracts.
ghost use Rattle.bfs_places.specs.Laws.{OneTextOfEachIndex, OneTextOfEachPlace};

use bfs_auth::an_index_is_of_one_place;
use bfs_codec::{batches_with_one_text, message_was_written};
use bfs_nodes_agree::order_calls::laws::deeds_are_moves;
use bfs_nodes_agree::view_calls::laws::{made_tells_what_is_prepared, right_new_views_are_valid};
use bfs_order::{a_replica_stays_itself, numbers_lie_in_the_window, views_are_entered};

/// Over every list of calls of nodes and deliveries of bytes, however many are faulty: any two messages that a correct node has given to be sent, also PRE-PREPAREs
/// inside of its NEW-VIEWs, have the same body where they are of one place. The body is what is signed: of a PRE-PREPARE the batch's digest. The place is read of the
/// body, as the signer reads it.
pub fn one_text_of_each_place()
    ensures { OneTextOfEachPlace }
{
    a_replica_stays_itself();
    views_are_entered();
    numbers_lie_in_the_window();
    message_was_written();
    batches_with_one_text();
    deeds_are_moves();
    made_tells_what_is_prepared();
    right_new_views_are_valid();
}

/// So no index of a key signs two texts: any two of these messages have the same body where the key's index for their places is one.
pub fn one_text_of_each_index()
    ensures { OneTextOfEachIndex }
{
    one_text_of_each_place();
    an_index_is_of_one_place();
}
