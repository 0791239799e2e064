// States that nodes come to can be saved, and read again. The body does nothing: what is said is the contract.
ghost use Rattle.bfs_nodes_progress.specs.Living.{ReachedStatesCanBeStored};

use crate::below::what_is_below;
use bfs_model::replies::{replies_are_bytes, replies_are_short};
use bfs_model::stored::a_batch_keeps_files_live;

/// Over every list of calls and deliveries, whoever lies, where all nodes begin with a state that can be stored, and the requests that come are of
/// words and bytes: the file system of each is live where it has not failed, its table can be stored, and so is each state that it has been in, and
/// each of which it keeps a snapshot.
pub fn reached_states_can_be_stored()
    ensures { ReachedStatesCanBeStored }
{
    what_is_below();
    a_batch_keeps_files_live();
    replies_are_bytes();
    replies_are_short();
}
