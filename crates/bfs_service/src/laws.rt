//! What is said of all turns of processes.
ghost use Rattle.bfs_service.specs.Processes.{ProcessesAgree};

use bfs_nodes_agree::node_calls::laws::{nodes_agree, what_is_resent_was_sent};

/// Processes are nodes: over all turns that processes take, of whatever frames, each is what steps of its node make of it, and tells what these gave to be sent, so
/// replicas agree where they are run as processes. Where there are others, what a correct one tells again says what its node has sent, or is a NEW-VIEW that this
/// has sent or that came to it. The body does nothing: what is said is its contract.
pub fn processes_agree()
    ensures { ProcessesAgree }
{
    nodes_agree();
    what_is_resent_was_sent();
}
