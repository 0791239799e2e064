// What holds of the texts of replicas, and of certificates. The bodies are empty: what is said is the contracts.
ghost use Rattle.bfs_checkpoints.specs.Laws.{ANodeHasOneText, AStableCheckpointHasACertificate, ATextSpellsOneNode, LiveNodesAreReadAgain, RightCheckpointsAreCollected};

/// A replica has one text.
pub fn a_node_has_one_text()
    ensures { ANodeHasOneText }
{}

/// A text spells at most one replica.
pub fn a_text_spells_one_node()
    ensures { ATextSpellsOneNode }
{}

/// The text of a replica whose file system is live spells it, and nothing refuses it: so `read_node` gives it back, unless memory runs out.
pub fn live_nodes_are_read_again()
    ensures { LiveNodesAreReadAgain }
{}

/// The CHECKPOINTs of a log that tell a stable checkpoint are a certificate of it, and of no other.
pub fn a_stable_checkpoint_has_a_certificate()
    ensures { AStableCheckpointHasACertificate }
{}

/// What is collected of CHECKPOINTs was told, is right by the keys, and no two are of one replica; each replica of which a right one was told has
/// one there.
pub fn right_checkpoints_are_collected()
    ensures { RightCheckpointsAreCollected }
{}
