ghost use Rattle.bfs_model.specs.Laws.ReplyLengths.{RepliesAreBytes, RepliesAreShort};

/// Where each inode is within the limits, the reply to any bytes is at most 16,384 bytes long.
pub fn replies_are_short()
    ensures { RepliesAreShort }
{}

/// Where each inode can be stored, as 32-bit words and bytes, the reply to anything is bytes.
#[tactic(auto, using(crate::proofs::ReplyBytes::replies_of_bytes))]
pub fn replies_are_bytes()
    ensures { RepliesAreBytes }
{}
