ghost use Rattle.std.specs.Prelude.{◌≡◌, ℕ, Bool, length};
ghost use Rattle.bfs_model.specs.Server.Tree.{FileSystem, new_file_system, new_tree};
ghost use Rattle.bfs_model.specs.Server.Serial.{Batch, execute};
ghost use Rattle.bfs_model.specs.Laws.Procedures.{CallsKeepTreesWellFormed, CallsKeepFilesWellFormed};
ghost use Rattle.bfs_model.specs.Server.WellFormed.{IsWellFormed, IsWellFormedTree};

/// A new file system is well formed.
#[tactic(auto, using(crate::proofs::Kept::new_is_well_formed))]
pub fn a_new_file_system_is_well_formed()
    ensures { IsWellFormed new_file_system }
{}

/// A new tree is well formed.
#[tactic(auto, using(crate::proofs::Kept::new_tree_is_well_formed))]
pub fn a_new_tree_is_well_formed()
    ensures { IsWellFormedTree new_tree }
{}

/// The tree of a well-formed file system is well formed.
#[tactic(auto, using(crate::proofs::Kept::its_tree))]
pub fn a_well_formed_file_system_has_a_well_formed_tree()
    ensures { (files : FileSystem) → IsWellFormed files → IsWellFormedTree files.tree }
{}

/// A call whose ordinal is fresh where it writes, and whose names and path are no longer than RFC 1094 section 3.5 allows, leaves a
/// well-formed tree well formed.
pub fn a_call_keeps_trees_well_formed()
    ensures { CallsKeepTreesWellFormed }
{}

/// A call under the next ordinal leaves a well-formed file system well formed, one ordinal on.
#[tactic(auto, using(crate::proofs::Kept::a_call_keeps))]
pub fn a_call_keeps_files_well_formed()
    ensures { CallsKeepFilesWellFormed }
{}

/// A batch of any requests leaves a well-formed file system well formed.
#[tactic(auto, using(crate::proofs::Kept::execute_keeps))]
pub fn a_batch_keeps_files_well_formed()
    ensures { (files : FileSystem) (batch : Batch) → IsWellFormed files → IsWellFormed (execute files batch).0 }
{}

/// Each request of a batch gets one reply.
#[tactic(auto, using(crate::proofs::Counts::replies_counted))]
pub fn each_request_gets_one_reply()
    ensures { (files : FileSystem) (batch : Batch) → length (execute files batch).1 ≡ length batch.requests }
{}
