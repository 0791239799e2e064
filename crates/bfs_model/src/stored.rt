ghost use Rattle.bfs_model.specs.Server.Tree.{new_file_system};
ghost use Rattle.bfs_model.specs.Server.Stored.{IsLive};
ghost use Rattle.bfs_model.specs.Laws.Stored.{CallsKeepInodesStorable, RequestsAreStorable, ArgumentsAreStorable, BatchesKeepFilesLive, AnswersAreReadBack, GarbageAnswersAreReadBack, RefusedAnswersAreReadBack};

/// Where each inode can be stored, as 32-bit words and bytes, a call of such words and bytes leaves inodes that can be stored.
#[tactic(auto, using(crate::proofs::Storing::calls_keep_storable))]
pub fn calls_keep_inodes_storable()
    ensures { CallsKeepInodesStorable }
{}

/// A request that bytes spell has an xid, a uid and a gid of 32 bits, and arguments of bytes (RFC 5531 section 9).
#[tactic(auto, using(crate::proofs::Requests::requests_are_storable))]
pub fn requests_are_storable()
    ensures { RequestsAreStorable }
{}

/// The arguments that bytes spell are 32-bit words and bytes (RFC 1094 section 2.2).
#[tactic(auto, using(crate::proofs::Short::arguments_are_storable))]
pub fn arguments_are_storable()
    ensures { ArgumentsAreStorable }
{}

/// A new file system is live: it is well formed, and can be stored.
pub fn a_new_file_system_is_live()
    ensures { IsLive new_file_system }
{}

/// A batch of any requests of bytes leaves a live file system live.
pub fn a_batch_keeps_files_live()
    ensures { BatchesKeepFilesLive }
{}

/// The reply of a live file system to a request that spells a call and its arguments is read back by a strict reader: it has the
/// request's xid and the results, and these are read back as the reply of the procedure (RFC 5531 section 9, RFC 1094 section
/// 2.2).
pub fn answers_are_read_back()
    ensures { AnswersAreReadBack }
{}

/// The reply to a request whose arguments don't spell is read back as GARBAGE_ARGS under the request's xid (RFC 5531 section 9).
#[tactic(auto, using(crate::proofs::Live::garbage_answers_again))]
pub fn garbage_answers_are_read_back()
    ensures { GarbageAnswersAreReadBack }
{}

/// The reply to a request that is refused, if there is one, is read back as why it is refused (RFC 5531 section 9).
#[tactic(auto, using(crate::proofs::Live::refused_answers_again))]
pub fn refused_answers_are_read_back()
    ensures { RefusedAnswersAreReadBack }
{}
