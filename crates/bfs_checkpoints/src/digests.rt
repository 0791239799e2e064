ghost use Rattle.std.specs.Prelude.{◌≡◌, ◌↔◌, ◌++◌, Some, None, IfOk, IsErrOf};
ghost use Rattle.std.specs.Option.{option_map};
ghost use Rattle.sha2.specs.Sha256.{sha256};
ghost use Rattle.bfs_replies.specs.Texts.{table_text};
ghost use Rattle.bfs_checkpoints.specs.Texts.{node_digest};

use bfs_digest::digest_parallel;
use bfs_replies::ReplyTable;
use bfs_serial::{ExecError, FileSystem};
use sha2::{Digest, Sha256};
use std::alloc::Global;
use std::thread::Threads;

/// The digest of a replica: SHA-256 (FIPS 180-4) of the digest of its file system, followed by the text of its table of replies, which
/// is fed piece by piece. `Failed` if the file system has failed, `Memory` if memory runs out.
#[tactic(auto, unfolding(crate::specs::Texts::node_digest))]
pub fn digest_node(
    rt: &(impl Threads + Sync),
    alloc: Global,
    files: &FileSystem,
    table: &ReplyTable,
) -> Result<[u8; 32], ExecError>
    ensures value { IfOk result (λ digest. option_map (λ live. node_digest live table.now) files.now ≡ Some digest) }
    ensures failed { IsErrOf result ExecError.Failed ↔ (files.now ≡ None) }
{
    let digest = digest_parallel(rt, alloc, files)?;
    Ok(digest_with(&digest, table))
}

pub(crate) fn digest_with(files: &[u8; 32], table: &ReplyTable) -> [u8; 32]
    ensures { result ≡ sha256 (files.now ++ table_text table.now) }
{
    let mut hasher = Sha256::new();
    hasher.update(files);
    table.hash_text(&mut hasher);
    hasher.finalize()
}
