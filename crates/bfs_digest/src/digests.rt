ghost use Rattle.std.specs.Prelude.{◌≡◌, ◌↔◌, ◌++◌, ℕ, List, Some, None, IfOk, IsErrOf};
ghost use Rattle.std.specs.List.{All};
ghost use Rattle.std.specs.Option.{option_map, ok_or};
ghost use Rattle.std.specs.FinMap.{entries};
ghost use Rattle.sha2.specs.Hashers.{Holds256};
ghost use Rattle.bfs_inode.specs.Records.{record_digest};
ghost use Rattle.bfs_model.specs.Bytes.Items.{word};
ghost use Rattle.bfs_tree.specs.Tree.{at_home};
ghost use Rattle.bfs_digest.specs.Text.{header_text, latest_version};
ghost use Rattle.bfs_digest.specs.Digests as model;
ghost use Rattle.bfs_digest.specs.Inside.Hashed.{IsHashed, IsRecordOf};

use crate::hashes::record_digest;
use crate::hashing::hash_missing;
use crate::headers::{Header, parts_of, put_header};
use bfs_inode::{FileId, RecordDigest};
use bfs_serial::{ExecError, FileSystem};
use bfs_tree::{BoxedInode, Tree};
use bfs_types::Memory;
use sha2::{Digest, Sha256};
use std::alloc::Global;
use std::thread::Threads;

/// The digest of a file system: SHA-256 (FIPS 180-4) of its text's header, followed by the fileid and the SHA-256 of the record of each
/// inode, by rising fileid. A digest that an inode keeps is not made again. It takes no memory. `Failed` if the file system has failed.
pub fn digest_serial(files: &FileSystem) -> Result<[u8; 32], ExecError>
    ensures { result ≡ ok_or (option_map model.digest_of files.now) ExecError.Failed }
{
    let Some((header, tree)) = parts_of(files) else {
        return Err(ExecError::Failed);
    };
    Ok(digest_with(&header, tree, &[]))
}

/// The same digest, with what no inode keeps hashed by as many threads as there are processors: the blocks of all files, and then the
/// records. `Failed` if the file system has failed, `Memory` if memory runs out.
pub fn digest_parallel(
    rt: &(impl Threads + Sync),
    alloc: Global,
    files: &FileSystem,
) -> Result<[u8; 32], ExecError>
    ensures value { IfOk result (λ digest. option_map model.digest_of files.now ≡ Some digest) }
    ensures failed { IsErrOf result ExecError.Failed ↔ (files.now ≡ None) }
{
    let Some((header, tree)) = parts_of(files) else {
        return Err(ExecError::Failed);
    };
    match hash_missing(rt, alloc, tree) {
        Ok(hashed) => Ok(digest_with(&header, tree, &hashed.records)),
        Err(Memory) => Err(ExecError::Memory),
    }
}

// of the header and the inodes, of some of which the digests were made before
fn digest_with(header: &Header, tree: &Tree, made: &[RecordDigest]) -> [u8; 32]
    requires { All (IsHashed (at_home tree.now)) made.now }
    ensures { result ≡ model.digest_with header.now (at_home tree.now) }
{
    let mut hasher = Sha256::new();
    hash_header(&mut hasher, header);
    hash_digests(&mut hasher, tree, made);
    hasher.finalize()
}

// of all inodes, by rising fileid; those that were made stand in that order too
fn hash_digests(hasher: &mut Sha256, tree: &Tree, made: &[RecordDigest])
    requires { All (IsHashed (at_home tree.now)) made.now }
    ensures { (m : List ℕ) → Holds256 hasher.old m → Holds256 hasher.new (m ++ model.digests_text (entries (at_home tree.now))) }
{
    let mut place = 0;
    for (id, inode) in tree.boxes() {
        let id = FileId::new(*id);
        let digest = digest_at(id, inode, made, &mut place);
        hash_digest(hasher, id, &digest);
    }
}

// of an inode, where those that were made of inodes before it are passed
fn digest_at(id: FileId, inode: &BoxedInode, made: &[RecordDigest], place: &mut usize) -> [u8; 32]
    requires { All (IsRecordOf id inode.now) made.now }
    ensures { result ≡ record_digest id inode.now }
{
    match made.get(*place) {
        Some(made) if made.id == id => {
            *place += 1;
            made.digest
        }
        _ => record_digest(id, inode, &[]),
    }
}

fn hash_digest(hasher: &mut Sha256, id: FileId, digest: &[u8; 32])
    ensures { (m : List ℕ) → Holds256 hasher.old m → Holds256 hasher.new (m ++ (word id ++ digest.now)) }
{
    hasher.update(digest_behind(id, digest));
}

// in one piece, which is fed in less time than two
#[tactic(auto, unfolding(bfs_model::specs::Bytes::Items::word))]
pub(crate) fn digest_behind(id: FileId, digest: &[u8; 32]) -> [u8; 36]
    ensures { result ≡ word id ++ digest.now }
{
    let mut bytes = [0; 36];
    bytes[..4].copy_from_slice(&id.number().to_be_bytes());
    bytes[4..].copy_from_slice(digest);
    bytes
}

pub(crate) fn hash_header(hasher: &mut Sha256, header: &Header)
    ensures { (m : List ℕ) → Holds256 hasher.old m → Holds256 hasher.new (m ++ header_text latest_version header.now) }
{
    match put_header(header, hasher) {
        Ok(()) => (),
        Err(never) => match never {},
    }
}
