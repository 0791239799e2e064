// The frozen inodes of a tree, shared and hashed.
ghost use Rattle.std.specs.Prelude.{◌≡◌, ◌++◌, ℕ, List, [], map, IfOk, OnOk};
ghost use Rattle.std.specs.Arc.{arc_value};
ghost use Rattle.std.specs.FinMap.{entries};
ghost use Rattle.sha2.specs.Hashers.{Holds256};
ghost use Rattle.bfs_inode.specs.Records.{frozen_of};
ghost use Rattle.bfs_tree.specs.Tree.{at_home};
ghost use Rattle.bfs_digest.specs.Frozen.{digests_of, frozen_inodes};
ghost use Rattle.bfs_digest.specs.Inside.Sharing.{all_frozen, shared_frozen};

use crate::digests::digest_behind;
use crate::freezing::freeze_inode;
use crate::hashes::record_digest;
use bfs_inode::{FileId, FrozenInode};
use bfs_tree::{BoxedInode, Store, Tree};
use bfs_types::Memory;
use sha2::{Digest, Sha256};
use std::alloc::Global;
use std::sync::Arc;

// Of inodes whose digests are gathered before any is shared: to share one waits until it is fetched, and to gather fetches them side by side.
const CHUNK: usize = 64;

// Of an inode in what is hashed: a word, and a digest.
const DIGEST_BYTES: usize = 36;

/// A frozen inode, which was kept with its inode, or else made.
#[derive(Drop)]
pub(crate) enum Shared<'a> {
    Kept(&'a Arc<FrozenInode>),
    Made(Arc<FrozenInode>),
}

impl<'a> Shared<'a> {
    fn of(alloc: Global, id: FileId, inode: &'a BoxedInode) -> Result<Shared<'a>, Memory>
        ensures { IfOk result (λ shared. shared_frozen shared ≡ frozen_of id inode.now) }
    {
        match inode.kept(id) {
            Some(kept) => Ok(Shared::Kept(kept)),
            None => {
                let digest = record_digest(id, inode, &[]);
                Ok(Shared::Made(freeze_inode(alloc, id, inode.get(), digest)?))
            }
        }
    }

    fn get(&self) -> &FrozenInode
        ensures { result.now ≡ shared_frozen self.now }
    {
        match self {
            Shared::Kept(frozen) => frozen,
            Shared::Made(frozen) => frozen,
        }
    }

    fn share(&self) -> Result<Arc<FrozenInode>, Memory>
        ensures { IfOk result (λ frozen. arc_value frozen ≡ shared_frozen self.now) }
    {
        match self {
            Shared::Kept(frozen) => Ok(Arc::try_clone(frozen)?),
            Shared::Made(frozen) => Ok(Arc::try_clone(frozen)?),
        }
    }
}

/// The frozen inodes of a tree, by rising fileid. Their fileids and digests are hashed.
pub(crate) fn freeze_inodes(
    alloc: Global,
    hasher: &mut Sha256,
    tree: &Tree,
) -> Result<Vec<Arc<FrozenInode>>, Memory>
    ensures value { IfOk result (λ inodes. map arc_value inodes.items ≡ frozen_inodes (entries (at_home tree.now))) }
    ensures hashed { IfOk result (λ inodes. (m : List ℕ) → Holds256 hasher.old m → Holds256 hasher.new (m ++ digests_of (map arc_value inodes.items))) }
{
    let mut inodes = Vec::with_capacity(alloc, tree.count())?;
    let mut bytes = Vec::with_capacity(alloc, CHUNK * DIGEST_BYTES)?;
    let mut chunk = Vec::with_capacity(alloc, CHUNK)?;
    for (id, inode) in tree.boxes() {
        let shared = Shared::of(alloc, FileId::new(*id), inode)?;
        chunk.push(shared)?;
        if chunk.len() == CHUNK {
            share(hasher, &mut bytes, &mut inodes, &mut chunk)?;
        }
    }
    share(hasher, &mut bytes, &mut inodes, &mut chunk)?;
    Ok(inodes)
}

// hashes those of a chunk, by way of those bytes, and takes them out of it
fn share(
    hasher: &mut Sha256,
    bytes: &mut Vec<u8>,
    inodes: &mut Vec<Arc<FrozenInode>>,
    chunk: &mut Vec<Shared<'_>>,
) -> Result<(), Memory>
    ensures shared { OnOk result (map arc_value inodes.new.items ≡ map arc_value inodes.old.items ++ all_frozen chunk.old.items) }
    ensures hashed { OnOk result ((m : List ℕ) → Holds256 hasher.old m → Holds256 hasher.new (m ++ digests_of (all_frozen chunk.old.items))) }
    ensures taken { OnOk result (chunk.new.items ≡ []) }
{
    hash_all(hasher, bytes, chunk)?;
    share_all(inodes, chunk)?;
    chunk.clear();
    Ok(())
}

// by way of those bytes
fn hash_all(hasher: &mut Sha256, bytes: &mut Vec<u8>, chunk: &[Shared<'_>]) -> Result<(), Memory>
    ensures { OnOk result ((m : List ℕ) → Holds256 hasher.old m → Holds256 hasher.new (m ++ digests_of (all_frozen chunk.now))) }
{
    bytes.clear();
    put_digests(bytes, chunk)?;
    hasher.update(bytes.as_slice());
    Ok(())
}

fn put_digests(out: &mut Vec<u8>, chunk: &[Shared<'_>]) -> Result<(), Memory>
    ensures { OnOk result (out.new.items ≡ out.old.items ++ digests_of (all_frozen chunk.now)) }
{
    for shared in chunk {
        let frozen = shared.get();
        out.extend_from_slice(&digest_behind(frozen.id(), frozen.digest()))?;
    }
    Ok(())
}

fn share_all(out: &mut Vec<Arc<FrozenInode>>, chunk: &[Shared<'_>]) -> Result<(), Memory>
    ensures { OnOk result (map arc_value out.new.items ≡ map arc_value out.old.items ++ all_frozen chunk.now) }
{
    for shared in chunk {
        out.push(shared.share()?)?;
    }
    Ok(())
}
