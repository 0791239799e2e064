// What is kept with inodes, so that the next digest of the file system, and freezing it, cost what changed.
ghost use Rattle.std.specs.Prelude.{◌≡◌, ◌↔◌, None, IsErrOf, IsTrue};
ghost use Rattle.std.specs.List.{All};
ghost use Rattle.bfs_tree.specs.Tree.{at_home, reach_of};
ghost use Rattle.bfs_digest.specs.Inside.Hashed.{IsBlockHashed, IsHashed};

use crate::blocks::BlockDigest;
use crate::freezing::freeze_inode;
use crate::hashing::hash_missing;
use bfs_inode::RecordDigest;
use bfs_serial::{ExecError, FileSystem};
use bfs_tree::{Store, Tree};
use bfs_types::Memory;
use std::alloc::Global;
use std::thread::Threads;

/// Hashes the record of each inode with which no frozen one is kept (`BoxedInode::kept`), and the blocks of these that are files, but those whose digest
/// is kept (`FileBlocks::kept_block`), by as many threads as there are processors, and keeps what was made with the inodes and blocks. So a
/// digest of the file system that is made next hashes none of them again, and one that is made after batches hashes what they changed. The
/// file system stays as it was, with memory or without. That a frozen one is kept with each then is tested, and in no contract: contracts
/// see nothing of what is kept. `Failed` if the file system has failed, `Memory` if memory runs out; then some may be kept.
pub(crate) fn refresh(
    rt: &(impl Threads + Sync),
    alloc: Global,
    files: &mut FileSystem,
) -> Result<(), ExecError>
    ensures stays { files.new ≡ files.old }
    ensures failed { IsErrOf result ExecError.Failed ↔ (files.old ≡ None) }
{
    let Some((mut tree, next_ordinal, last_time)) = files.take_parts() else {
        return Err(ExecError::Failed);
    };
    let refreshed = refresh_tree(rt, alloc, &mut tree);
    files.put_parts(tree, next_ordinal, last_time);
    match refreshed {
        Ok(()) => Ok(()),
        Err(Memory) => Err(ExecError::Memory),
    }
}

fn refresh_tree(rt: &(impl Threads + Sync), alloc: Global, tree: &mut Tree) -> Result<(), Memory>
    requires { IsTrue ((reach_of tree.old).whole) }
    ensures inodes { at_home tree.new ≡ at_home tree.old }
    ensures reach { reach_of tree.new ≡ reach_of tree.old }
{
    let hashed = hash_missing(rt, alloc, tree)?;
    keep_blocks(alloc, tree, &hashed.blocks)?;
    keep_each(alloc, tree, &hashed.records)
}

fn keep_blocks<S: Store>(alloc: Global, store: &mut S, blocks: &[BlockDigest]) -> Result<(), Memory>
    requires whole { IsTrue ((S.reach store.old).whole) }
    requires hashed { All (IsBlockHashed (S.inodes store.old)) blocks.now }
    ensures inodes { S.inodes store.new ≡ S.inodes store.old }
    ensures reach { S.reach store.new ≡ S.reach store.old }
{
    for hashed in blocks {
        keep_block(alloc, store, hashed)?;
    }
    Ok(())
}

// in the file of its fileid, if there is one
#[tactic(auto, using(bfs_tree::proofs::Public::insert_same))]
fn keep_block<S: Store>(alloc: Global, store: &mut S, hashed: &BlockDigest) -> Result<(), Memory>
    requires owned { IsTrue ((S.reach store.old).owned hashed.now.block.id) }
    requires hashed { IsBlockHashed (S.inodes store.old) hashed.now }
    ensures inodes { S.inodes store.new ≡ S.inodes store.old }
    ensures reach { S.reach store.new ≡ S.reach store.old }
{
    match store.get_mut(hashed.block.id) {
        Some(inode) => inode.keep_block(alloc, hashed.block.number, hashed.digest),
        None => Ok(()),
    }
}

fn keep_each(alloc: Global, tree: &mut Tree, digests: &[RecordDigest]) -> Result<(), Memory>
    requires { All (IsHashed (at_home tree.old)) digests.now }
    ensures { tree.new ≡ tree.old }
{
    for hashed in digests {
        keep(alloc, tree, hashed)?;
    }
    Ok(())
}

// with the inode of its fileid, if there is one
fn keep(alloc: Global, tree: &mut Tree, hashed: &RecordDigest) -> Result<(), Memory>
    requires { IsHashed (at_home tree.old) hashed.now }
    ensures { tree.new ≡ tree.old }
{
    let Some(inode) = tree.home(hashed.id) else {
        return Ok(());
    };
    let frozen = freeze_inode(alloc, hashed.id, inode, hashed.digest)?;
    tree.keep(hashed.id, frozen);
    Ok(())
}
