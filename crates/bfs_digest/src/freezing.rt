// A file system as it was, which shares what didn't change with the ones before it.
ghost use Rattle.std.specs.Prelude.{◌≡◌, ◌++◌, ◌↔◌, Some, None, map, IfOk, OnOk, OnErr, IsErrOf};
ghost use Rattle.std.specs.Arc.{arc_value};
ghost use Rattle.std.specs.FinMap.{entries};
ghost use Rattle.std.specs.Option.{option_map};
ghost use Rattle.bfs_inode.specs.Frozen.{frozen_text};
ghost use Rattle.bfs_inode.specs.Inodes.{body_seen};
ghost use Rattle.bfs_inode.specs.Records.{body_text, frozen_of, record_digest};
ghost use Rattle.bfs_tree.specs.Tree.{at_home};
ghost use Rattle.bfs_digest.specs.Frozen.{frozen_files, frozen_inodes, frozen_with, texts_of};
ghost use Rattle.bfs_xdr.specs.Sinks.{BeginsWith};

use crate::digests::hash_header;
use crate::headers::{Header, parts_of, put_header};
use crate::lengths::body_length;
use crate::refreshing::refresh;
use crate::sharing::freeze_inodes;
use crate::words::head_words;
use crate::writers::{put_body, put_frozen};
use bfs_inode::{Body, FileId, FrozenBody, FrozenInode, Inode};
use bfs_serial::{ExecError, FileSystem};
use bfs_tree::Tree;
use bfs_types::{Memory, TryClone};
use sha2::{Digest, Sha256};
use std::alloc::Global;
use std::marker::Model;
use std::sync::Arc;
use std::thread::Threads;

/// A file system as it was when it was frozen: its text, and its digest, are those of that time. It holds a pointer for each inode, and of
/// inodes that didn't change nothing else: those share what they hold with the file system and with what was frozen before.
#[derive(Debug, Drop)]
pub struct FrozenFiles {
    header: Header,
    // by rising fileid
    inodes: Vec<Arc<FrozenInode>>,
    // of these
    digest: [u8; 32],
}

impl Model for FrozenFiles {
    ghost use Rattle.std.specs.Prelude.{◌≡◌, map};
    ghost use Rattle.std.specs.Arc.{arc_value};
    ghost use Rattle.bfs_digest.specs.Frozen.{FrozenFiles, frozen_with};

    ghost Value = { FrozenFiles };

    ghost view = { λ frozen. frozen_with frozen.header (map arc_value frozen.inodes.items) };

    ghost invariant = { λ frozen. frozen.digest ≡ (frozen_with frozen.header (map arc_value frozen.inodes.items)).digest };
}

impl FrozenFiles {
    /// The digest of the file system that was frozen.
    pub fn digest(&self) -> &[u8; 32]
        ensures { result.now ≡ self.now.digest }
    {
        &self.digest
    }

    /// Appends the text of the file system that was frozen. Each byte is written once. `Memory` if memory runs out; then some of it may stand
    /// behind what was there.
    pub fn put_text(&self, out: &mut Vec<u8>) -> Result<(), Memory>
        ensures ok { OnOk result (out.new.items ≡ out.old.items ++ self.now.text) }
        ensures err { OnErr result (BeginsWith out.old.items out.new.items) }
    {
        put_header(&self.header, out)?;
        put_inodes(out, &self.inodes)
    }
}

fn put_inodes(out: &mut Vec<u8>, inodes: &[Arc<FrozenInode>]) -> Result<(), Memory>
    ensures ok { OnOk result (out.new.items ≡ out.old.items ++ texts_of (map arc_value inodes.now)) }
    ensures err { OnErr result (BeginsWith out.old.items out.new.items) }
{
    for inode in inodes {
        put_frozen(out, inode)?;
    }
    Ok(())
}

/// Freezes a file system, which stays as it was. What changed since it was frozen last is hashed (`refresh`) and copied: of a file nothing
/// but a pointer a block, of a directory its text. Of each other inode it takes a pointer, and it hashes 36 bytes an inode for the digest.
/// `Failed` if the file system has failed, `Memory` if memory runs out.
pub fn freeze(
    rt: &(impl Threads + Sync),
    alloc: Global,
    files: &mut FileSystem,
) -> Result<FrozenFiles, ExecError>
    ensures value { IfOk result (λ frozen. option_map frozen_files files.old ≡ Some frozen) }
    ensures stays { files.new ≡ files.old }
    ensures failed { IsErrOf result ExecError.Failed ↔ (files.old ≡ None) }
{
    refresh(rt, alloc, files)?;
    frozen_as_it_is(alloc, files)
}

fn frozen_as_it_is(alloc: Global, files: &FileSystem) -> Result<FrozenFiles, ExecError>
    ensures value { IfOk result (λ frozen. option_map frozen_files files.now ≡ Some frozen) }
    ensures failed { IsErrOf result ExecError.Failed ↔ (files.now ≡ None) }
{
    let Some((header, tree)) = parts_of(files) else {
        return Err(ExecError::Failed);
    };
    match freeze_tree(alloc, header, tree) {
        Ok(frozen) => Ok(frozen),
        Err(Memory) => Err(ExecError::Memory),
    }
}

fn freeze_tree(alloc: Global, header: Header, tree: &Tree) -> Result<FrozenFiles, Memory>
    ensures { IfOk result (λ frozen. frozen ≡ frozen_with header (frozen_inodes (entries (at_home tree.now)))) }
{
    let mut hasher = Sha256::new();
    hash_header(&mut hasher, &header);
    let inodes = freeze_inodes(alloc, &mut hasher, tree)?;
    Ok(FrozenFiles {
        header,
        inodes,
        digest: hasher.finalize(),
    })
}

/// A frozen inode of what an inode is under that fileid. It shares the blocks of a file that keep their digest. `Memory` if memory runs out.
pub(crate) fn freeze_inode(
    alloc: Global,
    id: FileId,
    inode: &Inode,
    digest: [u8; 32],
) -> Result<Arc<FrozenInode>, Memory>
    requires { digest ≡ record_digest id inode.now }
    ensures { IfOk result (λ frozen. arc_value frozen ≡ frozen_of id inode.now) }
{
    let frozen = frozen_of(alloc, id, inode, digest)?;
    match Arc::new(alloc, frozen) {
        Ok(frozen) => Ok(frozen),
        Err(_) => Err(Memory),
    }
}

#[tactic(auto, unfolding(bfs_inode::specs::Records::record_text))]
fn frozen_of(
    alloc: Global,
    id: FileId,
    inode: &Inode,
    digest: [u8; 32],
) -> Result<FrozenInode, Memory>
    requires { digest ≡ record_digest id inode.now }
    ensures { IfOk result (λ frozen. frozen ≡ frozen_of id inode.now) }
{
    let body = freeze_body(alloc, inode.body())?;
    Ok(FrozenInode::new(id, head_words(id, inode), body, digest))
}

fn freeze_body(alloc: Global, body: &Body) -> Result<FrozenBody, Memory>
    ensures { IfOk result (λ frozen. frozen_text frozen ≡ body_text (body_seen body.now)) }
{
    match body {
        Body::File(bytes) => Ok(FrozenBody::File(bytes.try_clone(alloc)?)),
        other => Ok(FrozenBody::Text(text_of(alloc, other)?)),
    }
}

fn text_of(alloc: Global, body: &Body) -> Result<Vec<u8>, Memory>
    ensures { IfOk result (λ text. text.items ≡ body_text (body_seen body.now)) }
{
    let mut text = Vec::with_capacity(alloc, body_length(body))?;
    put_body(&mut text, body)?;
    Ok(text)
}
