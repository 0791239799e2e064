// What is kept of no inode, hashed on threads: first the blocks of all files, so that one large file takes as many threads as many small ones
// do, and then the records.
ghost use Rattle.std.specs.Prelude.{◌≡◌, List, ℕ, IfOk};
ghost use Rattle.std.specs.List.{All};
ghost use Rattle.std.specs.FinMap.{get};
ghost use Rattle.std.specs.Option.{option_and_then, option_copied};
ghost use Rattle.sha2.specs.Sha256.{sha256};
ghost use Rattle.bfs_blocks.specs.Bytes.{block_at};
ghost use Rattle.bfs_inode.specs.Inodes.{file_in};
ghost use Rattle.bfs_model.specs.Server.Tree.{Inodes};
ghost use Rattle.bfs_tree.specs.Tree.{at_home};
ghost use Rattle.bfs_digest.specs.Inside.Hashed.{IsBlockHashed, IsHashed, bytes_of, hashed_at, hashed_block};

use crate::blocks::{Block, BlockDigest, block_count, hash_block};
use crate::hashes::record_digest;
use bfs_inode::{FileBlocks, FileId, RecordDigest};
use bfs_tree::Tree;
use bfs_types::Memory;
use rayon::prelude::*;
use sha2::{Digest, Sha256};
use std::alloc::{AllocError, Global};
use std::marker::Model;
use std::thread::Threads;

// Of blocks or records that a thread hashes: a start of one takes longer than some blocks.
const LEAST_PIECE: usize = 32;

/// The digests of blocks and of records that were made, each by rising fileid.
#[derive(Drop)]
pub(crate) struct Hashed {
    pub(crate) blocks: Vec<BlockDigest>,
    pub(crate) records: Vec<RecordDigest>,
}

/// A tree, with the digests of blocks of its files, by rising fileid.
#[derive(Drop)]
struct Files<'a> {
    tree: &'a Tree,
    blocks: &'a [BlockDigest],
}

impl<'a> Model for Files<'a> {
    ghost use Rattle.std.specs.List.{All};
    ghost use Rattle.std.specs.Coded.{codes};
    ghost use Rattle.bfs_model.specs.Server.Tree.{Inodes};
    ghost use Rattle.bfs_serial.specs.Codes.{inodes_code};
    ghost use Rattle.bfs_tree.specs.Tree.{at_home};
    ghost use Rattle.bfs_digest.specs.Inside.Hashed.{IsBlockHashed};

    ghost Value = { Inodes };

    ghost coded = { Prim.hlevel (codes, inodes_code) };

    ghost view = { λ files. at_home files.tree.now };

    ghost invariant = { λ files. All (IsBlockHashed (at_home files.tree.now)) files.blocks.now };
}

/// Hashes the records of the inodes at home that don't keep their digest, and of the files among them the blocks whose digest they don't
/// keep, by as many threads as there are processors. For each such block it takes 64 bytes. `Memory` if memory runs out.
pub(crate) fn hash_missing(
    rt: &(impl Threads + Sync),
    alloc: Global,
    tree: &Tree,
) -> Result<Hashed, Memory>
    ensures blocks { IfOk result (λ hashed. All (IsBlockHashed (at_home tree.now)) hashed.blocks.items) }
    ensures records { IfOk result (λ hashed. All (IsHashed (at_home tree.now)) hashed.records.items) }
{
    let ids = ids_without_digest(alloc, tree)?;
    let missing = blocks_without_digest(alloc, tree, &ids)?;
    let blocks = hash_blocks(rt, alloc, tree, &missing)?;
    let files = Files {
        tree,
        blocks: &blocks,
    };
    let records = hash_records(rt, alloc, &files, &ids)?;
    Ok(Hashed { blocks, records })
}

// Of the inodes that don't keep their digest. No contract speaks of it: one left out or too many costs hashing, and changes no digest.
fn ids_without_digest(alloc: Global, tree: &Tree) -> Result<Vec<FileId>, Memory> {
    let mut ids = Vec::new(alloc);
    for (number, boxed) in tree.boxes() {
        let id = FileId::new(*number);
        if boxed.kept(id).is_none() {
            ids.push(id)?;
        }
    }
    Ok(ids)
}

// Of the files of those fileids, those whose digest no file keeps. No contract speaks of it either.
fn blocks_without_digest(alloc: Global, tree: &Tree, ids: &[FileId]) -> Result<Vec<Block>, Memory> {
    let mut blocks = Vec::new(alloc);
    for id in ids {
        if let Some(data) = file_at(tree, *id) {
            put_blocks(&mut blocks, *id, data)?;
        }
    }
    Ok(blocks)
}

fn put_blocks(out: &mut Vec<Block>, id: FileId, data: &FileBlocks) -> Result<(), Memory> {
    for number in 0..block_count(data) {
        if data.kept_block(number).is_none() {
            out.push(Block { id, number })?;
        }
    }
    Ok(())
}

fn hash_blocks(
    rt: &(impl Threads + Sync),
    alloc: Global,
    tree: &Tree,
    blocks: &[Block],
) -> Result<Vec<BlockDigest>, AllocError>
    ensures { IfOk result (λ hashed. All (IsBlockHashed (at_home tree.now)) hashed.items) }
{
    blocks
        .par_iter()
        .with_min_len(LEAST_PIECE)
        .map(
            |block: &Block| -> BlockDigest
                ensures { result ≡ hashed_block (at_home tree.entry.now) block.now }
            { block_digest(tree, *block) },
        )
        .collect(rt, alloc)
}

fn block_digest(tree: &Tree, block: Block) -> BlockDigest
    ensures { result ≡ hashed_block (at_home tree.now) block }
{
    BlockDigest {
        block,
        digest: digest_at(tree, block.id, block.number),
    }
}

// where there is no such file, of no bytes
#[tactic(auto, using(crate::proofs::Hashed::block_of_file, crate::proofs::Hashed::block_of_none))]
fn digest_at(tree: &Tree, id: FileId, number: usize) -> [u8; 32]
    ensures { result ≡ sha256 (block_at (bytes_of (get (at_home tree.now) id)) number) }
{
    match file_at(tree, id) {
        Some(data) => hash_block(data, number),
        None => Sha256::digest(&[]),
    }
}

// the file of that fileid
fn file_at(tree: &Tree, id: FileId) -> Option<&FileBlocks>
    ensures { option_copied result ≡ option_and_then (λ inode. file_in inode.body) (get (at_home tree.now) id) }
{
    tree.home(id)?.file()
}

fn hash_records(
    rt: &(impl Threads + Sync),
    alloc: Global,
    files: &Files<'_>,
    ids: &[FileId],
) -> Result<Vec<RecordDigest>, AllocError>
    ensures { IfOk result (λ hashed. All (IsHashed files.now) hashed.items) }
{
    ids.par_iter()
        .with_min_len(LEAST_PIECE)
        .map(
            |id: &FileId| -> RecordDigest
                ensures { result ≡ hashed_at files.entry.now id.now }
            { files.record_at(*id) },
        )
        .collect(rt, alloc)
}

impl<'a> Files<'a> {
    fn record_at(&self, id: FileId) -> RecordDigest
        ensures { result ≡ hashed_at self.now id }
    {
        let digest = match self.tree.boxed(id) {
            Some(inode) => record_digest(id, inode, blocks_from(self.blocks, id)),
            None => Sha256::digest(&[]),
        };
        RecordDigest { id, digest }
    }
}

/// Without those before the blocks of the file of that fileid.
pub(crate) fn blocks_from(blocks: &[BlockDigest], id: FileId) -> &[BlockDigest]
    ensures { (m : Inodes) → All (IsBlockHashed m) blocks.now → All (IsBlockHashed m) result.now }
{
    let before = blocks.partition_point(|hashed: &BlockDigest| -> bool { hashed.block.id < id });
    blocks.split_at(before).1
}
