// The record of an inode that is hashed, fed to a hasher piece by piece: no byte of a file is copied.
ghost use Rattle.std.specs.Prelude.{◌≡◌, ◌++◌, List, ℕ, length};
ghost use Rattle.std.specs.List.{All};
ghost use Rattle.sha2.specs.Hashers.{Holds256};
ghost use Rattle.bfs_model.specs.Bytes.Items.{word};
ghost use Rattle.bfs_inode.specs.Inodes.{body_seen, bytes_in};
ghost use Rattle.bfs_inode.specs.Records.{blocks_text, hashed_body, listing_text, record_digest};
ghost use Rattle.bfs_digest.specs.Inside.Hashed.{IsBlockOf};

use crate::blocks::{BlockDigest, File};
use crate::listings::put_listing;
use crate::words::head_words;
use bfs_inode::{Body, Directory, FileBlocks, FileId, Inode};
use bfs_tree::BoxedInode;
use bfs_xdr::{hash_opaque, hash_u32, hash_words};
use sha2::{Digest, Sha256};

/// The digest of the record of the inode of that fileid. It is hashed only if none is kept with the inode, with those digests of its
/// blocks that were made before.
pub(crate) fn record_digest(id: FileId, inode: &BoxedInode, made: &[BlockDigest]) -> [u8; 32]
    requires { All (IsBlockOf id (bytes_in inode.now.body)) made.now }
    ensures { result ≡ record_digest id inode.now }
{
    match inode.kept_digest(id) {
        Some(digest) => digest,
        None => hash_record(id, inode.get(), made),
    }
}

#[tactic(auto, unfolding(bfs_inode::specs::Records::hashed_record))]
fn hash_record(id: FileId, inode: &Inode, made: &[BlockDigest]) -> [u8; 32]
    requires { All (IsBlockOf id (bytes_in inode.now.body)) made.now }
    ensures { result ≡ record_digest id inode.now }
{
    let mut hasher = Sha256::new();
    hash_words(&mut hasher, &head_words(id, inode));
    hash_body(&mut hasher, id, inode.body(), made);
    hasher.finalize()
}

fn hash_body(hasher: &mut Sha256, id: FileId, body: &Body, made: &[BlockDigest])
    requires { All (IsBlockOf id (bytes_in (body_seen body.now))) made.now }
    ensures { (m : List ℕ) → Holds256 hasher.old m → Holds256 hasher.new (m ++ hashed_body (body_seen body.now)) }
{
    match body {
        Body::File(data) => hash_file(hasher, id, data, made),
        Body::Directory(directory) => hash_directory(hasher, directory),
        Body::Link(path) => hash_opaque(hasher, path.as_slice()),
    }
}

fn hash_file(hasher: &mut Sha256, id: FileId, bytes: &FileBlocks, made: &[BlockDigest])
    requires { All (IsBlockOf id bytes.now) made.now }
    ensures { (m : List ℕ) → Holds256 hasher.old m → Holds256 hasher.new (m ++ (word (length bytes.now) ++ blocks_text bytes.now)) }
{
    hash_u32(hasher, bytes.len() as u32);
    File::new(id, bytes, made).hash_blocks(hasher);
}

fn hash_directory(hasher: &mut Sha256, directory: &Directory)
    ensures { (m : List ℕ) → Holds256 hasher.old m → Holds256 hasher.new (m ++ listing_text directory.now) }
{
    match put_listing(directory, hasher) {
        Ok(()) => (),
        Err(never) => match never {},
    }
}
