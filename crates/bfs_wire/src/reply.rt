ghost use Rattle.std.specs.Prelude.{◌≡◌, ◌≤◌, [], ◌∷◌, ◌++◌, take, length, OnOk, OnErr, IfOk};
ghost use Rattle.bfs_model.specs.Bytes.Attributes.{blocks_of as model_blocks_of};
ghost use Rattle.bfs_model.specs.Bytes.Items.{words};
ghost use Rattle.bfs_model.specs.Server.Limits.{most_data_bytes};
ghost use Rattle.bfs_model.specs.Bytes.Replies as model;
ghost use Rattle.bfs_wire.specs.Replies.{contents_front, reply_seen};

use crate::file_type::{type_bits, type_number};
use crate::handle::handle_bytes;
use crate::listing::{ListedEntries, put_end_of_entries, put_entries};
use crate::status::Status;
use bfs_types::{
    Attributes, BLOCK_SIZE, Bytes, FileId, LinkPath, MOST_DATA_BYTES, Memory, TOTAL_BLOCKS,
    TRANSFER_SIZE,
};
use bfs_xdr::{put_bool, put_fixed, put_opaque, put_u32, put_words};
use std::alloc::Global;

/// Bytes of a file that READ gives: at most `MOST_DATA_BYTES` (RFC 1094 section 2.2.7, nfsdata).
pub type FileBytes = Bytes<MOST_DATA_BYTES>;

/// The results of a procedure (RFC 1094 section 2.2).
#[derive(Debug, Drop)]
pub enum NfsReply {
    /// The results of NULL, ROOT and WRITECACHE: not even a status.
    Void,
    /// The procedure was not done, for the reason that the status tells.
    Refused(Status),
    /// The procedure was done and has no other results.
    Done,
    /// The attributes of the file.
    Attributes(Attributes),
    /// The file that was found or made, and its attributes.
    Found {
        /// The fileid of the file.
        file: FileId,
        /// The file's attributes.
        attributes: Attributes,
    },
    /// The file's attributes, and the bytes that were read of it.
    Contents {
        /// The file's attributes.
        attributes: Attributes,
        /// The bytes that were read.
        bytes: FileBytes,
    },
    /// The path that a symbolic link holds.
    Path(LinkPath),
    /// Entries of a directory, and whether they are the last ones.
    Listed {
        /// The entries, in the order in which they are listed.
        entries: ListedEntries,
        /// Whether the directory has no further entries.
        all: bool,
    },
    /// How many blocks are free.
    FreeBlocks(u32),
}

// the status of a procedure that was done (RFC 1094 section 2.3.1, NFS_OK)
const DONE: u32 = 0;

// of the only file system that there is
const FSID: u32 = 1;

/// Appends the results of a procedure (RFC 1094 section 2.2), so that a reply can be built behind its header. `Memory` if
/// memory runs out; then nothing is appended.
pub fn put_reply(out: &mut Vec<u8>, reply: &NfsReply) -> Result<(), Memory>
    ensures ok { OnOk result (out.new.items ≡ out.old.items ++ model.results (reply_seen reply.now)) }
    ensures err { OnErr result (out.new.items ≡ out.old.items) }
{
    let before = out.len();
    if put_results(out, reply).is_err() {
        out.truncate(before);
        return Err(Memory);
    }
    Ok(())
}

/// The results of a procedure (RFC 1094 section 2.2) as bytes of their own. `Memory` if memory runs out.
pub fn write_reply(alloc: Global, reply: &NfsReply) -> Result<Vec<u8>, Memory>
    ensures { IfOk result (λ bytes. bytes.items ≡ model.results (reply_seen reply.now)) }
{
    let mut bytes = Vec::new(alloc);
    put_reply(&mut bytes, reply)?;
    Ok(bytes)
}

// the results, or some of them behind what was there
#[tactic(auto, unfolding(bfs_model::specs::Bytes::Replies::results))]
fn put_results(out: &mut Vec<u8>, reply: &NfsReply) -> Result<(), Memory>
    ensures ok { OnOk result (out.new.items ≡ out.old.items ++ model.results (reply_seen reply.now)) }
    ensures err { OnErr result (take (length out.old.items) out.new.items ≡ out.old.items) }
{
    match reply {
        NfsReply::Void => Ok(()),
        NfsReply::Refused(status) => put_words(out, &[status.number()]),
        NfsReply::Done => put_done(out),
        NfsReply::Attributes(attributes) => put_attributes(out, attributes),
        NfsReply::Found { file, attributes } => put_found(out, *file, attributes),
        NfsReply::Contents { attributes, bytes } => put_contents(out, attributes, bytes.as_slice()),
        NfsReply::Path(path) => put_path(out, path),
        NfsReply::Listed { entries, all } => put_listed(out, entries, *all),
        NfsReply::FreeBlocks(free) => put_free_blocks(out, *free),
    }
}

/// Appends the status of a procedure that was done (RFC 1094 section 2.3.1, NFS_OK); its other results are to follow. `Memory` if
/// memory runs out; then nothing is appended.
pub fn put_done(out: &mut Vec<u8>) -> Result<(), Memory>
    ensures ok { OnOk result (out.new.items ≡ out.old.items ++ words (0 ∷ [])) }
    ensures err { OnErr result (out.new.items ≡ out.old.items) }
{
    put_words(out, &[DONE])
}

// attrstat where the attributes were found (RFC 1094 section 2.3.6)
#[tactic(auto, using(std::proofs::lemmas::List::append_assoc), unfolding(bfs_model::specs::Bytes::Replies::results))]
fn put_attributes(out: &mut Vec<u8>, attributes: &Attributes) -> Result<(), Memory>
    ensures ok { OnOk result (out.new.items ≡ out.old.items ++ model.results (model.attributes attributes.now)) }
    ensures err { OnErr result (take (length out.old.items) out.new.items ≡ out.old.items) }
{
    put_done(out)?;
    put_words(out, &attribute_words(attributes))
}

// diropres where the file was found (RFC 1094 section 2.3.12)
#[tactic(auto, using(std::proofs::lemmas::List::append_assoc), unfolding(bfs_model::specs::Bytes::Replies::results))]
fn put_found(out: &mut Vec<u8>, file: FileId, attributes: &Attributes) -> Result<(), Memory>
    ensures ok { OnOk result (out.new.items ≡ out.old.items ++ model.results (model.found file attributes.now)) }
    ensures err { OnErr result (take (length out.old.items) out.new.items ≡ out.old.items) }
{
    put_done(out)?;
    out.extend_from_slice(&handle_bytes(file))?;
    put_words(out, &attribute_words(attributes))
}

/// Appends the results of a READ that was done (RFC 1094 section 2.2.7): the file's attributes, and the bytes that were read of
/// it. `Memory` if memory runs out; then some of them may stand behind what was there.
#[tactic(auto, using(std::proofs::lemmas::List::append_assoc), unfolding(bfs_model::specs::Bytes::Replies::results, bfs_model::specs::Bytes::Items::counted))]
pub fn put_contents(out: &mut Vec<u8>, attributes: &Attributes, bytes: &[u8]) -> Result<(), Memory>
    requires { length bytes.now ≤ most_data_bytes }
    ensures ok { OnOk result (out.new.items ≡ out.old.items ++ model.results (model.contents attributes.now bytes.now)) }
    ensures err { OnErr result (take (length out.old.items) out.new.items ≡ out.old.items) }
{
    put_contents_front(out, attributes, bytes.len() as u32)?;
    put_fixed(out, bytes)
}

/// Appends what stands in front of the bytes in the results of a READ that was done (RFC 1094 section 2.2.7): the file's attributes, and how many
/// bytes follow. They follow as `put_fixed` appends them. `Memory` if memory runs out; then some of it may stand behind what was there.
#[tactic(auto, using(std::proofs::lemmas::List::append_assoc))]
pub fn put_contents_front(
    out: &mut Vec<u8>,
    attributes: &Attributes,
    count: u32,
) -> Result<(), Memory>
    ensures ok { OnOk result (out.new.items ≡ out.old.items ++ contents_front attributes.now count) }
    ensures err { OnErr result (take (length out.old.items) out.new.items ≡ out.old.items) }
{
    put_done(out)?;
    put_words(out, &attribute_words(attributes))?;
    put_u32(out, count)
}

// readlinkres where the path was read (RFC 1094 section 2.2.6)
#[tactic(auto, using(std::proofs::lemmas::List::append_assoc), unfolding(bfs_model::specs::Bytes::Replies::results))]
fn put_path(out: &mut Vec<u8>, path: &LinkPath) -> Result<(), Memory>
    ensures ok { OnOk result (out.new.items ≡ out.old.items ++ model.results (model.path path.now)) }
    ensures err { OnErr result (take (length out.old.items) out.new.items ≡ out.old.items) }
{
    put_done(out)?;
    put_opaque(out, path.as_slice())
}

// readdirres where entries were listed (RFC 1094 section 2.2.17)
#[tactic(auto, using(std::proofs::lemmas::List::append_assoc), unfolding(bfs_model::specs::Bytes::Replies::results))]
fn put_listed(out: &mut Vec<u8>, entries: &ListedEntries, all: bool) -> Result<(), Memory>
    ensures ok { OnOk result (out.new.items ≡ out.old.items ++ model.results (model.listed entries.now all)) }
    ensures err { OnErr result (take (length out.old.items) out.new.items ≡ out.old.items) }
{
    put_done(out)?;
    put_entries(out, entries)?;
    put_end_of_entries(out, all)
}

// statfsres where the room was told (RFC 1094 section 2.2.18)
#[tactic(auto, unfolding(bfs_model::specs::Bytes::Replies::results))]
fn put_free_blocks(out: &mut Vec<u8>, free: u32) -> Result<(), Memory>
    ensures ok { OnOk result (out.new.items ≡ out.old.items ++ model.results (model.free_blocks free)) }
    ensures err { OnErr result (out.new.items ≡ out.old.items) }
{
    put_words(
        out,
        &[DONE, TRANSFER_SIZE, BLOCK_SIZE, TOTAL_BLOCKS, free, free],
    )
}

// the words of an fattr (RFC 1094 section 2.3.5)
fn attribute_words(attributes: &Attributes) -> [u32; 17]
    ensures { result ≡ model.attribute_words attributes.now }
{
    [
        type_number(attributes.file_type),
        type_bits(attributes.file_type) + attributes.permissions,
        attributes.links,
        attributes.uid,
        attributes.gid,
        attributes.size,
        BLOCK_SIZE,
        0,
        blocks_of(attributes.size),
        FSID,
        attributes.fileid.number(),
        attributes.atime.seconds(),
        attributes.atime.useconds(),
        attributes.mtime.seconds(),
        attributes.mtime.useconds(),
        attributes.ctime.seconds(),
        attributes.ctime.useconds(),
    ]
}

// the blocks that so many bytes take, rounded up
fn blocks_of(size: u32) -> u32
    ensures { result ≡ model_blocks_of size }
{
    size.div_ceil(BLOCK_SIZE)
}
