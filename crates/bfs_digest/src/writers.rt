// The text of a file system, appended piece by piece: each byte is written once. Where memory runs out, some of it may have been appended.
ghost use Rattle.std.specs.Prelude.{◌≡◌, ◌++◌, length, OnOk, OnErr};
ghost use Rattle.std.specs.FinMap.{entries};
ghost use Rattle.bfs_model.specs.Bytes.Items.{counted};
ghost use Rattle.bfs_inode.specs.Frozen.{frozen_text};
ghost use Rattle.bfs_inode.specs.Inodes.{body_seen};
ghost use Rattle.bfs_inode.specs.Records.{body_text, record_text};
ghost use Rattle.bfs_tree.specs.Tree.{at_home};
ghost use Rattle.bfs_digest.specs.Text.{records_text};
ghost use Rattle.bfs_xdr.specs.Sinks.{BeginsWith};

use crate::listings::put_listing;
use crate::words::head_words;
use bfs_inode::{Body, FileBlocks, FileId, FrozenBody, FrozenInode, Inode};
use bfs_tree::Tree;
use bfs_types::Memory;
use bfs_xdr::{put_opaque, put_padding, put_u32, put_words};

/// The records of all inodes, by rising fileid.
pub(crate) fn put_records(out: &mut Vec<u8>, tree: &Tree) -> Result<(), Memory>
    ensures ok { OnOk result (out.new.items ≡ out.old.items ++ records_text (entries (at_home tree.now))) }
    ensures err { OnErr result (BeginsWith out.old.items out.new.items) }
{
    for (id, inode) in tree.iter() {
        put_record(out, FileId::new(*id), inode)?;
    }
    Ok(())
}

#[tactic(auto, using(std::proofs::lemmas::List::append_assoc), unfolding(bfs_inode::specs::Records::record_text))]
fn put_record(out: &mut Vec<u8>, id: FileId, inode: &Inode) -> Result<(), Memory>
    ensures ok { OnOk result (out.new.items ≡ out.old.items ++ record_text id inode.now) }
    ensures err { OnErr result (BeginsWith out.old.items out.new.items) }
{
    put_words(out, &head_words(id, inode))?;
    put_body(out, inode.body())
}

pub(crate) fn put_body(out: &mut Vec<u8>, body: &Body) -> Result<(), Memory>
    ensures ok { OnOk result (out.new.items ≡ out.old.items ++ body_text (body_seen body.now)) }
    ensures err { OnErr result (BeginsWith out.old.items out.new.items) }
{
    match body {
        Body::File(data) => put_file(out, data),
        Body::Directory(directory) => put_listing(directory, out),
        Body::Link(path) => put_opaque(out, path.as_slice()),
    }
}

// its bytes behind their number, block after block
#[tactic(auto, using(std::proofs::lemmas::List::append_assoc), unfolding(bfs_model::specs::Bytes::Items::counted, bfs_model::specs::Bytes::Items::fixed))]
fn put_file(out: &mut Vec<u8>, bytes: &FileBlocks) -> Result<(), Memory>
    ensures ok { OnOk result (out.new.items ≡ out.old.items ++ counted bytes.now) }
    ensures err { OnErr result (BeginsWith out.old.items out.new.items) }
{
    let count = bytes.len();
    put_u32(out, count as u32)?;
    bytes.read(0, count, out)?;
    put_padding(out, count)
}

/// What a text has of a frozen inode.
#[tactic(auto, using(std::proofs::lemmas::List::append_assoc))]
pub(crate) fn put_frozen(out: &mut Vec<u8>, frozen: &FrozenInode) -> Result<(), Memory>
    ensures ok { OnOk result (out.new.items ≡ out.old.items ++ frozen.now.text) }
    ensures err { OnErr result (BeginsWith out.old.items out.new.items) }
{
    let (head, body) = frozen.parts();
    put_words(out, head)?;
    put_frozen_body(out, body)
}

fn put_frozen_body(out: &mut Vec<u8>, body: &FrozenBody) -> Result<(), Memory>
    ensures ok { OnOk result (out.new.items ≡ out.old.items ++ frozen_text body.now) }
    ensures err { OnErr result (BeginsWith out.old.items out.new.items) }
{
    match body {
        FrozenBody::File(bytes) => put_file(out, bytes),
        FrozenBody::Text(text) => Ok(out.extend_from_slice(text)?),
    }
}
