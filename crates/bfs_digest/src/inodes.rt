// The inodes of a text, built. What can't be within the limits of an inode is never built.
ghost use Rattle.std.specs.Prelude.{◌≡◌, IfOk, IsTrue, OnOk};
ghost use Rattle.std.specs.FinMap.{insert};
ghost use Rattle.bfs_tree.specs.Tree.{at_home, reach_of};
ghost use Rattle.bfs_inode.specs.Inodes.{body_seen};
ghost use Rattle.bfs_model.specs.Server.Tree.{first_ordinal, root_id};
ghost use Rattle.bfs_model.specs.Server.WellFormed.{IsLimited};
ghost use Rattle.bfs_digest.specs.Inside.RecordReading.{body_from, directory_from, entries_from, record_from};
ghost use Rattle.bfs_digest.specs.Text.{latest_version};
ghost use Rattle.bfs_digest.specs.Inside.TextReading.{records_from};
ghost use Rattle.bfs_digest.specs.Inside.Taking.{BodyMayBe, Builds, BuildsTree};

use crate::readers::TextReader;
use crate::versions::{LATEST_VERSION, most_bytes_in};
use bfs_inode::{Body, Directory, Entry, FileBlocks, FileId, Inode};
use bfs_tree::{Store, Tree};
use bfs_types::{LinkPath, MOST_LINKS, MOST_PATH_BYTES, Memory, Name};
use std::alloc::Global;

/// The inodes of so many records of the latest version, or `None` if one of them is not within the limits of an inode. `Memory` if memory runs out.
pub(crate) fn tree_of(alloc: Global, records: &[u8], count: u32) -> Result<Option<Tree>, Memory>
    ensures { IfOk result (λ tree. BuildsTree tree (records_from latest_version count root_id records.now)) }
{
    let mut reader = TextReader::new(records);
    let mut tree = Tree::empty(alloc);
    for _record in 0..count {
        match inode_of(alloc, &mut reader)? {
            Some(numbered) => put(&mut tree, numbered)?,
            None => return Ok(None),
        }
    }
    Ok(Some(tree))
}

fn put(tree: &mut Tree, numbered: (FileId, Inode)) -> Result<(), Memory>
    requires { IsTrue ((reach_of tree.old).whole) }
    ensures ok { OnOk result (at_home tree.new ≡ insert (at_home tree.old) numbered.0 numbered.1) }
    ensures reach { reach_of tree.new ≡ reach_of tree.old }
{
    let (id, inode) = numbered;
    match tree.insert(id, inode) {
        Ok(()) => Ok(()),
        Err(_) => Err(Memory),
    }
}

#[tactic(auto, unfolding(crate::specs::Inside::RecordReading::record_from))]
fn inode_of(alloc: Global, reader: &mut TextReader) -> Result<Option<(FileId, Inode)>, Memory>
    ensures { IfOk result (λ inode. Builds (λ x. x) (λ read. IsLimited read.1) inode (record_from latest_version reader.old) reader.new) }
{
    let Ok(head) = reader.head() else {
        return Ok(None);
    };
    if head.metadata.links > MOST_LINKS {
        return Ok(None);
    }
    match body_of(alloc, reader, head.kind)? {
        Some(body) => Ok(Some((head.fileid, Inode::new(head.metadata, body)))),
        None => Ok(None),
    }
}

#[tactic(auto, unfolding(crate::specs::Inside::RecordReading::body_from, crate::specs::Inside::RecordReading::file_from, crate::specs::Inside::RecordReading::link_from))]
fn body_of(alloc: Global, reader: &mut TextReader, kind: u32) -> Result<Option<Body>, Memory>
    ensures { IfOk result (λ body. Builds body_seen BodyMayBe body (body_from latest_version kind reader.old) reader.new) }
{
    match kind {
        1 => match reader.bytes(most_bytes_in(LATEST_VERSION)) {
            Ok(bytes) => Ok(Some(Body::File(FileBlocks::new(alloc, bytes)?))),
            Err(_) => Ok(None),
        },
        2 => directory_of(alloc, reader),
        5 => match reader.bytes(MOST_PATH_BYTES as u32) {
            Ok(path) => Ok(Some(Body::Link(LinkPath::new(alloc, path)?))),
            Err(_) => Ok(None),
        },
        _ => Ok(None),
    }
}

#[tactic(auto, unfolding(crate::specs::Inside::RecordReading::directory_from, crate::specs::Inside::RecordReading::listing_from))]
fn directory_of(alloc: Global, reader: &mut TextReader) -> Result<Option<Body>, Memory>
    ensures { IfOk result (λ body. Builds body_seen BodyMayBe body (directory_from reader.old) reader.new) }
{
    let Ok(parent) = reader.word() else {
        return Ok(None);
    };
    let Ok(count) = reader.word() else {
        return Ok(None);
    };
    match entries_of(alloc, reader, count)? {
        Some(entries) => match Directory::from_entries(alloc, FileId::new(parent), entries)? {
            Some(directory) => Ok(Some(Body::Directory(directory))),
            None => Ok(None),
        },
        None => Ok(None),
    }
}

// the text was found to spell so many entries, so it is as long
fn entries_of(
    alloc: Global,
    reader: &mut TextReader,
    count: u32,
) -> Result<Option<Vec<Entry>>, Memory>
    ensures { IfOk result (λ entries. Builds (λ made. made.items) (λ read. Unit {0}) entries (entries_from count first_ordinal reader.old) reader.new) }
{
    let mut entries = Vec::with_capacity(alloc, count as usize)?;
    for _entry in 0..count {
        let Ok(entry) = reader.entry() else {
            return Ok(None);
        };
        let name = Name::new(alloc, entry.name)?;
        entries.push(Entry {
            cookie: entry.cookie,
            name,
            child: entry.child,
        })?;
    }
    Ok(Some(entries))
}
