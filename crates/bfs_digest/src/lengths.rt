// How many bytes a text has, so that they are written into memory that is there. No contract speaks of it: a text of another length only
// costs another allocation.
use bfs_inode::{Body, Directory};
use bfs_tree::Tree;

const HEADER_BYTES: usize = 28;

const WORD_BYTES: usize = 4;

const HEAD_BYTES: usize = 48;

/// The bytes of the text of a file system with those inodes.
pub(crate) fn text_length(tree: &Tree) -> usize {
    let mut length = HEADER_BYTES;
    for (_, inode) in tree.iter() {
        let body = body_length(inode.body());
        length = length.saturating_add(HEAD_BYTES).saturating_add(body);
    }
    length
}

/// Of what an inode holds.
pub(crate) fn body_length(body: &Body) -> usize {
    match body {
        Body::File(data) => counted_length(data.len()),
        Body::Directory(directory) => directory_length(directory),
        Body::Link(path) => counted_length(path.len()),
    }
}

// of the parent, the number of the entries, and the entries
fn directory_length(directory: &Directory) -> usize {
    let mut length = 2 * WORD_BYTES;
    for entry in directory.iter() {
        let name = counted_length(entry.name.as_slice().len());
        length = length.saturating_add(2 * WORD_BYTES).saturating_add(name);
    }
    length
}

// of opaque data behind its length, with zeros up to a multiple of a word
fn counted_length(bytes: usize) -> usize {
    bytes.saturating_add(7) / WORD_BYTES * WORD_BYTES
}
