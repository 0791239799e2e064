// The words in front of what an inode holds, and in front of a directory's entries.
ghost use Rattle.std.specs.Prelude.{◌≡◌};
ghost use Rattle.bfs_inode.specs.Records as record_specs;
ghost use Rattle.bfs_model.specs.Bytes.Replies.{type_number};
ghost use Rattle.bfs_types.specs.Attributes.{file_type_seen};

use bfs_inode::{FileId, Inode};
use bfs_types::FileType;

pub(crate) fn head_words(id: FileId, inode: &Inode) -> [u32; 12]
    ensures { result ≡ record_specs.head_words id inode.now }
{
    let attributes = inode.attributes(id);
    [
        id.number(),
        type_number(attributes.file_type),
        attributes.permissions,
        attributes.links,
        attributes.uid,
        attributes.gid,
        attributes.atime.seconds(),
        attributes.atime.useconds(),
        attributes.mtime.seconds(),
        attributes.mtime.useconds(),
        attributes.ctime.seconds(),
        attributes.ctime.useconds(),
    ]
}

// RFC 1094 section 2.3.2
fn type_number(file_type: FileType) -> u32
    ensures { result ≡ type_number (file_type_seen file_type) }
{
    match file_type {
        FileType::Regular => 1,
        FileType::Directory => 2,
        FileType::SymbolicLink => 5,
    }
}
