ghost use Rattle.std.specs.Prelude.{◌≡◌, ◌≤◌};
ghost use Rattle.bfs_model.specs.Bytes.Replies as model;
ghost use Rattle.bfs_types.specs.Attributes.{file_type_seen};

use bfs_types::FileType;

/// The number that spells a type of inode (RFC 1094 section 2.3.2, ftype).
pub(crate) fn type_number(file_type: FileType) -> u32
    ensures { result ≡ model.type_number (file_type_seen file_type) }
{
    match file_type {
        FileType::Regular => 1,
        FileType::Directory => 2,
        FileType::SymbolicLink => 5,
    }
}

/// The bits of the mode that tell a type of inode, above its permissions (RFC 1094 section 2.3.5).
pub(crate) fn type_bits(file_type: FileType) -> u32
    ensures value { result ≡ model.type_bits (file_type_seen file_type) }
    ensures low { result ≤ 40960 }
{
    match file_type {
        FileType::Regular => 0o100000,
        FileType::Directory => 0o040000,
        FileType::SymbolicLink => 0o120000,
    }
}
