ghost use Rattle.std.specs.Prelude.{◌≡◌, ◌+◌, ◌<◌, ◌≤◌, None, [], ◌∷◌, ◌++◌, length, IsSome, OnOk, OnErr};
ghost use Rattle.std.specs.List.{All};
ghost use Rattle.bfs_model.specs.Server.Tree.{entries_in};
ghost use Rattle.bfs_model.specs.Bytes.Attributes.{size_of, type_of};
ghost use Rattle.bfs_model.specs.Server.Limits.{most_name_bytes, most_file_bytes, most_entries};
ghost use Rattle.bfs_model.specs.Server.Changes.{overwritten_body, resized_body, with_listing};
ghost use Rattle.bfs_model.specs.Server.Directories.{entry_named, without_name};
ghost use Rattle.bfs_types.specs.Attributes.{file_type_seen};
ghost use Rattle.bfs_inode.specs.Inodes.{body_seen, file_in, most_size};

use crate::directories::Directory;
use bfs_blocks::FileBlocks;
use bfs_types::{FileId, FileType, LinkPath, Memory};

/// What an inode holds.
#[derive(Debug, Drop)]
pub enum Body {
    /// A regular file and its bytes.
    File(FileBlocks),
    /// A directory and its entries.
    Directory(Directory),
    /// A symbolic link and the path that it holds.
    Link(LinkPath),
}

impl Body {
    pub(crate) fn file_type(&self) -> FileType
        ensures { file_type_seen result ≡ type_of (body_seen self.now) }
    {
        match self {
            Body::File(_) => FileType::Regular,
            Body::Directory(_) => FileType::Directory,
            Body::Link(_) => FileType::SymbolicLink,
        }
    }

    /// In bytes; a directory counts 32 for each entry, `.` and `..` among them.
    pub(crate) fn size(&self) -> u32
        ensures value { result ≡ size_of (body_seen self.now) }
        ensures within { result ≤ most_size }
    {
        match self {
            Body::File(data) => data.len() as u32,
            Body::Directory(directory) => 32 * (directory.len() as u32 + 2),
            Body::Link(path) => path.len() as u32,
        }
    }

    /// Of a file; what is no file stays.
    pub(crate) fn resize(&mut self, size: u32) -> Result<(), Memory>
        requires { IsSome (file_in (body_seen self.old)) → size ≤ most_file_bytes }
        ensures ok { OnOk result (body_seen self.new ≡ resized_body size (body_seen self.old)) }
        ensures err { OnErr result (body_seen self.new ≡ body_seen self.old) }
    {
        match self {
            Body::File(data) => data.resize(size as usize),
            _ => Ok(()),
        }
    }

    /// Into a file; what is no file stays.
    pub(crate) fn write(&mut self, offset: u32, written: &[u8]) -> Result<(), Memory>
        requires { offset + length written.now ≤ most_file_bytes }
        ensures ok { OnOk result (body_seen self.new ≡ overwritten_body offset written.now (body_seen self.old)) }
        ensures err { OnErr result (body_seen self.new ≡ body_seen self.old) }
    {
        match self {
            Body::File(data) => data.write(offset as usize, written),
            _ => Ok(()),
        }
    }

    /// To a directory; what is no directory stays.
    pub(crate) fn add_entry(
        &mut self,
        cookie: u32,
        name: &[u8],
        child: FileId,
    ) -> Result<(), Memory>
        requires room { length (entries_in (body_seen self.old)) < most_entries }
        requires above { All (λ entry. entry.cookie < cookie) (entries_in (body_seen self.old)) }
        requires free { entry_named name.now (entries_in (body_seen self.old)) ≡ None }
        requires short { length name.now ≤ most_name_bytes }
        ensures ok { OnOk result (body_seen self.new ≡ with_listing (λ listing. record listing { entries = listing.entries ++ (record { cookie = cookie; name = name.now; child = child }) ∷ [] }) (body_seen self.old)) }
        ensures err { OnErr result (body_seen self.new ≡ body_seen self.old) }
    {
        match self {
            Body::Directory(directory) => directory.add(cookie, name, child),
            _ => Ok(()),
        }
    }

    /// From a directory; what is no directory stays.
    pub(crate) fn drop_entry(&mut self, name: &[u8])
        ensures { body_seen self.new ≡ with_listing (λ listing. record listing { entries = without_name name.now listing.entries }) (body_seen self.old) }
    {
        if let Body::Directory(directory) = self {
            directory.drop_entry(name);
        }
    }

    /// Of a directory; what is no directory stays.
    pub(crate) fn set_parent(&mut self, parent: FileId)
        ensures { body_seen self.new ≡ with_listing (λ listing. record listing { parent = parent }) (body_seen self.old) }
    {
        if let Body::Directory(directory) = self {
            directory.set_parent(parent);
        }
    }
}
