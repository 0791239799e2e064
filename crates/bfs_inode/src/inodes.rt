ghost use Rattle.std.specs.Prelude.{◌≡◌, ◌≤◌, length, unwrap_or, is_some, option_map, IfOk, IfSome};
ghost use Rattle.std.specs.Option.{option_copied, option_map_or};
ghost use Rattle.bfs_model.specs.Server.Tree.{new_root, is_directory_body, listing_in, spent_ordinal};
ghost use Rattle.bfs_model.specs.Bytes.Attributes.{attributes_of, blocks_of, size_of};
ghost use Rattle.bfs_model.specs.Server.Limits.{most_path_bytes, most_file_bytes, most_links};
ghost use Rattle.bfs_model.specs.Server.Changes.{new_inode, permission_bits, time_or};
ghost use Rattle.bfs_model.specs.Server.Procedures.Making.{new_file, new_directory, new_symbolic_link};
ghost use Rattle.bfs_model.specs.Server.WellFormed.{IsRising, NamesDiffer};
ghost use Rattle.bfs_inode.specs.Inodes.{body_seen, file_in, path_in, most_blocks};

mod access;
mod changes;
mod kept;

use crate::bodies::Body;
use crate::directories::Directory;
use bfs_blocks::FileBlocks;
use bfs_types::{
    Attributes, BLOCK_SIZE, Context, FileId, LinkPath, MOST_PERMISSIONS, Memory, SetTime, Settings,
    Time,
};
pub use kept::RecordDigest;
use std::alloc::Global;
use std::marker::Model;

/// A file, a directory or a symbolic link, and its attributes (RFC 1094 section 2.3.5).
#[derive(Debug, Drop)]
pub struct Inode {
    permissions: u32,
    links: u32,
    uid: u32,
    gid: u32,
    atime: Time,
    mtime: Time,
    ctime: Time,
    body: Body,
}

/// The attributes of an inode that are stored beside what it holds (RFC 1094 section 2.3.5).
#[derive(Clone, Copy, Debug)]
pub struct Metadata {
    /// The twelve low bits of the mode.
    pub permissions: u32,
    /// The number of hard links.
    pub links: u32,
    /// The number of the user who owns it.
    pub uid: u32,
    /// The number of the group that owns it.
    pub gid: u32,
    /// When it was last read.
    pub atime: Time,
    /// When what it holds last changed.
    pub mtime: Time,
    /// When the inode last changed.
    pub ctime: Time,
}

impl Model for Inode {
    ghost use Rattle.bfs_model.specs.Server.Tree as model;

    ghost Value = { model.Inode };

    ghost use Rattle.bfs_inode.specs.Seen.{seen, IsWithin};

    ghost view = { seen };

    ghost invariant = { IsWithin };
}

impl Inode {
    /// The inode of these attributes, which holds that body. Its permissions are at most `MOST_PERMISSIONS`, and its links at most
    /// `MOST_LINKS`.
    pub fn new(metadata: Metadata, body: Body) -> Inode
        requires bits { metadata.permissions ≤ MOST_PERMISSIONS }
        requires few { metadata.links ≤ most_links }
        ensures { result ≡ record { permissions = metadata.permissions; links = metadata.links; uid = metadata.uid; gid = metadata.gid; atime = metadata.atime; mtime = metadata.mtime; ctime = metadata.ctime; body = body_seen body } }
    {
        Inode {
            permissions: metadata.permissions,
            links: metadata.links,
            uid: metadata.uid,
            gid: metadata.gid,
            atime: metadata.atime,
            mtime: metadata.mtime,
            ctime: metadata.ctime,
            body,
        }
    }

    /// The root of a new file system: mode 040777, owner 0:0, its own parent, no entries, and all times 0.
    pub fn root(alloc: Global) -> Inode
        ensures { result ≡ new_root }
    {
        Inode {
            permissions: 0o777,
            links: 2,
            uid: 0,
            gid: 0,
            atime: Time::epoch(),
            mtime: Time::epoch(),
            ctime: Time::epoch(),
            body: Body::Directory(Directory::new(alloc, FileId::root())),
        }
    }

    /// A new file with one link, and as many zeros as the size that is set. If no mode is set, it has mode 0644; if no owner
    /// is set, it belongs to the caller. `Memory` if memory runs out.
    pub fn new_file(alloc: Global, context: &Context, settings: &Settings) -> Result<Inode, Memory>
        requires { unwrap_or settings.now.size 0 ≤ most_file_bytes }
        ensures { IfOk result (λ inode. inode ≡ new_file context.now settings.now) }
    {
        let bytes = FileBlocks::zeros(alloc, settings.size.unwrap_or(0) as usize)?;
        let permissions = permissions_set(settings.mode, 0o644);
        Ok(Inode::made(context, settings, permissions, 1, Body::File(bytes)))
    }

    /// A new directory with two links and no entries, below the one of that fileid. If no mode is set, it has mode 0755; if no
    /// owner is set, it belongs to the caller.
    pub fn new_directory(
        alloc: Global,
        context: &Context,
        settings: &Settings,
        parent: FileId,
    ) -> Inode
        ensures { result ≡ new_directory context.now settings.now parent }
    {
        let permissions = permissions_set(settings.mode, 0o755);
        let body = Body::Directory(Directory::new(alloc, parent));
        Inode::made(context, settings, permissions, 2, body)
    }

    /// A new symbolic link with one link and mode 0777, which holds that path. If no owner is set, it belongs to the caller.
    /// `Memory` if memory runs out.
    pub fn new_symbolic_link(
        alloc: Global,
        context: &Context,
        settings: &Settings,
        target: &[u8],
    ) -> Result<Inode, Memory>
        requires { length target.now ≤ most_path_bytes }
        ensures { IfOk result (λ inode. inode ≡ new_symbolic_link context.now settings.now target.now) }
    {
        let body = Body::Link(LinkPath::new(alloc, target)?);
        Ok(Inode::made(context, settings, 0o777, 1, body))
    }

    fn made(
        context: &Context,
        settings: &Settings,
        permissions: u32,
        links: u32,
        body: Body,
    ) -> Inode
        requires bits { permissions ≤ MOST_PERMISSIONS }
        requires few { links ≤ most_links }
        ensures { result ≡ new_inode context.now.time context.now.caller settings.now permissions links (body_seen body) }
    {
        Inode {
            permissions,
            links,
            uid: settings.uid.unwrap_or(context.caller.uid),
            gid: settings.gid.unwrap_or(context.caller.gid),
            atime: time_set(context.time, settings.atime, context.time),
            mtime: time_set(context.time, settings.mtime, context.time),
            ctime: context.time,
            body,
        }
    }

    /// Whether it is a directory.
    pub fn is_directory(&self) -> bool
        ensures { result ≡ is_directory_body self.now.body }
    {
        matches!(self.body, Body::Directory(_))
    }

    /// Whether it is a symbolic link.
    pub fn is_link(&self) -> bool
        ensures { result ≡ is_some (path_in self.now.body) }
    {
        matches!(self.body, Body::Link(_))
    }

    /// Its links: of a file or a symbolic link, how many names it has; of a directory, two and one more for each directory in it.
    pub fn links(&self) -> u32
        ensures value { result ≡ self.now.links }
        ensures within { result ≤ most_links }
    {
        self.links
    }

    /// The number of the user who owns it.
    pub fn uid(&self) -> u32
        ensures { result ≡ self.now.uid }
    {
        self.uid
    }

    /// The number of the group that owns it.
    pub fn gid(&self) -> u32
        ensures { result ≡ self.now.gid }
    {
        self.gid
    }

    /// How many blocks it takes, of `BLOCK_SIZE` bytes each.
    pub fn blocks(&self) -> u32
        ensures value { result ≡ blocks_of (size_of self.now.body) }
        ensures within { result ≤ most_blocks }
    {
        self.body.size().div_ceil(BLOCK_SIZE)
    }

    /// What it holds.
    pub fn body(&self) -> &Body
        ensures { body_seen result.now ≡ self.now.body }
    {
        &self.body
    }

    /// The bytes of a file, or `None` if it is no file.
    pub fn file(&self) -> Option<&FileBlocks>
        ensures { option_copied result ≡ file_in self.now.body }
    {
        match &self.body {
            Body::File(data) => Some(data),
            _ => None,
        }
    }

    /// The path of a symbolic link, or `None` if it is none.
    pub fn link(&self) -> Option<&[u8]>
        ensures value { option_map (λ path. path.now) result ≡ path_in self.now.body }
        ensures within { IfSome result (λ path. length path.now ≤ most_path_bytes) }
    {
        match &self.body {
            Body::Link(path) => Some(path.as_slice()),
            _ => None,
        }
    }

    /// The parent and the entries of a directory, or `None` if it is no directory.
    pub fn directory(&self) -> Option<&Directory>
        ensures value { option_copied result ≡ listing_in self.now.body }
        ensures rising { IfSome result (λ directory. IsRising 0 directory.now.entries spent_ordinal) }
        ensures differ { IfSome result (λ directory. NamesDiffer directory.now.entries) }
    {
        match &self.body {
            Body::Directory(directory) => {
                directory.entries_are_in_order();
                Some(directory)
            }
            _ => None,
        }
    }

    /// Its attributes, as the inode of that fileid (RFC 1094 section 2.3.5).
    pub fn attributes(&self, id: FileId) -> Attributes
        ensures { result ≡ attributes_of id self.now }
    {
        Attributes {
            file_type: self.body.file_type(),
            permissions: self.permissions,
            links: self.links,
            uid: self.uid,
            gid: self.gid,
            size: self.body.size(),
            fileid: id,
            atime: self.atime,
            mtime: self.mtime,
            ctime: self.ctime,
        }
    }
}

// the permissions of a mode that is set
fn permissions_set(mode: Option<u32>, otherwise: u32) -> u32
    requires { otherwise ≤ MOST_PERMISSIONS }
    ensures value { result ≡ option_map_or permission_bits mode otherwise }
    ensures within { result ≤ MOST_PERMISSIONS }
{
    match mode {
        Some(mode) => mode % (MOST_PERMISSIONS + 1),
        None => otherwise,
    }
}

// a time that is set
fn time_set(now: Time, time: Option<SetTime>, otherwise: Time) -> Time
    ensures { result ≡ time_or now time otherwise }
{
    match time {
        Some(time) => time.given(now),
        None => otherwise,
    }
}
