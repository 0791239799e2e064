// READ, READLINK and WRITE.
ghost use Rattle.std.specs.Prelude.{◌≡◌, ◌+◌, ◌≤◌, ◌++◌, length, min, nat_lt, IfOk, OnOk};
ghost use Rattle.std.specs.Result.{result_map_both};
ghost use Rattle.bfs_model.specs.Bytes.Arguments as call;
ghost use Rattle.bfs_model.specs.Server.FileBytes as model;
ghost use Rattle.bfs_model.specs.Server.Footprints.{footprint};
ghost use Rattle.bfs_model.specs.Server.Limits.{most_file_bytes, most_data_bytes};
ghost use Rattle.bfs_model.specs.Server.Refusals.{bytes_in};
ghost use Rattle.bfs_model.specs.Server.Procedures.Data.{file_read, file_written, link_read};
ghost use Rattle.bfs_procs.specs.Answers.{Answers};
ghost use Rattle.bfs_procs.specs.Borrowed.{contents_seen};
ghost use Rattle.bfs_tree.specs.Reach.{Knows};
ghost use Rattle.bfs_wire.specs.Replies.{status_seen};

use crate::not_done::NotDone;
use bfs_inode::{FileBlocks, FileId, Inode};
use bfs_tree::Store;
use bfs_types::{Attributes, Context, LinkPath, MOST_DATA_BYTES, MOST_FILE_BYTES, Memory};
use bfs_wire::{FileBytes, NfsReply, Status};
use std::alloc::Global;

/// What READ gives (RFC 1094 section 2.2.7): so many bytes of the file, from the offset on, at most `MOST_DATA_BYTES`.
#[derive(Clone, Copy, Debug)]
pub(crate) struct Contents<'a> {
    pub(crate) attributes: Attributes,
    pub(crate) file: &'a FileBlocks,
    pub(crate) offset: u32,
    pub(crate) count: u32,
}

impl<'a> Contents<'a> {
    fn most(&self) -> usize
        ensures { result ≡ min self.now.count most_data_bytes }
    {
        (self.count as usize).min(MOST_DATA_BYTES)
    }

    /// How many bytes it gives.
    pub(crate) fn len(&self) -> usize
        ensures value { result ≡ length (model.bytes_from self.now.offset self.now.count self.now.file.now) }
        ensures short { result ≤ most_data_bytes }
    {
        let behind = self.file.len().saturating_sub(self.offset as usize);
        behind.min(self.most())
    }

    /// Puts the bytes behind others.
    pub(crate) fn put_bytes(&self, out: &mut Vec<u8>) -> Result<(), Memory>
        ensures { OnOk result (out.new.items ≡ out.old.items ++ model.bytes_from self.now.offset self.now.count self.now.file.now) }
    {
        self.file.read(self.offset as usize, self.most(), out)
    }
}

/// READ (RFC 1094 section 2.2.7).
pub(crate) fn read<S: Store>(
    alloc: Global,
    store: &S,
    context: &Context,
    file: Option<FileId>,
    offset: u32,
    count: u32,
) -> Result<NfsReply, NotDone>
    requires { Knows (S.reach store.now) (footprint (S.inodes store.now) context.now (call.read file offset count)) }
    ensures { Answers (S.inodes store.now) (S.inodes store.now) result (file_read (S.inodes store.now) context.now file offset count) }
{
    match read_contents(store, context, file, offset, count) {
        Ok(read) => Ok(NfsReply::Contents {
            attributes: read.attributes,
            bytes: bytes_read(alloc, &read)?,
        }),
        Err(status) => Err(NotDone::Refused(status)),
    }
}

fn bytes_read(alloc: Global, read: &Contents) -> Result<FileBytes, Memory>
    ensures { IfOk result (λ bytes. bytes ≡ model.bytes_from read.now.offset read.now.count read.now.file.now) }
{
    let mut bytes = Vec::new(alloc);
    read.put_bytes(&mut bytes)?;
    FileBytes::new(alloc, &bytes)
}

/// What READ gives, or why it is refused.
pub(crate) fn read_contents<'a, S: Store>(
    store: &'a S,
    context: &Context,
    file: Option<FileId>,
    offset: u32,
    count: u32,
) -> Result<Contents<'a>, Status>
    requires { Knows (S.reach store.now) (footprint (S.inodes store.now) context.now (call.read file offset count)) }
    ensures { result_map_both (λ read. (S.inodes store.now, contents_seen read)) status_seen result ≡ file_read (S.inodes store.now) context.now file offset count }
{
    let id = file.ok_or(Status::Stale)?;
    let inode = store.get(id).ok_or(Status::Stale)?;
    let file = bytes_of(inode)?;
    if !inode.may_read_file(&context.caller) {
        return Err(Status::Acces);
    }
    Ok(Contents {
        attributes: inode.attributes(id),
        file,
        offset,
        count,
    })
}

/// READLINK (RFC 1094 section 2.2.6).
pub(crate) fn read_link<S: Store>(
    alloc: Global,
    store: &S,
    context: &Context,
    file: Option<FileId>,
) -> Result<NfsReply, NotDone>
    requires { Knows (S.reach store.now) (footprint (S.inodes store.now) context.now (call.read_link file)) }
    ensures { Answers (S.inodes store.now) (S.inodes store.now) result (link_read (S.inodes store.now) context.now file) }
{
    let id = file.ok_or(Status::Stale)?;
    let inode = store.get(id).ok_or(Status::Stale)?;
    let path = inode.link().ok_or(Status::Perm)?;
    Ok(NfsReply::Path(LinkPath::new(alloc, path)?))
}

/// WRITE (RFC 1094 section 2.2.9).
#[tactic(auto, using(bfs_tree::proofs::Public::insert_same))]
pub(crate) fn write<S: Store>(
    store: &mut S,
    context: &Context,
    file: Option<FileId>,
    offset: u32,
    bytes: &[u8],
) -> Result<NfsReply, NotDone>
    requires { Knows (S.reach store.old) (footprint (S.inodes store.old) context.now (call.write file offset bytes.now)) }
    ensures done { Answers (S.inodes store.old) (S.inodes store.new) result (file_written (S.inodes store.old) context.now file offset bytes.now) }
    ensures reach { S.reach store.new ≡ S.reach store.old }
{
    let id = file.ok_or(Status::Stale)?;
    let Some(inode) = store.get_mut(id) else {
        return Err(NotDone::Refused(Status::Stale));
    };
    bytes_of(inode)?;
    if !inode.may_write_file(&context.caller) {
        return Err(NotDone::Refused(Status::Acces));
    }
    if is_past_limit(offset, bytes) {
        return Err(NotDone::Refused(Status::FBig));
    }
    inode.write(context.time, offset, bytes)?;
    Ok(NfsReply::Attributes(inode.attributes(id)))
}

// the bytes of a file, or why it is none
fn bytes_of(inode: &Inode) -> Result<&FileBlocks, Status>
    ensures { result_map_both (λ bytes. bytes.now) status_seen result ≡ bytes_in inode.now.body }
{
    match inode.file() {
        Some(bytes) => Ok(bytes),
        None if inode.is_directory() => Err(Status::IsDir),
        None => Err(Status::Perm),
    }
}

// whether bytes that are written at that offset make a file too large
fn is_past_limit(offset: u32, bytes: &[u8]) -> bool
    ensures { result ≡ nat_lt most_file_bytes (offset + length bytes.now) }
{
    offset as usize + bytes.len() > MOST_FILE_BYTES
}
