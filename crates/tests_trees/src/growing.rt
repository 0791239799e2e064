//! Inodes and trees that grow, and what is then in them.
ghost use Rattle.std.specs.Prelude.{◌≡◌, ◌<◌, ◌≤◌, ◌↔◌, None, length, IsTrue};
ghost use Rattle.std.specs.List.{All};
ghost use Rattle.bfs_model.specs.Server.Directories.{entry_named};
ghost use Rattle.bfs_model.specs.Server.Limits.{most_entries, most_name_bytes};

use bfs_inode::{Directory, FileId, Inode};
use bfs_testing::holds;
use bfs_tree::Tree;
use bfs_types::{Context, Cred, Memory, Ordinal, Time};
use std::alloc::Global;
use std::process::Abort;
use std::test::Fail;

/// What the first call of a file system is carried out under, at that time and for that caller.
pub(crate) fn context(time: Time, caller: Cred) -> Context {
    Context {
        ordinal: Ordinal::first(),
        time,
        caller,
    }
}

/// Counts a link more, where there may be one.
pub(crate) fn add_link(inode: &mut Inode, now: Time) {
    if inode.links() < 32_767 {
        inode.add_link(now);
    }
}

/// Puts an entry into a directory that takes it.
pub(crate) fn add_entry(
    inode: &mut Inode,
    cookie: u32,
    name: &[u8],
    child: FileId,
) -> Result<(), Fail> {
    match inode.directory() {
        Some(directory) if takes(directory, cookie, name) => {}
        _ => return Err(Fail::new("no room for the entry")),
    }
    inode.add_entry(Time::epoch(), cookie, name, child)?;
    Ok(())
}

/// Whether an entry of that cookie and that name can be added to a directory.
pub(crate) fn takes(directory: &Directory, cookie: u32, name: &[u8]) -> bool
    ensures room { IsTrue result → length directory.now.entries < most_entries }
    ensures above { IsTrue result → All (λ entry. entry.cookie < cookie) directory.now.entries }
    ensures free { IsTrue result → entry_named name.now directory.now.entries ≡ None }
    ensures short { IsTrue result → length name.now ≤ most_name_bytes }
{
    directory.len() < 65_536
        && is_above(directory, cookie)
        && directory.entry(name).is_none()
        && name.len() <= 255
}

// whether the cookies of a directory are below that one
fn is_above(directory: &Directory, cookie: u32) -> bool
    ensures { IsTrue result ↔ All (λ entry. entry.cookie < cookie) directory.now.entries }
{
    directory.iter().all(|entry| entry.cookie < cookie)
}

/// Compares the fileids of a tree's inodes.
pub(crate) fn same_ids(
    rt: &impl Abort,
    alloc: Global,
    tree: &Tree,
    wanted: &[FileId],
) -> Result<(), Memory> {
    holds!(rt; tree.ids(alloc)?.as_slice() == wanted);
    Ok(())
}
