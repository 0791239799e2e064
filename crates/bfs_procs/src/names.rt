// LOOKUP and READDIR.
ghost use Rattle.std.specs.Prelude.{◌≡◌, ◌≤◌, length, IfOk};
ghost use Rattle.std.specs.Result.{result_map_both};
ghost use Rattle.bfs_model.specs.Bytes.Arguments as call;
ghost use Rattle.bfs_model.specs.Server.Footprints.{footprint};
ghost use Rattle.bfs_model.specs.Server.Limits.{most_name_bytes};
ghost use Rattle.bfs_model.specs.Bytes.Replies as replies;
ghost use Rattle.bfs_model.specs.Server.Procedures.Names.{looked_up, directory_read};
ghost use Rattle.bfs_inode.specs.Pages.{listed_seen};
ghost use Rattle.bfs_procs.specs.Answers.{Answers};
ghost use Rattle.bfs_procs.specs.Borrowed.{page_seen};
ghost use Rattle.bfs_tree.specs.Reach.{Knows};
ghost use Rattle.bfs_wire.specs.Replies.{reply_seen, status_seen};

use crate::found::found_directory;
use crate::not_done::NotDone;
use bfs_inode::{FileId, Listed, Page, is_no_name};
use bfs_tree::Store;
use bfs_types::{Context, Memory, Name};
use bfs_wire::{ListedEntries, ListedEntry, NfsReply, Status};
use std::alloc::Global;

/// LOOKUP (RFC 1094 section 2.2.5).
pub(crate) fn look_up<S: Store>(
    store: &S,
    context: &Context,
    dir: Option<FileId>,
    name: &[u8],
) -> Result<NfsReply, NotDone>
    requires { Knows (S.reach store.now) (footprint (S.inodes store.now) context.now (call.look_up dir name.now)) }
    ensures { Answers (S.inodes store.now) (S.inodes store.now) result (looked_up (S.inodes store.now) context.now dir name.now) }
{
    let dir = match found_directory(store, dir) {
        Ok(found) => found,
        Err(status) => return Err(NotDone::Refused(status)),
    };
    if !dir.inode.may_search(&context.caller) {
        return Err(NotDone::Refused(Status::Acces));
    }
    if is_no_name(name) {
        return Err(NotDone::Refused(Status::Perm));
    }
    let file = dir
        .directory
        .child_named(dir.id, name)
        .ok_or(Status::NoEnt)?;
    let child = store.get(file).ok_or(Status::Stale)?;
    let attributes = child.attributes(file);
    Ok(NfsReply::Found { file, attributes })
}

/// READDIR (RFC 1094 section 2.2.17).
pub(crate) fn read_directory<S: Store>(
    alloc: Global,
    store: &S,
    context: &Context,
    dir: Option<FileId>,
    cookie: u32,
    count: u32,
) -> Result<NfsReply, NotDone>
    requires { Knows (S.reach store.now) (footprint (S.inodes store.now) context.now (call.read_directory dir cookie count)) }
    ensures { Answers (S.inodes store.now) (S.inodes store.now) result (directory_read (S.inodes store.now) context.now dir cookie count) }
{
    match read_page(store, context, dir, cookie, count) {
        Ok(page) => Ok(list(alloc, page)?),
        Err(status) => Err(NotDone::Refused(status)),
    }
}

/// The page that READDIR lists, or why it is refused.
pub(crate) fn read_page<'a, S: Store>(
    store: &'a S,
    context: &Context,
    dir: Option<FileId>,
    cookie: u32,
    count: u32,
) -> Result<Page<'a>, Status>
    requires { Knows (S.reach store.now) (footprint (S.inodes store.now) context.now (call.read_directory dir cookie count)) }
    ensures { result_map_both (λ page. (S.inodes store.now, page_seen page)) status_seen result ≡ directory_read (S.inodes store.now) context.now dir cookie count }
{
    let found = match found_directory(store, dir) {
        Ok(found) => found,
        Err(status) => return Err(status),
    };
    if !found.inode.may_read(&context.caller) {
        return Err(Status::Acces);
    }
    Ok(found.directory.page(found.id, cookie, count))
}

fn list(alloc: Global, mut page: Page) -> Result<NfsReply, Memory>
    ensures { IfOk result (λ reply. reply_seen reply ≡ replies.listed page.entry.listed page.entry.all) }
{
    let mut entries = ListedEntries::new(alloc);
    while let Some(listed) = page.next_entry() {
        entries.push(entry_of(alloc, &listed)?)?;
    }
    Ok(NfsReply::Listed {
        entries,
        all: page.is_last(),
    })
}

fn entry_of(alloc: Global, listed: &Listed) -> Result<ListedEntry, Memory>
    requires { length listed.now.name.now ≤ most_name_bytes }
    ensures { IfOk result (λ entry. entry ≡ listed_seen listed.now) }
{
    Ok(ListedEntry {
        cookie: listed.cookie,
        name: Name::new(alloc, listed.name)?,
        child: listed.child,
    })
}
