// What procedures do to the inode of one fileid, where it is there.
ghost use Rattle.std.specs.Prelude.{◌≡◌, ◌<◌, ◌≤◌, None, length, IsTrue, IfOk};
ghost use Rattle.std.specs.List.{All};
ghost use Rattle.std.specs.Option.{ForSome};
ghost use Rattle.std.specs.FinMap.{get, insert};
ghost use Rattle.bfs_model.specs.Server.Limits.{most_name_bytes, most_entries, most_links};
ghost use Rattle.bfs_model.specs.Server.Changes.{changed, link_lost, with_ctime, with_link, with_link_less, with_parent, without_entry};
ghost use Rattle.bfs_model.specs.Server.Directories.{entry_named};
ghost use Rattle.bfs_model.specs.Server.Procedures.Making.{with_name};
ghost use Rattle.bfs_model.specs.Server.Tree.{entries_at, spent_ordinal};

use bfs_inode::{FileId, Inode, Time};
use bfs_tree::Store;
use bfs_types::{Context, Memory};

/// Removes the entry of that name from a directory.
#[tactic(auto, unfolding(bfs_model::specs::Server::Changes::changed))]
pub(crate) fn drop_entry<S: Store>(store: &mut S, now: Time, dir: FileId, name: &[u8])
    requires { IsTrue ((S.reach store.old).owned dir) }
    ensures done { S.inodes store.new ≡ changed (S.inodes store.old) dir (without_entry now name.now) }
    ensures reach { S.reach store.new ≡ S.reach store.old }
{
    if let Some(inode) = store.get_mut(dir) {
        inode.drop_entry(now, name);
    }
}

/// Adds an entry to a directory, whose cookie is the call's ordinal. `Memory` if memory runs out.
#[tactic(auto, unfolding(bfs_model::specs::Server::Changes::changed))]
pub(crate) fn add_entry<S: Store>(
    store: &mut S,
    context: &Context,
    dir: FileId,
    name: &[u8],
    child: FileId,
) -> Result<(), Memory>
    requires owned { IsTrue ((S.reach store.old).owned dir) }
    requires unspent { context.now.ordinal < spent_ordinal }
    requires room { length (entries_at (get (S.inodes store.old) dir)) < most_entries }
    requires above { All (λ entry. entry.cookie < context.now.ordinal) (entries_at (get (S.inodes store.old) dir)) }
    requires free { entry_named name.now (entries_at (get (S.inodes store.old) dir)) ≡ None }
    requires short { length name.now ≤ most_name_bytes }
    ensures done { IfOk result (λ _. S.inodes store.new ≡ changed (S.inodes store.old) dir (with_name context.now name.now child)) }
    ensures reach { S.reach store.new ≡ S.reach store.old }
{
    let cookie = context.ordinal.number() as u32;
    if let Some(inode) = store.get_mut(dir) {
        inode.add_entry(context.time, cookie, name, child)?;
    }
    Ok(())
}

/// Puts an inode at a fileid. `Memory` if memory runs out.
pub(crate) fn put<S: Store>(store: &mut S, id: FileId, inode: Inode) -> Result<(), Memory>
    requires { IsTrue ((S.reach store.old).owned id) }
    ensures done { IfOk result (λ _. S.inodes store.new ≡ insert (S.inodes store.old) id inode) }
    ensures reach { S.reach store.new ≡ S.reach store.old }
{
    match store.insert(id, inode) {
        Err(_) => Err(Memory),
        Ok(()) => Ok(()),
    }
}

/// Puts a directory below another one.
#[tactic(auto, unfolding(bfs_model::specs::Server::Changes::changed))]
pub(crate) fn set_parent<S: Store>(store: &mut S, parent: FileId, dir: FileId)
    requires { IsTrue ((S.reach store.old).owned dir) }
    ensures done { S.inodes store.new ≡ changed (S.inodes store.old) dir (with_parent parent) }
    ensures reach { S.reach store.new ≡ S.reach store.old }
{
    if let Some(inode) = store.get_mut(dir) {
        inode.set_parent(parent);
    }
}

/// Counts one more link of an inode.
#[tactic(auto, unfolding(bfs_model::specs::Server::Changes::changed))]
pub(crate) fn add_link<S: Store>(store: &mut S, now: Time, id: FileId)
    requires owned { IsTrue ((S.reach store.old).owned id) }
    requires few { ForSome (get (S.inodes store.old) id) (λ inode. inode.links < most_links) }
    ensures done { S.inodes store.new ≡ changed (S.inodes store.old) id (with_link now) }
    ensures reach { S.reach store.new ≡ S.reach store.old }
{
    if let Some(inode) = store.get_mut(id) {
        inode.add_link(now);
    }
}

/// Counts one link less of an inode, which stays.
#[tactic(auto, unfolding(bfs_model::specs::Server::Changes::changed))]
pub(crate) fn lose_link<S: Store>(store: &mut S, now: Time, id: FileId)
    requires { IsTrue ((S.reach store.old).owned id) }
    ensures done { S.inodes store.new ≡ changed (S.inodes store.old) id (with_link_less now) }
    ensures reach { S.reach store.new ≡ S.reach store.old }
{
    if let Some(inode) = store.get_mut(id) {
        inode.lose_link(now);
    }
}

/// Sets the time at which an inode last changed.
#[tactic(auto, unfolding(bfs_model::specs::Server::Changes::changed))]
pub(crate) fn set_ctime<S: Store>(store: &mut S, now: Time, id: FileId)
    requires { IsTrue ((S.reach store.old).owned id) }
    ensures done { S.inodes store.new ≡ changed (S.inodes store.old) id (with_ctime now) }
    ensures reach { S.reach store.new ≡ S.reach store.old }
{
    if let Some(inode) = store.get_mut(id) {
        inode.set_ctime(now);
    }
}

/// Counts one link less of a file or a symbolic link, which goes with its last.
#[tactic(auto, unfolding(bfs_model::specs::Server::Changes::link_lost, bfs_model::specs::Server::Changes::changed))]
pub(crate) fn lose_name<S: Store>(store: &mut S, now: Time, id: FileId)
    requires { IsTrue ((S.reach store.old).owned id) }
    ensures done { S.inodes store.new ≡ link_lost (S.inodes store.old) now id }
    ensures reach { S.reach store.new ≡ S.reach store.old }
{
    let Some(inode) = store.get(id) else {
        return;
    };
    if inode.links() <= 1 {
        store.remove(id);
    } else {
        lose_link(store, now, id);
    }
}
