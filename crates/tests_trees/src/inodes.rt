//! Inodes, directories and stores, one call at a time.
ghost use Rattle.std.specs.Prelude.{◌≡◌, IsTrue};
ghost use Rattle.bfs_tree.specs.Tree.{reach_of};

use crate::growing::{add_link, context, same_ids};
use bfs_inode::{Directory, Entry, FileId, Inode};
use bfs_testing::{holds, same};
use bfs_tree::{Store, Tree};
use bfs_types::{Cred, FileType, Gids, LinkPath, Memory, Name, SetTime, Settings, Time};
use std::alloc::Global;
use std::test::Fail;

pub(crate) const UNSET: Settings = Settings {
    mode: None,
    uid: None,
    gid: None,
    size: None,
    atime: None,
    mtime: None,
};

fn caller() -> Cred {
    Cred {
        uid: 1000,
        gid: 100,
        gids: Gids::none(),
    }
}

fn first_second() -> Time {
    Time::new(1, 0).unwrap_or(Time::epoch())
}

fn child_of(inode: &Inode, name: &[u8]) -> Option<FileId> {
    Some(inode.directory()?.entry(name)?.child)
}

#[test]
fn makes_directories_without_entries(rt: HostRuntime) {
    let directory = Directory::new(rt.alloc(), FileId::new(7));
    same!(rt; directory.parent(), FileId::new(7));
    same!(rt; directory.len(), 0);
    holds!(rt; directory.is_empty());
}

#[test]
fn makes_the_root(rt: HostRuntime) {
    let root = Inode::root(rt.alloc());
    same!(rt; root.attributes(FileId::root()).fileid.number(), 2);
    holds!(rt; root.directory().is_some());
}

pub(crate) fn file(alloc: Global) -> Result<Inode, Memory> {
    Inode::new_file(alloc, &context(first_second(), caller()), &UNSET)
}

#[test]
fn makes_files(rt: HostRuntime) -> Result<(), Fail> {
    let mut file = file(rt.alloc())?;
    holds!(rt; !file.is_directory());
    holds!(rt; !file.is_link());
    holds!(rt; file.link().is_none());
    same!(rt; file.links(), 1);
    add_link(&mut file, first_second());
    same!(rt; file.links(), 2);
    Ok(())
}

// two bytes, and 7.000005 as the time of the last access
const CUT: Settings = Settings {
    size: Some(2),
    atime: Some(SetTime {
        seconds: 7,
        useconds: 5,
    }),
    ..UNSET
};

#[test]
fn writes_and_cuts_files(rt: HostRuntime) -> Result<(), Fail> {
    let mut file = written_file(rt.alloc())?;
    same!(rt; bytes_of(&file), Some(b"\0ab".as_slice()));
    file.set_attributes(first_second(), &CUT)?;
    same!(rt; bytes_of(&file), Some(b"\0a".as_slice()));
    same!(rt; file.attributes(FileId::new(3)).atime.seconds(), 7);
    Ok(())
}

// of a file of one block
fn bytes_of(inode: &Inode) -> Option<&[u8]> {
    Some(inode.file()?.block(0))
}

fn written_file(alloc: Global) -> Result<Inode, Memory> {
    let mut file = file(alloc)?;
    file.write(first_second(), 1, b"ab")?;
    Ok(file)
}

fn root_with_entry(alloc: Global) -> Result<Inode, Memory> {
    let mut root = Inode::root(alloc);
    root.add_entry(Time::epoch(), 3, b"a", FileId::new(3))?;
    Ok(root)
}

#[test]
fn adds_entries(rt: HostRuntime) -> Result<(), Fail> {
    let root = root_with_entry(rt.alloc())?;
    same!(rt; child_of(&root, b"a"), Some(FileId::new(3)));
    same!(rt; first_cookie(&root), Some(3));
    Ok(())
}

fn first_cookie(inode: &Inode) -> Option<u32> {
    Some(inode.directory()?.at(0)?.cookie)
}

#[test]
fn drops_entries(rt: HostRuntime) -> Result<(), Fail> {
    let later = first_second();
    let mut root = root_with_entry(rt.alloc())?;
    root.drop_entry(later, b"a");
    holds!(rt; child_of(&root, b"a").is_none());
    same!(rt; root.attributes(FileId::root()).mtime, later);
    Ok(())
}

#[test]
fn counts_a_link_less(rt: HostRuntime) {
    let later = first_second();
    let mut root = Inode::root(rt.alloc());
    root.lose_link(Time::epoch());
    same!(rt; root.links(), 1);
    root.set_ctime(later);
    same!(rt; root.attributes(FileId::root()).ctime, later);
}

#[test]
fn counts_entries(rt: HostRuntime) -> Result<(), Fail> {
    let mut directory = Directory::new(rt.alloc(), FileId::root());
    directory.add(4, b"b", FileId::new(4))?;
    same!(rt; directory.len(), 1);
    Ok(())
}

// the cookie of what was dropped, what it named, and whether its name was that one
fn drop_entry(directory: &mut Directory, name: &[u8]) -> Option<(u32, FileId, bool)> {
    let entry = directory.drop_entry(name)?;
    Some((entry.cookie, entry.child, entry.name.as_slice() == name))
}

#[test]
fn takes_back_entries(rt: HostRuntime) -> Result<(), Fail> {
    let mut directory = Directory::new(rt.alloc(), FileId::root());
    directory.add(4, b"b", FileId::new(5))?;
    same!(rt; drop_entry(&mut directory, b"b"), Some((4, FileId::new(5), true)));
    same!(rt; drop_entry(&mut directory, b"b"), None);
    Ok(())
}

// how many entries the directory has that is made of these: cookies with names of one letter
fn made_of(alloc: Global, entries: &[(u32, u8)]) -> Result<Option<usize>, Memory> {
    let mut made = Vec::new(alloc);
    for (cookie, letter) in entries {
        made.push(Entry {
            cookie: *cookie,
            name: Name::new(alloc, &[*letter])?,
            child: FileId::new(9),
        })?;
    }
    match Directory::from_entries(alloc, FileId::root(), made)? {
        Some(directory) => Ok(Some(directory.len())),
        None => Ok(None),
    }
}

#[test]
fn makes_directories_of_entries_in_order(rt: HostRuntime) -> Result<(), Fail> {
    let alloc = rt.alloc();
    same!(rt; made_of(alloc, &[(3, b'b'), (5, b'a')])?, Some(2));
    same!(rt; made_of(alloc, &[(5, b'b'), (3, b'a')])?, None);
    same!(rt; made_of(alloc, &[(3, b'a'), (5, b'a')])?, None);
    Ok(())
}

#[test]
fn moves_directories(rt: HostRuntime) {
    let mut directory = Directory::new(rt.alloc(), FileId::root());
    directory.set_parent(FileId::new(6));
    same!(rt; directory.parent(), FileId::new(6));
    let mut below = directory_below(rt.alloc(), FileId::new(7));
    below.set_parent(FileId::new(8));
    same!(rt; parent_of(&below), Some(FileId::new(8)));
}

fn parent_of(inode: &Inode) -> Option<FileId> {
    Some(inode.directory()?.parent())
}

fn directory_below(alloc: Global, parent: FileId) -> Inode {
    Inode::new_directory(alloc, &context(first_second(), caller()), &UNSET, parent)
}

#[test]
fn makes_directories(rt: HostRuntime) {
    let directory = directory_below(rt.alloc(), FileId::new(7));
    holds!(rt; directory.is_directory());
    same!(rt; (directory.links(), directory.blocks()), (2, 1));
    let attributes = directory.attributes(FileId::new(3));
    same!(rt; (attributes.permissions, attributes.size), (0o755, 64));
    same!(rt; (attributes.uid, attributes.gid), (1000, 100));
}

#[test]
fn makes_symbolic_links(rt: HostRuntime) -> Result<(), Fail> {
    let context = context(first_second(), caller());
    let link = Inode::new_symbolic_link(rt.alloc(), &context, &UNSET, b"a/b")?;
    holds!(rt; link.is_link());
    holds!(rt; link.link() == Some(b"a/b".as_slice()));
    let attributes = link.attributes(FileId::new(3));
    same!(rt; attributes.file_type, FileType::SymbolicLink);
    same!(rt; (attributes.permissions, attributes.size), (0o777, 3));
    Ok(())
}

#[tactic(auto, using(bfs_tree::specs::Laws::Knowing::knows_all))]
fn add_second_link(tree: &mut Tree, id: FileId) -> bool
    requires whole { IsTrue ((reach_of tree.old).whole) }
    ensures reach { reach_of tree.new ≡ reach_of tree.old }
{
    match tree.get_mut(id) {
        Some(inode) if inode.links() == 1 => {
            inode.add_link(Time::epoch());
            true
        }
        _ => false,
    }
}

#[tactic(auto, using(bfs_tree::specs::Laws::Knowing::knows_all))]
fn put_file(alloc: Global, tree: &mut Tree, id: FileId) -> Result<bool, Memory>
    requires whole { IsTrue ((reach_of tree.old).whole) }
    ensures reach { reach_of tree.new ≡ reach_of tree.old }
{
    let file = Inode::new_file(alloc, &context(Time::epoch(), superuser()), &UNSET)?;
    Ok(tree.insert(id, file).is_ok())
}

#[test]
#[tactic(auto, using(bfs_tree::specs::Laws::Knowing::knows_all))]
fn keeps_inodes_by_their_fileids(rt: HostRuntime) -> Result<(), Fail> {
    let id = FileId::new(3);
    let mut tree = Tree::new(rt.alloc())?;
    holds!(rt; put_file(rt.alloc(), &mut tree, id)?);
    holds!(rt; add_second_link(&mut tree, id));
    same!(rt; links_at(&tree, id), Some(2));
    holds!(rt; tree.remove(id).is_some());
    holds!(rt; tree.get(id).is_none());
    Ok(())
}

fn superuser() -> Cred {
    Cred {
        uid: 0,
        gid: 0,
        gids: Gids::none(),
    }
}

// through the trait, of a store that is whole
fn count_and_used_blocks<S: Store>(store: &S) -> Option<(usize, u64)> {
    if store.is_whole() {
        Some((store.count(), store.used_blocks()))
    } else {
        None
    }
}

#[tactic(auto, using(bfs_tree::specs::Laws::Knowing::knows_all))]
fn links_at(tree: &Tree, id: FileId) -> Option<u32>
    requires whole { IsTrue ((reach_of tree.now).whole) }
{
    Some(tree.get(id)?.links())
}

const TWO_BLOCKS: Settings = Settings {
    size: Some(4097),
    ..UNSET
};

#[test]
#[tactic(auto, using(bfs_tree::specs::Laws::Knowing::knows_all))]
fn counts_inodes_and_blocks(rt: HostRuntime) -> Result<(), Fail> {
    let alloc = rt.alloc();
    let mut tree = Tree::new(alloc)?;
    same!(rt; count_and_used_blocks(&tree), Some((1, 1)));
    let file = Inode::new_file(alloc, &context(Time::epoch(), superuser()), &TWO_BLOCKS)?;
    same!(rt; file.blocks(), 2);
    tree.insert(FileId::new(9), file)?;
    same!(rt; count_and_used_blocks(&tree), Some((2, 3)));
    same_ids(&rt, alloc, &tree, &[FileId::root(), FileId::new(9)])?;
    Ok(())
}

#[test]
fn holds_paths_and_names(rt: HostRuntime) -> Result<(), Fail> {
    let path = LinkPath::new(rt.alloc(), b"a/b")?;
    holds!(rt; path.as_slice() == b"a/b".as_slice());
    let name = Name::new(rt.alloc(), b"a")?;
    holds!(rt; name.as_slice() == b"a".as_slice());
    Ok(())
}
