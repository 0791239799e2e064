//! What a store knows.
use crate::inodes::file;
use bfs_inode::{FileId, Inode};
use bfs_testing::{holds, same};
use bfs_tree::{BoxedInode, Store, Tree};
use bfs_types::Memory;
use std::test::Fail;

#[test]
fn knows_each_fileid_of_a_whole_tree(rt: HostRuntime) -> Result<(), Fail> {
    let tree = Tree::new(rt.alloc())?;
    holds!(rt; tree.is_whole());
    holds!(rt; tree.knows(FileId::new(7)));
    Ok(())
}

#[test]
fn an_inode_stays_in_its_box(rt: HostRuntime) -> Result<(), Fail> {
    let alloc = rt.alloc();
    let mut boxed = BoxedInode::new(alloc, Inode::root(alloc)).map_err(|_| Memory)?;
    same!(rt; boxed.get().links(), 2);
    *boxed.get_mut() = file(alloc)?;
    holds!(rt; boxed.get().file().is_some());
    holds!(rt; !boxed.into_inode().is_directory());
    Ok(())
}

#[test]
#[tactic(auto, using(bfs_tree::specs::Laws::Knowing::knows_all))]
fn a_reserved_place_is_lent_out(rt: HostRuntime) -> Result<(), Fail> {
    let alloc = rt.alloc();
    let mut tree = Tree::new(alloc)?;
    let id = FileId::new(7);
    tree.reserve(id)?;
    let none = tree.lend_out(id).is_none();
    holds!(rt; none && !tree.knows(id));
    let inode = BoxedInode::new(alloc, file(alloc)?).map_err(|_| Memory)?;
    tree.bring_home(id, Some(inode));
    same!(rt; (tree.is_whole(), tree.count()), (true, 2));
    Ok(())
}
