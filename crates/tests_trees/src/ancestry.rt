//! What lies below a directory.
use crate::trees::{Planted, grown};
use bfs_inode::FileId;
use bfs_testing::holds;
use bfs_tree::{is_below, is_directory};
use std::test::Fail;

const THIRD: u32 = 3;

const FOURTH: u32 = 4;

// the third directory in the root, and the fourth in it
static ONE_IN_ANOTHER: &[Planted] = &[
    Planted::Directory {
        id: THIRD,
        parent: 2,
        links: 0,
        entries: &[],
    },
    Planted::Directory {
        id: FOURTH,
        parent: THIRD,
        links: 0,
        entries: &[],
    },
];

#[test]
fn tells_what_lies_below(rt: HostRuntime) -> Result<(), Fail> {
    let tree = grown(rt.alloc(), ONE_IN_ANOTHER)?;
    let (third, fourth) = (FileId::new(THIRD), FileId::new(FOURTH));
    holds!(rt; is_below(&tree, fourth, FileId::root()));
    holds!(rt; is_below(&tree, fourth, third));
    holds!(rt; is_below(&tree, third, third));
    holds!(rt; !is_below(&tree, third, fourth));
    Ok(())
}

#[test]
#[tactic(auto, using(bfs_tree::specs::Laws::Knowing::knows_all))]
fn tells_directories(rt: HostRuntime) -> Result<(), Fail> {
    let tree = grown(rt.alloc(), ONE_IN_ANOTHER)?;
    holds!(rt; is_directory(&tree, FileId::new(FOURTH)));
    holds!(rt; !is_directory(&tree, FileId::new(5)));
    Ok(())
}
