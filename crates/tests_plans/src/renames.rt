//! What a RENAME touches that moves a directory, where a mode refuses that to its caller.
use crate::plans::{Asked, execute};
use bfs_footprint::{Footprint, touch_of};
use bfs_serial::{Batch, FileSystem};
use bfs_testing::holds;
use bfs_testing::numbers::{MKDIR, RENAME};
use bfs_testing::words::{A, B, D, ROOT, THIRD, UNSET, call_by, put_parts};
use bfs_types::{FileId, Ordinal, Time};
use std::alloc::Global;
use std::test::Fail;

const OWNER: (u32, u32) = (1000, 100);

const ANOTHER: (u32, u32) = (1001, 100);

static NO_GROUPS: [u32; 16] = [7; 16];

// mode 0700 alone is set
const OF_THE_OWNER: &[u32] = &[
    0o700, 0xffffffff, 0xffffffff, 0xffffffff, 0xffffffff, 0xffffffff, 0xffffffff, 0xffffffff,
];

fn head(alloc: Global, user: (u32, u32), procedure: u32) -> Result<Vec<u8>, Fail> {
    Ok(call_by(alloc, 1, procedure, user, &NO_GROUPS)?)
}

fn spelled(alloc: Global, user: (u32, u32), asked: &Asked) -> Result<Vec<u8>, Fail> {
    let mut bytes = head(alloc, user, asked.0)?;
    put_parts(&mut bytes, asked.1)?;
    Ok(bytes)
}

// the directory 3, which its owner alone may read, write and search, with the directory 4 in it by the name `a`
static MAKING: [Asked; 2] = [
    Asked(MKDIR, &[ROOT, D, OF_THE_OWNER]),
    Asked(MKDIR, &[THIRD, A, UNSET]),
];

fn push_all(alloc: Global, batch: &mut Batch) -> Result<(), Fail> {
    for asked in &MAKING {
        batch.push(spelled(alloc, OWNER, asked)?.as_slice())?;
    }
    Ok(())
}

fn nested(alloc: Global) -> Result<FileSystem, Fail> {
    let mut files = FileSystem::new(alloc)?;
    let mut batch = Batch::new(alloc);
    push_all(alloc, &mut batch)?;
    execute(alloc, &mut files, &batch)?;
    Ok(files)
}

fn touch(files: &FileSystem, request: &[u8]) -> Result<Footprint, Fail> {
    let tree = files.tree().ok_or("a tree")?;
    Ok(touch_of(tree, Ordinal::first().after(2), Time::epoch(), request).footprint)
}

static RENAME_OUT: Asked = Asked(RENAME, &[THIRD, A, ROOT, B]);

fn touched(alloc: Global, user: (u32, u32)) -> Result<Footprint, Fail> {
    touch(
        &nested(alloc)?,
        spelled(alloc, user, &RENAME_OUT)?.as_slice(),
    )
}

fn is_known(footprint: &Footprint, read: &[FileId], written: &[FileId]) -> bool {
    match footprint {
        Footprint::Known { reads, writes } => {
            reads.as_slice() == read && writes.as_slice() == written
        }
        Footprint::Whole => false,
    }
}

#[test]
fn a_refused_rename_reads_both_directories(rt: HostRuntime) -> Result<(), Fail> {
    let (outer, root) = (FileId::new(3), FileId::root());
    let refused = touched(rt.alloc(), ANOTHER)?;
    holds!(rt; is_known(&refused, &[outer, root], &[]));
    holds!(rt; touched(rt.alloc(), OWNER)?.is_whole());
    Ok(())
}
