//! A file with several owners, of which one writes.
ghost use Rattle.std.specs.Prelude.{◌≡◌, ◌+◌, ◌≤◌, length, OnErr, OnOk};
ghost use Rattle.std.specs.Arc.{arc_value};
ghost use Rattle.bfs_model.specs.Server.FileBytes.{overwritten};
ghost use Rattle.bfs_model.specs.Server.Limits.{most_file_bytes};

use crate::files::{file_of, has};
use bfs_blocks::FileBlocks;
use bfs_testing::holds;
use bfs_types::Memory;
use std::sync::Arc;
use std::test::Fail;

// to a copy, where the file has other owners; if memory runs out, nothing changes
fn write(file: &mut Arc<FileBlocks>, offset: usize, written: &[u8]) -> Result<(), Memory>
    requires { offset + length written.now ≤ most_file_bytes }
    ensures ok { OnOk result (arc_value file.new ≡ overwritten offset written.now (arc_value file.old)) }
    ensures err { OnErr result (arc_value file.new ≡ arc_value file.old) }
{
    Arc::make_mut(file)?.write(offset, written)
}

#[test]
fn the_other_owner_keeps_its_bytes(rt: HostRuntime) -> Result<(), Fail> {
    let alloc = rt.alloc();
    let mut file = file_of(alloc, b"abc")?;
    file.keep(alloc)?;
    let mut live = Arc::new(alloc, file)?;
    let frozen = Arc::try_clone(&live)?;
    write(&mut live, 1, b"xyz")?;
    holds!(rt; has(alloc, &live, b"axyz")?);
    holds!(rt; has(alloc, &frozen, b"abc")?);
    Ok(())
}
