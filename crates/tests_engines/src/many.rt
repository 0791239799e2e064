//! As many files as a batch has requests, made by one batch and written to by another.
use crate::engines::executors;
use bfs_serial::{Batch, FileSystem, Replies};
use bfs_testing::numbers::{CREATE, WRITE};
use bfs_testing::words::{ROOT, UNSET, call, put_parts, spelled};
use bfs_testing::{holds, same};
use bfs_testing_batches::gates::AsksForThreads;
use bfs_types::{Memory, Time};
use bfs_xdr::{put_opaque, put_words};
use std::alloc::Global;
use std::process::Abort;
use std::test::Fail;

// `f0`, `f1` and so on
fn name(alloc: Global, index: u32) -> Result<Vec<u8>, Memory> {
    let mut name = Vec::new(alloc);
    name.push(b'f')?;
    for divisor in [1000, 100, 10] {
        if index >= divisor {
            name.push(digit(index / divisor))?;
        }
    }
    name.push(digit(index))?;
    Ok(name)
}

fn digit(number: u32) -> u8 {
    b'0' + (number % 10) as u8
}

// CREATE of a file of that name in the root
fn create(alloc: Global, index: u32) -> Result<Vec<u8>, Memory> {
    let mut bytes = call(alloc, index, CREATE)?;
    let name = name(alloc, index)?;
    let length = name.len().min(5);
    put_words(&mut bytes, ROOT)?;
    put_opaque(&mut bytes, &name.as_slice()[..length])?;
    put_words(&mut bytes, UNSET)?;
    Ok(bytes)
}

// WRITE of an `a` at the beginning of a file
fn write(alloc: Global, index: u32, file: u32) -> Result<Vec<u8>, Memory> {
    let handle = &[0x42465332, 1, file, 0, 0, 0, 0, 0];
    let mut bytes = call(alloc, index, WRITE)?;
    put_parts(&mut bytes, &[handle, &[0, 0, 0, 1, 0x61000000]])?;
    Ok(bytes)
}

fn written(alloc: Global, index: u32, file: u32) -> Result<Vec<u8>, Memory> {
    let attributes = &[
        1, 0x81a4, 1, 65534, 65534, 1, 4096, 0, 1, 1, file, 1, 0, 2, 0, 2, 0,
    ];
    spelled(alloc, &[&[index, 1, 0, 0, 0, 0, 0], attributes])
}

fn creates(alloc: Global) -> Result<Batch, Fail> {
    let mut batch = Batch::new(alloc);
    batch.set_time(Time::new(1, 0).ok_or("a time")?);
    for index in 0..1024 {
        batch.push(create(alloc, index)?.as_slice())?;
    }
    Ok(batch)
}

fn writes(alloc: Global) -> Result<Batch, Fail> {
    let mut batch = Batch::new(alloc);
    batch.set_time(Time::new(2, 0).ok_or("a time")?);
    for index in 0..1024 {
        batch.push(write(alloc, index, index + 3)?.as_slice())?;
    }
    Ok(batch)
}

fn compares(rt: &impl Abort, alloc: Global, replies: &Replies) -> Result<(), Fail> {
    same!(rt; replies.len(), 1024);
    let mut index = 0;
    for place in 0..replies.len() {
        let wanted = written(alloc, index, index.saturating_add(3))?;
        holds!(rt; replies.get(place) == wanted.as_slice());
        index = index.saturating_add(1);
    }
    Ok(())
}

#[test]
fn writes_to_a_thousand_files(rt: HostRuntime) -> Result<(), Fail> {
    let alloc = rt.alloc();
    let creates = creates(alloc)?;
    let writes = writes(alloc)?;
    for executor in executors(alloc)? {
        let mut files = FileSystem::new(alloc)?;
        executor.execute(&rt, alloc, &mut files, &creates, &AsksForThreads)?;
        let replies = executor.execute(&rt, alloc, &mut files, &writes, &AsksForThreads)?;
        same!(rt; files.next_ordinal(), Some(2051));
        compares(&rt, alloc, &replies)?;
    }
    Ok(())
}
