//! Batches of requests, and replies beside others.
use bfs_serial::{Batch, Replies};
use bfs_testing::asked::Asked;
use bfs_testing::asserts::compared;
use bfs_types::Time;
use std::alloc::Global;
use std::test::Fail;

/// The requests, with the xids from 0 on, as a batch at that second.
pub fn batch_of(alloc: Global, second: u32, requests: &[Asked]) -> Result<Batch, Fail> {
    let mut batch = Batch::new(alloc);
    batch.set_time(Time::new(second, 0).ok_or("a time")?);
    let mut xid = 0;
    for asked in requests {
        batch.push(asked.request(alloc, xid)?.as_slice())?;
        xid = u32::saturating_add(xid, 1);
    }
    Ok(batch)
}

/// CREATEs of so many files in the root at the first second, with the names from 0 on: in a new file system with the fileids from 3 on.
pub fn creates(alloc: Global, count: u32) -> Result<Batch, Fail> {
    let mut requests = Vec::new(alloc);
    for name in 0..count {
        requests.push(Asked::Create { dir: 2, name })?;
    }
    batch_of(alloc, 1, requests.as_slice())
}

/// WRITEs of four bytes at the second second, to so many files with the fileids from 3 on.
pub fn writes(alloc: Global, count: u32) -> Result<Batch, Fail> {
    let mut requests = Vec::new(alloc);
    for place in 0..count {
        let file = u32::saturating_add(place, 3);
        requests.push(Asked::Write { file, value: place })?;
    }
    batch_of(alloc, 2, requests.as_slice())
}

/// As `writes`, of 8,192 bytes each.
pub fn large_writes(alloc: Global, count: u32) -> Result<Batch, Fail> {
    let mut requests = Vec::new(alloc);
    for place in 0..count {
        let file = u32::saturating_add(place, 3);
        requests.push(Asked::WriteMuch { file })?;
    }
    batch_of(alloc, 2, requests.as_slice())
}

/// So many READs of 8,192 bytes at the third second, all of them of the file with the fileid 3.
pub fn large_reads(alloc: Global, count: u32) -> Result<Batch, Fail> {
    let mut requests = Vec::new(alloc);
    for _ in 0..count {
        requests.push(Asked::Read { file: 3 })?;
    }
    batch_of(alloc, 3, requests.as_slice())
}

/// Fails unless the replies are the same.
pub fn same_replies(replies: &Replies, wanted: &Replies) -> Result<(), Fail> {
    compared(replies.len(), wanted.len())?;
    for place in 0..replies.len().min(wanted.len()) {
        compared(replies.get(place) == wanted.get(place), true)?;
    }
    Ok(())
}
