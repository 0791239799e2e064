//! Batches on a file system.
use bfs_serial::{Batch, ExecError, FileSystem, PushError, Replies, execute_serial};
use bfs_testing::words::{ROOT_REQUEST, spells};
use bfs_testing::{holds, same};
use bfs_types::{Memory, Time};
use std::alloc::Global;
use std::process::Abort;
use std::test::Fail;

pub(crate) const ROOT_REPLY: &str =
    "0000000100000001000000000000000000000000000000000000000000000002000041ff000000020000000000000000000000400000100000000000000000010000000100000002000000000000000000000000000000000000000000000000";

// GETATTR of the root as a message of type 1, which is a reply
const NO_CALL: &str =
    "000000010000000100000002000186a30000000200000001000000000000000000000000000000004246533200000001000000020000000000000000000000000000000000000000";

pub(crate) fn one_request(alloc: Global) -> Result<Batch, Fail> {
    let mut batch = Batch::new(alloc);
    batch.set_time(Time::new(1, 0).ok_or("a time")?);
    batch.push(hex::decode(alloc, ROOT_REQUEST)?.as_slice())?;
    Ok(batch)
}

#[test]
fn executes_one_request(rt: HostRuntime) -> Result<(), Fail> {
    let mut files = FileSystem::new(rt.alloc())?;
    let replies = execute_serial(rt.alloc(), &mut files, &one_request(rt.alloc())?)?;
    holds!(rt; files.is_live());
    same!(rt; files.next_ordinal(), Some(4));
    same!(rt; files.last_time(), Time::new(1, 0));
    holds!(rt; files.tree().is_some());
    assert_eq!(rt; replies.len(), 1);
    spells(rt.alloc(), replies.get(0), ROOT_REPLY)
}

fn pushed(alloc: Global) -> Result<Replies, Memory> {
    let mut replies = Replies::new(alloc);
    replies.push(Vec::new(alloc))?;
    replies.push(vec![in alloc; 7u8; 8_800]?)?;
    Ok(replies)
}

#[test]
fn keeps_replies_in_their_order(rt: HostRuntime) -> Result<(), Fail> {
    holds!(rt; Replies::new(rt.alloc()).is_empty());
    let replies = pushed(rt.alloc())?;
    assert_eq!(rt; replies.len(), 2);
    same!(rt; replies.get(0).len(), 0);
    same!(rt; replies.get(1).len(), 8_800);
    same!(rt; replies.get(1).last().copied(), Some(7));
    Ok(())
}

#[test]
fn puts_replies_at_their_places(rt: HostRuntime) -> Result<(), Fail> {
    let mut replies = pushed(rt.alloc())?;
    replies.add_places(rt.alloc(), 3)?;
    assert_eq!(rt; replies.len(), 5);
    replies.put(3, vec![in rt.alloc(); 9u8; 32]?);
    assert_eq!(rt; replies.len(), 5);
    same!(rt; replies.get(1).len(), 8_800);
    same!(rt; replies.get(2).len(), 0);
    same!(rt; replies.get(3), [9u8; 32].as_slice());
    same!(rt; replies.get(4).len(), 0);
    Ok(())
}

fn front(bytes: &[u8], count: usize) -> &[u8] {
    if count < bytes.len() {
        &bytes[..count]
    } else {
        bytes
    }
}

// the beginnings of a request, and a message that is no call
fn without_a_header(rt: &impl Abort, alloc: Global) -> Result<Batch, Fail> {
    let mut batch = Batch::new(alloc);
    let good = hex::decode(alloc, ROOT_REQUEST)?;
    same!(rt; good.len(), 72);
    for count in [0, 3, 39] {
        batch.push(front(good.as_slice(), count))?;
    }
    batch.push(hex::decode(alloc, NO_CALL)?.as_slice())?;
    Ok(batch)
}

#[test]
fn leaves_messages_without_a_header_unanswered(rt: HostRuntime) -> Result<(), Fail> {
    let mut files = FileSystem::new(rt.alloc())?;
    same!(rt; files.next_ordinal(), Some(3));
    let batch = without_a_header(&rt, rt.alloc())?;
    are_empty(&rt, &execute_serial(rt.alloc(), &mut files, &batch)?);
    same!(rt; files.next_ordinal(), Some(7));
    Ok(())
}

fn are_empty(rt: &impl Abort, replies: &Replies) {
    holds!(rt; !replies.is_empty());
    assert_eq!(rt; replies.len(), 4);
    for index in 0..4 {
        same!(rt; replies.get(index).len(), 0);
    }
}

// a request of the longest size, and 1,023 of a byte
fn fill(alloc: Global, batch: &mut Batch) -> Result<(), Fail> {
    let longest = vec![in alloc; 0u8; 16_384]?;
    batch.push(longest.as_slice())?;
    for _ in 1..1024 {
        batch.push(&[7])?;
    }
    Ok(())
}

#[test]
fn refuses_what_a_batch_can_not_take(rt: HostRuntime) -> Result<(), Fail> {
    let longer = vec![in rt.alloc(); 0u8; 16_385]?;
    let mut batch = Batch::new(rt.alloc());
    same!(rt;
        batch.push(longer.as_slice()),
        Err(PushError::RequestTooLong)
    );
    fill(rt.alloc(), &mut batch)?;
    same!(rt; batch.len(), 1024);
    same!(rt; batch.push(&[7]), Err(PushError::BatchFull));
    same!(rt;
        batch.push(longer.as_slice()),
        Err(PushError::RequestTooLong)
    );
    same!(rt; batch.requests().len(), 1024);
    assert_eq!(rt; batch.len(), 1024);
    same!(rt; batch.request(1023).len(), 1);
    Ok(())
}

#[test]
fn numbers_errors(rt: HostRuntime) {
    for (error, code) in [
        (PushError::RequestTooLong, 12),
        (PushError::BatchFull, 13),
        (PushError::Memory, 40),
    ] {
        same!(rt; error.code(), code);
    }
    for (error, code) in [(ExecError::Failed, 41), (ExecError::Memory, 40)] {
        same!(rt; error.code(), code);
    }
}
