//! The text and the digest of a replica's state, and texts that are read again.
use bfs_checkpoints::{
    AdoptError, Adopted, Snapshot, adopt, digest_node, read_node, take_snapshot,
};
use bfs_replies::ReplyTable;
use bfs_serial::{ExecError, FileSystem};
use bfs_testing::words::spells;
use bfs_testing::{holds, same};
use std::alloc::Global;
use std::test::Fail;
use std::thread::Threads;

// of two clients: none of the first, and `yes` to the second's request of timestamp 5; then a new file system
const TEXT: &str =
    "00000002000000000000000100000000000000050000000379657300424653530000000200000000000000030000000000000000000000010000000200000002000001ff0000000200000000000000000000000000000000000000000000000000000000000000000000000200000000";

const DIGEST: &str = "5962a8f200af90f4514fe63b1e09283bc4baa8fdf4e918229c4558bd20243043";

/// The table of `TEXT`.
pub(crate) fn table(alloc: Global) -> Result<ReplyTable, Fail> {
    let mut table = ReplyTable::new(alloc, 2)?;
    table.record(1, 5, b"yes")?;
    Ok(table)
}

/// The same, and a reply of 4 bytes to the first client.
pub(crate) fn fuller_table(alloc: Global) -> Result<ReplyTable, Fail> {
    let mut table = table(alloc)?;
    if table.clients() != 2 {
        return Err("two clients".into());
    }
    table.record(0, 7, b"more")?;
    Ok(table)
}

/// The snapshot of a replica with a new file system and that table.
pub(crate) fn snapshot(
    rt: &(impl Threads + Sync),
    alloc: Global,
    table: &ReplyTable,
) -> Result<Snapshot, Fail> {
    let mut files = FileSystem::new(alloc)?;
    Ok(take_snapshot(rt, alloc, &mut files, table)?)
}

fn bytes_of(alloc: Global, text: &str) -> Result<Vec<u8>, Fail> {
    Ok(hex::decode(alloc, text)?)
}

// the text and the digest are the given ones
fn is_of(alloc: Global, taken: &Snapshot, text: &str, digest: &str) -> Result<(), Fail> {
    spells(alloc, taken.text(alloc)?.as_slice(), text)?;
    spells(alloc, taken.digest(), digest)
}

// the digest of the file system and the table is the given one
fn has_digest(
    rt: &(impl Threads + Sync),
    alloc: Global,
    files: &FileSystem,
    table: &ReplyTable,
    digest: &str,
) -> Result<(), Fail> {
    spells(alloc, &digest_node(rt, alloc, files, table)?, digest)
}

#[test]
fn a_replica_has_a_text_and_a_digest(rt: HostRuntime) -> Result<(), Fail> {
    let alloc = rt.alloc();
    let table = table(alloc)?;
    is_of(alloc, &snapshot(&rt, alloc, &table)?, TEXT, DIGEST)?;
    let files = FileSystem::new(alloc)?;
    has_digest(&rt, alloc, &files, &table, DIGEST)
}

#[test]
fn one_that_has_failed_has_none(rt: HostRuntime) -> Result<(), Fail> {
    let alloc = rt.alloc();
    let table = table(alloc)?;
    let mut files = FileSystem::new(alloc)?;
    holds!(rt; files.take_parts().is_some());
    holds!(rt; take_snapshot(&rt, alloc, &mut files, &table).err() == Some(ExecError::Failed));
    holds!(rt; digest_node(&rt, alloc, &files, &table).err() == Some(ExecError::Failed));
    Ok(())
}

// the text and the digest of what was taken, if that was not refused
fn was_taken(alloc: Global, taken: &Result<Snapshot, ExecError>) -> Result<(), Fail> {
    match taken {
        Ok(taken) => is_of(alloc, taken, TEXT, DIGEST),
        Err(_) => Ok(()),
    }
}

/// Nothing is refused in the gate's run of the tests: `.ci/refusals` runs this one with each growth of memory, and each start of a thread,
/// refused in turn.
#[test]
fn a_snapshot_is_taken_or_all_stays(rt: HostRuntime) -> Result<(), Fail> {
    let alloc = rt.alloc();
    let table = table(alloc)?;
    let mut files = FileSystem::new(alloc)?;
    let taken = take_snapshot(&rt, alloc, &mut files, &table);
    has_digest(&rt, alloc, &files, &table, DIGEST)?;
    was_taken(alloc, &taken)
}

// the number of the refusal, or 0 where the text is read
fn refusal(alloc: Global, text: &[u8], clients: u32) -> u32 {
    match read_node(alloc, text, clients) {
        Ok(_) => 0,
        Err(error) => error.code(),
    }
}

// the text with one byte changed
fn changed(alloc: Global, text: &str, place: usize, byte: u8) -> Result<Vec<u8>, Fail> {
    let mut bytes = bytes_of(alloc, text)?;
    if place < bytes.len() {
        bytes.as_mut_slice()[place] = byte;
    }
    Ok(bytes)
}

// the number of clients and the next ordinal of what a text of so many clients spells, which has that digest
fn read_again(
    rt: &(impl Threads + Sync),
    alloc: Global,
    text: &str,
    clients: u32,
    digest: &str,
) -> Result<(u32, Option<u64>), Fail> {
    let (files, table) = read_node(alloc, bytes_of(alloc, text)?.as_slice(), clients)?;
    has_digest(rt, alloc, &files, &table, digest)?;
    Ok((table.clients(), files.next_ordinal()))
}

#[test]
fn a_text_is_read_again(rt: HostRuntime) -> Result<(), Fail> {
    let alloc = rt.alloc();
    same!(rt; read_again(&rt, alloc, TEXT, 2, DIGEST)?, (2, Some(3)));
    Ok(())
}

#[test]
fn a_text_is_read_strictly(rt: HostRuntime) -> Result<(), Fail> {
    let alloc = rt.alloc();
    let text = bytes_of(alloc, TEXT)?;
    same!(rt; refusal(alloc, text.as_slice(), 2), 0);
    same!(rt; refusal(alloc, text.as_slice(), 1), 20);
    same!(rt; refusal(alloc, text.as_slice(), 3), 20);
    for length in 0..text.len() {
        same!(rt; refusal(alloc, &text.as_slice()[..length], 2), 20);
    }
    let mut longer = text;
    longer.push(0)?;
    same!(rt; refusal(alloc, longer.as_slice(), 2), 20);
    Ok(())
}

#[test]
fn a_changed_text_is_refused(rt: HostRuntime) -> Result<(), Fail> {
    let alloc = rt.alloc();
    // padding of the reply, an older and a later version, and the links of the root
    for (place, byte, code) in [(27, 1, 20), (35, 1, 22), (35, 3, 22), (71, 3, 21)] {
        same!(rt; refusal(alloc, changed(alloc, TEXT, place, byte)?.as_slice(), 2), code);
    }
    Ok(())
}

fn digest_of(alloc: Global, text: &str) -> Result<[u8; 32], Fail> {
    let bytes = bytes_of(alloc, text)?;
    let mut digest = [0; 32];
    if bytes.len() == 32 {
        digest.copy_from_slice(bytes.as_slice());
    }
    Ok(digest)
}

fn adopted(
    rt: &(impl Threads + Sync),
    alloc: Global,
    text: &[u8],
    digest: &str,
) -> Result<Result<Adopted, AdoptError>, Fail> {
    Ok(adopt(rt, alloc, text, 2, &digest_of(alloc, digest)?))
}

// the number of the refusal, or 0 where the text is adopted
fn adoption_refusal(
    rt: &(impl Threads + Sync),
    alloc: Global,
    text: &[u8],
    digest: &str,
) -> Result<u32, Fail> {
    match adopted(rt, alloc, text, digest)? {
        Ok(_) => Ok(0),
        Err(error) => Ok(error.code()),
    }
}

#[test]
fn a_text_is_adopted_by_its_digest(rt: HostRuntime) -> Result<(), Fail> {
    let alloc = rt.alloc();
    let text = bytes_of(alloc, TEXT)?;
    let adopted = adopted(&rt, alloc, text.as_slice(), DIGEST)??;
    same!(rt; (adopted.table.clients(), adopted.files.next_ordinal()), (2, Some(3)));
    is_of(alloc, &adopted.snapshot, TEXT, DIGEST)
}

#[test]
fn a_text_of_another_digest_is_not_adopted(rt: HostRuntime) -> Result<(), Fail> {
    let alloc = rt.alloc();
    let text = bytes_of(alloc, TEXT)?;
    same!(rt; adoption_refusal(&rt, alloc, text.as_slice(), "00")?, 35);
    same!(rt; adoption_refusal(&rt, alloc, &text.as_slice()[..text.len() / 2], DIGEST)?, 20);
    // an older version, whose digest is another one, the links of the root, and the timestamp of the second client
    for (place, byte, code) in [(35, 1, 22), (71, 3, 21), (19, 6, 35)] {
        let other = changed(alloc, TEXT, place, byte)?;
        same!(rt; adoption_refusal(&rt, alloc, other.as_slice(), DIGEST)?, code);
    }
    Ok(())
}
