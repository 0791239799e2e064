//! Calls that are cut short, and calls that are longer than a server takes (RFC 5531 section 9, RFC 1094 section 2.2).
use bfs_serial::{Batch, FileSystem, Replies, execute_serial};
use bfs_testing::asserts::compared;
use bfs_testing::numbers::{
    self, CREATE, GETATTR, LINK, LOOKUP, MKDIR, NULL, READ, READDIR, READLINK, REMOVE, RENAME,
    RMDIR, SETATTR, STATFS, SYMLINK, WRITE, WRITECACHE,
};
use bfs_testing::words::{
    A, B, NO_NAME, ROOT, SIZE_OF_ONE, THIRD, UNSET, call, put_parts, same_bytes, spelled,
};
use std::alloc::Global;
use std::test::Fail;

/// A good call: its procedure, and the words of its arguments.
struct Good(u32, &'static [&'static [u32]]);

// one for each procedure
static GOOD: [Good; 18] = [
    Good(NULL, &[]),
    Good(GETATTR, &[ROOT]),
    Good(SETATTR, &[ROOT, SIZE_OF_ONE]),
    Good(numbers::ROOT, &[]),
    Good(LOOKUP, &[ROOT, A]),
    Good(READLINK, &[ROOT]),
    Good(READ, &[THIRD, &[0, 8, 0]]),
    Good(WRITECACHE, &[]),
    Good(WRITE, &[THIRD, &[0, 0, 0, 1, 0x61000000]]),
    Good(CREATE, &[ROOT, A, UNSET]),
    Good(REMOVE, &[ROOT, A]),
    Good(RENAME, &[ROOT, A, ROOT, B]),
    Good(LINK, &[THIRD, ROOT, B]),
    Good(SYMLINK, &[ROOT, B, A, UNSET]),
    Good(MKDIR, &[ROOT, A, UNSET]),
    Good(RMDIR, &[ROOT, A]),
    Good(READDIR, &[ROOT, &[0, 512]]),
    Good(STATFS, &[ROOT]),
];

// how many bytes the header of a call without a credential has
const HEADER: usize = 40;

fn request_of(alloc: Global, Good(procedure, arguments): &Good) -> Result<Vec<u8>, Fail> {
    let mut bytes = call(alloc, 1, *procedure)?;
    put_parts(&mut bytes, arguments)?;
    Ok(bytes)
}

// the call cut at each length below its own
fn cuts(alloc: Global, bytes: &[u8]) -> Result<Batch, Fail> {
    let mut batch = Batch::new(alloc);
    for length in 0..bytes.len() {
        batch.push(&bytes[..length])?;
    }
    Ok(batch)
}

// nothing to what has no whole header, and GARBAGE_ARGS to the others
fn are_refused(alloc: Global, replies: &Replies) -> Result<(), Fail> {
    let garbage = spelled(alloc, &[&[1, 1, 0, 0, 0, 4]])?;
    for length in 0..replies.len() {
        let wanted = if length < HEADER {
            &[]
        } else {
            garbage.as_slice()
        };
        same_bytes(alloc, replies.get(length), wanted)?;
    }
    Ok(())
}

fn is_refused_where_it_is_cut(alloc: Global, whole: &Good) -> Result<(), Fail> {
    let bytes = request_of(alloc, whole)?;
    let mut files = FileSystem::new(alloc)?;
    let replies = execute_serial(alloc, &mut files, &cuts(alloc, bytes.as_slice())?)?;
    compared(replies.len(), bytes.len())?;
    are_refused(alloc, &replies)
}

#[test]
fn refuses_calls_that_are_cut_anywhere(rt: HostRuntime) -> Result<(), Fail> {
    for whole in &GOOD {
        is_refused_where_it_is_cut(rt.alloc(), whole)?;
    }
    Ok(())
}

/// The words of a call, as many zeros behind them, and the words of its reply.
struct Long(&'static [&'static [u32]], usize, &'static [u32]);

// the head of a GETATTR, up to its credential
const HEAD: &[u32] = &[9, 0, 2, 100003, 2, 1];

// a stamp, the machine `replay`, uid 1000 and gid 100
const SOMEBODY: &[u32] = &[0, 6, 0x7265706c, 0x61790000, 1000, 100];

// those of a LOOKUP, a SYMLINK and a WRITE, without a credential
const LOOKUP_HEAD: &[u32] = &[9, 0, 2, 100003, 2, 4, 0, 0, 0, 0];

const SYMLINK_HEAD: &[u32] = &[9, 0, 2, 100003, 2, 13, 0, 0, 0, 0];

const WRITE_HEAD: &[u32] = &[9, 0, 2, 100003, 2, 8, 0, 0, 0, 0];

const NOTHING: &[u32] = &[];

const BAD_CREDENTIAL: &[u32] = &[9, 1, 1, 1, 1];

const GARBAGE: &[u32] = &[9, 1, 0, 0, 0, 4];

static LONG: [Long; 8] = [
    // a credential of a byte more than one may have, and one of more bytes than there are
    Long(&[HEAD, &[0, 401]], 404 + 8 + 32, NOTHING),
    Long(&[HEAD, &[0, 0xffffffff]], 8 + 32, NOTHING),
    // 17 gids, and a byte behind none
    Long(
        &[HEAD, &[1, 28 + 68], SOMEBODY, &[17]],
        68 + 8 + 32,
        BAD_CREDENTIAL,
    ),
    Long(
        &[HEAD, &[1, 28 + 1], SOMEBODY, &[0]],
        4 + 8 + 32,
        BAD_CREDENTIAL,
    ),
    // a name, a path and data of a byte more than is taken
    Long(&[LOOKUP_HEAD, ROOT, &[256]], 256, GARBAGE),
    Long(
        &[SYMLINK_HEAD, ROOT, NO_NAME, &[1_025]],
        1_028 + 32,
        GARBAGE,
    ),
    Long(&[WRITE_HEAD, THIRD, &[0, 0, 0, 8_193]], 8_196, GARBAGE),
    // and of the most bytes: the file is not there
    Long(
        &[WRITE_HEAD, THIRD, &[0, 0, 0, 8_192]],
        8_192,
        &[9, 1, 0, 0, 0, 0, 70],
    ),
];

fn long_request(alloc: Global, words: &[&[u32]], zeros: usize) -> Result<Vec<u8>, Fail> {
    let mut bytes = spelled(alloc, words)?;
    for _zero in 0..zeros {
        bytes.push(0)?;
    }
    Ok(bytes)
}

fn answers(alloc: Global, Long(words, zeros, reply): &Long) -> Result<(), Fail> {
    let mut batch = Batch::new(alloc);
    batch.push(long_request(alloc, words, *zeros)?.as_slice())?;
    let mut files = FileSystem::new(alloc)?;
    let replies = execute_serial(alloc, &mut files, &batch)?;
    compared(replies.len(), 1)?;
    let wanted = spelled(alloc, &[*reply])?;
    for index in 0..replies.len() {
        same_bytes(alloc, replies.get(index), wanted.as_slice())?;
    }
    Ok(())
}

#[test]
fn refuses_what_is_too_long(rt: HostRuntime) -> Result<(), Fail> {
    for long in &LONG {
        answers(rt.alloc(), long)?;
    }
    Ok(())
}
