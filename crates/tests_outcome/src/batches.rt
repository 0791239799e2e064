//! Batches of requests to make files, one behind another, and what each request is to be answered.
use bfs_auth::Authenticator;
use bfs_messages::{OrderedBatch, Request, Signed};
use bfs_replies::Answer;
use bfs_testing::numbers::CREATE;
use bfs_testing::words::{ROOT, UNSET, call, put_parts, same_bytes, spelled};
use bfs_types::{MOST_REQUEST_BYTES, MOST_REQUESTS, Memory, Time};
use std::alloc::Global;
use std::test::Fail;

/// A client's request of a timestamp: the xid of its call, and the name of the file that it makes in the root, a letter.
pub type Asked = (u32, u64, u32, u8);

/// An answer to a client's request of a timestamp: the xid of the call, the fileid of the file that it made, and the second at which it
/// was made.
pub type Told = (u32, u64, u32, u32, u32);

/// At which second a batch is proposed, what is asked in it, and what is told then.
pub type Round = (u32, &'static [Asked], &'static [Told]);

/// Three batches, for a table of two clients. Each request that is not executed names a file that there isn't.
pub static ROUNDS: &[Round] = &[
    (1, FIRST, TOLD_FIRST),
    (2, FIRST, TOLD_AGAIN),
    (3, LAST, TOLD_LAST),
];

const FIRST: &[Asked] = &[
    // new
    (0, 5, 7, b'a'),
    // repeated
    (0, 5, 70, b'x'),
    // old
    (0, 4, 71, b'x'),
    // new
    (0, 6, 8, b'c'),
    // old by now
    (0, 5, 72, b'x'),
    // repeated
    (0, 6, 73, b'x'),
    // of no client
    (2, 1, 74, b'x'),
    // new
    (1, 1, 9, b'd'),
];

// each repeated one gets the reply that is its client's last at its place
const TOLD_FIRST: &[Told] = &[
    (0, 5, 7, 3, 1),
    (0, 5, 7, 3, 1),
    (0, 6, 8, 4, 1),
    (0, 6, 8, 4, 1),
    (1, 1, 9, 5, 1),
];

// where it comes again, each is repeated, or old, or of no client
const TOLD_AGAIN: &[Told] = &[(0, 6, 8, 4, 1), (0, 6, 8, 4, 1), (1, 1, 9, 5, 1)];

const LAST: &[Asked] = &[
    // repeated, from the batch before
    (0, 6, 75, b'x'),
    // new
    (0, 9, 10, b'e'),
    // old by now
    (0, 6, 76, b'x'),
    // repeated
    (0, 9, 77, b'x'),
    (1, 1, 78, b'x'),
];

const TOLD_LAST: &[Told] = &[
    (0, 6, 8, 4, 1),
    (0, 9, 10, 6, 3),
    (0, 9, 10, 6, 3),
    (1, 1, 9, 5, 1),
];

/// The requests that are new, with the seconds of their batches.
pub static NEW: &[(u32, &[Asked])] = &[
    (1, &[(0, 5, 7, b'a'), (0, 6, 8, b'c'), (1, 1, 9, b'd')]),
    (3, &[(0, 9, 10, b'e')]),
];

/// The beginning of a second.
pub fn at(second: u32) -> Result<Time, Fail> {
    Ok(Time::new(second, 0).ok_or("a time")?)
}

/// The bytes of the call.
pub fn call_of(alloc: Global, asked: &Asked) -> Result<Vec<u8>, Memory> {
    let (_, _, xid, letter) = *asked;
    let mut bytes = call(alloc, xid, CREATE)?;
    put_parts(&mut bytes, &[ROOT, &[1, letter as u32 * 0x1000000], UNSET])?;
    Ok(bytes)
}

fn request(alloc: Global, asked: &Asked) -> Result<Signed<Request>, Fail> {
    let bytes = call_of(alloc, asked)?;
    if bytes.len() > MOST_REQUEST_BYTES {
        return Err("a call that is too long".into());
    }
    let (client, timestamp, _, _) = *asked;
    let message = Request::new(alloc, client, timestamp, bytes.as_slice())?;
    let auth = Authenticator::new(alloc);
    Ok(Signed { message, auth })
}

/// A batch of those requests, proposed at that second.
pub fn batch(alloc: Global, second: u32, asked: &[Asked]) -> Result<OrderedBatch, Fail> {
    let mut requests = Vec::new(alloc);
    for one in asked {
        requests.push(request(alloc, one)?)?;
    }
    if requests.len() > MOST_REQUESTS {
        return Err("a batch that is too long".into());
    }
    Ok(OrderedBatch::new(at(second)?, requests))
}

// the reply to the call with that xid, which made that file at that second
fn made(alloc: Global, xid: u32, fileid: u32, second: u32) -> Result<Vec<u8>, Memory> {
    let head = [xid, 1, 0, 0, 0, 0, 0];
    let handle = [0x42465332, 1, fileid, 0, 0, 0, 0, 0];
    let attributes = [
        1, 0x81a4, 1, 65534, 65534, 0, 4096, 0, 0, 1, fileid, second, 0, second, 0, second, 0,
    ];
    spelled(alloc, &[&head, &handle, &attributes])
}

fn is_told(alloc: Global, answer: &Answer, told: &Told) -> Result<(), Fail> {
    let (client, timestamp, xid, fileid, second) = *told;
    if answer.client() != client || answer.timestamp() != timestamp {
        return Err("an answer to another request".into());
    }
    let wanted = made(alloc, xid, fileid, second)?;
    same_bytes(alloc, answer.reply(), wanted.as_slice())
}

/// Just these answers are given, in this order.
pub fn are_told(alloc: Global, answers: &[Answer], told: &[Told]) -> Result<(), Fail> {
    if answers.len() != told.len() {
        return Err("another number of answers".into());
    }
    for (answer, one) in answers.iter().zip(told) {
        is_told(alloc, answer, one)?;
    }
    Ok(())
}
