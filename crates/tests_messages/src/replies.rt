//! The last reply to each client.
ghost use Rattle.std.specs.Prelude.{◌≤◌, length};
ghost use Rattle.bfs_model.specs.Server.Limits.{most_reply_bytes};

use bfs_replies::{Class, MOST_CLIENTS, ReadError, RecordError, ReplyTable};
use bfs_testing::asserts::compared;
use bfs_testing::words::{same_bytes, spells};
use bfs_testing::{holds, same};
use bfs_types::{MOST_REPLY_BYTES, TryClone};
use sha2::{Digest, Sha256};
use std::test::Fail;

/// What is done to a table, or what it answers.
#[derive(Clone, Copy)]
enum Step {
    /// A client's reply is recorded, with the timestamp.
    Record(u32, u64, &'static [u8]),
    /// It is refused, as not newer.
    Refuse(u32, u64, &'static [u8]),
    /// What a client's request with that timestamp is.
    Is(u32, u64, Class),
    /// A client's last timestamp and reply.
    Last(u32, u64, &'static [u8]),
    /// A client has no reply.
    HasNone(u32),
}

use Step::{HasNone, Is, Last, Record, Refuse};

// why it is refused
fn record(
    table: &mut ReplyTable,
    client: u32,
    timestamp: u64,
    reply: &[u8],
) -> Option<RecordError> {
    if client >= table.clients() || reply.len() > MOST_REPLY_BYTES {
        return Some(RecordError::Memory);
    }
    table.record(client, timestamp, reply).err()
}

fn is_last(table: &ReplyTable, client: u32, timestamp: u64, reply: &[u8]) -> bool {
    match table.last(client) {
        Some((last, bytes)) => last == timestamp && bytes == reply,
        None => false,
    }
}

fn happens(table: &mut ReplyTable, step: Step) -> bool {
    match step {
        Record(client, timestamp, reply) => record(table, client, timestamp, reply) == None,
        Refuse(client, timestamp, reply) => {
            record(table, client, timestamp, reply) == Some(RecordError::NotNewer)
        }
        Is(client, timestamp, class) => table.classify(client, timestamp) == class,
        Last(client, timestamp, reply) => is_last(table, client, timestamp, reply),
        HasNone(client) => table.last(client).is_none(),
    }
}

// the place of the first step that does not come as it is told
fn first_wrong(table: &mut ReplyTable, steps: &[Step]) -> Option<usize> {
    for (place, step) in steps.iter().enumerate() {
        if !happens(table, *step) {
            return Some(place);
        }
    }
    None
}

static CLASSES: [Step; 16] = [
    Is(0, 5, Class::New),
    Record(0, 5, b"five"),
    Is(0, 5, Class::Repeat),
    Is(0, 4, Class::Old),
    Is(0, 6, Class::New),
    Is(16, 1, Class::Unknown),
    Refuse(0, 5, b"again"),
    Refuse(0, 4, b"earlier"),
    Record(0, 6, b"six"),
    Is(0, 6, Class::Repeat),
    Is(0, 5, Class::Old),
    Is(0, 7, Class::New),
    Refuse(0, 6, b"again"),
    Last(0, 6, b"six"),
    HasNone(1),
    HasNone(16),
];

#[test]
fn requests_are_classified_by_the_last_one(rt: HostRuntime) -> Result<(), Fail> {
    let mut table = ReplyTable::new(rt.alloc(), 16)?;
    compared(first_wrong(&mut table, &CLASSES), None)?;
    Ok(())
}

static SEVEN: [Step; 1] = [Record(1, 7, b"seven")];

static EIGHT: [Step; 1] = [Record(1, 8, b"eight")];

static COPY: [Step; 7] = [
    Is(0, 0, Class::New),
    Is(1, 6, Class::Old),
    Is(1, 7, Class::Repeat),
    Is(1, 8, Class::New),
    Is(2, 8, Class::Unknown),
    HasNone(0),
    Last(1, 7, b"seven"),
];

#[test]
fn a_copy_answers_alike(rt: HostRuntime) -> Result<(), Fail> {
    let mut table = ReplyTable::new(rt.alloc(), 2)?;
    compared(first_wrong(&mut table, &SEVEN), None)?;
    let mut copy = table.try_clone(rt.alloc())?;
    compared(first_wrong(&mut table, &EIGHT), None)?;
    same!(rt; copy.clients(), 2);
    compared(first_wrong(&mut copy, &COPY), None)?;
    Ok(())
}

// three clients, of which the second has a reply of 3 bytes to its request 5
const TEXT: &str = "0000000300000000000000010000000000000005000000036162630000000000";

#[test]
fn a_table_has_a_text(rt: HostRuntime) -> Result<(), Fail> {
    let alloc = rt.alloc();
    let mut table = ReplyTable::new(alloc, 3)?;
    table.record(1, 5, b"abc")?;
    let mut text = Vec::new(alloc);
    table.put_text(&mut text)?;
    spells(alloc, text.as_slice(), TEXT)
}

#[test]
fn a_text_is_read_with_what_is_behind_it(rt: HostRuntime) -> Result<(), Fail> {
    let alloc = rt.alloc();
    let mut bytes = hex::decode(alloc, TEXT)?;
    bytes.push(9)?;
    let (table, rest) = ReplyTable::read(alloc, bytes.as_slice())?;
    same_bytes(alloc, rest, &[9])?;
    same!(rt; table.clients(), 3);
    holds!(rt; table.last(0).is_none());
    holds!(rt; table.last(2).is_none());
    let (timestamp, reply) = table.last(1).ok_or("a reply")?;
    same!(rt; timestamp, 5);
    same_bytes(alloc, reply, b"abc")
}

// the SHA-256 of that text
const DIGEST: &str = "ef285de6f8640fde65b7a4274b148d97c164ebe46cf3adf4367817a18b2df379";

#[test]
fn the_text_of_a_table_is_hashed(rt: HostRuntime) -> Result<(), Fail> {
    let alloc = rt.alloc();
    let mut table = ReplyTable::new(alloc, 3)?;
    table.record(1, 5, b"abc")?;
    let mut hasher = Sha256::new();
    table.hash_text(&mut hasher);
    spells(alloc, &hasher.finalize(), DIGEST)
}

#[test]
fn a_text_is_passed_over(rt: HostRuntime) -> Result<(), Fail> {
    let alloc = rt.alloc();
    let mut bytes = hex::decode(alloc, TEXT)?;
    bytes.push(9)?;
    let (clients, rest) = ReplyTable::skip_text(bytes.as_slice()).ok_or("a table")?;
    same!(rt; clients, 3);
    same_bytes(alloc, rest, &[9])?;
    holds!(rt; ReplyTable::skip_text(&[0, 0, 0]).is_none());
    Ok(())
}

#[test]
fn other_bytes_spell_no_table(rt: HostRuntime) -> Result<(), Fail> {
    let texts = [
        // no number of clients, and one client more than there may be
        "000000",
        "00000401",
        // a client without its boolean, or with a number in its place
        "00000001",
        "0000000100000002",
        // half a timestamp, a reply that is too short, one that is too long, and padding that is not zeros
        "000000010000000100000000",
        "0000000100000001000000000000000500000004616263",
        "0000000100000001000000000000000500004001",
        "000000010000000100000000000000050000000361626301",
    ];
    for text in &texts {
        let bytes = hex::decode(rt.alloc(), text)?;
        let read = ReplyTable::read(rt.alloc(), bytes.as_slice());
        holds!(rt; matches!(read, Err(ReadError::Malformed)));
    }
    Ok(())
}

#[test]
fn replies_grow_to_the_most(rt: HostRuntime) -> Result<(), Fail> {
    let alloc = rt.alloc();
    let mut table = ReplyTable::new(alloc, MOST_CLIENTS)?;
    for client in 0..MOST_CLIENTS {
        let size = 16 * (client as usize + 1);
        let reply = Vec::from_elem(alloc, 7u8, size)?;
        holds!(rt; client < table.clients());
        put(&mut table, client, reply.as_slice())?;
        holds!(rt; length_of_last(&table, client) == Some(size));
    }
    let copy = table.try_clone(alloc)?;
    same!(rt; length_of_last(&copy, 0), Some(16));
    same!(rt; length_of_last(&copy, 1_023), Some(MOST_REPLY_BYTES));
    Ok(())
}

fn put(table: &mut ReplyTable, client: u32, reply: &[u8]) -> Result<(), RecordError>
    requires { length reply.now ≤ most_reply_bytes }
{
    if client < table.clients() {
        table.record(client, 18_446_744_073_709_551_615, reply)?;
    }
    Ok(())
}

fn length_of_last(table: &ReplyTable, client: u32) -> Option<usize> {
    let (_, reply) = table.last(client)?;
    Some(reply.len())
}

#[test]
fn refusals_have_numbers(rt: HostRuntime) {
    same!(rt; RecordError::NotNewer.code(), 33);
    same!(rt; RecordError::Memory.code(), 40);
    same!(rt; ReadError::Malformed.code(), 20);
    same!(rt; ReadError::Memory.code(), 40);
}
