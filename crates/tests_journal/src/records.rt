//! Three records, byte for byte. Their bodies are messages whose SHA-256 others have told: the examples of FIPS 180-4, of one and of two blocks, and the
//! empty one.
use bfs_journal::{MOST_BODY_BYTES, put_record};
use bfs_testing::same;
use std::alloc::{AllocError, Global};
use std::test::Fail;

pub const BODIES: [&[u8]; 3] = [
    b"abc",
    b"",
    b"abcdbcdecdefdefgefghfghighijhijkijkljklmklmnlmnomnopnopq",
];

pub const RECORDS: [&str; 3] = [
    "0000000300000003\
     ba7816bf8f01cfea414140de5dae2223b00361a396177a9cb410ff61f20015ad\
     616263",
    "0000000000000000\
     e3b0c44298fc1c149afbf4c8996fb92427ae41e4649b934ca495991b7852b855",
    "0000003800000038\
     248d6a61d20638b8e5c026930c3e6039a33ce45964ff2167f6ecedd419db06c1\
     6162636462636465636465666465666765666768666768696768696a68696a6b696a6b6c6a6b6c6d6b6c6d6e6c6d6e6f6d6e6f706e6f7071",
];

/// Where each of the records ends in their journal.
pub const ENDS: [usize; 3] = [43, 83, 179];

/// The journal of the bodies.
pub fn journal(alloc: Global) -> Result<Vec<u8>, AllocError> {
    let mut bytes = Vec::new(alloc);
    for body in BODIES {
        if body.len() <= MOST_BODY_BYTES {
            put_record(&mut bytes, body)?;
        }
    }
    Ok(bytes)
}

#[test]
fn records_are_written_byte_for_byte(rt: HostRuntime) -> Result<(), Fail> {
    let alloc = rt.alloc();
    let [first, second, third] = RECORDS;
    let wanted = format!(in alloc; "{first}{second}{third}")?;
    let bytes = journal(alloc)?;
    same!(rt; hex::encode(alloc, bytes.as_slice())?, wanted);
    Ok(())
}
