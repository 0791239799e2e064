//! Files of each length at which the blocks of a digest, or what a version spells, end. The digests are another implementation's.
use crate::hostile::with_word;
use crate::texts::{digest_of, has_digest, refusal, restored, told_again};
use bfs_digest::freeze;
use bfs_serial::FileSystem;
use bfs_testing::asserts::compared;
use std::alloc::Global;
use std::process::Abort;
use std::test::Fail;
use std::thread::Threads;

// what stands in front of the length of the only file, `f` in the root
static FRONT: &str =
    "424653530000000200000000000000040000000100000000000000020000000200000002000001ed0000000200000000000000000000000000000000000000000000000000000000000000000000000200000001000000030000000166000000000000030000000300000001000001a4000000010000000700000008000000010000000000000001000000000000000100000000";

// the last byte of the file is `b`, and those before it are `a`
fn put_bytes(text: &mut Vec<u8>, size: u32) -> Result<(), Fail> {
    text.extend_from_slice(&size.to_be_bytes())?;
    if size > 0 {
        let last = text.len().saturating_add(size as usize - 1);
        text.resize(last, b'a')?;
        text.push(b'b')?;
    }
    Ok(())
}

fn put_padding(text: &mut Vec<u8>, size: u32) -> Result<(), Fail> {
    for _ in 0..(4 - size % 4) % 4 {
        text.push(0)?;
    }
    Ok(())
}

// the text in that version of a file of that size
fn text_of(alloc: Global, version: u32, size: u32) -> Result<Vec<u8>, Fail> {
    let mut text = with_word(alloc, FRONT, 4, version)?;
    put_bytes(&mut text, size)?;
    put_padding(&mut text, size)?;
    Ok(text)
}

fn keep_all(rt: &(impl Threads + Sync), alloc: Global, files: &mut FileSystem) -> Result<(), Fail> {
    freeze(rt, alloc, files)?;
    Ok(())
}

// both digests, with nothing kept and with all
fn has_digests(
    rt: &(impl Threads + Sync),
    alloc: Global,
    size: u32,
    digest: &str,
) -> Result<(), Fail> {
    let mut files = restored(alloc, text_of(alloc, 2, size)?.as_slice())?;
    has_digest(rt, alloc, &files, digest)?;
    keep_all(rt, alloc, &mut files)?;
    has_digest(rt, alloc, &files, digest)
}

static SIZES: &[(u32, &str)] = &[
    (
        0,
        "49c87556033de4aded03fcda120055ee6cd809d8b832fd0f7b37905c71248a95",
    ),
    (
        1,
        "9da47a95a0d29dabc4ea04385da137e9971b14bf7b6416bbdbc76d84c7119188",
    ),
    (
        4_095,
        "d71dc1833eb053e1072819e899ed3f38659aa923809a940b61c5c7341ce7f9b6",
    ),
    (
        4_096,
        "48b4bb36351676e2356b5fbe514fbf928ff4e3988df86e196ca3f591b677256a",
    ),
    (
        4_097,
        "f51dac9716027fa2639422e040461dd1915efd9ffc6f2e1363a69c599b39602b",
    ),
    (
        8_192,
        "47e9128fb2361623ebdf3c520cb848bdb6b7e57db69b23c26085b50e24c026e1",
    ),
    (
        1_048_576,
        "584e0c182fdbd3024530526153a229d8bdc83495a7c1dc1af6269a516e631ab6",
    ),
    (
        1_048_577,
        "8499a1bc0a0210d77b2e63db62453f6866e9f195aa28c59f3c0a48da95bdf2c7",
    ),
    (
        16_777_215,
        "b0901ba23beeb96bcd8a62eeda292ef30881e75ce8722ad342456e713489fcf4",
    ),
    (
        16_777_216,
        "e9afdd86d07a9197e2307d02d779beb0e1f062afdb49f02beeaf1a2b96f38648",
    ),
];

#[test]
fn digests_files_by_blocks(rt: HostRuntime) -> Result<(), Fail> {
    for size in SIZES {
        has_digests(&rt, rt.alloc(), size.0, size.1)?;
    }
    Ok(())
}

// versions, sizes, and the number by which a text of them is refused
static LIMITS: [(u32, u32, u32); 6] = [
    (1, 1_048_576, 0),
    (1, 1_048_577, 20),
    (1, 16_777_216, 20),
    (2, 1_048_577, 0),
    (2, 16_777_216, 0),
    (2, 16_777_217, 20),
];

fn refused(alloc: Global, version: u32, size: u32) -> Result<u32, Fail> {
    Ok(refusal(alloc, text_of(alloc, version, size)?.as_slice()))
}

#[test]
fn spells_files_up_to_the_limit_of_the_version(rt: HostRuntime) -> Result<(), Fail> {
    for limit in &LIMITS {
        compared(refused(rt.alloc(), limit.0, limit.1)?, limit.2)?;
    }
    Ok(())
}

// a text of version 1 with a file of that size is told again in version 2, and they have one digest
fn is_read_as_latest(alloc: Global, size: u32) -> Result<(), Fail> {
    let older = text_of(alloc, 1, size)?;
    let latest = text_of(alloc, 2, size)?;
    compared(told_again(alloc, older.as_slice())? == latest, true)?;
    compared(
        digest_of(alloc, older.as_slice())?,
        digest_of(alloc, latest.as_slice())?,
    )?;
    Ok(())
}

#[test]
fn reads_an_older_text_as_the_latest(rt: HostRuntime) -> Result<(), Fail> {
    for size in [0, 4_097, 1_048_576] {
        is_read_as_latest(rt.alloc(), size)?;
    }
    Ok(())
}
