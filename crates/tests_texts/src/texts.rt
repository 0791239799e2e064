//! Texts of file systems and their digests.
use crate::hostile::first_length;
use bfs_digest::{RestoreError, digest_parallel, digest_serial, restore, snapshot};
use bfs_serial::{ExecError, FileSystem};
use bfs_testing::asserts::compared;
use bfs_testing::holds;
use bfs_testing::texts::{NEW, SOME};
use bfs_testing::words::spells;
use std::alloc::Global;
use std::process::Abort;
use std::test::Fail;
use std::thread::Threads;

static NEW_DIGEST: &str = "f391294b903e1c7a8198517d74220c3e81bfc19fa44e464e2abc695bbf325f9f";

static SOME_DIGEST: &str = "517fbec79076d6c911d40ae0e6f8988d97ec85338b2e533e2bf2dc741ffb67cd";

pub(crate) fn bytes_of(alloc: Global, text: &str) -> Result<Vec<u8>, Fail> {
    Ok(hex::decode(alloc, text)?)
}

/// The number of the refusal, or 0 where the text is restored.
pub(crate) fn refusal(alloc: Global, text: &[u8]) -> u32 {
    match restore(alloc, text) {
        Ok(_) => 0,
        Err(error) => error.code(),
    }
}

/// The file system of a text.
pub(crate) fn restored(alloc: Global, text: &[u8]) -> Result<FileSystem, Fail> {
    Ok(restore(alloc, text)?)
}

fn text_of(alloc: Global, files: &FileSystem) -> Result<Vec<u8>, Fail> {
    Ok(snapshot(alloc, files)?)
}

fn serial_digest(files: &FileSystem) -> Result<[u8; 32], Fail> {
    Ok(digest_serial(files)?)
}

fn parallel_digest(
    rt: &(impl Threads + Sync),
    alloc: Global,
    files: &FileSystem,
) -> Result<[u8; 32], Fail> {
    Ok(digest_parallel(rt, alloc, files)?)
}

/// The text of the file system that a text spells.
pub(crate) fn told_again(alloc: Global, text: &[u8]) -> Result<Vec<u8>, Fail> {
    text_of(alloc, &restored(alloc, text)?)
}

/// Its digest.
pub(crate) fn digest_of(alloc: Global, text: &[u8]) -> Result<[u8; 32], Fail> {
    serial_digest(&restored(alloc, text)?)
}

fn is_spelled(alloc: Global, bytes: &[u8], text: &str) -> Result<(), Fail> {
    spells(alloc, bytes, text)
}

/// Both digests are that one.
pub(crate) fn has_digest(
    rt: &(impl Threads + Sync),
    alloc: Global,
    files: &FileSystem,
    digest: &str,
) -> Result<(), Fail> {
    is_spelled(alloc, &serial_digest(files)?, digest)?;
    is_spelled(alloc, &parallel_digest(rt, alloc, files)?, digest)
}

// both digests, and the text again, are the given ones
fn is_told(
    rt: &(impl Threads + Sync),
    alloc: Global,
    files: &FileSystem,
    text: &str,
    digest: &str,
) -> Result<(), Fail> {
    is_spelled(alloc, text_of(alloc, files)?.as_slice(), text)?;
    has_digest(rt, alloc, files, digest)
}

fn new(alloc: Global) -> Result<FileSystem, Fail> {
    Ok(FileSystem::new(alloc)?)
}

#[test]
fn tells_a_new_file_system(rt: HostRuntime) -> Result<(), Fail> {
    let alloc = rt.alloc();
    is_told(&rt, alloc, &new(alloc)?, NEW, NEW_DIGEST)
}

fn is_at(files: &FileSystem, next_ordinal: u64) -> bool {
    files.is_live() && files.next_ordinal() == Some(next_ordinal)
}

// what it spells has that next ordinal, is told by it again, and has that digest
fn is_restored(
    rt: &(impl Threads + Sync),
    alloc: Global,
    text: &str,
    next_ordinal: u64,
    digest: &str,
) -> Result<(), Fail> {
    let files = restored(alloc, bytes_of(alloc, text)?.as_slice())?;
    compared(is_at(&files, next_ordinal), true)?;
    is_told(rt, alloc, &files, text, digest)
}

#[test]
fn restores_what_a_text_spells(rt: HostRuntime) -> Result<(), Fail> {
    is_restored(&rt, rt.alloc(), NEW, 3, NEW_DIGEST)?;
    is_restored(&rt, rt.alloc(), SOME, 9, SOME_DIGEST)
}

fn fail(files: &mut FileSystem) -> bool {
    files.take_parts().is_some()
}

fn tells_nothing(alloc: Global, files: &FileSystem) -> bool {
    snapshot(alloc, files).err() == Some(ExecError::Failed)
}

fn has_no_digest(files: &FileSystem) -> bool {
    digest_serial(files).err() == Some(ExecError::Failed)
}

fn has_none_by_threads(rt: &(impl Threads + Sync), alloc: Global, files: &FileSystem) -> bool {
    digest_parallel(rt, alloc, files).err() == Some(ExecError::Failed)
}

#[test]
fn tells_nothing_of_one_that_has_failed(rt: HostRuntime) -> Result<(), Fail> {
    let alloc = rt.alloc();
    let mut files = new(alloc)?;
    holds!(rt; fail(&mut files));
    holds!(rt; tells_nothing(alloc, &files));
    holds!(rt; has_no_digest(&files));
    holds!(rt; has_none_by_threads(&rt, alloc, &files));
    Ok(())
}

// cut short it is malformed, and so it is with a byte more
fn has_no_other_length(alloc: Global, text: &str) -> Result<bool, Fail> {
    let mut bytes = bytes_of(alloc, text)?;
    let first = first_length(alloc, bytes.as_slice());
    bytes.push(0)?;
    Ok(first.is_none() && refusal(alloc, bytes.as_slice()) == 20)
}

#[test]
fn refuses_a_text_cut_short(rt: HostRuntime) -> Result<(), Fail> {
    holds!(rt; has_no_other_length(rt.alloc(), NEW)?);
    holds!(rt; has_no_other_length(rt.alloc(), SOME)?);
    Ok(())
}

fn has_other_digest(files: &FileSystem, digest: &[u8; 32]) -> bool {
    match digest_serial(files) {
        Ok(other) => other.as_slice() != digest.as_slice(),
        Err(_) => false,
    }
}

// whether a byte that is changed makes another file system, or none
fn is_other(alloc: Global, changed: &[u8], digest: &[u8; 32]) -> bool {
    match restore(alloc, changed) {
        Ok(files) => has_other_digest(&files, digest),
        Err(error) => error != RestoreError::Memory,
    }
}

// whether other bits at a place tell; they are put back
fn tell(alloc: Global, text: &mut [u8], digest: &[u8; 32], place: usize, bits: u8) -> bool {
    flip(text, place, bits);
    let told = is_other(alloc, text, digest);
    flip(text, place, bits);
    told
}

fn flip(text: &mut [u8], place: usize, bits: u8) {
    if let Some(byte) = text.get_mut(place) {
        *byte ^= bits;
    }
}

fn is_told_at(alloc: Global, text: &mut [u8], digest: &[u8; 32], place: usize) -> bool {
    tell(alloc, text, digest, place, 0x01)
        && tell(alloc, text, digest, place, 0x10)
        && tell(alloc, text, digest, place, 0x80)
}

// the first place at which a change does not tell
fn first_silent(alloc: Global, text: &mut [u8], digest: &[u8; 32]) -> Option<usize> {
    for place in 0..text.len() {
        if !is_told_at(alloc, text, digest, place) {
            return Some(place);
        }
    }
    None
}

fn silent(alloc: Global, text: &str) -> Result<Option<usize>, Fail> {
    let mut bytes = bytes_of(alloc, text)?;
    let digest = digest_of(alloc, bytes.as_slice())?;
    Ok(first_silent(alloc, bytes.as_mut_slice(), &digest))
}

#[test]
fn tells_each_changed_byte(rt: HostRuntime) -> Result<(), Fail> {
    compared(silent(rt.alloc(), NEW)?, None)?;
    compared(silent(rt.alloc(), SOME)?, None)?;
    Ok(())
}
