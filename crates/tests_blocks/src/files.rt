//! Files, and what is read of them.
use bfs_blocks::FileBlocks;
use bfs_types::{MOST_FILE_BYTES, Memory};
use std::alloc::Global;
use std::test::Fail;

/// So many bytes, of which no two blocks are the same.
pub(crate) fn bytes_made(alloc: Global, size: usize) -> Result<Vec<u8>, Memory> {
    let mut bytes = Vec::new(alloc);
    for place in 0..size {
        bytes.push((place % 251) as u8)?;
    }
    Ok(bytes)
}

/// A file of those bytes.
pub(crate) fn file_of(alloc: Global, bytes: &[u8]) -> Result<FileBlocks, Fail> {
    if bytes.len() > MOST_FILE_BYTES {
        return Err(Fail::new("too many bytes"));
    }
    Ok(FileBlocks::new(alloc, bytes)?)
}

/// Writes bytes where they fit.
pub(crate) fn write(file: &mut FileBlocks, offset: usize, bytes: &[u8]) -> Result<(), Fail> {
    if offset > MOST_FILE_BYTES / 2 || bytes.len() > MOST_FILE_BYTES / 2 {
        return Err(Fail::new("too many bytes"));
    }
    Ok(file.write(offset, bytes)?)
}

/// Sets the size, where it may be set.
pub(crate) fn resize(file: &mut FileBlocks, size: usize) -> Result<(), Fail> {
    if size > MOST_FILE_BYTES {
        return Err(Fail::new("too many bytes"));
    }
    Ok(file.resize(size)?)
}

/// All bytes, block by block.
pub(crate) fn joined(alloc: Global, file: &FileBlocks) -> Result<Vec<u8>, Memory> {
    let mut bytes = Vec::new(alloc);
    for block in file.blocks() {
        bytes.extend_from_slice(block)?;
    }
    Ok(bytes)
}

/// Whether those are its bytes, however they are read.
pub(crate) fn has(alloc: Global, file: &FileBlocks, bytes: &[u8]) -> Result<bool, Memory> {
    let mut read = Vec::new(alloc);
    file.read(0, usize::MAX, &mut read)?;
    Ok(
        file.len() == bytes.len()
            && read.as_slice() == bytes
            && joined(alloc, file)?.as_slice() == bytes,
    )
}
