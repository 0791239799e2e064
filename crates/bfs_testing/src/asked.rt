//! Requests on inodes and names by their numbers.
use crate::numbers::{
    CREATE, GETATTR, LINK, LOOKUP, MKDIR, READ, READDIR, REMOVE, RENAME, RMDIR, SETATTR, STATFS,
    WRITE,
};
use crate::words::{SIZE_OF_ONE, UNSET, letters, request};
use bfs_types::Memory;
use bfs_xdr::put_opaque;
use std::alloc::Global;

static MUCH: [u8; 8192] = [7; 8192];

/// What a request asks for. Files and directories are told by their fileids, names by numbers.
#[derive(Clone, Copy)]
pub enum Asked {
    Attributes {
        file: u32,
    },
    Truncate {
        file: u32,
    },
    LookUp {
        dir: u32,
        name: u32,
    },
    Read {
        file: u32,
    },
    Write {
        file: u32,
        value: u32,
    },
    /// Of 8,192 bytes.
    WriteMuch {
        file: u32,
    },
    Create {
        dir: u32,
        name: u32,
    },
    Remove {
        dir: u32,
        name: u32,
    },
    Rename {
        from: u32,
        name: u32,
        to: u32,
        other: u32,
    },
    Link {
        file: u32,
        dir: u32,
        name: u32,
    },
    MakeDirectory {
        dir: u32,
        name: u32,
    },
    RemoveDirectory {
        dir: u32,
        name: u32,
    },
    List {
        dir: u32,
    },
    Status,
}

impl Asked {
    /// The bytes of the request.
    pub fn request(self, alloc: Global, xid: u32) -> Result<Vec<u8>, Memory> {
        match self {
            Asked::Attributes { file } => request(alloc, xid, GETATTR, &[&handle(file)]),
            Asked::Truncate { file } => request(alloc, xid, SETATTR, &[&handle(file), SIZE_OF_ONE]),
            Asked::LookUp { dir, name } => request(
                alloc,
                xid,
                LOOKUP,
                &[&handle(dir), &letters_of(name)],
            ),
            Asked::Read { file } => request(alloc, xid, READ, &[&handle(file), &[0, 8192, 0]]),
            Asked::Write { file, value } => {
                request(
                    alloc,
                    xid,
                    WRITE,
                    &[&handle(file), &[0, value % 16, 0, 4, value]],
                )
            }
            Asked::WriteMuch { file } => {
                let mut bytes = request(alloc, xid, WRITE, &[&handle(file), &[0, 0, 0]])?;
                put_opaque(&mut bytes, &MUCH)?;
                Ok(bytes)
            }
            Asked::Create { dir, name } => {
                request(
                    alloc,
                    xid,
                    CREATE,
                    &[&handle(dir), &letters_of(name), UNSET],
                )
            }
            Asked::Remove { dir, name } => request(
                alloc,
                xid,
                REMOVE,
                &[&handle(dir), &letters_of(name)],
            ),
            Asked::Rename {
                from,
                name,
                to,
                other,
            } => request(
                alloc,
                xid,
                RENAME,
                &[
                    &handle(from),
                    &letters_of(name),
                    &handle(to),
                    &letters_of(other),
                ],
            ),
            Asked::Link { file, dir, name } => {
                request(
                    alloc,
                    xid,
                    LINK,
                    &[&handle(file), &handle(dir), &letters_of(name)],
                )
            }
            Asked::MakeDirectory { dir, name } => {
                request(alloc, xid, MKDIR, &[&handle(dir), &letters_of(name), UNSET])
            }
            Asked::RemoveDirectory { dir, name } => {
                request(alloc, xid, RMDIR, &[&handle(dir), &letters_of(name)])
            }
            Asked::List { dir } => request(alloc, xid, READDIR, &[&handle(dir), &[0, 8192]]),
            Asked::Status => request(alloc, xid, STATFS, &[&handle(2)]),
        }
    }
}

fn handle(file: u32) -> [u32; 8] {
    [0x42465332, 1, file, 0, 0, 0, 0, 0]
}

// a name of four letters
fn letters_of(name: u32) -> [u32; 2] {
    [4, u32::from_be_bytes(letters(name))]
}
