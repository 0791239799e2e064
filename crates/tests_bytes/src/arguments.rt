//! The arguments of each procedure, from their words (RFC 1094 sections 2.2 and 2.3).
use bfs_testing::numbers::{
    CREATE, GETATTR, LINK, LOOKUP, MKDIR, NULL, READ, READDIR, READLINK, REMOVE, RENAME, RMDIR,
    SETATTR, STATFS, SYMLINK, WRITE, WRITECACHE,
};
use bfs_testing::words::{ROOT, THIRD, spelled};
use bfs_testing::{holds, numbers, same};
use bfs_types::{FileId, Procedure, SetTime, Settings};
use bfs_wire::{GarbageArgs, NfsCall, parse_args};
use std::alloc::Global;
use std::process::Abort;
use std::test::Fail;

// the names `abc` and `de`, the first with another padding than zeros
const ABC: &[u32] = &[3, 0x61626301];

const DE: &[u32] = &[2, 0x64650000];

// a handle that begins with `BFS1`
const NO_HANDLE: &[u32] = &[0x42465331, 1, 2, 0, 0, 0, 0, 0];

// mode 0640, gid 7 and 9.000002 as the time of the last change
const SET: &[u32] = &[0o640, 0xffffffff, 7, 0xffffffff, 1, 0xffffffff, 9, 2];

const SETTINGS: Settings = Settings {
    mode: Some(0o640),
    uid: None,
    gid: Some(7),
    size: None,
    atime: None,
    mtime: Some(SetTime {
        seconds: 9,
        useconds: 2,
    }),
};

fn root() -> Option<FileId> {
    Some(FileId::root())
}

fn third() -> Option<FileId> {
    Some(FileId::new(3))
}

// of a procedure's number
fn call_of(procedure: u32, arguments: &[u8]) -> Result<NfsCall<'_>, GarbageArgs> {
    let procedure = Procedure::new(procedure).ok_or(GarbageArgs)?;
    parse_args(procedure, arguments)
}

// the words of a call's arguments
fn reads(
    rt: &impl Abort,
    alloc: Global,
    procedure: u32,
    words: &[&[u32]],
    call: &NfsCall,
) -> Result<(), Fail> {
    let bytes = spelled(alloc, words)?;
    match call_of(procedure, bytes.as_slice()) {
        Ok(given) => holds!(rt; given == *call),
        Err(_) => assert!(rt; false, "the arguments of procedure {procedure}"),
    }
    Ok(())
}

#[test]
fn reads_arguments_of_files(rt: HostRuntime) -> Result<(), Fail> {
    let alloc = rt.alloc();
    let call = NfsCall::GetAttr { file: third() };
    reads(&rt, alloc, GETATTR, &[THIRD], &call)?;
    let call = NfsCall::ReadLink { file: third() };
    reads(&rt, alloc, READLINK, &[THIRD], &call)?;
    let call = NfsCall::FileSystemStatus { file: third() };
    reads(&rt, alloc, STATFS, &[THIRD], &call)?;
    let call = NfsCall::SetAttr {
        file: third(),
        settings: SETTINGS,
    };
    reads(&rt, alloc, SETATTR, &[THIRD, SET], &call)?;
    let call = NfsCall::Read {
        file: third(),
        offset: 1,
        count: 2,
    };
    reads(&rt, alloc, READ, &[THIRD, &[1, 2, 3]], &call)?;
    let call = NfsCall::Write {
        file: third(),
        offset: 2,
        bytes: b"de",
    };
    reads(&rt, alloc, WRITE, &[THIRD, &[1, 2, 3], DE], &call)?;
    Ok(())
}

#[test]
fn reads_arguments_of_directories(rt: HostRuntime) -> Result<(), Fail> {
    let alloc = rt.alloc();
    let call = NfsCall::LookUp {
        dir: root(),
        name: b"abc",
    };
    reads(&rt, alloc, LOOKUP, &[ROOT, ABC], &call)?;
    let call = NfsCall::Remove {
        dir: root(),
        name: b"abc",
    };
    reads(&rt, alloc, REMOVE, &[ROOT, ABC], &call)?;
    let call = NfsCall::RemoveDirectory {
        dir: root(),
        name: b"abc",
    };
    reads(&rt, alloc, RMDIR, &[ROOT, ABC], &call)?;
    let call = NfsCall::Create {
        dir: root(),
        name: b"abc",
        settings: SETTINGS,
    };
    reads(&rt, alloc, CREATE, &[ROOT, ABC, SET], &call)?;
    let call = NfsCall::MakeDirectory {
        dir: root(),
        name: b"abc",
        settings: SETTINGS,
    };
    reads(&rt, alloc, MKDIR, &[ROOT, ABC, SET], &call)?;
    let call = NfsCall::ReadDirectory {
        dir: root(),
        cookie: 1,
        count: 2,
    };
    reads(&rt, alloc, READDIR, &[ROOT, &[1, 2]], &call)?;
    Ok(())
}

#[test]
fn reads_arguments_of_links(rt: HostRuntime) -> Result<(), Fail> {
    let alloc = rt.alloc();
    let call = NfsCall::Rename {
        from: root(),
        from_name: b"abc",
        to: third(),
        to_name: b"de",
    };
    reads(&rt, alloc, RENAME, &[ROOT, ABC, THIRD, DE], &call)?;
    let call = NfsCall::Link {
        file: third(),
        dir: root(),
        name: b"de",
    };
    reads(&rt, alloc, LINK, &[THIRD, ROOT, DE], &call)?;
    let call = NfsCall::SymbolicLink {
        dir: root(),
        name: b"abc",
        path: b"de",
        settings: SETTINGS,
    };
    reads(&rt, alloc, SYMLINK, &[ROOT, ABC, DE, SET], &call)?;
    Ok(())
}

// each procedure with good arguments
static GOOD: &[(u32, &[&[u32]])] = &[
    (NULL, &[]),
    (GETATTR, &[NO_HANDLE]),
    (SETATTR, &[THIRD, SET]),
    (numbers::ROOT, &[]),
    (LOOKUP, &[ROOT, ABC]),
    (READLINK, &[THIRD]),
    (READ, &[THIRD, &[1, 2, 3]]),
    (WRITECACHE, &[]),
    (WRITE, &[THIRD, &[1, 2, 3], DE]),
    (CREATE, &[ROOT, ABC, SET]),
    (REMOVE, &[ROOT, ABC]),
    (RENAME, &[ROOT, ABC, THIRD, DE]),
    (LINK, &[THIRD, ROOT, DE]),
    (SYMLINK, &[ROOT, ABC, DE, SET]),
    (MKDIR, &[ROOT, ABC, SET]),
    (RMDIR, &[ROOT, ABC]),
    (READDIR, &[ROOT, &[1, 2]]),
    (STATFS, &[THIRD]),
];

fn is_garbage(procedure: u32, bytes: &[u8]) -> bool {
    call_of(procedure, bytes) == Err(GarbageArgs)
}

// all of the words, and neither fewer bytes nor one more
fn reads_all_alone(
    rt: &impl Abort,
    alloc: Global,
    procedure: u32,
    words: &[&[u32]],
) -> Result<(), Fail> {
    let mut bytes = spelled(alloc, words)?;
    let whole = call_of(procedure, bytes.as_slice()).is_ok();
    same!(rt; (procedure, whole), (procedure, true));
    for length in 0..bytes.len() {
        let cut = is_garbage(procedure, &bytes[..length]);
        same!(rt; (procedure, length, cut), (procedure, length, true));
    }
    bytes.push(0)?;
    let longer = is_garbage(procedure, bytes.as_slice());
    same!(rt; (procedure, longer), (procedure, true));
    Ok(())
}

#[test]
fn reads_no_arguments_with_bytes_missing_or_left(rt: HostRuntime) -> Result<(), Fail> {
    for (procedure, words) in GOOD {
        reads_all_alone(&rt, rt.alloc(), *procedure, words)?;
    }
    Ok(())
}
