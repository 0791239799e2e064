//! Each call that looks at a mode, by each caller, at each of the 4,096 modes that a directory or a file may have.
use crate::callers::{Asked, CALLERS, Caller, Kind, new_batch, push, replies_to, status_of};
use bfs_serial::{Batch, FileSystem, Replies};
use bfs_testing::asserts::compared;
use bfs_testing::numbers::{
    CREATE, LINK, LOOKUP, MKDIR, READ, READDIR, REMOVE, RENAME, RMDIR, SETATTR, SYMLINK, WRITE,
};
use bfs_testing::words::{A, B, D, FOURTH, ROOT, THIRD, UNSET, call_by, put_parts};
use std::alloc::Global;
use std::test::Fail;

// what a caller needs at the inode whose mode it is
#[derive(Clone, Copy, Debug, PartialEq, Eq)]
enum Needed {
    // to read, or to search, a directory
    Read,
    Search,
    // to write and search it
    Change,
    // to read a file, or to execute it
    ReadFile,
    WriteFile,
}

// a call that changes nothing, what it needs, and its status where that is granted
struct Checked(Asked, Needed, u8);

const NOENT: u8 = 2;

const EXIST: u8 = 17;

const FBIG: u8 = 27;

const ACCES: u8 = 13;

// settings with a size above the limit alone
const TOO_LARGE: &[u32] = &[
    0xffffffff, 0xffffffff, 0xffffffff, 0xfffffffe, 0xffffffff, 0xffffffff, 0xffffffff, 0xffffffff,
];

// in the directory 3 is the file 4 by the name `a`
static CALLS: [Checked; 13] = [
    Checked(Asked(LOOKUP, &[THIRD, B]), Needed::Search, NOENT),
    Checked(Asked(READDIR, &[THIRD, &[0, 512]]), Needed::Read, 0),
    Checked(Asked(CREATE, &[THIRD, A, UNSET]), Needed::Change, EXIST),
    Checked(Asked(MKDIR, &[THIRD, A, UNSET]), Needed::Change, EXIST),
    Checked(Asked(SYMLINK, &[THIRD, A, B, UNSET]), Needed::Change, EXIST),
    Checked(Asked(LINK, &[FOURTH, THIRD, A]), Needed::Change, EXIST),
    Checked(Asked(REMOVE, &[THIRD, B]), Needed::Change, NOENT),
    Checked(Asked(RMDIR, &[THIRD, B]), Needed::Change, NOENT),
    Checked(Asked(RENAME, &[THIRD, B, ROOT, B]), Needed::Change, NOENT),
    Checked(Asked(RENAME, &[ROOT, B, THIRD, B]), Needed::Change, NOENT),
    Checked(Asked(READ, &[FOURTH, &[0, 0, 0]]), Needed::ReadFile, 0),
    Checked(
        Asked(WRITE, &[FOURTH, &[0, 0xffffffff, 0, 0]]),
        Needed::WriteFile,
        FBIG,
    ),
    Checked(
        Asked(SETATTR, &[FOURTH, TOO_LARGE]),
        Needed::WriteFile,
        FBIG,
    ),
];

// the octal digit of a mode that counts for a caller: 4 is to read, 2 to write, and 1 to search or execute
fn digit_of(mode: u32, kind: Kind) -> u32 {
    match kind {
        Kind::Superuser => 7,
        Kind::Owner => mode / 64 % 8,
        Kind::Group => mode / 8 % 8,
        Kind::Others => mode % 8,
    }
}

fn is_granted(mode: u32, kind: Kind, needed: Needed) -> bool {
    let digit = digit_of(mode, kind);
    match needed {
        Needed::Read => digit >= 4,
        Needed::Search => digit % 2 == 1,
        Needed::Change => digit == 3 || digit == 7,
        Needed::ReadFile => kind == Kind::Owner || digit >= 4 || digit % 2 == 1,
        Needed::WriteFile => kind == Kind::Owner || digit / 2 % 2 == 1,
    }
}

fn status_wanted(mode: u32, caller: &Caller, checked: &Checked) -> u8 {
    let Caller(_, _, kind) = caller;
    let Checked(_, needed, status) = checked;
    if is_granted(mode, *kind, *needed) {
        *status
    } else {
        ACCES
    }
}

fn push_all(alloc: Global, batch: &mut Batch, caller: &Caller) -> Result<(), Fail> {
    for Checked(asked, _, _) in &CALLS {
        push(alloc, batch, caller, asked)?;
    }
    Ok(())
}

// each call by each caller
fn all_calls(alloc: Global) -> Result<Batch, Fail> {
    let mut batch = new_batch(alloc);
    for caller in &CALLERS {
        push_all(alloc, &mut batch, caller)?;
    }
    Ok(batch)
}

// of that caller's calls, whose replies begin at a place: the number of the first with another status
fn first_other(mode: u32, caller: &Caller, replies: &Replies, first: usize) -> Option<usize> {
    for (place, checked) in CALLS.iter().enumerate() {
        let index = first.saturating_add(place);
        let wanted = status_wanted(mode, caller, checked);
        if index >= replies.len() || status_of(replies.get(index)) != Some(wanted) {
            return Some(place);
        }
    }
    None
}

// the numbers of the first caller and call with another status
fn first_wrong(mode: u32, replies: &Replies) -> Option<(usize, usize)> {
    for (place, caller) in CALLERS.iter().enumerate() {
        let first = place.saturating_mul(CALLS.len());
        if let Some(call) = first_other(mode, caller, replies, first) {
            return Some((place, call));
        }
    }
    None
}

// the owner and the group that callers are compared with
const OWNED: &[u32] = &[
    0o777, 1000, 100, 0xffffffff, 0xffffffff, 0xffffffff, 0xffffffff, 0xffffffff,
];

static MADE: [Asked; 2] = [
    Asked(MKDIR, &[ROOT, D, OWNED]),
    Asked(CREATE, &[THIRD, A, OWNED]),
];

fn superuser() -> Caller {
    Caller((0, 0), [0; 16], Kind::Superuser)
}

// a file system with that directory and file
fn filled(alloc: Global) -> Result<FileSystem, Fail> {
    let mut files = FileSystem::new(alloc)?;
    let mut batch = new_batch(alloc);
    for asked in &MADE {
        push(alloc, &mut batch, &superuser(), asked)?;
    }
    replies_to(alloc, &mut files, &batch)?;
    Ok(files)
}

// the call that sets the mode of a file alone
fn mode_set(alloc: Global, file: &[u32], mode: u32) -> Result<Vec<u8>, Fail> {
    let none = 0xffffffff;
    let mut request = call_by(alloc, 1, SETATTR, (0, 0), &[0; 16])?;
    put_parts(
        &mut request,
        &[file, &[mode, none, none, none, none, none, none, none]],
    )?;
    Ok(request)
}

fn set_mode(alloc: Global, files: &mut FileSystem, mode: u32) -> Result<(), Fail> {
    let mut batch = new_batch(alloc);
    batch.push(mode_set(alloc, THIRD, mode)?.as_slice())?;
    batch.push(mode_set(alloc, FOURTH, mode)?.as_slice())?;
    replies_to(alloc, files, &batch)?;
    Ok(())
}

// a mode, and the numbers of the first caller and call with another status
fn first_wrong_of(
    alloc: Global,
    files: &mut FileSystem,
    calls: &Batch,
) -> Result<Option<(u32, usize, usize)>, Fail> {
    for mode in 0..0o10000 {
        set_mode(alloc, files, mode)?;
        let replies = replies_to(alloc, files, calls)?;
        if let Some((caller, call)) = first_wrong(mode, &replies) {
            return Ok(Some((mode, caller, call)));
        }
    }
    Ok(None)
}

#[test]
fn looks_at_modes(rt: HostRuntime) -> Result<(), Fail> {
    let alloc = rt.alloc();
    let calls = all_calls(alloc)?;
    let wrong = first_wrong_of(alloc, &mut filled(alloc)?, &calls)?;
    Ok(compared(wrong, None)?)
}
