//! Who sets which owner, group, mode, times and size, one call after another.
use crate::callers::{Asked, Caller, Kind, new_batch, push, replies_to, status_of};
use bfs_serial::FileSystem;
use bfs_testing::asserts::compared;
use bfs_testing::numbers::{CREATE, MKDIR, SETATTR, SYMLINK};
use bfs_testing::words::{A, B, C, D, E, F, FOURTH, G, H, L, ROOT, THIRD};
use std::alloc::Global;
use std::test::Fail;

// settings that set one thing, or two
macro_rules! settings {
    ($mode:expr, $uid:expr, $gid:expr, $size:expr, $atime:expr, $mtime:expr) => {
        &[$mode, $uid, $gid, $size, $atime, $atime, $mtime, $mtime]
    };
}

const NONE: u32 = 0xffffffff;

// who calls, the call, and its status
struct Case(Kind, Asked, u8);

const OTHER_GROUPS: [u32; 16] = [7; 16];

// uid 0, the owner of the file 4, and another user of its group
fn caller_of(kind: Kind) -> Caller {
    let user = match kind {
        Kind::Superuser => (0, 0),
        Kind::Owner => (1000, 100),
        _ => (1001, 100),
    };
    Caller(user, OTHER_GROUPS, kind)
}

const PERM: u8 = 1;

const EXIST: u8 = 17;

const ACCES: u8 = 13;

const FBIG: u8 = 27;

const ISDIR: u8 = 21;

static CASES: [Case; 42] = [
    // what is made is the caller's, and of a group that it holds
    Case(
        Kind::Owner,
        Asked(
            MKDIR,
            &[ROOT, A, settings!(0o777, NONE, NONE, NONE, NONE, NONE)],
        ),
        0,
    ),
    Case(
        Kind::Owner,
        Asked(
            CREATE,
            &[THIRD, A, settings!(0o640, 1000, 7, NONE, NONE, NONE)],
        ),
        0,
    ),
    Case(
        Kind::Group,
        Asked(
            CREATE,
            &[THIRD, B, settings!(NONE, 1000, NONE, NONE, NONE, NONE)],
        ),
        PERM,
    ),
    Case(
        Kind::Group,
        Asked(
            CREATE,
            &[THIRD, B, settings!(NONE, NONE, 8, NONE, NONE, NONE)],
        ),
        PERM,
    ),
    Case(
        Kind::Group,
        Asked(
            CREATE,
            &[THIRD, B, settings!(NONE, 0, NONE, NONE, NONE, NONE)],
        ),
        PERM,
    ),
    Case(
        Kind::Group,
        Asked(
            CREATE,
            &[THIRD, B, settings!(NONE, NONE, 8, 0xfffffffe, NONE, NONE)],
        ),
        PERM,
    ),
    Case(
        Kind::Group,
        Asked(
            CREATE,
            &[THIRD, A, settings!(NONE, NONE, 8, NONE, NONE, NONE)],
        ),
        EXIST,
    ),
    Case(
        Kind::Group,
        Asked(
            CREATE,
            &[THIRD, B, settings!(NONE, 1001, 100, 0xfffffffe, NONE, NONE)],
        ),
        FBIG,
    ),
    Case(
        Kind::Group,
        Asked(
            CREATE,
            &[THIRD, B, settings!(NONE, 1001, 100, NONE, NONE, NONE)],
        ),
        0,
    ),
    Case(
        Kind::Group,
        Asked(
            MKDIR,
            &[THIRD, C, settings!(NONE, 1000, NONE, NONE, NONE, NONE)],
        ),
        PERM,
    ),
    Case(
        Kind::Group,
        Asked(
            MKDIR,
            &[THIRD, C, settings!(NONE, NONE, 8, NONE, NONE, NONE)],
        ),
        PERM,
    ),
    Case(
        Kind::Group,
        Asked(
            MKDIR,
            &[THIRD, C, settings!(NONE, NONE, 7, NONE, NONE, NONE)],
        ),
        0,
    ),
    Case(
        Kind::Group,
        Asked(
            SYMLINK,
            &[THIRD, D, E, settings!(NONE, 1000, NONE, NONE, NONE, NONE)],
        ),
        PERM,
    ),
    Case(
        Kind::Group,
        Asked(
            SYMLINK,
            &[THIRD, D, E, settings!(NONE, NONE, 0, NONE, NONE, NONE)],
        ),
        PERM,
    ),
    Case(
        Kind::Group,
        Asked(
            SYMLINK,
            &[THIRD, D, E, settings!(NONE, 1001, 100, NONE, NONE, NONE)],
        ),
        0,
    ),
    Case(
        Kind::Superuser,
        Asked(CREATE, &[THIRD, F, settings!(NONE, 5, 6, NONE, NONE, NONE)]),
        0,
    ),
    Case(
        Kind::Superuser,
        Asked(MKDIR, &[THIRD, G, settings!(NONE, 5, 6, NONE, NONE, NONE)]),
        0,
    ),
    Case(
        Kind::Superuser,
        Asked(
            SYMLINK,
            &[THIRD, H, L, settings!(NONE, 5, 6, NONE, NONE, NONE)],
        ),
        0,
    ),
    // of the file 4, of uid 1000 and gid 7: mode, group and times are set by its owner
    Case(
        Kind::Group,
        Asked(
            SETATTR,
            &[FOURTH, settings!(0o777, NONE, NONE, NONE, NONE, NONE)],
        ),
        PERM,
    ),
    Case(
        Kind::Group,
        Asked(
            SETATTR,
            &[FOURTH, settings!(NONE, NONE, 7, NONE, NONE, NONE)],
        ),
        PERM,
    ),
    Case(
        Kind::Group,
        Asked(
            SETATTR,
            &[FOURTH, settings!(NONE, NONE, NONE, NONE, 1, NONE)],
        ),
        PERM,
    ),
    Case(
        Kind::Group,
        Asked(
            SETATTR,
            &[FOURTH, settings!(NONE, NONE, NONE, NONE, NONE, 1)],
        ),
        PERM,
    ),
    Case(
        Kind::Group,
        Asked(
            SETATTR,
            &[FOURTH, settings!(NONE, NONE, NONE, NONE, NONE, NONE)],
        ),
        0,
    ),
    Case(
        Kind::Group,
        Asked(
            SETATTR,
            &[FOURTH, settings!(NONE, 1000, NONE, NONE, NONE, NONE)],
        ),
        0,
    ),
    Case(
        Kind::Group,
        Asked(
            SETATTR,
            &[FOURTH, settings!(NONE, 1001, NONE, NONE, NONE, NONE)],
        ),
        PERM,
    ),
    Case(
        Kind::Owner,
        Asked(SETATTR, &[FOURTH, settings!(0o600, NONE, NONE, NONE, 1, 2)]),
        0,
    ),
    Case(
        Kind::Owner,
        Asked(
            SETATTR,
            &[FOURTH, settings!(NONE, 1000, NONE, NONE, NONE, NONE)],
        ),
        0,
    ),
    Case(
        Kind::Owner,
        Asked(
            SETATTR,
            &[FOURTH, settings!(NONE, 1001, NONE, NONE, NONE, NONE)],
        ),
        PERM,
    ),
    Case(
        Kind::Owner,
        Asked(
            SETATTR,
            &[FOURTH, settings!(NONE, 0, NONE, NONE, NONE, NONE)],
        ),
        PERM,
    ),
    // its group is one that the owner holds, or stays
    Case(
        Kind::Owner,
        Asked(
            SETATTR,
            &[FOURTH, settings!(NONE, NONE, 100, NONE, NONE, NONE)],
        ),
        0,
    ),
    Case(
        Kind::Owner,
        Asked(
            SETATTR,
            &[FOURTH, settings!(NONE, NONE, 9, NONE, NONE, NONE)],
        ),
        PERM,
    ),
    Case(
        Kind::Superuser,
        Asked(
            SETATTR,
            &[FOURTH, settings!(NONE, NONE, 9, NONE, NONE, NONE)],
        ),
        0,
    ),
    Case(
        Kind::Owner,
        Asked(
            SETATTR,
            &[FOURTH, settings!(NONE, NONE, 9, NONE, NONE, NONE)],
        ),
        0,
    ),
    // a size is set by who may write the file, and by its owner whatever its mode
    Case(
        Kind::Group,
        Asked(
            SETATTR,
            &[FOURTH, settings!(NONE, NONE, NONE, 1, NONE, NONE)],
        ),
        ACCES,
    ),
    Case(
        Kind::Group,
        Asked(
            SETATTR,
            &[FOURTH, settings!(NONE, NONE, NONE, 0xfffffffe, NONE, NONE)],
        ),
        ACCES,
    ),
    Case(
        Kind::Group,
        Asked(
            SETATTR,
            &[FOURTH, settings!(0o777, NONE, NONE, 0xfffffffe, NONE, NONE)],
        ),
        PERM,
    ),
    Case(
        Kind::Owner,
        Asked(SETATTR, &[FOURTH, settings!(0, NONE, NONE, 1, NONE, NONE)]),
        0,
    ),
    Case(
        Kind::Owner,
        Asked(
            SETATTR,
            &[FOURTH, settings!(NONE, NONE, NONE, 2, NONE, NONE)],
        ),
        0,
    ),
    Case(
        Kind::Owner,
        Asked(
            SETATTR,
            &[FOURTH, settings!(NONE, NONE, NONE, 0xfffffffe, NONE, NONE)],
        ),
        FBIG,
    ),
    Case(
        Kind::Group,
        Asked(
            SETATTR,
            &[THIRD, settings!(NONE, NONE, NONE, 1, NONE, NONE)],
        ),
        ISDIR,
    ),
    // uid 0 sets all of them
    Case(
        Kind::Superuser,
        Asked(SETATTR, &[FOURTH, settings!(0o600, 1001, 8, 3, 4, 5)]),
        0,
    ),
    Case(
        Kind::Owner,
        Asked(
            SETATTR,
            &[FOURTH, settings!(0o600, NONE, NONE, NONE, NONE, NONE)],
        ),
        PERM,
    ),
];

fn status_given(alloc: Global, files: &mut FileSystem, case: &Case) -> Result<Option<u8>, Fail> {
    let Case(kind, asked, _) = case;
    let mut batch = new_batch(alloc);
    push(alloc, &mut batch, &caller_of(*kind), asked)?;
    let replies = replies_to(alloc, files, &batch)?;
    if replies.len() == 0 {
        return Ok(None);
    }
    Ok(status_of(replies.get(0)))
}

// the number of the first case with another status
fn first_wrong(alloc: Global, files: &mut FileSystem) -> Result<Option<usize>, Fail> {
    for (place, case) in CASES.iter().enumerate() {
        let Case(_, _, wanted) = case;
        if status_given(alloc, files, case)? != Some(*wanted) {
            return Ok(Some(place));
        }
    }
    Ok(None)
}

#[test]
fn sets_what_the_owner_may_set(rt: HostRuntime) -> Result<(), Fail> {
    let alloc = rt.alloc();
    let wrong = first_wrong(alloc, &mut FileSystem::new(alloc)?)?;
    Ok(compared(wrong, None)?)
}
