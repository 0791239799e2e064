//! Callers, and what each is at an inode of uid 1000 and gid 100.
use bfs_serial::{Batch, FileSystem, Replies, execute_serial};
use bfs_testing::words::{call_by, put_parts};
use bfs_types::{Memory, Time};
use std::alloc::Global;
use std::test::Fail;

/// What a caller is at an inode of uid 1000 and gid 100.
#[derive(Clone, Copy, Debug, PartialEq, Eq)]
pub(crate) enum Kind {
    Superuser,
    Owner,
    Group,
    Others,
}

/// A user and its group, 16 further groups, and what it is.
#[derive(Drop)]
pub(crate) struct Caller(pub (u32, u32), pub [u32; 16], pub Kind);

const NO_GROUPS: [u32; 16] = [7, 8, 7, 8, 7, 8, 7, 8, 7, 8, 7, 8, 7, 8, 7, 8];

/// The superuser, the owner, who holds the group and who doesn't, holders of the group by their gid and by each further one, and another.
pub(crate) static CALLERS: [Caller; 22] = [
    Caller((0, 7), NO_GROUPS, Kind::Superuser),
    Caller((0, 100), NO_GROUPS, Kind::Superuser),
    Caller((1000, 7), NO_GROUPS, Kind::Owner),
    Caller((1000, 100), NO_GROUPS, Kind::Owner),
    Caller((1001, 100), NO_GROUPS, Kind::Group),
    Caller(
        (1001, 7),
        [100, 8, 7, 8, 7, 8, 7, 8, 7, 8, 7, 8, 7, 8, 7, 8],
        Kind::Group,
    ),
    Caller(
        (1001, 7),
        [7, 100, 7, 8, 7, 8, 7, 8, 7, 8, 7, 8, 7, 8, 7, 8],
        Kind::Group,
    ),
    Caller(
        (1001, 7),
        [7, 8, 100, 8, 7, 8, 7, 8, 7, 8, 7, 8, 7, 8, 7, 8],
        Kind::Group,
    ),
    Caller(
        (1001, 7),
        [7, 8, 7, 100, 7, 8, 7, 8, 7, 8, 7, 8, 7, 8, 7, 8],
        Kind::Group,
    ),
    Caller(
        (1001, 7),
        [7, 8, 7, 8, 100, 8, 7, 8, 7, 8, 7, 8, 7, 8, 7, 8],
        Kind::Group,
    ),
    Caller(
        (1001, 7),
        [7, 8, 7, 8, 7, 100, 7, 8, 7, 8, 7, 8, 7, 8, 7, 8],
        Kind::Group,
    ),
    Caller(
        (1001, 7),
        [7, 8, 7, 8, 7, 8, 100, 8, 7, 8, 7, 8, 7, 8, 7, 8],
        Kind::Group,
    ),
    Caller(
        (1001, 7),
        [7, 8, 7, 8, 7, 8, 7, 100, 7, 8, 7, 8, 7, 8, 7, 8],
        Kind::Group,
    ),
    Caller(
        (1001, 7),
        [7, 8, 7, 8, 7, 8, 7, 8, 100, 8, 7, 8, 7, 8, 7, 8],
        Kind::Group,
    ),
    Caller(
        (1001, 7),
        [7, 8, 7, 8, 7, 8, 7, 8, 7, 100, 7, 8, 7, 8, 7, 8],
        Kind::Group,
    ),
    Caller(
        (1001, 7),
        [7, 8, 7, 8, 7, 8, 7, 8, 7, 8, 100, 8, 7, 8, 7, 8],
        Kind::Group,
    ),
    Caller(
        (1001, 7),
        [7, 8, 7, 8, 7, 8, 7, 8, 7, 8, 7, 100, 7, 8, 7, 8],
        Kind::Group,
    ),
    Caller(
        (1001, 7),
        [7, 8, 7, 8, 7, 8, 7, 8, 7, 8, 7, 8, 100, 8, 7, 8],
        Kind::Group,
    ),
    Caller(
        (1001, 7),
        [7, 8, 7, 8, 7, 8, 7, 8, 7, 8, 7, 8, 7, 100, 7, 8],
        Kind::Group,
    ),
    Caller(
        (1001, 7),
        [7, 8, 7, 8, 7, 8, 7, 8, 7, 8, 7, 8, 7, 8, 100, 8],
        Kind::Group,
    ),
    Caller(
        (1001, 7),
        [7, 8, 7, 8, 7, 8, 7, 8, 7, 8, 7, 8, 7, 8, 7, 100],
        Kind::Group,
    ),
    Caller((1001, 7), NO_GROUPS, Kind::Others),
];

/// A call's procedure, and the words of its arguments.
pub(crate) struct Asked(pub u32, pub &'static [&'static [u32]]);

/// Puts a call behind those of a batch.
pub(crate) fn push(
    alloc: Global,
    batch: &mut Batch,
    caller: &Caller,
    asked: &Asked,
) -> Result<(), Fail> {
    let Caller(user, gids, _) = caller;
    let Asked(procedure, arguments) = asked;
    let mut request = call_by(alloc, 1, *procedure, *user, gids)?;
    put_parts(&mut request, arguments)?;
    batch.push(request.as_slice())?;
    Ok(())
}

/// The status of a reply, where it has one.
pub(crate) fn status_of(reply: &[u8]) -> Option<u8> {
    match reply.get(24..28)? {
        [0, 0, 0, status] => Some(*status),
        _ => None,
    }
}

/// Replies to a batch.
pub(crate) fn replies_to(
    alloc: Global,
    files: &mut FileSystem,
    batch: &Batch,
) -> Result<Replies, Fail> {
    Ok(execute_serial(alloc, files, batch)?)
}

/// A batch at one second, with no calls yet.
pub(crate) fn new_batch(alloc: Global) -> Batch {
    let mut batch = Batch::new(alloc);
    batch.set_time(Time::new(1, 0).unwrap_or(Time::epoch()));
    batch
}
