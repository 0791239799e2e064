//! What single calls touch, in a new tree.
use bfs_footprint::{Footprint, ResolvedIn, Touch, conflicts, footprint, resolved_in, touch_of};
use bfs_testing::numbers::{CREATE, LOOKUP};
use bfs_testing::words::{A, ROOT, UNSET, request};
use bfs_testing::{holds, same};
use bfs_tree::Tree;
use bfs_types::{Context, Cred, FileId, Gids, Ordinal, Time};
use bfs_wire::NfsCall;
use std::alloc::Global;
use std::test::Fail;

fn no_groups() -> Gids {
    Gids::none()
}

fn nobody() -> Cred {
    Cred {
        uid: 65534,
        gid: 65534,
        gids: no_groups(),
    }
}

fn touched_by(alloc: Global, call: &NfsCall) -> Result<Footprint, Fail> {
    let tree = Tree::new(alloc)?;
    let context = Context {
        ordinal: Ordinal::first(),
        time: Time::epoch(),
        caller: nobody(),
    };
    Ok(footprint(&tree, &context, call))
}

// what the request of those words touches
fn touch(alloc: Global, procedure: u32, arguments: &[&[u32]]) -> Result<Touch, Fail> {
    let bytes = request(alloc, 1, procedure, arguments)?;
    let tree = Tree::new(alloc)?;
    Ok(touch_of(&tree, Ordinal::first(), Time::epoch(), bytes.as_slice()))
}

fn conflict(footprint: &Footprint, other: &Footprint) -> bool {
    conflicts(footprint, other)
}

fn reads_alone(footprint: &Footprint, file: FileId) -> bool {
    footprint.touches(file) && !footprint.writes(file)
}

// the first of the directories in which a call resolves names
fn resolves_first_in(call: &NfsCall) -> Option<FileId> {
    resolved_in(call).first
}

// how many inodes it reads, where they are known
fn count_of_reads(footprint: &Footprint) -> Option<usize> {
    match footprint {
        Footprint::Known { reads, .. } => Some(reads.as_slice().len()),
        Footprint::Whole => None,
    }
}

#[test]
fn a_file_is_made_where_none_is_read(rt: HostRuntime) -> Result<(), Fail> {
    let root = FileId::root();
    let made = touch(rt.alloc(), CREATE, &[ROOT, A, UNSET])?;
    holds!(rt; made.footprint.writes(root) && made.resolved == ResolvedIn::nowhere());
    let read = touched_by(rt.alloc(), &NfsCall::GetAttr { file: Some(root) })?;
    holds!(rt; reads_alone(&read, root));
    holds!(rt; conflict(&made.footprint, &read) && !conflict(&read, &read));
    Ok(())
}

#[test]
fn a_name_is_resolved_in_its_directory(rt: HostRuntime) -> Result<(), Fail> {
    let root = Some(FileId::root());
    let look_up = NfsCall::LookUp {
        dir: root,
        name: b".".as_slice(),
    };
    same!(rt; resolves_first_in(&look_up), root);
    same!(rt; count_of_reads(&touched_by(rt.alloc(), &look_up)?), Some(2));
    same!(rt; touch(rt.alloc(), LOOKUP, &[ROOT, A])?.resolved.first, root);
    Ok(())
}

#[test]
fn statfs_touches_all(rt: HostRuntime) -> Result<(), Fail> {
    let all = touched_by(rt.alloc(), &NfsCall::FileSystemStatus { file: None })?;
    holds!(rt; all.is_whole());
    holds!(rt; conflict(&all, &Footprint::none()));
    Ok(())
}
