//! What comes to one replica, step after step, as tables.
use crate::parts::{Asked, Begun, members};
use bfs_messages::{Message, Signed};
use bfs_node::Node;
use bfs_testing::asserts::compared;
use bfs_testing_nodes::calls::{Said, Standing, standing_of, take, time_out};
use bfs_types::Memory;
use std::alloc::Global;
use std::test::Fail;
use std::thread::Threads;

/// How a replica looks at views: whether it leads the one that it has entered, the one last asked for, and the one to follow.
#[derive(Clone, Copy, Debug, PartialEq, Eq)]
pub struct Outlook(pub bool, pub u64, pub Option<u64>);

fn kept_by(node: &Node) -> Option<(u64, usize)> {
    let new = &node.new_view()?.message;
    Some((new.view(), new.changes().len()))
}

fn outlook_of(node: &Node) -> Outlook {
    Outlook(node.leads(), node.view_asked(), node.view_to_follow())
}

/// What happens to the replica and what it comes to, or what is to hold then.
#[derive(Clone, Copy)]
pub enum Step {
    /// A VIEW-CHANGE comes that this replica has signed.
    Change(Asked<'static>, u32, Said),
    /// A VIEW-CHANGE comes that its sender has signed, with a changed entry for a receiver.
    Spoiled(Asked<'static>, usize, Said),
    /// A NEW-VIEW comes.
    NewView(Begun, Said),
    /// Time runs out.
    TimeOut(Said),
    /// It leaves for that view.
    LeaveFor(u64, Said),
    /// It stands so.
    Stands(Standing),
    /// It looks at views so.
    Looks(Outlook),
    /// It keeps a NEW-VIEW of that view with so many VIEW-CHANGEs, or none, and has that low mark.
    Entered(Option<(u64, usize)>, u64),
}

// whether it comes to what is wanted
fn comes<R: Threads + Sync>(
    rt: &R,
    node: &mut Node,
    signed: Result<Signed<Message>, Memory>,
    wanted: Said,
) -> Result<bool, Memory> {
    Ok(Said::of_all(&take(rt, node, signed?)) == wanted)
}

fn happens<R: Threads + Sync>(
    rt: &R,
    alloc: Global,
    node: &mut Node,
    step: Step,
) -> Result<bool, Memory> {
    match step {
        Step::Change(asked, signer, wanted) => {
            comes(rt, node, asked.message_by(alloc, signer), wanted)
        }
        Step::Spoiled(asked, receiver, wanted) => {
            comes(rt, node, asked.spoiled_for(alloc, receiver), wanted)
        }
        Step::NewView(begun, wanted) => comes(rt, node, begun.message(alloc), wanted),
        Step::TimeOut(wanted) => Ok(Said::of_all(&time_out(node)) == wanted),
        Step::LeaveFor(view, wanted) => Ok(Said::of_all(&node.leave_for(view)) == wanted),
        Step::Stands(wanted) => Ok(standing_of(node) == wanted),
        Step::Looks(wanted) => Ok(outlook_of(node) == wanted),
        Step::Entered(kept, low) => Ok(kept_by(node) == kept && node.stable_number() == low),
    }
}

// the place of the first step that does not come as it is told
fn first_wrong<R: Threads + Sync>(
    rt: &R,
    alloc: Global,
    node: &mut Node,
    steps: &[Step],
) -> Result<Option<usize>, Memory> {
    for (place, step) in steps.iter().enumerate() {
        if !happens(rt, alloc, node, *step)? {
            return Ok(Some(place));
        }
    }
    Ok(None)
}

/// It all comes as it is told, at the replica of that number among 3f + 1, which has done nothing.
pub fn plays<R: Threads + Sync>(
    rt: &R,
    alloc: Global,
    f: u32,
    me: u32,
    steps: &[Step],
) -> Result<(), Fail> {
    let mut node = members(f).replica(alloc, me)?;
    compared(first_wrong(rt, alloc, &mut node, steps)?, None)?;
    Ok(())
}
