//! Calls one after another, each with the results that it is to get.
ghost use Rattle.std.specs.Prelude.{◌≡◌, IsTrue};
ghost use Rattle.bfs_model.specs.Server.Footprints.{Footprint, IsFreshFor};
ghost use Rattle.bfs_model.specs.Server.Short.{IsShort};
ghost use Rattle.bfs_tree.specs.Tree.{reach_of};
ghost use Rattle.bfs_wire.specs.Calls.{call_seen};

use crate::fresh::is_fresh;
use bfs_inode::FileId;
use bfs_procs::run;
use bfs_rpc::Cred;
use bfs_serial::{Batch, FileSystem, Replies, execute_serial};
use bfs_testing::asserts::compared;
use bfs_testing::steps::Step;
use bfs_testing::words::{same_bytes, spelled};
use bfs_tree::{Store, Tree};
use bfs_types::{Gids, Memory, Ordinal, Procedure, Time};
use bfs_wire::{NfsCall, NfsReply, parse_args, write_reply};
use std::alloc::Global;
use std::test::Fail;

/// Executes batches of calls on a new file system, the first at one second, the next at two and so on, and compares each
/// reply. The xids of a batch are 1, 2 and so on.
pub(crate) fn executes(alloc: Global, batches: &[&[Step]]) -> Result<FileSystem, Fail> {
    let mut files = FileSystem::new(alloc)?;
    let mut second = 1;
    for steps in batches {
        execute(alloc, &mut files, second, steps)?;
        second = second.saturating_add(1);
    }
    Ok(files)
}

/// As `executes`, where nothing is asked of the file system afterwards.
pub(crate) fn serves(alloc: Global, batches: &[&[Step]]) -> Result<(), Fail> {
    executes(alloc, batches)?;
    Ok(())
}

fn execute(alloc: Global, files: &mut FileSystem, second: u32, steps: &[Step]) -> Result<(), Fail> {
    let batch = batch_of(alloc, second, steps)?;
    let replies = execute_serial(alloc, files, &batch)?;
    compares(alloc, &replies, steps)
}

fn batch_of(alloc: Global, second: u32, steps: &[Step]) -> Result<Batch, Fail> {
    let mut batch = Batch::new(alloc);
    batch.set_time(Time::new(second, 0).ok_or("a time")?);
    let mut xid = 1;
    for step in steps {
        batch.push(step.request(alloc, xid)?.as_slice())?;
        xid = xid.saturating_add(1);
    }
    Ok(batch)
}

fn compares(alloc: Global, replies: &Replies, steps: &[Step]) -> Result<(), Fail> {
    compared(replies.len(), steps.len())?;
    let mut xid = 1;
    for index in 0..replies.len() {
        let step = steps.get(index).ok_or("a step for each reply")?;
        let wanted = step.reply(alloc, xid)?;
        same_bytes(alloc, replies.get(index), wanted.as_slice())?;
        xid = xid.saturating_add(1);
    }
    Ok(())
}

/// Carries out calls on a whole tree, the first under that ordinal, at one second and for somebody without a credential, and
/// compares the words of each one's results.
pub(crate) fn runs(
    alloc: Global,
    tree: &mut Tree,
    first: Ordinal,
    steps: &[Step],
) -> Result<(), Fail>
    requires whole { IsTrue ((reach_of tree.old).whole) }
    ensures reach { reach_of tree.new ≡ reach_of tree.old }
{
    let mut ordinal = first;
    for step in steps {
        runs_one(alloc, tree, ordinal, step)?;
        ordinal = ordinal.next();
    }
    Ok(())
}

fn nobody() -> Cred {
    Cred {
        uid: 65534,
        gid: 65534,
        gids: Gids::none(),
    }
}

fn runs_one(alloc: Global, tree: &mut Tree, ordinal: Ordinal, step: &Step) -> Result<(), Fail>
    requires whole { IsTrue ((reach_of tree.old).whole) }
    ensures reach { reach_of tree.new ≡ reach_of tree.old }
{
    let Step(_, _, results) = step;
    let given = run_words(alloc, tree, ordinal, step)?;
    let wanted = spelled(alloc, results)?;
    same_bytes(alloc, given.as_slice(), wanted.as_slice())
}

fn run_words(alloc: Global, tree: &mut Tree, ordinal: Ordinal, step: &Step) -> Result<Vec<u8>, Fail>
    requires whole { IsTrue ((reach_of tree.old).whole) }
    ensures reach { reach_of tree.new ≡ reach_of tree.old }
{
    if !is_fresh(alloc, tree, ordinal)? {
        return Err(Fail::new("a fresh ordinal"));
    }
    let Step(procedure, arguments, _) = step;
    let arguments = spelled(alloc, arguments)?;
    let Some(named) = Procedure::new(*procedure) else {
        return Err(Fail::new("a procedure"));
    };
    match parse_args(named, arguments.as_slice()) {
        Ok(call) => {
            let time = Time::new(1, 0).unwrap_or(Time::epoch());
            let reply = run_whole(alloc, tree, ordinal, time, &nobody(), &call)?;
            Ok(write_reply(alloc, &reply)?)
        }
        Err(_) => Err(Fail::new(format_args!("the arguments of procedure {procedure}"))),
    }
}

/// Carries out a call on a whole store, which knows what any call reads and owns what it writes, under an ordinal that is fresh
/// whatever is touched.
#[tactic(auto, using(bfs_serial::proofs::Public::knows_all_touched))]
pub(crate) fn run_whole<S: Store>(
    alloc: Global,
    store: &mut S,
    ordinal: Ordinal,
    time: Time,
    caller: &Cred,
    call: &NfsCall,
) -> Result<NfsReply, Memory>
    requires whole { IsTrue ((S.reach store.old).whole) }
    requires fresh { (footprint : Footprint) → IsFreshFor (S.inodes store.old) ordinal footprint }
    requires short { IsShort (call_seen call.now) }
    ensures { S.reach store.new ≡ S.reach store.old }
{
    run(alloc, store, ordinal, time, caller, call)
}

/// Whether a tree's inodes have these fileids.
pub(crate) fn has_ids(alloc: Global, tree: &Tree, wanted: &[FileId]) -> Result<bool, Memory> {
    Ok(tree.ids(alloc)?.as_slice() == wanted)
}
