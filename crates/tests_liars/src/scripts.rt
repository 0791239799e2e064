//! Two worked scripts among four replicas: a primary that proposes two batches for a number, and a checkpoint with an entry that is wrong for its receiver.
use crate::playing::{members, run_up};
use bfs_codec::encode;
use bfs_log::StableCheckpoint;
use bfs_messages::{Message, Signed, Vote};
use bfs_testing::same;
use bfs_testing_liars::draws::draws_of;
use bfs_testing_liars::liars::{Liar, batch_of, spoiled};
use bfs_testing_liars::sets::Set;
use bfs_testing_liars::world::World;
use bfs_testing_nodes::calls::deliver;
use bfs_testing_nodes::snapshots::{adopt, snapshot_of};
use bfs_types::{Memory, TryClone};
use std::alloc::Global;
use std::sync::Wait;
use std::test::Fail;
use std::thread::Threads;

/// What replica 0 lies about number 1 in view 0, or what the others come to. Batches are told by their seconds.
#[derive(Clone, Copy)]
enum Step {
    /// It proposes a batch to these.
    Propose(u32, Set),
    /// It sends a COMMIT for a batch to these.
    Commit(u32, Set),
    /// All that is on its way comes, and what is sent then.
    Settle,
    /// Whether a replica executes a batch.
    Executes(usize, bool),
    /// The number that a replica has executed last.
    Last(usize, u64),
    /// It proposes a batch to one, who refuses it with that number.
    Refused(u32, usize, u32),
}

static TWO_BATCHES: [Step; 13] = [
    Step::Propose(1, Set(0b0010)),
    Step::Propose(2, Set(0b1100)),
    Step::Commit(1, Set(0b0010)),
    Step::Commit(2, Set(0b1100)),
    Step::Settle,
    Step::Executes(2, true),
    Step::Executes(3, true),
    Step::Executes(1, false),
    Step::Executes(2, false),
    Step::Last(1, 0),
    Step::Last(2, 1),
    Step::Last(3, 1),
    Step::Refused(1, 2, 27),
];

fn proposal(alloc: Global, liar: &Liar, second: u32) -> Result<Signed<Message>, Memory> {
    liar.proposal(0, 1, &batch_of(alloc, second)?)
}

fn commit(alloc: Global, liar: &Liar, second: u32) -> Result<Signed<Message>, Memory> {
    let digest = batch_of(alloc, second)?.digest();
    liar.commit(0, &Vote::new(0, 0, 1, digest))
}

// first come, first served
fn settle<R: Threads + Sync>(rt: &R, world: &mut World) -> Result<(), Memory> {
    for _ in 0u32..100 {
        if world.on_their_way.is_empty() {
            return Ok(());
        }
        let flight = world.on_their_way.remove(0);
        world.deliver(rt, flight)?;
    }
    Ok(())
}

// the number of the refusal, 0 where there is none
fn refusal<R: Threads + Sync>(
    rt: &R,
    world: &mut World,
    number: usize,
    signed: &Signed<Message>,
) -> Result<u32, Memory> {
    let bytes = encode(world.alloc, signed)?;
    let Some(node) = world.nodes.get_mut(number) else {
        return Err(Memory);
    };
    match deliver(rt, node, &bytes) {
        Ok(_) => Ok(0),
        Err(error) => Ok(error.code()),
    }
}

// whether it comes as it is told
fn happens<R: Threads + Wait + Sync>(
    rt: &R,
    world: &mut World,
    liar: &Liar,
    step: Step,
) -> Result<bool, Memory> {
    match step {
        Step::Propose(second, to) => {
            world.put(&proposal(world.alloc, liar, second)?, to, true)?;
        }
        Step::Commit(second, to) => world.put(&commit(world.alloc, liar, second)?, to, true)?,
        Step::Settle => settle(rt, world)?,
        Step::Executes(number, wanted) => return Ok(world.execute(rt, number)? == wanted),
        Step::Last(number, wanted) => return Ok(world.last(number) == wanted),
        Step::Refused(second, number, wanted) => {
            let signed = proposal(world.alloc, liar, second)?;
            return Ok(refusal(rt, world, number, &signed)? == wanted);
        }
    }
    Ok(true)
}

// the place of the first step that does not come as it is told
fn first_wrong<R: Threads + Wait + Sync>(
    rt: &R,
    alloc: Global,
    steps: &[Step],
) -> Result<Option<usize>, Memory> {
    let liar = Liar::new(alloc, members(1), 0)?;
    let mut world = World::new(alloc, members(1), Set::of(0))?;
    for (place, step) in steps.iter().enumerate() {
        if !happens(rt, &mut world, &liar, *step)? {
            return Ok(Some(place));
        }
    }
    Ok(None)
}

#[test]
fn of_two_batches_for_a_number_one_is_executed(rt: HostRuntime) -> Result<(), Fail> {
    same!(rt; first_wrong(&rt, rt.alloc(), &TWO_BATCHES)?, None);
    Ok(())
}

// a stable checkpoint, of whose CHECKPOINTs the second has entries that are wrong for some
fn with_wrong_entries(
    alloc: Global,
    stable: &StableCheckpoint,
    wrong: Set,
) -> Result<StableCheckpoint, Memory> {
    let mut changed = Vec::new(alloc);
    for signed in stable.checkpoints() {
        let copy = signed.try_clone(alloc)?;
        if changed.len() == 1 {
            changed.push(spoiled(alloc, copy, wrong)?)?;
        } else {
            changed.push(copy)?;
        }
    }
    Ok(StableCheckpoint::new(stable.number(), *stable.digest(), changed))
}

// the number of the refusal, 0 where there is none, at replica 3, which has heard nothing
fn adopted<R: Threads + Sync>(rt: &R, world: &mut World, wrong: Set) -> Result<u32, Memory> {
    let Some(node) = world.nodes.get(0) else {
        return Err(Memory);
    };
    let Some(snapshot) = snapshot_of(world.alloc, node)? else {
        return Err(Memory);
    };
    let checkpoint = with_wrong_entries(world.alloc, &snapshot.checkpoint, wrong)?;
    let Some(node) = world.nodes.get_mut(3) else {
        return Err(Memory);
    };
    match adopt(rt, node, &snapshot.text, &checkpoint) {
        Ok(()) => Ok(0),
        Err(error) => Ok(error.code()),
    }
}

// what comes of a CHECKPOINT whose entry is wrong for replica 3 and then of one whose entries are wrong for the others, and how far it is
fn two_adoptions<R: Threads + Wait + Sync>(
    rt: &R,
    alloc: Global,
) -> Result<(u32, u64, u32, u64), Memory> {
    let mut draws = draws_of(1);
    let mut world = World::new(alloc, members(1), Set(0))?;
    run_up(rt, &mut world, &mut draws, Set(0b0111), 17)?;
    let first = adopted(rt, &mut world, Set(0b1000))?;
    let before = world.last(3);
    let second = adopted(rt, &mut world, Set(0b0111))?;
    Ok((first, before, second, world.last(3)))
}

#[test]
fn a_checkpoint_that_is_wrong_for_its_receiver_does_not_count(rt: HostRuntime) -> Result<(), Fail> {
    same!(rt; two_adoptions(&rt, rt.alloc())?, (34, 0, 0, 16));
    Ok(())
}
