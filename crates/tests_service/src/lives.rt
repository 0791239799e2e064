//! Replicas whose processes end and begin again.
use crate::calls::ask;
use crate::script::Step::{Agree, Answered, Ask, IsAnswered, Play, Records, Restarts, Stands};
use crate::script::{Step, plays};
use crate::world::{ALL, BACKUPS, TERMS, THREE, World};
use bfs_testing::asserts::compared;
use std::test::Fail;

// behind calls, also without one of them, and a checkpoint
static CRASHES: [Step; 16] = [
    Answered(ALL, 1, 3, 2),
    Restarts(0),
    Restarts(1),
    Answered(THREE, 3, 20, 17),
    Restarts(0),
    Restarts(1),
    Restarts(2),
    Restarts(3),
    Answered(ALL, 20, 24, 4),
    Restarts(3),
    Restarts(3),
    Answered(ALL, 24, 28, 4),
    Restarts(0),
    Answered(ALL, 28, 30, 2),
    Agree(0, 1),
    Agree(0, 2),
];

#[test]
fn a_crash_is_a_pause(rt: HostRuntime) -> Result<(), Fail> {
    plays(&rt, rt.alloc(), TERMS, &CRASHES)
}

// a request alone brings a backup to tell nothing
static SILENT: [Step; 12] = [
    // each has told where it stands
    Play(0, ALL, 2),
    Ask(3, 7),
    Play(0, BACKUPS, 1),
    Stands(1, (0, 0, 1)),
    Records(1, 0),
    Restarts(1),
    Stands(1, (0, 0, 0)),
    // what waits is kept with what is told first
    Ask(3, 7),
    Play(0, ALL, 1),
    Records(2, 1),
    Play(0, ALL, 4),
    IsAnswered(0),
];

#[test]
fn what_tells_nothing_waits_to_be_kept(rt: HostRuntime) -> Result<(), Fail> {
    plays(&rt, rt.alloc(), TERMS, &SILENT)
}

// the folder takes the node of the beginning, and refuses the record of the turn
#[test]
fn a_turn_that_is_not_kept_is_not_answered(rt: HostRuntime) -> Result<(), Fail> {
    let mut world = World::new(rt.alloc(), TERMS, 1)?;
    ask(rt.alloc(), &mut world, 3, 7)?;
    compared(world.play(&rt, 0, &ALL, 1).is_err(), true)?;
    Ok(())
}
