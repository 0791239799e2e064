//! A replica that is alone executes all that is committed, makes the checkpoints that are due, and fails where memory runs out meanwhile.
use crate::parts::Asked;
use crate::replica::Kind::{Checkpoint, Reply};
use crate::script::{Step, plays};
use bfs_testing_nodes::calls::{Said, Standing};
use std::test::Fail;

const REQUEST: Asked = Asked {
    signer: 3,
    client: 3,
    timestamp: 1,
};

// it waits until one of the batches with it is executed: the others answer it again
static THREE_BATCHES: [Step; 8] = [
    Step::Advance(&[]),
    Step::Take(REQUEST, Said::Sent(0)),
    Step::Proposals(3),
    Step::Stands(Standing(0, 0, 1)),
    Step::Advance(&[Reply, Reply, Reply]),
    Step::Stands(Standing(0, 3, 0)),
    Step::IsReady(false),
    Step::Advance(&[]),
];

#[test]
fn all_that_is_committed_is_executed(rt: HostRuntime) -> Result<(), Fail> {
    plays(&rt, rt.alloc(), 0, 0, &THREE_BATCHES)
}

static NUMBER_16: [Step; 8] = [
    Step::Proposals(15),
    Step::Take(REQUEST, Said::Sent(0)),
    Step::Proposals(2),
    Step::StableAt(0, None),
    // behind the replies of number 16
    Step::Advance(&[Reply, Checkpoint, Reply]),
    Step::Stands(Standing(0, 17, 0)),
    Step::StableAt(16, Some(16)),
    Step::Advance(&[]),
];

#[test]
fn a_checkpoint_is_made_at_sixteen(rt: HostRuntime) -> Result<(), Fail> {
    plays(&rt, rt.alloc(), 0, 0, &NUMBER_16)
}

// as where memory ran out for it before
static ONE_IS_DUE: [Step; 8] = [
    Step::Batches(16),
    Step::Stands(Standing(0, 16, 0)),
    Step::StableAt(0, None),
    // there is no batch
    Step::IsReady(false),
    Step::Advance(&[Checkpoint]),
    Step::StableAt(16, Some(16)),
    Step::Advance(&[]),
    Step::Stands(Standing(0, 16, 0)),
];

#[test]
fn a_checkpoint_that_is_due_is_made(rt: HostRuntime) -> Result<(), Fail> {
    plays(&rt, rt.alloc(), 0, 0, &ONE_IS_DUE)
}

static ONE_IS_DUE_BEFORE_BATCHES: [Step; 8] = [
    Step::Batches(16),
    Step::Proposals(15),
    Step::Take(REQUEST, Said::Sent(0)),
    Step::Proposals(1),
    Step::Advance(&[Checkpoint, Reply, Checkpoint]),
    Step::StableAt(32, Some(32)),
    Step::Stands(Standing(0, 32, 0)),
    Step::Advance(&[]),
];

#[test]
fn a_checkpoint_that_is_due_is_made_before_batches(rt: HostRuntime) -> Result<(), Fail> {
    plays(&rt, rt.alloc(), 0, 0, &ONE_IS_DUE_BEFORE_BATCHES)
}

static ALL_BETWEEN_THE_MARKS: [Step; 7] = [
    Step::Proposals(32),
    Step::Propose(Said::Refused(26)),
    Step::Advance(&[Checkpoint, Checkpoint]),
    Step::Stands(Standing(0, 32, 0)),
    Step::StableAt(32, Some(32)),
    Step::Checkpoint(Said::Refused(26)),
    Step::Propose(Said::Sent(1)),
];

#[test]
fn checkpoints_make_room_for_further_numbers(rt: HostRuntime) -> Result<(), Fail> {
    plays(&rt, rt.alloc(), 0, 0, &ALL_BETWEEN_THE_MARKS)
}

// two batches without requests, and one for whose request there is no memory
static NO_ROOM: [Step; 11] = [
    Step::Proposals(2),
    Step::Take(REQUEST, Said::Sent(0)),
    Step::Propose(Said::Sent(1)),
    Step::AdvanceWithoutRoom(Said::Refused(40)),
    Step::Stands(Standing(0, 2, 1)),
    Step::IsReady(false),
    Step::HasDigest(false),
    Step::AdvanceRefused(41),
    Step::AdvanceWithoutRoom(Said::Refused(41)),
    Step::Execute(Said::Refused(41)),
    Step::Stands(Standing(0, 2, 1)),
];

#[test]
fn what_finds_no_memory_has_failed(rt: HostRuntime) -> Result<(), Fail> {
    plays(&rt, rt.alloc(), 0, 0, &NO_ROOM)
}

static NO_ROOM_BEHIND_16: [Step; 9] = [
    Step::Batches(16),
    Step::Take(REQUEST, Said::Sent(0)),
    Step::Propose(Said::Sent(1)),
    Step::ExecuteWithoutRoom(Said::Refused(40)),
    Step::ExecuteWithoutRoom(Said::Refused(41)),
    Step::Checkpoint(Said::Refused(41)),
    Step::Stands(Standing(0, 16, 1)),
    Step::StableAt(0, None),
    Step::HasDigest(false),
];

#[test]
fn one_that_has_failed_makes_no_checkpoint(rt: HostRuntime) -> Result<(), Fail> {
    plays(&rt, rt.alloc(), 0, 0, &NO_ROOM_BEHIND_16)
}
