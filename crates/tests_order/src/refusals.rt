//! Each refusal of a message, with the ones before and behind it: a message with two faults gets the first.
use crate::parts::Told::{Batch, Checkpoint, Commit, OtherCommit, OtherPrepare, Prepare, Proposal};
use crate::replica::Answer::{Done, Kept, Number, Refused, Sent};
use crate::script::{Event, Script, Step};
use std::test::Fail;

// in a later view: without entries, by another one, and by one that is no replica
static NOT_SIGNED: Script = Script {
    faults: 1,
    me: 1,
    steps: &[
        Step(Event::TakeUnsigned(Proposal(0, 1, 1)), Refused(24)),
        Step(Event::Take(2, Prepare(3, 1, 1)), Refused(24)),
        Step(Event::Take(4, Prepare(4, 1, 1)), Refused(24)),
        Step(Event::Kept, Kept(0)),
    ],
};

#[test]
fn who_signed_is_looked_at_before_the_view(rt: HostRuntime) -> Result<(), Fail> {
    NOT_SIGNED.plays(&rt, rt.alloc())
}

static REQUESTS_OF_CLIENTS: Script = Script {
    faults: 1,
    me: 1,
    steps: &[
        Step(Event::Take(0, Batch(0, 1, 1, 2)), Refused(24)),
        Step(Event::Take(0, Batch(0, 0, 1, 3)), Sent(1)),
    ],
};

#[test]
fn each_request_of_a_batch_is_its_clients(rt: HostRuntime) -> Result<(), Fail> {
    REQUESTS_OF_CLIENTS.plays(&rt, rt.alloc())
}

static OTHER_VIEWS: Script = Script {
    faults: 1,
    me: 1,
    steps: &[
        Step(Event::Take(2, Prepare(2, 1, 33)), Refused(25)),
        Step(Event::Take(2, Commit(2, 1, 0)), Refused(25)),
    ],
};

#[test]
fn the_view_is_looked_at_before_the_number(rt: HostRuntime) -> Result<(), Fail> {
    OTHER_VIEWS.plays(&rt, rt.alloc())
}

static OTHER_NUMBERS: Script = Script {
    faults: 1,
    me: 1,
    steps: &[
        Step(Event::Take(2, Proposal(2, 0, 33)), Refused(26)),
        Step(Event::Take(2, Proposal(2, 0, 0)), Refused(26)),
        Step(Event::Take(2, Proposal(2, 0, 32)), Refused(28)),
        Step(Event::Take(0, Prepare(0, 0, 33)), Refused(26)),
        Step(Event::Take(0, Proposal(0, 0, 32)), Sent(1)),
        // it would be number 33
        Step(Event::Propose, Refused(28)),
    ],
};

#[test]
fn the_number_is_looked_at_before_the_primary(rt: HostRuntime) -> Result<(), Fail> {
    OTHER_NUMBERS.plays(&rt, rt.alloc())
}

static OF_THE_PRIMARY: Script = Script {
    faults: 1,
    me: 1,
    steps: &[Step(Event::Take(0, Prepare(0, 0, 1)), Refused(27))],
};

#[test]
fn a_primary_sends_no_prepare(rt: HostRuntime) -> Result<(), Fail> {
    OF_THE_PRIMARY.plays(&rt, rt.alloc())
}

static AMONG_31: Script = Script {
    faults: 10,
    me: 30,
    steps: &[
        Step(Event::Take(31, Prepare(31, 1, 1)), Refused(24)),
        Step(Event::TakeSpoiled((0, 30), Proposal(0, 1, 1)), Refused(24)),
        Step(Event::Take(0, Batch(0, 1, 1, 2)), Refused(24)),
        Step(Event::Take(29, Prepare(29, 1, 33)), Refused(25)),
        Step(Event::Take(29, Proposal(29, 0, 33)), Refused(26)),
        Step(Event::Take(29, Proposal(29, 0, 1)), Refused(28)),
        Step(Event::Take(0, Prepare(0, 0, 1)), Refused(27)),
        Step(Event::Take(29, Prepare(29, 0, 1)), Sent(0)),
        Step(Event::Take(29, OtherPrepare(29, 0, 1)), Refused(27)),
        Step(Event::Take(29, Prepare(29, 0, 1)), Refused(29)),
    ],
};

#[test]
fn each_refusal_among_31_replicas(rt: HostRuntime) -> Result<(), Fail> {
    AMONG_31.plays(&rt, rt.alloc())
}

static ANOTHER_DIGEST: Script = Script {
    faults: 1,
    me: 1,
    steps: &[
        Step(Event::Take(0, Proposal(0, 0, 1)), Sent(1)),
        Step(Event::Take(0, Batch(0, 0, 1, 3)), Refused(27)),
        Step(Event::Take(2, Commit(2, 0, 1)), Sent(0)),
        Step(Event::Take(2, OtherCommit(2, 0, 1)), Refused(27)),
        Step(Event::Take(2, Commit(2, 0, 1)), Refused(29)),
        Step(Event::Kept, Kept(3)),
    ],
};

#[test]
fn another_digest_for_a_place_conflicts(rt: HostRuntime) -> Result<(), Fail> {
    ANOTHER_DIGEST.plays(&rt, rt.alloc())
}

static CHECKPOINTS: Script = Script {
    faults: 1,
    me: 1,
    steps: &[
        Step(Event::Leave(1), Done),
        Step(Event::Take(2, Checkpoint(2, 15, 1)), Refused(26)),
        Step(Event::Take(2, Checkpoint(2, 48, 1)), Refused(26)),
        Step(Event::Take(2, Checkpoint(2, 0, 1)), Refused(26)),
        Step(Event::Take(2, Checkpoint(2, 16, 1)), Sent(0)),
        Step(Event::Take(2, Checkpoint(2, 16, 2)), Refused(27)),
        Step(Event::Take(2, Checkpoint(2, 16, 1)), Refused(29)),
        Step(Event::Take(2, Checkpoint(2, 32, 1)), Sent(0)),
    ],
};

#[test]
fn checkpoints_have_no_view_and_rare_numbers(rt: HostRuntime) -> Result<(), Fail> {
    CHECKPOINTS.plays(&rt, rt.alloc())
}

static ALONE: Script = Script {
    faults: 0,
    me: 0,
    steps: &[
        Step(Event::Take(1, Commit(1, 1, 1)), Refused(24)),
        Step(Event::TakeSpoiled((0, 0), Proposal(0, 1, 33)), Refused(24)),
        Step(Event::Take(0, Batch(0, 1, 33, 2)), Refused(24)),
        Step(Event::Take(0, Proposal(0, 1, 33)), Refused(25)),
        Step(Event::Take(0, Proposal(0, 0, 33)), Refused(26)),
        Step(Event::Take(0, Prepare(0, 0, 1)), Refused(27)),
        Step(Event::Take(0, Proposal(0, 0, 1)), Sent(1)),
        Step(Event::Take(0, Batch(0, 0, 1, 3)), Refused(27)),
        Step(Event::Take(0, Proposal(0, 0, 1)), Refused(29)),
        Step(Event::Next, Number(1)),
    ],
};

#[test]
fn a_replica_alone_refuses_all_others(rt: HostRuntime) -> Result<(), Fail> {
    ALONE.plays(&rt, rt.alloc())
}
