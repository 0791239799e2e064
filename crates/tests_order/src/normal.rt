//! Batches are proposed, prepared, committed and executed in one view.
use crate::parts::Told::{Batch, Commit, OtherCommit, OtherPrepare, Prepare, Proposal};
use crate::replica::Answer::{
    Answered, Done, Executed, Itself, Kept, Marks, Number, Proposed, Refused, Sent,
};
use crate::script::{Event, Script, Step};
use std::test::Fail;

static A_NUMBER: Script = Script {
    faults: 1,
    me: 1,
    steps: &[
        Step(Event::Itself, Itself(1, 1)),
        Step(Event::MayPropose, Refused(28)),
        Step(Event::Propose, Refused(28)),
        Step(Event::Take(0, Proposal(0, 0, 1)), Sent(1)),
        Step(Event::Take(0, Proposal(0, 0, 1)), Refused(29)),
        Step(Event::Take(0, Batch(0, 0, 1, 3)), Refused(27)),
        Step(Event::Take(0, Proposal(0, 1, 1)), Refused(25)),
        Step(Event::Take(0, Proposal(0, 0, 33)), Refused(26)),
        Step(Event::Take(2, Proposal(2, 0, 1)), Refused(28)),
        Step(Event::TakeSpoiled((0, 1), Proposal(0, 0, 1)), Refused(24)),
        Step(Event::TakeSpoiled((0, 2), Proposal(0, 0, 1)), Refused(29)),
        Step(Event::Take(2, Prepare(2, 0, 1)), Sent(1)),
        Step(Event::Take(0, Commit(0, 0, 1)), Sent(0)),
        Step(Event::Next, Number(0)),
        Step(Event::Take(2, Commit(2, 0, 1)), Sent(0)),
        Step(Event::Next, Number(1)),
        // the PRE-PREPARE, two PREPAREs and three COMMITs
        Step(Event::Kept, Kept(6)),
    ],
};

#[test]
fn a_number_is_ordered(rt: HostRuntime) -> Result<(), Fail> {
    A_NUMBER.plays(&rt, rt.alloc())
}

static AMONG_31: Script = Script {
    faults: 10,
    me: 1,
    steps: &[
        Step(Event::Take(0, Proposal(0, 0, 1)), Sent(1)),
        // with its own PREPARE, that of replica 20 is the twentieth
        Step(Event::TakePrepares(2, 31), Answered(1, 20)),
        Step(Event::TakeCommits(2, 21), Number(0)),
        // with its own COMMIT, this one is the twenty-first
        Step(Event::Take(0, Commit(0, 0, 1)), Sent(0)),
        Step(Event::Next, Number(1)),
    ],
};

#[test]
fn two_thirds_of_31_replicas_are_needed(rt: HostRuntime) -> Result<(), Fail> {
    AMONG_31.plays(&rt, rt.alloc())
}

static ALONE: Script = Script {
    faults: 0,
    me: 0,
    steps: &[
        Step(Event::Next, Number(0)),
        Step(Event::MayPropose, Done),
        Step(Event::Propose, Proposed(0, 1)),
        Step(Event::Next, Number(1)),
        Step(Event::Kept, Kept(2)),
    ],
};

#[test]
fn a_replica_alone_orders_what_it_proposes(rt: HostRuntime) -> Result<(), Fail> {
    ALONE.plays(&rt, rt.alloc())
}

static VOTES_FIRST: Script = Script {
    faults: 1,
    me: 1,
    steps: &[
        Step(Event::Take(2, Prepare(2, 0, 1)), Sent(0)),
        Step(Event::Take(0, Commit(0, 0, 1)), Sent(0)),
        Step(Event::Take(2, Commit(2, 0, 1)), Sent(0)),
        Step(Event::Next, Number(0)),
        // it answers by a PREPARE and a COMMIT
        Step(Event::Take(0, Proposal(0, 0, 1)), Sent(2)),
        Step(Event::Next, Number(1)),
    ],
};

#[test]
fn votes_may_come_before_the_proposal(rt: HostRuntime) -> Result<(), Fail> {
    VOTES_FIRST.plays(&rt, rt.alloc())
}

static OTHER_DIGESTS: Script = Script {
    faults: 1,
    me: 1,
    steps: &[
        Step(Event::Take(0, Proposal(0, 0, 1)), Sent(1)),
        Step(Event::Take(2, OtherPrepare(2, 0, 1)), Sent(0)),
        Step(Event::Take(3, Prepare(3, 0, 1)), Sent(1)),
        Step(Event::Take(0, OtherCommit(0, 0, 1)), Sent(0)),
        Step(Event::Take(2, Commit(2, 0, 1)), Sent(0)),
        Step(Event::Next, Number(0)),
        Step(Event::Take(3, Commit(3, 0, 1)), Sent(0)),
        Step(Event::Next, Number(1)),
    ],
};

#[test]
fn votes_on_another_digest_do_not_count(rt: HostRuntime) -> Result<(), Fail> {
    OTHER_DIGESTS.plays(&rt, rt.alloc())
}

// the primary proposes a batch to replica 1, and the null request to the others
static TOLD_ONE_BATCH: Script = Script {
    faults: 1,
    me: 1,
    steps: &[
        Step(Event::Take(0, Batch(0, 0, 1, 3)), Sent(1)),
        Step(Event::Take(2, Prepare(2, 0, 1)), Sent(0)),
        Step(Event::Take(3, Prepare(3, 0, 1)), Sent(0)),
        Step(Event::Take(0, Commit(0, 0, 1)), Sent(0)),
        Step(Event::Take(2, Commit(2, 0, 1)), Sent(0)),
        Step(Event::Take(3, Commit(3, 0, 1)), Sent(0)),
        Step(Event::Next, Number(0)),
    ],
};

static TOLD_ANOTHER: Script = Script {
    faults: 1,
    me: 2,
    steps: &[
        Step(Event::Take(0, Proposal(0, 0, 1)), Sent(1)),
        Step(Event::Take(1, OtherPrepare(1, 0, 1)), Sent(0)),
        Step(Event::Take(3, Prepare(3, 0, 1)), Sent(1)),
        Step(Event::Take(0, Commit(0, 0, 1)), Sent(0)),
        Step(Event::Take(3, Commit(3, 0, 1)), Sent(0)),
        Step(Event::Next, Number(1)),
        Step(Event::Take(0, Batch(0, 0, 1, 3)), Refused(27)),
    ],
};

static TOLD_ANOTHER_TOO: Script = Script {
    faults: 1,
    me: 3,
    steps: &[
        Step(Event::Take(0, Proposal(0, 0, 1)), Sent(1)),
        Step(Event::Take(1, OtherPrepare(1, 0, 1)), Sent(0)),
        Step(Event::Take(2, Prepare(2, 0, 1)), Sent(1)),
        Step(Event::Take(0, Commit(0, 0, 1)), Sent(0)),
        Step(Event::Take(2, Commit(2, 0, 1)), Sent(0)),
        Step(Event::Next, Number(1)),
        Step(Event::Take(0, Batch(0, 0, 1, 3)), Refused(27)),
    ],
};

#[test]
fn of_two_batches_for_a_number_one_is_committed(rt: HostRuntime) -> Result<(), Fail> {
    TOLD_ONE_BATCH.plays(&rt, rt.alloc())?;
    TOLD_ANOTHER.plays(&rt, rt.alloc())?;
    TOLD_ANOTHER_TOO.plays(&rt, rt.alloc())
}

static UP_TO_THE_HIGH_MARK: Script = Script {
    faults: 1,
    me: 0,
    steps: &[
        Step(Event::ProposeMany(32), Number(32)),
        Step(Event::Propose, Refused(26)),
        Step(Event::Marks, Marks(0, 32)),
        // replicas 1 and 2 make number 2 committed here, which waits for number 1
        Step(Event::Take(1, Prepare(1, 0, 2)), Sent(0)),
        Step(Event::Take(2, Prepare(2, 0, 2)), Sent(1)),
        Step(Event::Take(1, Commit(1, 0, 2)), Sent(0)),
        Step(Event::Take(2, Commit(2, 0, 2)), Sent(0)),
        Step(Event::Next, Number(0)),
    ],
};

const TO_THE_MARK_AND_AWAY: &[Step] = &[
    Step(Event::ProposeMany(32), Number(32)),
    Step(Event::MayPropose, Refused(26)),
    Step(Event::Propose, Refused(26)),
    Step(Event::Leave(1), Done),
    Step(Event::Propose, Refused(28)),
];

static ALONE_UP_TO_THE_HIGH_MARK: Script = Script {
    faults: 0,
    me: 0,
    steps: TO_THE_MARK_AND_AWAY,
};

static AMONG_31_UP_TO_THE_HIGH_MARK: Script = Script {
    faults: 10,
    me: 0,
    steps: TO_THE_MARK_AND_AWAY,
};

#[test]
fn a_primary_proposes_up_to_the_high_mark(rt: HostRuntime) -> Result<(), Fail> {
    UP_TO_THE_HIGH_MARK.plays(&rt, rt.alloc())?;
    ALONE_UP_TO_THE_HIGH_MARK.plays(&rt, rt.alloc())?;
    AMONG_31_UP_TO_THE_HIGH_MARK.plays(&rt, rt.alloc())
}

static TWO_NUMBERS: Script = Script {
    faults: 0,
    me: 0,
    steps: &[
        Step(Event::Propose, Proposed(0, 1)),
        Step(Event::Propose, Proposed(0, 2)),
        Step(Event::Execute, Executed(1, 0)),
        Step(Event::LastExecuted, Number(1)),
        Step(Event::Next, Number(2)),
    ],
};

#[test]
fn what_is_executed_is_not_given_again(rt: HostRuntime) -> Result<(), Fail> {
    TWO_NUMBERS.plays(&rt, rt.alloc())
}
