//! Checkpoints become stable, the log up to them is dropped, and certificates are installed.
use crate::parts::Told::{Checkpoint, Prepare, Proposal};
use crate::replica::Answer::{Done, Kept, Marks, Number, Refused, Sent};
use crate::script::{Event, Script, Step};
use std::test::Fail;

static A_STABLE_ONE: Script = Script {
    faults: 1,
    me: 1,
    steps: &[
        Step(Event::Take(0, Proposal(0, 0, 16)), Sent(1)),
        Step(Event::Take(0, Proposal(0, 0, 17)), Sent(1)),
        Step(Event::Tell(16, 1), Done),
        Step(Event::Take(2, Checkpoint(2, 16, 2)), Sent(0)),
        Step(Event::Take(3, Checkpoint(3, 16, 1)), Sent(0)),
        Step(Event::Marks, Marks(0, 32)),
        Step(Event::Take(0, Checkpoint(0, 16, 1)), Sent(0)),
        Step(Event::Marks, Marks(16, 48)),
        // number 17 with its PREPARE, and the three CHECKPOINTs of one digest
        Step(Event::Kept, Kept(5)),
        Step(Event::Take(2, Prepare(2, 0, 16)), Refused(26)),
        Step(Event::Take(2, Prepare(2, 0, 48)), Sent(0)),
        Step(Event::Take(2, Prepare(2, 0, 49)), Refused(26)),
    ],
};

#[test]
fn a_stable_checkpoint_drops_the_log(rt: HostRuntime) -> Result<(), Fail> {
    A_STABLE_ONE.plays(&rt, rt.alloc())
}

static TOLD_ONCE: Script = Script {
    faults: 1,
    me: 1,
    steps: &[
        Step(Event::Tell(0, 1), Refused(26)),
        Step(Event::Tell(33, 1), Refused(26)),
        Step(Event::MayTell(32), Done),
        Step(Event::Tell(32, 1), Done),
        Step(Event::MayTell(32), Refused(29)),
        Step(Event::Tell(32, 2), Refused(29)),
    ],
};

// by 21 replicas of 31
const OF_21: &[(u32, u8)] = &[
    (0, 1),
    (1, 1),
    (2, 1),
    (3, 1),
    (4, 1),
    (5, 1),
    (6, 1),
    (7, 1),
    (8, 1),
    (9, 1),
    (10, 1),
    (11, 1),
    (12, 1),
    (13, 1),
    (14, 1),
    (15, 1),
    (16, 1),
    (17, 1),
    (18, 1),
    (19, 1),
    (20, 1),
];

const OF_20: &[(u32, u8)] = &[
    (0, 1),
    (1, 1),
    (2, 1),
    (3, 1),
    (4, 1),
    (5, 1),
    (6, 1),
    (7, 1),
    (8, 1),
    (9, 1),
    (10, 1),
    (11, 1),
    (12, 1),
    (13, 1),
    (14, 1),
    (15, 1),
    (16, 1),
    (17, 1),
    (18, 1),
    (19, 1),
];

static TOLD_ONCE_AMONG_31: Script = Script {
    faults: 10,
    me: 30,
    steps: &[
        Step(Event::Tell(0, 1), Refused(26)),
        Step(Event::Tell(33, 1), Refused(26)),
        Step(Event::Tell(16, 1), Done),
        Step(Event::Tell(16, 1), Refused(29)),
        Step(Event::Install(OF_21), Done),
        // it was told, and lies below the marks
        Step(Event::Tell(16, 1), Refused(26)),
    ],
};

#[test]
fn a_replica_tells_each_checkpoint_once(rt: HostRuntime) -> Result<(), Fail> {
    TOLD_ONCE.plays(&rt, rt.alloc())?;
    TOLD_ONCE_AMONG_31.plays(&rt, rt.alloc())
}

static ALONE: Script = Script {
    faults: 0,
    me: 0,
    steps: &[
        Step(Event::Tell(16, 1), Done),
        Step(Event::Marks, Marks(16, 48)),
        Step(Event::Kept, Kept(1)),
        // it was told, and lies below the marks
        Step(Event::Tell(16, 1), Refused(26)),
    ],
};

#[test]
fn a_replica_alone_makes_its_checkpoints_stable(rt: HostRuntime) -> Result<(), Fail> {
    ALONE.plays(&rt, rt.alloc())
}

static CERTIFICATES: Script = Script {
    faults: 1,
    me: 1,
    steps: &[
        Step(Event::Install(&[(0, 1), (2, 1)]), Refused(34)),
        Step(Event::Install(&[(0, 1), (2, 1), (2, 1)]), Refused(34)),
        Step(Event::Install(&[(0, 1), (2, 1), (3, 2)]), Refused(34)),
        // of one that is no replica
        Step(Event::Install(&[(0, 1), (2, 1), (4, 1)]), Refused(34)),
        Step(Event::Install(&[]), Refused(34)),
        // another number, and another digest, than they tell
        Step(
            Event::InstallAs(32, 1, &[(0, 1), (2, 1), (3, 1)]),
            Refused(34),
        ),
        Step(
            Event::InstallAs(16, 2, &[(0, 1), (2, 1), (3, 1)]),
            Refused(34),
        ),
        Step(Event::Marks, Marks(0, 32)),
        Step(Event::LastExecuted, Number(0)),
        Step(Event::Install(&[(0, 1), (2, 1), (3, 1)]), Done),
        Step(Event::Marks, Marks(16, 48)),
        Step(Event::LastExecuted, Number(16)),
        Step(Event::Kept, Kept(3)),
        Step(Event::Install(&[(0, 1), (2, 1)]), Refused(34)),
        Step(Event::Install(&[(0, 1), (2, 1), (3, 1)]), Refused(26)),
    ],
};

static CERTIFICATES_ALONE: Script = Script {
    faults: 0,
    me: 0,
    steps: &[
        Step(Event::Install(&[]), Refused(34)),
        Step(Event::Install(&[(1, 1)]), Refused(34)),
        Step(Event::Install(&[(0, 1), (0, 1)]), Refused(34)),
        Step(Event::Install(&[(0, 1)]), Done),
        Step(Event::Marks, Marks(16, 48)),
        Step(Event::LastExecuted, Number(16)),
        Step(Event::Install(&[(1, 1)]), Refused(34)),
        Step(Event::Install(&[(0, 1)]), Refused(26)),
    ],
};

static CERTIFICATES_AMONG_31: Script = Script {
    faults: 10,
    me: 1,
    steps: &[
        Step(Event::Install(OF_20), Refused(34)),
        Step(Event::Install(OF_21), Done),
        Step(Event::Marks, Marks(16, 48)),
        Step(Event::LastExecuted, Number(16)),
        Step(Event::Kept, Kept(21)),
        Step(Event::Install(OF_20), Refused(34)),
        Step(Event::Install(OF_21), Refused(26)),
    ],
};

#[test]
fn a_certificate_is_of_2f_and_one_more(rt: HostRuntime) -> Result<(), Fail> {
    CERTIFICATES.plays(&rt, rt.alloc())?;
    CERTIFICATES_ALONE.plays(&rt, rt.alloc())?;
    CERTIFICATES_AMONG_31.plays(&rt, rt.alloc())
}

static BEHIND: Script = Script {
    faults: 1,
    me: 1,
    steps: &[
        Step(Event::Take(0, Checkpoint(0, 16, 1)), Sent(0)),
        Step(Event::Take(2, Checkpoint(2, 16, 1)), Sent(0)),
        Step(Event::Take(3, Checkpoint(3, 16, 1)), Sent(0)),
        Step(Event::Marks, Marks(16, 48)),
        Step(Event::LastExecuted, Number(0)),
        Step(Event::Install(&[(0, 1), (1, 1), (2, 1), (3, 1)]), Done),
        Step(Event::Marks, Marks(16, 48)),
        Step(Event::LastExecuted, Number(16)),
        Step(Event::Kept, Kept(3)),
    ],
};

#[test]
fn a_replica_behind_a_stable_checkpoint_installs_it(rt: HostRuntime) -> Result<(), Fail> {
    BEHIND.plays(&rt, rt.alloc())
}
