//! Views are left and entered.
use crate::parts::Told::{Prepare, Proposal};
use crate::replica::Answer::{Done, Kept, Marks, Number, Proposed, Refused, Sent};
use crate::script::{Event, Script, Step};
use std::test::Fail;

static LEFT: Script = Script {
    faults: 1,
    me: 0,
    steps: &[
        Step(Event::Leave(0), Refused(25)),
        Step(Event::Leave(1 << 63), Refused(25)),
        Step(Event::Leave(2), Done),
        Step(Event::Leave(2), Refused(25)),
        Step(Event::View, Number(0)),
        Step(Event::Propose, Refused(28)),
        Step(Event::Take(2, Prepare(2, 0, 1)), Refused(25)),
    ],
};

#[test]
fn a_view_is_left_for_a_later_one(rt: HostRuntime) -> Result<(), Fail> {
    LEFT.plays(&rt, rt.alloc())
}

static NOT_ENTERED: Script = Script {
    faults: 1,
    me: 2,
    steps: &[
        Step(Event::Enter(0, &[]), Refused(25)),
        Step(Event::Leave(3), Done),
        Step(Event::Enter(2, &[]), Refused(25)),
        Step(Event::Enter(1 << 63, &[]), Refused(25)),
        Step(Event::Enter(3, &[]), Sent(0)),
        Step(Event::View, Number(3)),
    ],
};

#[test]
fn a_view_below_the_one_asked_for_is_not_entered(rt: HostRuntime) -> Result<(), Fail> {
    NOT_ENTERED.plays(&rt, rt.alloc())
}

const LAST_VIEW: u64 = (1 << 63) - 1;

const TO_THE_LAST: &[Step] = &[
    Step(Event::Leave(0), Refused(25)),
    Step(Event::Leave(1 << 63), Refused(25)),
    Step(Event::Leave(2), Done),
    Step(Event::Leave(2), Refused(25)),
    Step(Event::Leave(1), Refused(25)),
    Step(Event::Enter(0, &[]), Refused(25)),
    Step(Event::Enter(1, &[]), Refused(25)),
    Step(Event::Enter(1 << 63, &[]), Refused(25)),
    Step(Event::View, Number(0)),
    Step(Event::Enter(2, &[]), Sent(0)),
    Step(Event::Enter(2, &[]), Refused(25)),
    Step(Event::Leave(2), Refused(25)),
    Step(Event::Leave(LAST_VIEW), Done),
    Step(Event::Propose, Refused(28)),
    Step(Event::Enter(LAST_VIEW, &[]), Sent(0)),
    Step(Event::Leave(1 << 63), Refused(25)),
];

static TO_THE_LAST_ALONE: Script = Script {
    faults: 0,
    me: 0,
    steps: TO_THE_LAST,
};

static TO_THE_LAST_AMONG_31: Script = Script {
    faults: 10,
    me: 30,
    steps: TO_THE_LAST,
};

#[test]
fn views_go_on_to_the_last(rt: HostRuntime) -> Result<(), Fail> {
    TO_THE_LAST_ALONE.plays(&rt, rt.alloc())?;
    TO_THE_LAST_AMONG_31.plays(&rt, rt.alloc())
}

static HANDED_OVER: Script = Script {
    faults: 1,
    me: 2,
    steps: &[
        // up to min-s, twice, of another sender, and above the high mark
        Step(
            Event::EnterBehind(4, &[], &[(1, 4), (1, 5), (1, 5), (2, 6), (1, 40)]),
            Sent(1),
        ),
        Step(Event::Kept, Kept(2)),
        Step(Event::Take(3, Prepare(3, 1, 4)), Refused(26)),
        Step(Event::Take(3, Prepare(3, 1, 5)), Sent(1)),
    ],
};

#[test]
fn what_is_handed_over_is_taken_or_passed_over(rt: HostRuntime) -> Result<(), Fail> {
    HANDED_OVER.plays(&rt, rt.alloc())
}

static ABOVE_WHAT_WAS_HANDED_OVER: Script = Script {
    faults: 1,
    me: 1,
    steps: &[
        Step(Event::EnterBehind(4, &[], &[(1, 5), (1, 7)]), Sent(0)),
        Step(Event::Propose, Proposed(1, 8)),
    ],
};

#[test]
fn a_primary_proposes_above_what_was_handed_over(rt: HostRuntime) -> Result<(), Fail> {
    ABOVE_WHAT_WAS_HANDED_OVER.plays(&rt, rt.alloc())
}

// a view that begins behind a checkpoint that nothing shows, without batches: at its primary, and at another one
static BEHIND_MIN_S_AT_THE_PRIMARY: Script = Script {
    faults: 1,
    me: 1,
    steps: &[
        Step(Event::EnterBehind(16, &[], &[]), Sent(0)),
        Step(Event::Propose, Proposed(1, 17)),
    ],
};

static BEHIND_MIN_S: Script = Script {
    faults: 1,
    me: 2,
    steps: &[
        Step(Event::EnterBehind(16, &[], &[]), Sent(0)),
        Step(Event::Take(1, Proposal(1, 1, 16)), Refused(26)),
        Step(Event::Take(1, Proposal(1, 1, 17)), Sent(1)),
    ],
};

#[test]
fn numbers_up_to_min_s_are_not_given(rt: HostRuntime) -> Result<(), Fail> {
    BEHIND_MIN_S_AT_THE_PRIMARY.plays(&rt, rt.alloc())?;
    BEHIND_MIN_S.plays(&rt, rt.alloc())
}

const SHOWN: &[(u32, u8)] = &[(0, 1), (1, 1), (3, 1)];

static RISEN: Script = Script {
    faults: 1,
    me: 2,
    steps: &[
        Step(Event::Take(0, Proposal(0, 0, 1)), Sent(1)),
        Step(
            Event::EnterBehind(16, SHOWN, &[(1, 17), (1, 48), (1, 49)]),
            Sent(2),
        ),
        Step(Event::Marks, Marks(16, 48)),
        Step(Event::LastExecuted, Number(0)),
        // three CHECKPOINTs, two PRE-PREPAREs, and a PREPARE for each
        Step(Event::Kept, Kept(7)),
        Step(Event::Install(SHOWN), Done),
        Step(Event::LastExecuted, Number(16)),
    ],
};

// what it hands over above its old high mark is in its log, and it goes on above that
static RISEN_AT_THE_PRIMARY: Script = Script {
    faults: 1,
    me: 1,
    steps: &[
        Step(Event::EnterBehind(16, SHOWN, &[(1, 17), (1, 40)]), Sent(0)),
        Step(Event::Kept, Kept(5)),
        Step(Event::Take(3, Prepare(3, 1, 40)), Sent(0)),
        Step(Event::Propose, Proposed(1, 41)),
    ],
};

static SHOWN_BY_TOO_FEW: Script = Script {
    faults: 1,
    me: 2,
    steps: &[
        Step(
            Event::EnterBehind(16, &[(0, 1), (1, 1), (3, 2)], &[(1, 17), (1, 40)]),
            Sent(1),
        ),
        Step(Event::Marks, Marks(0, 32)),
        Step(Event::Kept, Kept(2)),
    ],
};

static BEHIND_ITS_LOW_MARK: Script = Script {
    faults: 1,
    me: 2,
    steps: &[
        Step(Event::Install(SHOWN), Done),
        Step(Event::Kept, Kept(3)),
        Step(
            Event::EnterBehind(16, &[(0, 1), (1, 1), (2, 1), (3, 1)], &[(1, 17)]),
            Sent(1),
        ),
        Step(Event::Marks, Marks(16, 48)),
        Step(Event::Kept, Kept(5)),
    ],
};

#[test]
fn the_low_mark_rises_to_what_is_shown(rt: HostRuntime) -> Result<(), Fail> {
    RISEN.plays(&rt, rt.alloc())?;
    RISEN_AT_THE_PRIMARY.plays(&rt, rt.alloc())?;
    SHOWN_BY_TOO_FEW.plays(&rt, rt.alloc())?;
    BEHIND_ITS_LOW_MARK.plays(&rt, rt.alloc())
}

static ALONE: Script = Script {
    faults: 0,
    me: 0,
    steps: &[
        Step(Event::Enter(1, &[(0, 1)]), Sent(1)),
        Step(Event::Next, Number(1)),
    ],
};

#[test]
fn a_replica_alone_commits_what_is_handed_over(rt: HostRuntime) -> Result<(), Fail> {
    ALONE.plays(&rt, rt.alloc())
}
