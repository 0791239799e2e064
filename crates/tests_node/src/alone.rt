//! A replica that is alone orders what comes at once.
use crate::parts::Asked;
use crate::script::{Step, plays};
use bfs_testing_nodes::calls::{Said, Standing};
use std::test::Fail;

const REQUEST: Asked = Asked {
    signer: 3,
    client: 3,
    timestamp: 1,
};

static A_REQUEST: [Step; 9] = [
    Step::TakeBytesOf(REQUEST, Said::Sent(0)),
    Step::Stands(Standing(0, 0, 1)),
    Step::Execute(Said::Nothing),
    Step::Propose(Said::Sent(1)),
    Step::Stands(Standing(0, 0, 1)),
    Step::IsReady(true),
    Step::Execute(Said::Sent(1)),
    Step::Stands(Standing(0, 1, 0)),
    Step::IsReady(false),
];

#[test]
fn a_request_is_ordered_executed_and_answered(rt: HostRuntime) -> Result<(), Fail> {
    plays(&rt, rt.alloc(), 0, 0, &A_REQUEST)
}

static A_REQUEST_TWICE: [Step; 8] = [
    Step::Take(REQUEST, Said::Sent(0)),
    Step::Propose(Said::Sent(1)),
    Step::Execute(Said::Sent(1)),
    Step::Take(REQUEST, Said::Sent(0)),
    Step::Propose(Said::Sent(1)),
    Step::Execute(Said::Sent(1)),
    Step::Stands(Standing(0, 2, 0)),
    Step::HasDigest(true),
];

#[test]
fn a_repeated_request_is_answered_again(rt: HostRuntime) -> Result<(), Fail> {
    plays(&rt, rt.alloc(), 0, 0, &A_REQUEST_TWICE)
}

static A_CHECKPOINT: [Step; 7] = [
    Step::Batches(16),
    Step::HasNoneStable,
    Step::StableAt(0, None),
    Step::Checkpoint(Said::Sent(1)),
    Step::Checkpoint(Said::Refused(26)),
    // behind 16 clients without a reply a file system
    Step::HasStable(1, 4 + 16 * 4),
    Step::StableAt(16, Some(16)),
];

#[test]
fn a_checkpoint_is_stable_at_once(rt: HostRuntime) -> Result<(), Fail> {
    plays(&rt, rt.alloc(), 0, 0, &A_CHECKPOINT)
}
