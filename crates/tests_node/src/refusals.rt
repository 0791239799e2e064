//! What a replica refuses.
use crate::parts::Asked;
use crate::script::{Step, plays};
use bfs_testing_nodes::calls::{Said, Standing};
use std::test::Fail;

static NO_MESSAGE: [Step; 2] = [
    Step::Deliver(&[0, 0, 0, 1], Said::Refused(23)),
    Step::TakeReply(Said::Refused(36)),
];

#[test]
fn what_is_no_message_is_refused(rt: HostRuntime) -> Result<(), Fail> {
    plays(&rt, rt.alloc(), 0, 0, &NO_MESSAGE)
}

const BY_ANOTHER: Asked = Asked {
    signer: 4,
    client: 3,
    timestamp: 1,
};

const FOR_NO_CLIENT: Asked = Asked {
    signer: 3,
    client: 99,
    timestamp: 1,
};

static NOT_THE_CLIENTS: [Step; 3] = [
    Step::Take(BY_ANOTHER, Said::Refused(24)),
    Step::Take(FOR_NO_CLIENT, Said::Refused(24)),
    Step::Stands(Standing(0, 0, 0)),
];

#[test]
fn a_request_is_its_clients(rt: HostRuntime) -> Result<(), Fail> {
    plays(&rt, rt.alloc(), 0, 0, &NOT_THE_CLIENTS)
}

const ONE_TOO_MANY: Asked = Asked {
    signer: 3,
    client: 3,
    timestamp: 1_024,
};

static FULL: [Step; 3] = [
    Step::Fill(1_024),
    Step::Take(ONE_TOO_MANY, Said::Refused(13)),
    Step::Stands(Standing(0, 0, 1_024)),
];

#[test]
fn as_many_wait_as_a_batch_can_have(rt: HostRuntime) -> Result<(), Fail> {
    plays(&rt, rt.alloc(), 0, 0, &FULL)
}

static A_BACKUP: [Step; 1] = [Step::Propose(Said::Refused(28))];

#[test]
fn a_backup_proposes_nothing(rt: HostRuntime) -> Result<(), Fail> {
    plays(&rt, rt.alloc(), 1, 1, &A_BACKUP)
}
