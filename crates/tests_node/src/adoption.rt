//! A replica that is behind adopts the stable snapshot of another one.
use crate::behind::{Step, plays};
use crate::parts::Told;
use crate::texts::{ANOTHER_LINK, ANOTHER_OWNER, EARLIER_VERSION, LATER_VERSION, Text};
use bfs_testing_nodes::calls::{Said, Standing};
use std::test::Fail;

const OF_THREE: &[Told] = &[Told(0, 0), Told(1, 1), Told(2, 2)];

static A_CERTIFICATE: [Step; 4] = [
    Step::Adopt(Text::Right, OF_THREE, Said::Nothing),
    Step::Stands(Standing(0, 16, 0)),
    Step::HasAdopted,
    // it is not ahead any more
    Step::Adopt(Text::Right, OF_THREE, Said::Refused(34)),
];

static OTHERS_GO_ON: [Step; 14] = [
    Step::IsBehind(false),
    Step::Tell(Told(0, 0), Said::Sent(0)),
    // it may lie
    Step::IsBehind(false),
    Step::Tell(Told(0, 0), Said::Refused(29)),
    Step::Tell(Told(0, 1), Said::Refused(24)),
    Step::IsBehind(false),
    Step::Tell(Told(1, 1), Said::Sent(0)),
    Step::IsBehind(true),
    Step::StableAt(0, None),
    // a number is stable of which it has no snapshot
    Step::Tell(Told(2, 2), Said::Sent(0)),
    Step::StableAt(16, None),
    Step::Adopt(Text::Right, OF_THREE, Said::Nothing),
    Step::StableAt(16, Some(16)),
    Step::IsBehind(false),
];

#[test]
fn one_is_behind_once_two_others_have_gone_on(rt: HostRuntime) -> Result<(), Fail> {
    plays(&rt, rt.alloc(), &OTHERS_GO_ON)
}

#[test]
fn a_new_replica_catches_up(rt: HostRuntime) -> Result<(), Fail> {
    plays(&rt, rt.alloc(), &A_CERTIFICATE)
}

const OF_TWO: &[Told] = &[Told(0, 0), Told(1, 1)];

const FORGED: &[Told] = &[Told(0, 0), Told(1, 1), Told(1, 2)];

const TWICE: &[Told] = &[Told(0, 0), Told(1, 1), Told(1, 1)];

static NO_CERTIFICATE: [Step; 4] = [
    Step::Adopt(Text::Right, OF_TWO, Said::Refused(34)),
    Step::Adopt(Text::Right, FORGED, Said::Refused(34)),
    Step::Adopt(Text::Right, TWICE, Said::Refused(34)),
    Step::Stands(Standing(0, 0, 0)),
];

#[test]
fn a_checkpoint_without_a_certificate_is_not_adopted(rt: HostRuntime) -> Result<(), Fail> {
    plays(&rt, rt.alloc(), &NO_CERTIFICATE)
}

static ANOTHER_TEXT: [Step; 8] = [
    Step::Adopt(Text::Word, OF_TWO, Said::Refused(34)),
    Step::Adopt(Text::Word, OF_THREE, Said::Refused(20)),
    Step::Adopt(EARLIER_VERSION, OF_THREE, Said::Refused(22)),
    Step::Adopt(LATER_VERSION, OF_THREE, Said::Refused(22)),
    Step::Adopt(ANOTHER_LINK, OF_THREE, Said::Refused(21)),
    Step::Adopt(ANOTHER_OWNER, OF_THREE, Said::Refused(35)),
    Step::Stands(Standing(0, 0, 0)),
    Step::IsAsBefore,
];

#[test]
fn another_text_is_not_adopted(rt: HostRuntime) -> Result<(), Fail> {
    plays(&rt, rt.alloc(), &ANOTHER_TEXT)
}
