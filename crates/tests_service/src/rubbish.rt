//! What is no message, and what operators are told.
use crate::script::Step::{Answered, AskReport, Note, Play, Rubbish, Stands, Told};
use crate::script::{Step, plays};
use crate::world::{ALL, TERMS};
use std::test::Fail;

static RUBBISH: [Step; 7] = [
    Rubbish(&[0; 64]),
    Rubbish(&[255; 64]),
    Rubbish(b"\0\0\0\x01\0\0\0\0\0\0\0\0\0\0\0\0\0\0\0\0\0\0\0\0\0\0\0\0\0\0\0\0\0\0\0\0\0\0\0\0"),
    Play(0, ALL, 3),
    Told(0, 0),
    Stands(0, (0, 0, 0)),
    Answered(ALL, 1, 2, 1),
];

#[test]
fn rubbish_changes_nothing(rt: HostRuntime) -> Result<(), Fail> {
    plays(&rt, rt.alloc(), TERMS, &RUBBISH)
}

static REPORTED: [Step; 5] = [
    Answered(ALL, 1, 3, 2),
    AskReport,
    Play(0, ALL, 1),
    Told(0, 4),
    Note(b"view=0 asked=0 executed=2 stable=0 waiting=0 digest=", 116),
];

#[test]
fn operators_are_told(rt: HostRuntime) -> Result<(), Fail> {
    plays(&rt, rt.alloc(), TERMS, &REPORTED)
}
