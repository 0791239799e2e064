//! A policy's answers, as tables.
use bfs_policy::{Decision, Facts, Leaving, Policy, Standing};
use bfs_testing::same;
use std::test::Fail;

const HERE: Standing = Standing {
    view: 0,
    asked: 0,
    last: 5,
    stable: 0,
};

const BEHIND: Standing = Standing {
    view: 0,
    asked: 0,
    last: 3,
    stable: 0,
};

fn facts(now: u64, waits: bool) -> Facts {
    Facts {
        now,
        own: HERE,
        waits,
        may_propose: false,
        follow: None,
        is_behind: false,
        has_piece: false,
    }
}

const TELLS: Decision = Decision {
    tells: true,
    proposes: false,
    leaving: Leaving::Stays,
    fetches_from: None,
};

const NOTHING: Decision = Decision {
    tells: false,
    ..TELLS
};

// what is due at these times, where something waits from 1,000 on
fn decisions() -> [Decision; 4] {
    let mut policy = Policy::new(1, 0, 2_000_000);
    [
        policy.look(facts(0, false)),
        policy.look(facts(1_000, true)),
        policy.look(facts(900_000, true)),
        policy.look(facts(2_001_000, true)),
    ]
}

#[test]
fn it_times_out_behind_the_patience(rt: HostRuntime) -> Result<(), Fail> {
    let late = Decision {
        leaving: Leaving::TimesOut,
        ..TELLS
    };
    same!(rt; decisions(), [TELLS, NOTHING, NOTHING, late]);
    Ok(())
}

// the last number of whom it is given again, at these times
fn given(from: u32) -> [Option<u64>; 3] {
    let mut policy = Policy::new(1, 0, 2_000_000);
    policy.hear(from, BEHIND);
    policy.look(facts(0, false));
    let first = last_of(&policy);
    policy.look(facts(300_000, false));
    let second = last_of(&policy);
    policy.look(facts(400_000, false));
    [first, second, last_of(&policy)]
}

fn last_of(policy: &Policy) -> Option<u64> {
    match policy.to_resend(2) {
        Some(standing) => Some(standing.last),
        None => None,
    }
}

#[test]
fn it_gives_again_behind_a_pause(rt: HostRuntime) -> Result<(), Fail> {
    same!(rt; given(2), [None, Some(3), None]);
    Ok(())
}

#[test]
fn nobody_tells_in_its_own_name(rt: HostRuntime) -> Result<(), Fail> {
    same!(rt; given(0), [None, None, None]);
    Ok(())
}
