//! A request is ordered, and views change, whatever call finds no memory: the replica that found none does it again, and then says what it says
//! where nothing was refused.
use crate::script::{ALL, BACKUPS, Event, PRIMARY, wrong_in_both};
use bfs_testing::same;
use bfs_testing_nodes::calls::Standing;
use std::test::Fail;

static THE_PRIMARY_IS_SILENT: [Event; 13] = [
    Event::Ask(BACKUPS, 7),
    Event::TimeOut(BACKUPS),
    Event::HandOver(BACKUPS),
    Event::NewView(3, 0),
    Event::Stand(&[1], Standing(1, 0, 1)),
    Event::Stand(&[2, 3], Standing(0, 0, 1)),
    Event::HandOver(BACKUPS),
    Event::Stand(BACKUPS, Standing(1, 0, 1)),
    // the new primary proposes what waits
    Event::MayNotPropose(2),
    Event::Propose(1),
    Event::Settle(BACKUPS),
    Event::Stand(BACKUPS, Standing(1, 1, 0)),
    Event::Agree(BACKUPS),
];

#[test]
fn a_view_is_changed(rt: HostRuntime) -> Result<(), Fail> {
    same!(rt; wrong_in_both(&rt, rt.alloc(), &THE_PRIMARY_IS_SILENT)?, (None, true));
    Ok(())
}

static PREPARED: [Event; 11] = [
    Event::Ask(ALL, 7),
    Event::Propose(0),
    // PRE-PREPARE and PREPAREs come, and no COMMIT
    Event::HandOver(ALL),
    Event::HandOver(ALL),
    Event::Lose,
    Event::TimeOut(BACKUPS),
    Event::HandOver(BACKUPS),
    Event::NewView(3, 1),
    Event::Settle(BACKUPS),
    Event::Stand(BACKUPS, Standing(1, 1, 0)),
    Event::Agree(BACKUPS),
];

#[test]
fn what_was_prepared_is_executed(rt: HostRuntime) -> Result<(), Fail> {
    same!(rt; wrong_in_both(&rt, rt.alloc(), &PREPARED)?, (None, true));
    Ok(())
}

// so many bytes that threads check whose they are at the backups, which learn of the requests by the PRE-PREPARE
static MUCH: [Event; 12] = [
    Event::AskMuch(PRIMARY, 1),
    Event::AskMuch(PRIMARY, 2),
    Event::AskMuch(PRIMARY, 3),
    Event::AskMuch(PRIMARY, 4),
    Event::AskMuch(PRIMARY, 5),
    Event::AskMuch(PRIMARY, 6),
    Event::AskMuch(PRIMARY, 7),
    Event::AskMuch(PRIMARY, 8),
    Event::Propose(0),
    Event::Settle(ALL),
    Event::Stand(ALL, Standing(0, 1, 0)),
    Event::Agree(ALL),
];

#[test]
fn much_is_ordered(rt: HostRuntime) -> Result<(), Fail> {
    same!(rt; wrong_in_both(&rt, rt.alloc(), &MUCH)?, (None, true));
    Ok(())
}
