//! Times and ordinals.
use bfs_testing::{holds, same};
use bfs_types::{FileId, Ordinal, SetTime, Time};

fn time(seconds: u32, useconds: u32) -> Time {
    Time::new(seconds, useconds).unwrap_or(Time::epoch())
}

#[test]
fn moves_times_on(rt: HostRuntime) {
    let (proposed, last) = (time(3, 0), time(5, 0));
    let next = proposed.effective_after(last);
    same!(rt; (next.seconds(), next.useconds()), (5, 1));
    holds!(rt; last.is_after(proposed));
    let end = time(u32::MAX, 999_999);
    same!(rt; proposed.effective_after(end), end);
}

#[test]
fn refuses_a_million_microseconds(rt: HostRuntime) {
    holds!(rt; Time::new(0, 1_000_000).is_none());
}

#[test]
fn sets_times(rt: HostRuntime) {
    let last = time(5, 0);
    for (useconds, given) in [(999_999, time(9, 999_999)), (1_000_000, last)] {
        let set = SetTime {
            seconds: 9,
            useconds,
        };
        same!(rt; set.given(last), given);
    }
}

#[test]
fn counts_ordinals(rt: HostRuntime) {
    same!(rt; Ordinal::first().next().number(), 4);
    same!(rt; Ordinal::first().file_id(), Some(FileId::new(3)));
}

#[test]
fn spends_ordinals(rt: HostRuntime) {
    let spent = Ordinal::first().after(u64::MAX);
    holds!(rt; spent.is_spent());
    same!(rt; Ordinal::new(4_294_967_296), Some(spent));
    same!(rt; spent.file_id(), None);
}
