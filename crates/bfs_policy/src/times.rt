// Time, in microseconds.
ghost use Rattle.std.specs.Prelude.{◌≡◌};
ghost use Rattle.bfs_policy.specs.Times as model;

/// Since when something is so. A clock that was set back begins anew.
pub(crate) fn since_when(before: Option<u64>, is_so: bool, now: u64) -> Option<u64>
    ensures { result ≡ model.since_when before is_so now }
{
    match before {
        Some(began) if is_so => Some(began.min(now)),
        None if is_so => Some(now),
        _ => None,
    }
}

/// Whether it has been so for that time.
pub(crate) fn has_lasted(since: Option<u64>, time: u64, now: u64) -> bool
    ensures { result ≡ model.has_lasted since time now }
{
    match since {
        Some(began) => began <= now && time <= now - began,
        None => false,
    }
}

/// Whether nothing was done yet, or so long ago, or the clock was set back since.
pub(crate) fn is_past(done: Option<u64>, time: u64, now: u64) -> bool
    ensures { result ≡ model.is_past done time now }
{
    match done {
        Some(done) => now < done || time <= now - done,
        None => true,
    }
}
