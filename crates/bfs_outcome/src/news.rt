// The first pass: which requests are new.
ghost use Rattle.std.specs.Prelude.{◌≡◌, ◌<◌, ◌≤◌, ◌++◌, length, IfOk, OnOk};
ghost use Rattle.bfs_model.specs.Server.Limits.{most_requests};
ghost use Rattle.bfs_outcome.specs.Inside.Passes.{call_as, class_by, new_batch, taken_by};

use bfs_messages::{Request, Signed};
use bfs_replies::{Class, ReplyTable, Timestamps};
use bfs_serial::{Batch, PushError};
use bfs_types::{Memory, Time};
use std::alloc::Global;

/// The calls of the requests that are new when their turn comes, as a batch for a file system at that time.
#[tactic(auto, using(crate::proofs::Telling::calls_follow))]
pub(crate) fn new_requests(
    alloc: Global,
    table: &ReplyTable,
    time: Time,
    requests: &[Signed<Request>],
) -> Result<Batch, Memory>
    requires { length requests.now ≤ most_requests }
    ensures { IfOk result (λ batch. batch ≡ new_batch table.now time requests.now) }
{
    let mut timestamps = table.timestamps()?;
    let mut batch = Batch::new(alloc);
    batch.set_time(time);
    for signed in requests {
        push_new(&mut timestamps, &mut batch, &signed.message)?;
    }
    Ok(batch)
}

// puts the call of a new request into the batch
fn push_new(timestamps: &mut Timestamps, batch: &mut Batch, request: &Request) -> Result<(), Memory>
    requires { length batch.old.requests < most_requests }
    ensures timestamps { timestamps.new ≡ taken_by timestamps.old request.now }
    ensures batch { OnOk result (batch.new ≡ record batch.old { requests = batch.old.requests ++ call_as (class_by timestamps.old request.now) request.now }) }
{
    match timestamps.take(request.client(), request.timestamp()) {
        Class::New => match batch.push(request.call()) {
            Ok(()) => Ok(()),
            Err(PushError::Memory) => Err(Memory),
            Err(PushError::RequestTooLong | PushError::BatchFull) => unreachable!(),
        },
        Class::Repeat | Class::Old | Class::Unknown => Ok(()),
    }
}
