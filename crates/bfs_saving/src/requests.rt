// Requests that wait to be ordered.
ghost use Rattle.std.specs.Prelude.{◌≡◌, ◌++◌, ◌≤◌, length, IfOk, IsTrue, OnOk};
ghost use Rattle.std.specs.List.{list_all};
ghost use Rattle.bfs_model.specs.Server.Limits.{most_requests};
ghost use Rattle.bfs_messages.specs.Signing.{request_is_signed};
ghost use Rattle.bfs_pending.specs.Passed.{HavePassed};
ghost use Rattle.bfs_codec.specs.Codes.{Reads};
ghost use Rattle.bfs_saving.specs.Parts.{FitRequests, may_wait, requests_from, requests_text};

use crate::items::put_many;
use crate::reader::SavedReader;
use bfs_auth::Keys;
use bfs_codec::DecodeError;
use bfs_messages::{Request, Signed, is_request_signed};
use bfs_pending::PendingRequests;
use bfs_types::{MOST_REQUESTS, Memory};
use std::alloc::Global;

/// Appends the text of requests that wait, and have passed. `Memory` if memory runs out.
#[tactic(auto, using(crate::proofs::Whole::may_wait_again))]
pub fn put_requests(
    pending: &PendingRequests,
    keys: &Keys,
    alloc: Global,
    out: &mut Vec<u8>,
) -> Result<(), Memory>
    requires { HavePassed keys.now pending.now }
    ensures text { OnOk result (out.new.items ≡ out.old.items ++ requests_text pending.now) }
    ensures fits { OnOk result (FitRequests keys.now pending.now) }
{
    put_many(pending.requests(), alloc, out)
}

/// Reads requests that wait: each has passed.
pub(crate) fn read_requests(
    reader: &mut SavedReader<'_>,
    keys: &Keys,
) -> Result<PendingRequests, DecodeError>
    ensures { Reads (λ pending. pending) result (requests_from keys.now reader.old) reader.new }
{
    let requests = reader.many()?;
    if !may_wait(keys, &requests) {
        return Err(DecodeError::Malformed);
    }
    Ok(pending_of(reader.alloc(), requests)?)
}

fn may_wait(keys: &Keys, requests: &[Signed<Request>]) -> bool
    ensures value { result ≡ may_wait keys.now requests.now }
    ensures few { IsTrue result → length requests.now ≤ most_requests }
{
    requests.len() <= MOST_REQUESTS && are_signed(keys, requests)
}

fn are_signed(keys: &Keys, requests: &[Signed<Request>]) -> bool
    ensures { result ≡ list_all (request_is_signed keys.now) requests.now }
{
    requests
        .iter()
        .all(|signed| is_request_signed(keys, signed))
}

fn pending_of(alloc: Global, requests: Vec<Signed<Request>>) -> Result<PendingRequests, Memory>
    requires { length requests.items ≤ most_requests }
    ensures { IfOk result (λ pending. pending ≡ requests.items) }
{
    let mut pending = PendingRequests::new(alloc);
    for signed in requests {
        pending.push(signed)?;
    }
    Ok(pending)
}
