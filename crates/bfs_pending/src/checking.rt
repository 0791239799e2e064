// Which requests are signed, where those that wait are.
ghost use Rattle.std.specs.Prelude.{◌≡◌, true};
ghost use Rattle.std.specs.List.{list_all};
ghost use Rattle.std.specs.Option.{option_map};
ghost use Rattle.bfs_messages.specs.Signing.{request_is_signed, requests_are_signed};
ghost use Rattle.bfs_pending.specs.Passed.{HavePassed, are_equal, is_alike, is_read_alike, waits};

use crate::waiting::PendingRequests;
use bfs_auth::{Authenticator, Checker, Keys, Principal, least_checked};
use bfs_messages::{OrderedBatch, Request, Signed, is_request_signed_by};
use rayon::prelude::*;
use std::thread::Threads;

/// Whether two requests ask for the same, with authenticators that are the same to a receiver.
pub(crate) fn is_alike(receiver: Principal, one: &Signed<Request>, other: &Signed<Request>) -> bool
    ensures { result ≡ is_alike receiver one.now other.now }
{
    (one.message.client() == other.message.client()
        && one.message.timestamp() == other.message.timestamp())
        && (one.message.call() == other.message.call()
            && is_read_alike(receiver, &one.auth, &other.auth))
}

fn is_read_alike(receiver: Principal, one: &Authenticator, other: &Authenticator) -> bool
    ensures { result ≡ is_read_alike receiver one.now other.now }
{
    match (one, other) {
        (Authenticator::Hashes(one), Authenticator::Hashes(other)) => {
            are_equal(one.entry_for(receiver), other.entry_for(receiver))
        }
        (Authenticator::Signature(one), Authenticator::Signature(other)) => {
            one.as_slice() == other.as_slice()
        }
        _ => false,
    }
}

fn are_equal(one: Option<&[u8; 32]>, other: Option<&[u8; 32]>) -> bool
    ensures { result ≡ are_equal (option_map (λ entry. entry.now) one.entry) (option_map (λ entry. entry.now) other.entry) }
{
    match (one, other) {
        (Some(one), Some(other)) => one.as_slice() == other.as_slice(),
        _ => false,
    }
}

impl PendingRequests {
    /// Whether the REQUESTs of a batch are their clients', as the holder of the keys sees it, where those that wait are. One that waits is not
    /// hashed again. The others are checked by as many threads as there are processors, unless there is too little to hash for them.
    pub fn are_signed(&self, rt: &(impl Threads + Sync), keys: &Keys, batch: &OrderedBatch) -> bool
        requires { HavePassed keys.now self.now }
        ensures { result ≡ requests_are_signed keys.now batch.now }
    {
        let requests = batch.requests();
        self.all_wait(keys.me(), requests) || are_all_signed(rt, keys, self, requests)
    }

    // No thread is started where there is nothing to hash.
    fn all_wait(&self, receiver: Principal, requests: &[Signed<Request>]) -> bool
        ensures { result ≡ list_all (waits receiver self.now) requests.now }
    {
        requests.iter().all(|signed| self.waits(receiver, signed))
    }
}

fn are_all_signed(
    rt: &(impl Threads + Sync),
    keys: &Keys,
    waiting: &PendingRequests,
    requests: &[Signed<Request>],
) -> bool
    requires { HavePassed keys.now waiting.now }
    ensures { result ≡ list_all (request_is_signed keys.now) requests.now }
{
    requests
        .par_iter()
        .with_min_len(least_checked(requests, bytes_to_hash))
        .map_init(
            Checker::new,
            |checker: &mut Checker, signed: &Signed<Request>| -> bool
                requires { HavePassed keys.now waiting.now }
                ensures { result ≡ request_is_signed keys.entry.now signed.now }
            { is_signed(checker, keys, waiting, signed) },
        )
        .all(
            rt,
            |answer: bool| -> bool
                ensures { result ≡ answer }
            { answer },
        )
}

fn bytes_to_hash(signed: &Signed<Request>) -> usize {
    signed.message.call().len() + signed.auth.bytes_to_hash()
}

fn is_signed(
    checker: &mut Checker,
    keys: &Keys,
    waiting: &PendingRequests,
    signed: &Signed<Request>,
) -> bool
    requires { HavePassed keys.now waiting.now }
    ensures { result ≡ request_is_signed keys.now signed.now }
{
    waiting.waits(keys.me(), signed) || is_request_signed_by(checker, keys, signed)
}
