ghost use Rattle.std.specs.Prelude.{◌≡◌, ◌≤◌, [], None, Some, vec_len, length, OnOk};
ghost use Rattle.std.specs.Arc.{arc_value};
ghost use Rattle.std.specs.Option.{option_map};
ghost use Rattle.sha2.specs.Sha256.{sha256};
ghost use Rattle.bfs_model.specs.Server.Limits.{most_requests};
ghost use Rattle.bfs_messages.specs.Batches.{batch_text, requests_text};
ghost use Rattle.bfs_xdr.specs.Sinks.{Takes};
ghost use Rattle.bfs_messages.specs.Limits.{FitsBatch, FitsRequests};
ghost use Rattle.bfs_messages.specs.Messages.{requests_of};

use crate::parts::put_list;
use crate::requests::Request;
use crate::signed::Signed;
use bfs_types::{Memory, Time, TryClone};
use bfs_xdr::Sink;
use sha2::{Digest, Sha256};
use std::alloc::Global;
use std::marker::Model;
use std::sync::Arc;

#[derive(Drop)]
struct Requests {
    time: Time,
    requests: Vec<Signed<Request>>,
}

impl Model for Requests {
    ghost use Rattle.std.specs.Prelude.{◌≤◌, length};
    ghost use Rattle.bfs_model.specs.Server.Limits.{most_requests};
    ghost use Rattle.bfs_messages.specs.Messages as model;

    ghost Value = { model.Requests };

    ghost view = { λ batch. record { time = batch.time; requests = batch.requests.items } };

    ghost invariant = { λ batch. length batch.requests.items ≤ most_requests };
}

/// What gets one number in the order: requests that are executed one after another at a time, or nothing, the null request (OSDI 1999
/// section 4.4).
#[derive(Drop)]
pub struct OrderedBatch {
    requests: Option<Requests>,
}

impl Model for OrderedBatch {
    ghost use Rattle.bfs_messages.specs.Messages as model;

    ghost Value = { model.Batch };

    ghost view = { λ batch. batch.requests };
}

impl OrderedBatch {
    /// The null request.
    pub fn null() -> OrderedBatch
        ensures { result ≡ None }
    {
        OrderedBatch { requests: None }
    }

    /// Requests, at most `MOST_REQUESTS`, at a time that was proposed for them.
    pub fn new(time: Time, requests: Vec<Signed<Request>>) -> OrderedBatch
        requires { vec_len requests ≤ most_requests }
        ensures { result ≡ Some (record { time = time; requests = requests.items }) }
    {
        OrderedBatch {
            requests: Some(Requests { time, requests }),
        }
    }

    /// The time that was proposed; none for the null request.
    pub fn time(&self) -> Option<Time>
        ensures { result ≡ option_map (λ batch. batch.time) self.now }
    {
        match &self.requests {
            None => None,
            Some(batch) => Some(batch.time),
        }
    }

    /// The requests, in order; none for the null request.
    pub fn requests(&self) -> &[Signed<Request>]
        ensures value { result.now ≡ requests_of self.now }
        ensures within { length result.now ≤ most_requests }
    {
        match &self.requests {
            None => &[],
            Some(batch) => batch.requests.as_slice(),
        }
    }

    /// The digest of its text.
    pub fn digest(&self) -> [u8; 32]
        ensures { result ≡ sha256 (batch_text self.now) }
    {
        let mut hasher = Sha256::new();
        match put_batch(self, &mut hasher) {
            Ok(()) => hasher.finalize(),
            Err(never) => match never {},
        }
    }
}

/// A batch beside its digest, so that it is hashed once. It may share the batch with others.
#[derive(Drop)]
pub struct HashedBatch {
    batch: Arc<OrderedBatch>,
    digest: [u8; 32],
}

impl Model for HashedBatch {
    ghost use Rattle.std.specs.Prelude.{◌≡◌};
    ghost use Rattle.std.specs.Arc.{arc_value};
    ghost use Rattle.sha2.specs.Sha256.{sha256};
    ghost use Rattle.bfs_messages.specs.Batches.{batch_text};
    ghost use Rattle.bfs_messages.specs.Messages as model;

    ghost Value = { model.Batch };

    ghost view = { λ hashed. arc_value hashed.batch };

    ghost invariant = { λ hashed. hashed.digest ≡ sha256 (batch_text (arc_value hashed.batch)) };
}

impl HashedBatch {
    /// Of a batch, which is hashed.
    pub fn new(batch: Arc<OrderedBatch>) -> HashedBatch
        ensures { result ≡ arc_value batch }
    {
        let digest = batch.digest();
        HashedBatch { batch, digest }
    }

    /// Of a batch whose digest is known.
    pub fn with_digest(batch: Arc<OrderedBatch>, digest: [u8; 32]) -> HashedBatch
        requires { digest ≡ sha256 (batch_text (arc_value batch)) }
        ensures { result ≡ arc_value batch }
    {
        HashedBatch { batch, digest }
    }

    /// The batch.
    pub fn batch(&self) -> &Arc<OrderedBatch>
        ensures { arc_value result.now ≡ self.now }
    {
        &self.batch
    }

    /// The batch and its digest.
    pub fn into_parts(self) -> (Arc<OrderedBatch>, [u8; 32])
        ensures batch { arc_value result.0 ≡ self }
        ensures digest { result.1 ≡ sha256 (batch_text self) }
    {
        let HashedBatch { batch, digest } = self;
        (batch, digest)
    }
}

impl TryClone for HashedBatch {
    fn try_clone(&self, _alloc: Global) -> Result<HashedBatch, Memory> {
        Ok(HashedBatch {
            batch: Arc::try_clone(&self.batch)?,
            digest: self.digest,
        })
    }
}

#[tactic(auto, unfolding(crate::specs::Batches::batch_text))]
pub(crate) fn put_batch<S: Sink>(batch: &OrderedBatch, out: &mut S) -> Result<(), S::Error>
    ensures text { OnOk result (Takes S.holds out.old out.new (batch_text batch.now)) }
    ensures fits { OnOk result (FitsBatch batch.now) }
{
    match &batch.requests {
        None => out.u32(0),
        Some(requests) => {
            out.u32(1)?;
            put_requests(requests, out)
        }
    }
}

fn put_requests<S: Sink>(batch: &Requests, out: &mut S) -> Result<(), S::Error>
    ensures text { OnOk result (Takes S.holds out.old out.new (requests_text batch.now)) }
    ensures fits { OnOk result (FitsRequests batch.now) }
{
    let time = batch.time;
    time.is_in_range();
    out.u32(time.seconds())?;
    out.u32(time.useconds())?;
    put_list(&batch.requests, out)
}
