ghost use Rattle.std.specs.BTreeMap.{get};
ghost use Rattle.std.specs.List.{list_any};
ghost use Rattle.std.specs.Prelude.{◌≡◌, ◌<◌, ◌≤◌, [], ◌∷◌, ◌++◌, Some, All, IsTrue, true, filter, length, nat_le, not, vec_len, IfOk, OnOk, OnErr};
ghost use Rattle.bfs_model.specs.Server.Limits.{most_requests};
ghost use Rattle.bfs_messages.specs.Messages as model;
ghost use Rattle.bfs_auth.specs.Keys.{Keys as Secrets};
ghost use Rattle.bfs_messages.specs.Signing.{request_is_signed};
ghost use Rattle.bfs_messages.specs.declared.signed.Signed as declared;
ghost use Rattle.bfs_pending.specs.Indexes.{AreHashed, left_of};
ghost use Rattle.bfs_pending.specs.Names.{name_cmp, name_of};
ghost use Rattle.bfs_pending.specs.Passed.{HavePassed, waits};
ghost use Rattle.bfs_pending.specs.Requests.{count_of, is_same, without, without_named};

use crate::checking::is_alike;
use crate::counting::{add_one, counted, discount_gone};
use crate::names::{Name, name_of};
use bfs_auth::Principal;
use bfs_messages::{HashedBatch, OrderedBatch, Request, Signed};
use bfs_types::{MOST_REQUESTS, Memory, Time, TryClone, copies_of};
use std::alloc::Global;
use std::collections::BTreeMap;
use std::marker::Model;
use std::sync::Arc;

/// The requests that wait to be ordered, in the order in which they came. There are at most as many as a batch can have.
///
/// Beside them stands the last one of each client and timestamp, so that one is found by one look-up, and how many are of each client. It shares
/// the call. A batch of all that wait may stand there too, with its digest.
#[derive(Drop)]
pub struct PendingRequests {
    alloc: Global,
    requests: Vec<Signed<Request>>,
    last: BTreeMap<Name, Signed<Request>>,
    counts: BTreeMap<u32, u32>,
    hashed: Option<HashedBatch>,
}

impl Model for PendingRequests {
    ghost use Rattle.std.specs.Prelude.{List};
    ghost use Rattle.bfs_messages.specs.Messages as model;
    ghost use Rattle.bfs_messages.specs.declared.signed.Signed as declared;
    ghost use Rattle.bfs_pending.specs.Indexes.{AreHashed, IsIndexed};

    ghost Value = { List (declared.Signed model.Request) };

    ghost view = { λ pending. pending.requests.items };

    ghost invariant = { λ pending. IsIndexed pending.requests.items pending.last pending.counts × AreHashed pending.requests.items pending.hashed };
}

impl PendingRequests {
    /// None wait. It takes no memory.
    pub fn new(alloc: Global) -> PendingRequests
        ensures { result ≡ [] }
    {
        PendingRequests {
            alloc,
            requests: Vec::new(alloc),
            last: BTreeMap::new(alloc),
            counts: BTreeMap::new(alloc),
            hashed: None,
        }
    }

    /// How many wait.
    pub fn len(&self) -> u32
        ensures value { result ≡ length self.now }
        ensures within { result ≤ most_requests }
    {
        self.requests.len() as u32
    }

    /// Those that wait, in the order in which they came.
    pub fn as_slice(&self) -> &[Signed<Request>]
        ensures { result.now ≡ self.now }
    {
        self.requests.as_slice()
    }

    /// Whether as many wait as a batch can have.
    pub fn is_full(&self) -> bool
        ensures { result ≡ nat_le most_requests (length self.now) }
    {
        MOST_REQUESTS <= self.requests.len()
    }

    /// Those that wait, in the order in which they came.
    pub fn requests(&self) -> &[Signed<Request>]
        ensures value { result.now ≡ self.now }
        ensures within { length result.now ≤ most_requests }
    {
        self.requests.as_slice()
    }

    /// How many of a client wait. It takes one look-up.
    pub fn count_of(&self, client: u32) -> u32
        ensures { result ≡ count_of client self.now }
    {
        counted(&self.counts, client)
    }

    /// Whether it waits, as a receiver sees it: the last one of its client and timestamp asks for the same, and has the same entry for the
    /// receiver. So where those that wait have passed, it has passed too.
    pub fn waits(&self, receiver: Principal, signed: &Signed<Request>) -> bool
        ensures { result ≡ waits receiver self.now signed.now }
    {
        match self.last.get(&name_of(signed)) {
            None => false,
            Some(waiting) => is_alike(receiver, waiting, signed),
        }
    }

    /// One more, behind the others. `Memory` if memory runs out; then none came.
    pub fn push(&mut self, signed: Signed<Request>) -> Result<(), Memory>
        requires { length self.old < most_requests }
        ensures ok { OnOk result (self.new ≡ self.old ++ signed ∷ []) }
        ensures err { OnErr result (self.new ≡ self.old) }
        ensures passed { (keys : Secrets) → HavePassed keys self.old → request_is_signed keys signed ≡ true → HavePassed keys self.new }
    {
        let name = name_of(&signed);
        let copy = signed.try_clone(self.alloc)?;
        self.hashed = None;
        self.requests.push(signed)?;
        match add_one(&mut self.last, &mut self.counts, name, copy) {
            Ok(()) => Ok(()),
            Err(Memory) => {
                self.requests.pop();
                Err(Memory)
            }
        }
    }

    /// A batch of all that wait is kept with its digest, until others wait.
    pub fn keep_hashed(&mut self, batch: HashedBatch)
        requires { AreHashed self.old (Some batch) }
        ensures { self.new ≡ self.old }
    {
        self.hashed = Some(batch);
    }

    /// Those that wait as a batch of that time, with its digest. It shares the calls. `Memory` if memory runs out.
    pub fn batch(&self, alloc: Global, time: Time) -> Result<HashedBatch, Memory>
        ensures { IfOk result (λ batch. batch ≡ Some (record { time = time; requests = self.now })) }
    {
        match &self.hashed {
            Some(hashed) if hashed.batch().time() == Some(time) => hashed.try_clone(alloc),
            _ => {
                let batch = OrderedBatch::new(time, self.to_vec(alloc)?);
                Ok(HashedBatch::new(Arc::new(alloc, batch)?))
            }
        }
    }

    /// Those that wait, in copies, which share the calls. `Memory` if memory runs out.
    pub fn to_vec(&self, alloc: Global) -> Result<Vec<Signed<Request>>, Memory>
        ensures value { IfOk result (λ copies. copies.items ≡ self.now) }
        ensures within { IfOk result (λ copies. vec_len copies ≤ most_requests) }
    {
        let requests = self.requests.as_slice();
        copies_of(alloc, requests)
    }

    /// Those leave of whose client and timestamp one stands in the batch; the others stay in their order. It takes no memory.
    pub fn drop_batch(&mut self, batch: &OrderedBatch)
        ensures now { self.new ≡ without self.old batch.now }
        ensures passed { (keys : Secrets) → HavePassed keys self.old → HavePassed keys self.new }
    {
        let requests = batch.requests();
        if are_named_alike(self.requests.as_slice(), requests) {
            self.clear();
        } else {
            self.drop_named(requests);
        }
    }

    fn clear(&mut self)
        ensures { self.new ≡ [] }
    {
        self.hashed = None;
        self.requests.clear();
        self.last = BTreeMap::new(self.alloc);
        self.counts = BTreeMap::new(self.alloc);
    }

    /// Those leave of whose client and timestamp one is among these; the others stay in their order. It takes no memory.
    pub fn drop_named(&mut self, requests: &[Signed<Request>])
        ensures now { self.new ≡ without_named self.old requests.now }
        ensures passed { (keys : Secrets) → HavePassed keys self.old → HavePassed keys self.new }
    {
        self.hashed = None;
        forget(&mut self.last, requests);
        let last = &self.last;
        discount_gone(&mut self.counts, last, self.requests.as_slice());
        self.requests
            .retain(|signed| last.contains_key(&name_of(signed)));
    }
}

// Whether one after another has the client and timestamp of the other list's. So it is in most batches, which are found out without a look-up.
fn are_named_alike(waiting: &[Signed<Request>], requests: &[Signed<Request>]) -> bool
    ensures { IsTrue result → All (λ one. list_any (is_same one) requests.now ≡ true) waiting.now }
{
    if waiting.len() != requests.len() {
        return false;
    }
    for number in 0..waiting.len() {
        if name_of(&waiting[number]) != name_of(&requests[number]) {
            return false;
        }
    }
    true
}

// None is found any more of whose client and timestamp one is among those.
fn forget(last: &mut BTreeMap<Name, Signed<Request>>, requests: &[Signed<Request>])
    ensures { (one : declared.Signed model.Request) → get name_cmp last.new (name_of one) ≡ left_of requests.now one (get name_cmp last.old (name_of one)) }
{
    for signed in requests {
        last.remove(&name_of(signed));
    }
}
