// Many requests come, and the primary proposes those that wait.
ghost use Rattle.std.specs.Prelude.{◌≡◌, ◌≢◌, ◌∷◌, [], None, Some, map, IfOk, IfErr, IfSome, OnOk, OnErr};
ghost use Rattle.std.specs.Arc.{arc_value};
ghost use Rattle.std.specs.List.{list_all};
ghost use Rattle.sha2.specs.Sha256.{sha256};
ghost use Rattle.bfs_messages.specs.Batches.{batch_text};
ghost use Rattle.bfs_messages.specs.Signing.{is_signed};
ghost use Rattle.bfs_node.specs.Delivering.{SomeCame, after_request, after_requests};
ghost use Rattle.bfs_node.specs.Inside.Taking.{HasAll};
ghost use Rattle.bfs_node.specs.Proposing.{proposal_refusal, proposed};
ghost use Rattle.bfs_node.specs.declared.error.NodeError.TheVariants as error;

use crate::error::NodeError;
use crate::node::Node;
use bfs_auth::{Authenticator, Checker, Keys, least_checked, least_items};
use bfs_messages::{HashedBatch, Message, OrderedBatch, Request, Signed, is_signed_by};
use bfs_types::{MOST_REQUESTS, Memory, Time, TryClone};
use rayon::join_mut;
use rayon::prelude::*;
use std::alloc::{AllocError, Global};
use std::sync::Arc;
use std::thread::Threads;

impl Node {
    /// Takes the REQUESTs among messages, one after another, each as `take` does; one that is refused is lost. Any other message is passed
    /// over. Their authenticators are checked by as many threads as there are processors, unless there is too little to hash for them.
    /// `Memory` if memory runs out; then the first ones of them came, and the others didn't.
    pub fn take_requests<R: Threads + Sync>(
        &mut self,
        rt: &R,
        messages: &[Signed<Message>],
    ) -> Result<(), Memory>
        ensures ok { OnOk result (self.new ≡ after_requests self.old messages.now) }
        ensures err { OnErr result (SomeCame self.old messages.now self.new) }
    {
        self.take_each(rt, messages)?;
        Ok(())
    }

    /// Does what `take_requests` does, before it proposes at that time. If it may propose, it hashes the batch that it is going to propose if
    /// all of them pass, while a thread of its own takes them, so that `propose` need not hash it.
    pub fn take_requests_for<R: Threads + Sync>(
        &mut self,
        rt: &R,
        time: Time,
        messages: &[Signed<Message>],
    ) -> Result<(), Memory>
        ensures ok { OnOk result (self.new ≡ after_requests self.old messages.now) }
        ensures err { OnErr result (SomeCame self.old messages.now self.new) }
    {
        match self.batch_of_all(time, messages)? {
            None => self.take_requests(rt, messages),
            Some(batch) => self.take_and_hash(rt, batch, messages),
        }
    }

    /// Proposes the requests that wait, in the order in which they came, as one batch of that time for the next number of the view,
    /// and gives the PRE-PREPARE. Where none waits, a batch without requests is proposed. They wait until a batch with them is executed.
    /// It is refused, in this order: `NotPrimary`, also while a view change is under way; `OutsideMarks`; `Memory`. Nothing changes then.
    pub fn propose(&mut self, time: Time) -> Result<Signed<Message>, NodeError>
        ensures taken { OnOk result (proposal_refusal self.old ≡ None) }
        ensures now { OnOk result (self.new ≡ (proposed self.old time).now) }
        ensures sent { IfOk result (λ own. (proposed self.old time).sent ≡ own ∷ []) }
        ensures refused { IfErr result (λ e. e ≢ error.Memory → proposal_refusal self.old ≡ Some e) }
        ensures memory { IfErr result (λ e. e ≡ error.Memory → proposal_refusal self.old ≡ None) }
        ensures err { OnErr result (self.new ≡ self.old) }
    {
        if let Some(error) = self.order.proposal_refusal() {
            return Err(NodeError::from(error));
        }
        let batch = self.pending.batch(self.alloc, time)?;
        let own = self.order.propose(&self.keys, batch)?;
        Ok(own.into_message())
    }

    // The batch is hashed in this thread, which takes longest and begins at once.
    fn take_and_hash<R: Threads + Sync>(
        &mut self,
        rt: &R,
        batch: Arc<OrderedBatch>,
        messages: &[Signed<Message>],
    ) -> Result<(), Memory>
        requires { HasAll self.old messages.now (arc_value batch) }
        ensures ok { OnOk result (self.new ≡ after_requests self.old messages.now) }
        ensures err { OnErr result (SomeCame self.old messages.now self.new) }
    {
        let (all_passed, digest) = join_mut(
            rt,
            &mut || -> Result<bool, Memory>
                ensures ok { OnOk result (self.exit.now ≡ after_requests self.entry.now messages.entry.now) }
                ensures all { IfOk result (λ all. all ≡ list_all (is_signed self.entry.now.keys) messages.entry.now) }
                ensures err { OnErr result (SomeCame self.entry.now messages.entry.now self.exit.now) }
            { self.take_each(rt, messages) },
            &mut || -> [u8; 32]
                ensures { result ≡ sha256 (batch_text (arc_value batch)) }
            { batch.digest() },
        );
        if all_passed? {
            self.pending
                .keep_hashed(HashedBatch::with_digest(batch, digest));
        }
        Ok(())
    }

    // All requests that wait once these have come, if each passes. None where it may not propose, where they are too many for a batch, and where
    // they are too few for a thread.
    fn batch_of_all(
        &self,
        time: Time,
        messages: &[Signed<Message>],
    ) -> Result<Option<Arc<OrderedBatch>>, Memory>
        ensures { IfOk result (λ found. IfSome found (λ batch. HasAll self.now messages.now (arc_value batch))) }
    {
        if self.order.proposal_refusal().is_some()
            || messages.len() < least_items(messages, bytes_to_hash)
            || messages.len() > MOST_REQUESTS - self.pending.len() as usize
        {
            return Ok(None);
        }
        let mut requests = self.pending.to_vec(self.alloc)?;
        for signed in messages {
            if let Message::Request(request) = &signed.message {
                requests.push(copy_of(self.alloc, request, &signed.auth)?)?;
            }
        }
        let batch = OrderedBatch::new(time, requests);
        Ok(Some(Arc::new(self.alloc, batch)?))
    }

    // whether each passed
    fn take_each<R: Threads + Sync>(
        &mut self,
        rt: &R,
        messages: &[Signed<Message>],
    ) -> Result<bool, Memory>
        ensures ok { OnOk result (self.new ≡ after_requests self.old messages.now) }
        ensures all { IfOk result (λ all. all ≡ list_all (is_signed self.old.keys) messages.now) }
        ensures err { OnErr result (SomeCame self.old messages.now self.new) }
    {
        let passes = are_signed(rt, self.alloc, &self.keys, messages)?;
        for number in 0..messages.len() {
            self.take_checked(passes[number], &messages[number])?;
        }
        Ok(are_all_true(&passes))
    }

    fn take_checked(&mut self, passes: bool, signed: &Signed<Message>) -> Result<(), Memory>
        requires { passes ≡ is_signed self.old.keys signed.now }
        ensures ok { OnOk result (self.new ≡ after_request self.old signed.now signed.now.message) }
        ensures keys { self.new.keys ≡ self.old.keys }
        ensures err { OnErr result (self.new ≡ self.old) }
    {
        if !passes || self.pending.is_full() {
            return Ok(());
        }
        if let Message::Request(request) = &signed.message {
            let copy = copy_of(self.alloc, request, &signed.auth)?;
            self.pending.push(copy)?;
        }
        Ok(())
    }
}

fn copy_of(
    alloc: Global,
    request: &Request,
    auth: &Authenticator,
) -> Result<Signed<Request>, Memory>
    ensures { IfOk result (λ copy. copy ≡ record { message = request.now; auth = auth.now }) }
{
    Ok(Signed {
        message: request.try_clone(alloc)?,
        auth: auth.try_clone(alloc)?,
    })
}

fn are_all_true(answers: &[bool]) -> bool
    ensures { result ≡ list_all (λ answer. answer) answers.now }
{
    answers.iter().all(|answer| *answer)
}

// whether each is its sender's
fn are_signed<R: Threads + Sync>(
    rt: &R,
    alloc: Global,
    keys: &Keys,
    messages: &[Signed<Message>],
) -> Result<Vec<bool>, AllocError>
    ensures { IfOk result (λ answers. answers.items ≡ map (is_signed keys.now) messages.now) }
{
    messages
        .par_iter()
        .with_min_len(least_checked(messages, bytes_to_hash))
        .map_init(
            Checker::new,
            |checker: &mut Checker, signed: &Signed<Message>| -> bool
                ensures { result ≡ is_signed keys.entry.now signed.now }
            { is_signed_by(checker, keys, signed) },
        )
        .collect(rt, alloc)
}

fn bytes_to_hash(signed: &Signed<Message>) -> usize {
    let call = match &signed.message {
        Message::Request(request) => request.call().len(),
        _ => 0,
    };
    call + signed.auth.bytes_to_hash()
}
