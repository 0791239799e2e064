// The node of a replica in a turn: its calls, one after another, and what they gave to be sent.
ghost use Rattle.std.specs.Prelude.{◌≡◌, ◌≢◌, ◌&&◌, [], false, true, IfOk, OnOk};
ghost use Rattle.bfs_node.specs.declared.error.NodeError.TheVariants as errors;
ghost use Rattle.bfs_nodes_agree.specs.Nodes.Steps as steps;
ghost use Rattle.bfs_service.specs.Acting.{IsAfter, IsOwn, IsOwnCall, IsTaking, after_step};
ghost use Rattle.bfs_service.specs.Journals.{Acts, Goes, Journals, all_told, has_text, with_no_steps};

use bfs_log::StableCheckpoint;
use bfs_messages::{Message, Request, Signed};
use bfs_node::{Executor, NoGate, Node, NodeError};
use bfs_nodes_agree::node_calls::performing::{NodeCall, Sent, perform};
use bfs_steps::put_step;
use bfs_types::{Memory, Time};
use std::alloc::Global;
use std::marker::Model;
use std::sync::Wait;
use std::thread::Threads;

/// A node, by what it executes, what its calls gave to be sent, and the calls of a turn as bytes, to be kept over a crash.
#[derive(Drop)]
pub(crate) struct Actor {
    alloc: Global,
    node: Node,
    executor: Executor,
    sent: Vec<Signed<Message>>,
    steps: Vec<u8>,
    // each call that was taken has a text in them
    is_spelled: bool,
}

impl Model for Actor {
    ghost use Rattle.bfs_service.specs.Journals as model;
    ghost use Rattle.std.specs.Coded.{codes};
    ghost use Rattle.bfs_serial.specs.Codes.{inodes_code};

    ghost Value = { model.Doing };

    ghost coded = { Prim.hlevel (codes, inodes_code) };

    ghost view = { λ actor. record { acting = record { node = actor.node; sent = actor.sent.items }; body = actor.steps.items; is_spelled = actor.is_spelled } };
}

impl Actor {
    pub(crate) fn new(alloc: Global, node: Node, executor: Executor) -> Actor
        ensures { result ≡ record { acting = record { node = node; sent = [] }; body = []; is_spelled = true } }
    {
        Actor {
            alloc,
            node,
            executor,
            sent: Vec::new(alloc),
            steps: Vec::new(alloc),
            is_spelled: true,
        }
    }

    /// The node as it is now.
    pub(crate) fn node(&self) -> &Node
        ensures { result.now ≡ self.now.acting.node }
    {
        &self.node
    }

    /// The text of its calls that were taken, since it has begun a turn; but an adoption has none.
    pub(crate) fn steps(&self) -> &[u8]
        ensures { result.now ≡ self.now.body }
    {
        self.steps.as_slice()
    }

    /// Whether each of them has a text.
    pub(crate) fn is_spelled(&self) -> bool
        ensures { result ≡ self.now.is_spelled }
    {
        self.is_spelled
    }

    /// Begins a turn: the calls before it are kept.
    pub(crate) fn begin(&mut self)
        ensures { self.new ≡ with_no_steps self.old }
    {
        self.steps.clear();
        self.is_spelled = true;
    }

    /// What its calls gave to be sent; nothing is left of it.
    pub(crate) fn take_sent(&mut self, alloc: Global) -> Vec<Signed<Message>>
        ensures all { result.items ≡ self.old.acting.sent }
        ensures left { self.new ≡ all_told self.old }
    {
        std::mem::replace(&mut self.sent, Vec::new(alloc))
    }

    /// Bytes come.
    pub(crate) fn deliver<R: Threads + Wait + Sync>(
        &mut self,
        rt: &R,
        bytes: &[u8],
    ) -> Result<(), Memory>
        ensures delivered { OnOk result (self.new.acting ≡ after_step self.old.acting (steps.Delivers bytes.now)) }
        ensures journals { OnOk result (Journals self.old self.new) }
    {
        self.act(rt, NodeCall::Deliver(bytes))?;
        Ok(())
    }

    /// REQUESTs come.
    pub(crate) fn take_requests<R: Threads + Wait + Sync>(
        &mut self,
        rt: &R,
        requests: &[Signed<Message>],
    ) -> Result<(), Memory>
        ensures { OnOk result (Goes IsTaking self.old self.new) }
    {
        self.act(rt, NodeCall::TakeRequests(requests))?;
        Ok(())
    }

    /// REQUESTs come, before it proposes them at that time.
    pub(crate) fn take_requests_for<R: Threads + Wait + Sync>(
        &mut self,
        rt: &R,
        time: Time,
        requests: &[Signed<Message>],
    ) -> Result<(), Memory>
        ensures { OnOk result (Goes IsTaking self.old self.new) }
    {
        self.act(rt, NodeCall::TakeRequestsFor(time, requests))?;
        Ok(())
    }

    /// REQUESTs come, one after another, as `offer` takes them.
    #[tactic(auto, using(crate::proofs::Doing::goes_both, crate::proofs::Doing::goes_nowhere))]
    pub(crate) fn offer_all<R: Threads + Wait + Sync>(
        &mut self,
        rt: &R,
        requests: Vec<Signed<Request>>,
    ) -> Result<(), Memory>
        ensures { OnOk result (Goes IsTaking self.old self.new) }
    {
        for request in requests {
            self.offer(rt, request)?;
        }
        Ok(())
    }

    // A REQUEST comes, which waits only if it is new, and is answered again if it is its client's last one.
    fn offer<R: Threads + Wait + Sync>(
        &mut self,
        rt: &R,
        request: Signed<Request>,
    ) -> Result<(), Memory>
        ensures { OnOk result (Goes IsTaking self.old self.new) }
    {
        self.act(rt, NodeCall::Offer(request))?;
        Ok(())
    }

    /// The number of the last message of the order among what its calls gave to be sent, 0 where there is none.
    pub(crate) fn last_number(&self) -> u64 {
        match self.sent.last() {
            Some(signed) => number_of(&signed.message),
            None => 0,
        }
    }

    /// It proposes what waits, if it leads and may. Whether it did.
    pub(crate) fn propose<R: Threads + Wait + Sync>(
        &mut self,
        rt: &R,
        time: Time,
    ) -> Result<bool, Memory>
        ensures { OnOk result (Goes (IsOwn time) self.old self.new) }
    {
        self.act_own(rt, time, NodeCall::Propose(time))
    }

    /// Time has run out for its view. Whether it asks for the next one.
    pub(crate) fn time_out<R: Threads + Wait + Sync>(
        &mut self,
        rt: &R,
        time: Time,
    ) -> Result<bool, Memory>
        ensures { OnOk result (Goes (IsOwn time) self.old self.new) }
    {
        self.act_own(rt, time, NodeCall::TimeOut)
    }

    /// It leaves for a later view, which others ask for. Whether it did.
    pub(crate) fn leave_for<R: Threads + Wait + Sync>(
        &mut self,
        rt: &R,
        time: Time,
        view: u64,
    ) -> Result<bool, Memory>
        ensures { OnOk result (Goes (IsOwn time) self.old self.new) }
    {
        self.act_own(rt, time, NodeCall::LeaveFor(view))
    }

    /// It adopts another's state, if that is a later one and the certificate shows it. Whether it did.
    pub(crate) fn adopt<R: Threads + Wait + Sync>(
        &mut self,
        rt: &R,
        time: Time,
        text: &[u8],
        certificate: &StableCheckpoint,
    ) -> Result<bool, Memory>
        ensures { OnOk result (Goes (IsOwn time) self.old self.new) }
    {
        self.act_own(rt, time, NodeCall::Adopt { text, certificate })
    }

    /// It settles a checkpoint that it has executed, if the certificate shows that it is stable. Whether it did.
    pub(crate) fn settle<R: Threads + Wait + Sync>(
        &mut self,
        rt: &R,
        time: Time,
        certificate: &StableCheckpoint,
    ) -> Result<bool, Memory>
        ensures { OnOk result (Goes (IsOwn time) self.old self.new) }
    {
        self.act_own(rt, time, NodeCall::Settle(certificate))
    }

    /// It forgets requests that were executed.
    pub(crate) fn forget_answered<R: Threads + Wait + Sync>(
        &mut self,
        rt: &R,
        time: Time,
    ) -> Result<bool, Memory>
        ensures { OnOk result (Goes (IsOwn time) self.old self.new) }
    {
        self.act_own(rt, time, NodeCall::ForgetAnswered)
    }

    /// It forgets requests that it has proposed in its view.
    pub(crate) fn forget_proposed<R: Threads + Wait + Sync>(
        &mut self,
        rt: &R,
        time: Time,
    ) -> Result<bool, Memory>
        ensures { OnOk result (Goes (IsOwn time) self.old self.new) }
    {
        self.act_own(rt, time, NodeCall::ForgetProposed)
    }

    /// Executes all that is committed, and makes each checkpoint that is due before the first batch and behind each.
    pub(crate) fn advance<R: Threads + Wait + Sync>(
        &mut self,
        rt: &R,
        time: Time,
    ) -> Result<(), Memory>
        ensures { OnOk result (Goes (IsOwn time) self.old self.new) }
    {
        self.act_own(rt, time, NodeCall::Checkpoint)?;
        for _ in rt.forever() {
            if !self.node.is_ready() {
                return Ok(());
            }
            self.act_own(rt, time, NodeCall::Execute)?;
            self.act_own(rt, time, NodeCall::Checkpoint)?;
        }
        unreachable!()
    }

    /// The same where something is committed, else nothing.
    #[tactic(auto, using(crate::proofs::Doing::goes_nowhere))]
    pub(crate) fn advance_if_ready<R: Threads + Wait + Sync>(
        &mut self,
        rt: &R,
        time: Time,
    ) -> Result<(), Memory>
        ensures { OnOk result (Goes (IsOwn time) self.old self.new) }
    {
        if !self.node.is_ready() {
            return Ok(());
        }
        self.advance(rt, time)
    }

    // Makes a call that a replica makes of itself, and tells whether it was taken.
    #[tactic(auto, using(crate::proofs::Doing::own_goes))]
    fn act_own<R: Threads + Wait + Sync>(
        &mut self,
        rt: &R,
        time: Time,
        call: NodeCall<'_>,
    ) -> Result<bool, Memory>
        requires { IsOwnCall time call }
        ensures { OnOk result (Goes (IsOwn time) self.old self.new) }
    {
        let is_taken = self.act(rt, call)?;
        Ok(is_taken)
    }

    // Makes a call, and tells whether it was taken. The text of one that was taken is put behind the steps. `Memory` if memory runs out: nothing that is left is
    // to be used then.
    fn act<R: Threads + Wait + Sync>(&mut self, rt: &R, call: NodeCall<'_>) -> Result<bool, Memory>
        ensures { OnOk result (Acts call.entry self.old self.new) }
    {
        let before = self.steps.len();
        let is_spelled = stay_spelled(self.is_spelled, &call);
        put_step(&call, self.alloc, &mut self.steps)?;
        let is_taken = make(&mut self.node, rt, self.executor, &mut self.sent, call)?;
        if is_taken {
            self.is_spelled = is_spelled;
        } else {
            self.steps.truncate(before);
        }
        Ok(is_taken)
    }
}

// Makes a call of the node, and tells whether it was taken. What it gives is put behind what was sent.
fn make<R: Threads + Wait + Sync>(
    node: &mut Node,
    rt: &R,
    executor: Executor,
    sent: &mut Vec<Signed<Message>>,
    call: NodeCall<'_>,
) -> Result<bool, Memory>
    ensures made { OnOk result (IsAfter call.entry (record { node = node.old; sent = sent.old.items }) (record { node = node.new; sent = sent.new.items })) }
    ensures refused { IfOk result (λ is_taken. is_taken ≡ false → node.new ≡ node.old) }
{
    match perform(node, rt, executor, &NoGate, call) {
        Ok(Sent::Nothing) => Ok(true),
        Ok(Sent::One(signed)) => {
            sent.push(signed)?;
            Ok(true)
        }
        Ok(Sent::All(mut all)) => {
            sent.append(&mut all)?;
            Ok(true)
        }
        Err(error) => {
            unless_memory(error)?;
            Ok(false)
        }
    }
}

// Whether each call has a text, this one among them.
fn stay_spelled(is_spelled: bool, call: &NodeCall<'_>) -> bool
    ensures { result ≡ is_spelled && has_text call.now }
{
    match call {
        NodeCall::Adopt { .. } => false,
        _ => is_spelled,
    }
}

fn number_of(message: &Message) -> u64 {
    match message {
        Message::Order(message) => message.number(),
        _ => 0,
    }
}

// Want of memory is no refusal: the process ends.
fn unless_memory(error: NodeError) -> Result<(), Memory>
    ensures { OnOk result (error ≢ errors.Memory) }
{
    match error {
        NodeError::Memory => Err(Memory),
        _ => Ok(()),
    }
}
