ghost use Rattle.std.specs.Prelude.{◌≡◌, ◌≢◌, ◌<◌, ◌≤◌, ◌+◌, ◌*◌, length, None, Some, IfOk, IfErr, OnOk, OnErr};
ghost use Rattle.std.specs.List.{filter_map, range_with_len};
ghost use Rattle.bfs_votes.specs.Votes.{SlotsDiffer};
ghost use Rattle.bfs_log.specs.Logs.{as_messages, headers};
ghost use Rattle.bfs_log.specs.Showing.{certificate_for, checkpoints_of};
ghost use Rattle.bfs_pending.specs.Passed.{HavePassed};
ghost use Rattle.bfs_order.specs.Replica.Accepting.{accepted};
ghost use Rattle.bfs_order.specs.Replica.Refusals.{refusal};
ghost use Rattle.bfs_order.specs.Replica.States.{fresh};
ghost use Rattle.bfs_order.specs.declared.error.OrderError.TheVariants as error;
ghost use Rattle.bfs_model.specs.Server.Limits.{log_size, most_faults, most_number, most_replicas};

use crate::error::OrderError;
use bfs_auth::Keys;
use bfs_log::Log;
use bfs_messages::{Checkpoint, Message, OrderMessage, PreparedBatch, Signed};
use bfs_pending::PendingRequests;
use bfs_types::{LOG_SIZE, Memory};
use std::alloc::Global;
use std::marker::Model;
use std::thread::Threads;

/// What one replica knows of the order of batches: views, marks, and the messages that it has accepted and not dropped, its own among
/// them (OSDI 1999 sections 4.2 to 4.4).
#[derive(Drop)]
pub struct Order {
    pub(crate) alloc: Global,
    pub(crate) f: u32,
    pub(crate) me: u32,
    pub(crate) view: u64,
    pub(crate) asked: u64,
    pub(crate) low: u64,
    pub(crate) min_s: u64,
    pub(crate) handed: u64,
    pub(crate) last: u64,
    pub(crate) log: Log,
}

impl Model for Order {
    ghost use Rattle.bfs_order.specs.Inside.Bounds.{IsBounded};
    ghost use Rattle.bfs_order.specs.Replica.States as model;

    ghost Value = { model.State };

    ghost view = { λ o. record { f = o.f; me = o.me; view = o.view; asked = o.asked; low = o.low; min_s = o.min_s; handed = o.handed; last = o.last; log = o.log } };

    ghost invariant = { λ o. IsBounded (record { f = o.f; me = o.me; view = o.view; asked = o.asked; low = o.low; min_s = o.min_s; handed = o.handed; last = o.last; log = o.log }) };
}

impl Order {
    /// A replica that has accepted nothing, in view 0. At most `f` of the `3f + 1` replicas are faulty, and f is at most 10; `me` is
    /// its number among them.
    pub fn new(alloc: Global, f: u32, me: u32) -> Order
        requires faults { f ≤ most_faults }
        requires me { me < 3 * f + 1 }
        ensures { result ≡ fresh f me }
    {
        Order {
            alloc,
            f,
            me,
            view: 0,
            asked: 0,
            low: 0,
            min_s: 0,
            handed: 0,
            last: 0,
            log: Log::new(alloc),
        }
    }

    /// At most so many of the `3f + 1` replicas are faulty.
    pub fn f(&self) -> u32
        ensures value { result ≡ self.now.f }
        ensures within { result ≤ most_faults }
    {
        self.f
    }

    /// Its own number among the replicas.
    pub fn me(&self) -> u32
        ensures value { result ≡ self.now.me }
        ensures within { result < 3 * self.now.f + 1 }
    {
        self.me
    }

    /// The view last asked for: above the one entered while a view change is under way.
    pub fn asked(&self) -> u64
        ensures value { result ≡ self.now.asked }
        ensures within { result ≤ most_number }
    {
        self.asked
    }

    /// The view last entered.
    pub fn view(&self) -> u64
        ensures value { result ≡ self.now.view }
        ensures within { result ≤ most_number }
    {
        self.view
    }

    /// The low mark: the number of the stable checkpoint.
    pub fn low(&self) -> u64
        ensures value { result ≡ self.now.low }
        ensures within { result ≤ most_number }
    {
        self.low
    }

    /// The high mark: the greatest number that is taken.
    pub fn high(&self) -> u64
        ensures { result ≡ self.now.low + log_size }
    {
        self.low + LOG_SIZE as u64
    }

    /// The number last executed.
    pub fn last_executed(&self) -> u64
        ensures value { result ≡ self.now.last }
        ensures within { result ≤ most_number }
    {
        self.last
    }

    /// The messages that were accepted and not dropped, its own among them, in the order in which they came. No two of them are of one
    /// kind, sender, view and number.
    pub fn log(&self) -> &[Signed<OrderMessage>]
        ensures value { result.now ≡ self.now.log }
        ensures differ { SlotsDiffer (headers self.now.log) }
    {
        self.log.messages_differ();
        self.log.messages()
    }

    /// Copies of the CHECKPOINTs of the low mark in its log that are of replicas. `Memory` if memory runs out.
    pub fn low_checkpoints(&self) -> Result<Vec<Signed<Checkpoint>>, Memory>
        ensures value { IfOk result (λ found. found.items ≡ checkpoints_of self.now.f self.now.low self.now.log) }
        ensures few { IfOk result (λ found. length found.items ≤ most_replicas) }
    {
        self.log.checkpoints_of(self.f, self.low)
    }

    /// Of each number in the window above the low mark that its log proves to be prepared the certificate of the highest such view, in the
    /// order of the numbers. Batches are shared. `Memory` if memory runs out.
    pub fn certificates(&self) -> Result<Vec<PreparedBatch>, Memory>
        ensures value { IfOk result (λ found. found.items ≡ filter_map (certificate_for self.now.f self.now.me self.now.log) (range_with_len (self.now.low + 1) log_size)) }
        ensures few { IfOk result (λ found. length found.items ≤ log_size) }
    {
        self.log.certificates(self.f, self.me, self.low, LOG_SIZE)
    }

    /// Takes a message that came, and gives what is to be sent to all other replicas. It is refused, in this order: `BadAuthenticator`,
    /// `WrongView`, `OutsideMarks`, `NotPrimary`, `Conflicting`, `AlreadyHave`, `Memory`. Nothing changes then.
    ///
    /// Requests that have passed are not hashed again where a batch has them: that saves time, and changes no answer.
    pub fn on_message(
        &mut self,
        rt: &(impl Threads + Sync),
        keys: &Keys,
        passed: &PendingRequests,
        signed: Signed<OrderMessage>,
    ) -> Result<Vec<Signed<Message>>, OrderError>
        requires { HavePassed keys.now passed.now }
        ensures taken { OnOk result (refusal keys.now self.old signed ≡ None) }
        ensures now { OnOk result (self.new ≡ (accepted keys.now self.old signed).now) }
        ensures sent { IfOk result (λ sent. sent.items ≡ as_messages (accepted keys.now self.old signed).sent) }
        ensures refused { IfErr result (λ e. e ≢ error.Memory → refusal keys.now self.old signed ≡ Some e) }
        ensures memory { IfErr result (λ e. e ≡ error.Memory → refusal keys.now self.old signed ≡ None) }
        ensures err { OnErr result (self.new ≡ self.old) }
    {
        if let Some(error) = self.refusal(rt, keys, passed, &signed) {
            return Err(error);
        }
        Ok(self.accept(keys, signed)?)
    }
}
