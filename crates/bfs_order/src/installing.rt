// The certificate of a checkpoint is installed.
ghost use Rattle.std.specs.Prelude.{◌≡◌, ◌≢◌, ◌≤◌, true, None, Some, IfNone, IfSome, IfOk, IfErr, OnOk, OnErr};
ghost use Rattle.std.specs.Option.{option_map};
ghost use Rattle.bfs_log.specs.Certificates.{checkpoints_in, is_shown};
ghost use Rattle.bfs_messages.specs.Signing.{as_message};
ghost use Rattle.bfs_messages.specs.declared.order_messages.OrderMessage.TheVariants as kind;
ghost use Rattle.bfs_model.specs.Server.Limits.{most_number};
ghost use Rattle.bfs_order.specs.Inside.Raising.{lowered};
ghost use Rattle.bfs_order.specs.Inside.Senders.{are_from_few, is_from_few};
ghost use Rattle.bfs_order.specs.Replica.Installing.{certified, install_refusal, installed, raised, raises, with_new};
ghost use Rattle.bfs_order.specs.declared.error.OrderError.TheVariants as error;

use crate::error::OrderError;
use crate::order::Order;
use bfs_auth::Keys;
use bfs_log::{Log, Slot, StableCheckpoint};
use bfs_messages::{Checkpoint, Signed};
use bfs_types::{Memory, TryClone};
use std::alloc::Global;

fn add_new(alloc: Global, log: &mut Log, checkpoint: &Signed<Checkpoint>) -> Result<(), Memory>
    requires { is_from_few (as_message kind.Checkpoint checkpoint.now) ≡ true }
    ensures { OnOk result (log.new ≡ with_new log.old (as_message kind.Checkpoint checkpoint.now)) }
{
    let signed = checkpoint.to_order(alloc)?;
    if !log.has(Slot::of(&signed.message)) {
        log.push(signed)?;
    }
    Ok(())
}

// What the log is once a certificate is in it: what stands up to the checkpoint is dropped.
fn certified(alloc: Global, log: &Log, stable: &StableCheckpoint) -> Result<Log, Memory>
    requires { are_from_few (checkpoints_in stable.now) ≡ true }
    ensures { IfOk result (λ made. made ≡ certified log.now stable.now) }
{
    let mut copy = log.try_clone(alloc)?;
    copy.drop_up_to(stable.number(), stable.digest());
    for checkpoint in stable.checkpoints() {
        add_new(alloc, &mut copy, checkpoint)?;
    }
    Ok(copy)
}

/// The low mark and the log as they were before a certificate raised them.
#[derive(Drop)]
pub(crate) struct Before {
    low: u64,
    log: Log,
}

impl Order {
    #[tactic(auto, using(crate::proofs::Senders::few_show))]
    fn install_refusal(&self, keys: &Keys, stable: &StableCheckpoint) -> Option<OrderError>
        ensures value { result ≡ install_refusal keys.now self.now stable.now }
        ensures senders { IfNone result (are_from_few (checkpoints_in stable.now) ≡ true) }
        ensures one { IfSome result (λ e. e ≢ error.Memory) }
    {
        if !stable.is_shown(keys, self.f) {
            return Some(OrderError::NoCertificate);
        }
        let number = stable.number();
        if !(self.low < number || self.last < number) {
            return Some(OrderError::OutsideMarks);
        }
        None
    }

    /// Raises the low mark and the number last executed to that of a stable checkpoint, each where it is below. Its CHECKPOINTs stand in the log
    /// then, where the low mark was below. It is refused, in this order: `NoCertificate` where it is not shown to be stable; `OutsideMarks`
    /// where neither is below; `Memory`. Nothing changes then.
    pub fn install(&mut self, keys: &Keys, stable: &StableCheckpoint) -> Result<(), OrderError>
        ensures taken { OnOk result (install_refusal keys.now self.old stable.now ≡ None) }
        ensures now { OnOk result (self.new ≡ (installed self.old stable.now).now) }
        ensures refused { IfErr result (λ e. e ≢ error.Memory → install_refusal keys.now self.old stable.now ≡ Some e) }
        ensures memory { IfErr result (λ e. e ≡ error.Memory → install_refusal keys.now self.old stable.now ≡ None) }
        ensures err { OnErr result (self.new ≡ self.old) }
    {
        if let Some(error) = self.install_refusal(keys, stable) {
            return Err(error);
        }
        let number = stable.number();
        if self.low < number {
            self.log = certified(self.alloc, &self.log, stable)?;
        }
        self.low = self.low.max(number);
        self.last = self.last.max(number);
        Ok(())
    }

    // Whether it is above the low mark, and shown to be stable.
    #[tactic(auto, using(crate::proofs::Senders::few_show))]
    fn raises(&self, keys: &Keys, stable: &StableCheckpoint) -> bool
        ensures value { result ≡ raises keys.now self.now stable.now }
        ensures senders { result ≡ true → are_from_few (checkpoints_in stable.now) ≡ true }
    {
        self.low < stable.number() && stable.is_shown(keys, self.f)
    }

    /// Raises the low mark to that of a stable checkpoint, where it is below, and gives what was there before. A checkpoint that is not shown to
    /// be stable changes nothing. `Memory` if memory runs out; then nothing changes either.
    pub(crate) fn raise(
        &mut self,
        keys: &Keys,
        stable: Option<&StableCheckpoint>,
    ) -> Result<Option<Before>, Memory>
        ensures now { OnOk result (self.new ≡ raised keys.now self.old (option_map (λ c. c.now) stable.entry)) }
        ensures before { IfOk result (λ before. lowered self.new before ≡ self.old) }
        ensures within { IfOk result (λ before. IfSome before (λ b. b.low ≤ most_number)) }
        ensures err { OnErr result (self.new ≡ self.old) }
    {
        let Some(stable) = stable else {
            return Ok(None);
        };
        if !self.raises(keys, stable) {
            return Ok(None);
        }
        let log = certified(self.alloc, &self.log, stable)?;
        let before = Before {
            low: self.low,
            log: std::mem::replace(&mut self.log, log),
        };
        self.low = stable.number();
        Ok(Some(before))
    }

    /// Puts back what a certificate raised.
    pub(crate) fn lower(&mut self, before: Option<Before>)
        requires { IfSome before (λ b. b.low ≤ most_number) }
        ensures { self.new ≡ lowered self.old before }
    {
        if let Some(Before { low, log }) = before {
            self.low = low;
            self.log = log;
        }
    }
}
